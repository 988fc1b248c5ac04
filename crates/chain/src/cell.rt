/// Where a list goes on: at the cell with this index, or nowhere.
pub type Link = Option<u16>;

/// A version of some key, linked to that key's next older one; or an unused cell, linked to the next unused one.
#[derive(Clone, Copy)]
pub struct Cell {
    pub stamp: u32,
    pub value: u64,
    pub next: Link,
}

impl Cell {
    /// A cell that holds nothing and is linked to none, to fill memory with before it is lent.
    pub const CLEARED: Cell = Cell {
        stamp: 0,
        value: 0,
        next: None,
    };
}
