use stamped::Stamped;

/// A key that was noted, and its stamp.
#[derive(Clone, Copy)]
pub struct Entry {
    pub key: u16,
    pub stamp: u32,
}

impl Entry {
    /// An entry of nothing, to fill memory with before it is lent.
    pub const CLEARED: Entry = Entry { key: 0, stamp: 0 };
}

impl Stamped for Entry {
    ghost key_of = { λ e. e.key };

    ghost stamp_of = { λ e. e.stamp };

    fn key(&self) -> u16 {
        self.key
    }

    fn stamp(&self) -> u32 {
        self.stamp
    }
}
