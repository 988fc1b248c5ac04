//! The lists of a transaction, each of at most so many items, in the record itself.
ghost use Rattle.std.specs.Prelude.{◌≡◌, ◌≤◌, length, OnErr};
ghost use Rattle.std.specs.Bool.{⊤};

use ledger::{MAX_READS, MAX_WRITES, Range, Write};
use std::alloc::AllocError;

mod read_list;
mod write_list;

/// The ranges that an updater read, in the order made.
pub type ReadList = Bounded<Range, MAX_READS>;

/// The keys that an updater wrote, each once, with their values.
pub type WriteList = Bounded<Write, MAX_WRITES>;

/// A list of at most `N` items. An array of its own, and neither a `Vec` nor lent places: there is no heap here,
/// and a record is copied whole.
pub struct Bounded<T, const N: usize> {
    len: usize,
    items: [T; N],
    ghost fits: { len ≤ N },
    ghost sized: { length items ≡ N },
}

/// The list has no place for one more item.
#[derive(Clone, Copy)]
pub struct Full;

// No derive gives `Clone` to a generic struct with a ghost field.
impl<T: Copy, const N: usize> Clone for Bounded<T, N> {
    ghost is_clone = { λ x y. y ≡ x };

    ghost is_infallible = { λ _. ⊤ };

    fn clone(&self) -> Result<Self, AllocError> {
        Ok(*self)
    }
}

impl<T: Copy, const N: usize> Copy for Bounded<T, N> {}

impl<T: Copy, const N: usize> Bounded<T, N> {
    ghost use Rattle.transaction_table.specs.Bounded.{held, no_items, push_answer, pushed};

    /// A list without items; until there are any, its places have this one.
    // Each instance has a `new` that gives it, so that the ledger's structs need no `Default`.
    pub fn empty(filler: T) -> Self
        ensures { result ≡ no_items filler }
    {
        Bounded {
            len: 0,
            items: [filler; N],
        }
    }

    /// The items, to be gone through.
    pub fn as_slice(&self) -> &[T]
        ensures { result.now ≡ held self.now }
    {
        &self.items[..self.len]
    }

    /// Puts an item behind the others.
    pub fn push(&mut self, item: T) -> Result<(), Full>
        ensures answer { result ≡ push_answer N (held self.old) }
        ensures after { held self.new ≡ pushed N (held self.old) item }
        ensures refusal { OnErr result (self.new ≡ self.old) }
    {
        if self.len == N {
            return Err(Full);
        }
        self.items[self.len] = item;
        self.len += 1;
        Ok(())
    }
}
