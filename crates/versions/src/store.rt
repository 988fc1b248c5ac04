ghost use Rattle.std.specs.Prelude.{◌≡◌};
ghost use Rattle.versions.specs.Stores.{Store, IsLawfulStore, kept, free, newest_answer, as_of_answer, add_answer, added, pruned_count, pruned, sizes_check};

use crate::fault::{SizeFault, StoreFault};
use stamped::{Stamped, keys_outside};

/// The most cells that a store has.
pub const MAX_CELLS: usize = 2048;

/// Whether a store can have so many keys and so many cells.
pub fn check_sizes(keys: u16, cells: usize) -> Result<(), SizeFault>
    ensures answer { result ≡ sizes_check keys cells }
    // The definitions cite it by its name.
    ensures limit { MAX_CELLS ≡ 2048 }
{
    if keys_outside(keys) {
        return Err(SizeFault::Keys { keys });
    }
    if cells == 0 || cells > MAX_CELLS {
        return Err(SizeFault::Cells { cells });
    }
    Ok(())
}

/// A value of a key, and the tick at which it was committed.
#[derive(Clone, Copy)]
pub struct Version {
    pub key: u16,
    pub stamp: u32,
    pub value: u64,
}

impl Version {
    /// A version of nothing, to fill memory with before it is lent.
    pub const CLEARED: Version = Version {
        key: 0,
        stamp: 0,
        value: 0,
    };
}

impl Stamped for Version {
    ghost key_of = { λ v. v.key };

    ghost stamp_of = { λ v. v.stamp };

    fn key(&self) -> u16 {
        self.key
    }

    fn stamp(&self) -> u32 {
        self.stamp
    }
}

/// A number of keys, a number of cells, and for each key its versions, newest first, one cell each.
/// Each key also has a base version, stamp 0 and value 0, that takes no cell.
pub trait VersionStore {
    ghost meaning: { Self → Store };

    fn keys(&self) -> u16
        ensures { result ≡ (meaning self.now).keys };

    /// Stamp and value of the key's newest version.
    fn newest(&self, key: u16) -> Result<(u32, u64), StoreFault>
        ensures { result ≡ newest_answer (meaning self.now) key };

    /// Stamp and value of the key's newest version stamped below a tick.
    fn as_of(&self, key: u16, tick: u32) -> Result<(u32, u64), StoreFault>
        ensures { result ≡ as_of_answer (meaning self.now) key tick };

    /// Puts a version at the front of its key's list.
    // Key, stamp and value stand apart in the interface of a store; a `Version` is how a log keeps them.
    fn add(&mut self, key: u16, stamp: u32, value: u64) -> Result<(), StoreFault>
        ensures answer { result ≡ add_answer (meaning self.old) key stamp }
        ensures after { meaning self.new ≡ added (meaning self.old) key stamp value };

    /// Removes the versions that are outdated under the horizon, and answers how many.
    fn prune(&mut self, horizon: u32) -> u16
        ensures count { result ≡ pruned_count (meaning self.old) horizon }
        ensures after { meaning self.new ≡ pruned (meaning self.old) horizon };

    /// How many versions are present.
    fn kept(&self) -> u16
        ensures { result ≡ kept (meaning self.now) };

    /// How many cells are left.
    fn free(&self) -> u16
        ensures { result ≡ free (meaning self.now) };

    // What holds of every store, for generic code to cite.
    ghost lawful: { (s : Self) → IsLawfulStore (meaning s) };
}
