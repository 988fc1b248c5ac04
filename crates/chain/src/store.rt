ghost use Rattle.std.specs.Prelude.{◌≡◌, ◌+◌, ◌≤◌, length, replicate, None, ◌==◌};
ghost use Rattle.stamped.specs.declared.TheConstants.{MAX_KEYS};
ghost use Rattle.versions.specs.declared.store.TheConstants.{MAX_CELLS};
ghost use Rattle.versions.specs.Stores.{kept, new_store, AreFalling};
ghost use Rattle.chain.specs.Links.{Ends, before, laid};
ghost use Rattle.chain.specs.Store.{store_of_chains, ChainsEnd, ShareNone, HoldAll, chain_check, head_answer, chain_versions};

use crate::cell::{Cell, Link};
use crate::fault::ChainFault;
use crate::links::{link_all, prune_chains, push, version, version_below};
use versions::fault::StoreFault;
use versions::store::{Version, VersionStore, check_sizes};

/// Each key's versions linked from its head, newest first, over lent heads and cells.
#[derive(Drop)]
pub struct ChainStore<'h, 'c> {
    heads: &'h mut [Link],
    cells: &'c mut [Cell],
    unused: Link,
    free: usize,
    ghost few: { length heads.now ≤ MAX_KEYS },
    ghost small: { length cells.now ≤ MAX_CELLS },
    ghost both: { (length heads.now == 0) ≡ (length cells.now == 0) },
    ghost chains: { ChainsEnd heads.now cells.now },
    ghost rest: { Ends cells.now unused },
    ghost shared: { ShareNone heads.now cells.now unused },
    ghost held: { HoldAll heads.now cells.now unused },
    ghost counted: { kept (store_of_chains heads.now cells.now) + free ≡ length cells.now },
    ghost falling: { AreFalling (chain_versions heads.now cells.now) },
}

impl<'h, 'c> ChainStore<'h, 'c> {
    ghost use Rattle.chain.specs.ChainStores.{heads_of, cells_of, unused_of, chain_meaning};

    /// Whether a chain store can be made with so many keys over so many heads and cells.
    pub fn check(keys: u16, heads: usize, cells: usize) -> Result<(), ChainFault>
        ensures { result ≡ chain_check keys heads cells }
    {
        check_sizes(keys, cells)?;
        if heads != usize::from(keys) {
            return Err(ChainFault::Heads { heads });
        }
        Ok(())
    }

    /// An empty store with all cells cleared and unused; one without keys and cells where the check refuses.
    pub fn make(keys: u16, heads: &'h mut [Link], cells: &'c mut [Cell]) -> ChainStore<'h, 'c>
        ensures empty { chain_meaning result ≡
            new_store (chain_check keys (length heads.old) (length cells.old)) keys (length cells.old) }
        ensures cleared { (heads_of result ≡ replicate (length (heads_of result)) None) ×
            (cells_of result ≡ laid (length (cells_of result))) }
        ensures unused { unused_of result ≡ before (length (cells_of result)) }
    {
        heads.fill(None);
        if Self::check(keys, heads.len(), cells.len()).is_err() {
            cells.fill(Cell::CLEARED);
            return ChainStore {
                heads: &mut [],
                cells: &mut [],
                unused: None,
                free: 0,
            };
        }
        let unused = link_all(cells);
        let free = cells.len();
        ChainStore {
            heads,
            cells,
            unused,
            free,
        }
    }

    /// Where the key's chain begins.
    fn head(&self, key: u16) -> Result<Link, StoreFault>
        ensures { result ≡ head_answer (heads_of self.now) key }
    {
        self.heads
            .get(usize::from(key))
            .copied()
            .ok_or(StoreFault::KeyOutside { key })
    }
}

impl<'h, 'c> VersionStore for ChainStore<'h, 'c> {
    ghost use Rattle.chain.specs.ChainStores.{chain_meaning, store_lawful};

    ghost meaning = { chain_meaning };

    ghost lawful = { store_lawful };

    // Here and below the ghost fields show that the number fits.
    fn keys(&self) -> u16 {
        self.heads.len() as u16
    }

    fn newest(&self, key: u16) -> Result<(u32, u64), StoreFault> {
        let head = self.head(key)?;
        Ok(version(self.cells, head))
    }

    fn as_of(&self, key: u16, tick: u32) -> Result<(u32, u64), StoreFault> {
        let head = self.head(key)?;
        Ok(version_below(self.cells, head, tick))
    }

    fn add(&mut self, key: u16, stamp: u32, value: u64) -> Result<(), StoreFault> {
        let (newest, _) = self.newest(key)?;
        if stamp <= newest {
            return Err(StoreFault::StaleStamp { key });
        }
        let cell = self.unused.ok_or(StoreFault::Full { key })?;
        self.unused = push(self.heads, self.cells, cell, Version { key, stamp, value });
        self.free -= 1;
        Ok(())
    }

    fn prune(&mut self, horizon: u32) -> u16 {
        // A `&mut`, since what a field lends as `&` is not known to come back unchanged.
        let heads = &mut *self.heads;
        let (unused, count) = prune_chains(heads, self.cells, self.unused, horizon);
        self.unused = unused;
        self.free += usize::from(count);
        count
    }

    fn kept(&self) -> u16 {
        (self.cells.len() - self.free) as u16
    }

    fn free(&self) -> u16 {
        self.free as u16
    }
}
