ghost use Rattle.std.specs.Prelude.{◌≡◌, [], length, replicate, ◌==◌};
ghost use Rattle.stamped.specs.Packing.{capacity};
ghost use Rattle.versions.specs.Log.{store_of_log, AreOfKeys, outdated_by, moment_answer, cleared_version};
ghost use Rattle.versions.specs.Stores.{IsLawfulStore, sizes_check, new_store};

use crate::fault::{SizeFault, StoreFault};
use crate::store::{Version, VersionStore, check_sizes};
use stamped::gaps::Drops;
use stamped::lookup::{Moment, find_last};
use stamped::packed::Packed;

/// Drops each version that a later one of its key, stamped below the horizon, outdates.
#[derive(Drop)]
struct Outdated {
    horizon: u32,
}

impl Drops<Version> for Outdated {
    ghost drops = { λ s v later. outdated_by s.horizon v later };

    fn drops(&self, entry: &Version, behind: &[Version]) -> bool {
        behind.iter().any(|later| later.key == entry.key && later.stamp < self.horizon)
    }
}

/// All versions, packed in the order of adding, over lent cells.
#[derive(Drop)]
pub struct LogStore<'a> {
    keys: u16,
    versions: Packed<'a, Version>,
    ghost known: { AreOfKeys keys versions.records },
    ghost lawful: { IsLawfulStore (store_of_log keys (capacity versions) versions.records) },
}

impl<'a> LogStore<'a> {
    ghost use Rattle.versions.specs.LogStores.{log_of, cells_behind, log_meaning};

    /// Whether a log store can be made with so many keys over so many cells.
    pub fn check(keys: u16, cells: usize) -> Result<(), SizeFault>
        ensures { result ≡ sizes_check keys cells }
    {
        check_sizes(keys, cells)
    }

    /// An empty store over cleared cells; one without keys and cells where the check refuses.
    pub fn make(keys: u16, cells: &'a mut [Version]) -> LogStore<'a>
        ensures empty { log_meaning result ≡
            new_store (sizes_check keys (length cells.old)) keys (length cells.old) }
        ensures none { log_of result ≡ [] }
        ensures cleared { cells_behind result ≡ replicate (length (cells_behind result)) cleared_version }
    {
        cells.fill(Version::CLEARED);
        if Self::check(keys, cells.len()).is_err() {
            return LogStore {
                keys: 0,
                versions: Packed::new(&mut []),
            };
        }
        LogStore {
            keys,
            versions: Packed::new(cells),
        }
    }

    /// Stamp and value of the key's newest version that counts at the moment.
    fn at(&self, key: u16, moment: Moment) -> Result<(u32, u64), StoreFault>
        ensures { result ≡ moment_answer (log_meaning self.now) key moment }
    {
        if key >= self.keys {
            return Err(StoreFault::KeyOutside { key });
        }
        let log = self.versions.as_slice();
        let found = find_last(log, key, moment);
        // Or else the base version.
        Ok(found.map_or((0, 0), |i| (log[i].stamp, log[i].value)))
    }
}

impl<'a> VersionStore for LogStore<'a> {
    ghost use Rattle.versions.specs.LogStores.{log_meaning};

    ghost meaning = { log_meaning };

    fn keys(&self) -> u16 {
        self.keys
    }

    fn newest(&self, key: u16) -> Result<(u32, u64), StoreFault> {
        self.at(key, Moment::Now)
    }

    fn as_of(&self, key: u16, tick: u32) -> Result<(u32, u64), StoreFault> {
        self.at(key, Moment::Before(tick))
    }

    fn add(&mut self, key: u16, stamp: u32, value: u64) -> Result<(), StoreFault> {
        let (newest, _) = self.newest(key)?;
        if stamp <= newest {
            return Err(StoreFault::StaleStamp { key });
        }
        self.versions
            .push(Version { key, stamp, value })
            .map_err(|_| StoreFault::Full { key })
    }

    fn prune(&mut self, horizon: u32) -> u16 {
        let used = self.versions.as_slice().len();
        self.versions.close_gaps(&Outdated { horizon });
        let left = self.versions.as_slice().len();
        // Here and below the ghost fields show that the number fits.
        (used - left) as u16
    }

    fn kept(&self) -> u16 {
        self.versions.as_slice().len() as u16
    }

    fn free(&self) -> u16 {
        self.versions.free() as u16
    }

    ghost lawful = { λ s. s.lawful };
}
