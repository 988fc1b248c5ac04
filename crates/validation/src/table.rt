ghost use Rattle.std.specs.Prelude.{◌≡◌, ◌/◌, ◌<◌, ◌≤◌, length, replicate};
ghost use Rattle.std.specs.Int.{div_ceil};
ghost use Rattle.stamped.specs.declared.TheConstants.{MAX_KEYS};
ghost use Rattle.validation.specs.SetUp.{stamp_table_check, new_stamps};

use crate::fault::{StampTableFault, ValidatorFault};
use crate::validator::{Clash, Validator};
use stamped::keys_outside;

/// One stamp for each granule over lent memory; a granule is `grain` keys that lie next to each other.
#[derive(Drop)]
pub struct StampTable<'a> {
    keys: u16,
    grain: u16,
    stamps: &'a mut [u32],
    ghost few: { keys ≤ MAX_KEYS },
    ghost some: { 0 < grain },
    ghost places: { length stamps.now ≡ div_ceil keys grain },
}

impl<'a> StampTable<'a> {
    ghost use Rattle.validation.specs.StampTables.{granule_stamps, table_meaning};

    /// Whether a table can be made of so many keys, so many to a granule, over so many places.
    pub fn check(keys: u16, grain: u16, places: usize) -> Result<(), StampTableFault>
        ensures { result ≡ stamp_table_check keys grain places }
    {
        if keys_outside(keys) {
            return Err(StampTableFault::Keys { keys });
        }
        if grain == 0 || grain > keys {
            return Err(StampTableFault::Grain { grain });
        }
        if places != usize::from(keys.div_ceil(grain)) {
            return Err(StampTableFault::Places { places });
        }
        Ok(())
    }

    /// A table of cleared stamps; one without keys where the check refuses.
    pub fn make(keys: u16, grain: u16, stamps: &'a mut [u32]) -> StampTable<'a>
        ensures fresh { table_meaning result ≡
            new_stamps (stamp_table_check keys grain (length stamps.old)) keys (λ k. k / grain) }
        ensures clear { granule_stamps result ≡ replicate (length (granule_stamps result)) 0 }
    {
        stamps.fill(0);
        if Self::check(keys, grain, stamps.len()).is_err() {
            return StampTable {
                keys: 0,
                grain: 1,
                stamps: &mut [],
            };
        }
        StampTable {
            keys,
            grain,
            stamps,
        }
    }
}

impl<'a> Validator for StampTable<'a> {
    ghost use Rattle.validation.specs.StampTables.{table_meaning, table_lawful};

    ghost meaning = { table_meaning };

    ghost lawful = { table_lawful };

    fn keys(&self) -> u16 {
        self.keys
    }

    fn granule(&self, key: u16) -> Result<u16, ValidatorFault> {
        if key >= self.keys {
            return Err(ValidatorFault::KeyOutside { key });
        }
        Ok(key / self.grain)
    }

    fn note(&mut self, key: u16, stamp: u32) -> Result<(), ValidatorFault> {
        let granule = usize::from(self.granule(key)?);
        if stamp < self.stamps[granule] {
            return Err(ValidatorFault::StaleStamp { key });
        }
        self.stamps[granule] = stamp;
        Ok(())
    }

    fn clash(&self, first: u16, count: u16, start: u32) -> Result<Option<Clash>, ValidatorFault> {
        if u32::from(first) + u32::from(count) > u32::from(self.keys) {
            return Err(ValidatorFault::KeyOutside { key: first });
        }
        for key in first..first + count {
            let stamp = self.stamps[usize::from(key / self.grain)];
            if stamp > start {
                return Ok(Some(Clash { key, stamp }));
            }
        }
        Ok(None)
    }

    fn trim(&mut self, tick: u32) {
        for stamp in self.stamps.iter_mut() {
            if *stamp < tick {
                *stamp = 0;
            }
        }
    }

    fn latest(&self) -> u32 {
        self.stamps.iter().copied().max().unwrap_or(0)
    }
}
