ghost use Rattle.std.specs.Prelude.{◌≡◌, ◌≤◌, [], length, replicate, ◌==◌, nat_lt};
ghost use Rattle.stamped.specs.declared.TheConstants.{MAX_KEYS};
ghost use Rattle.stamped.specs.Packing.{capacity};
ghost use Rattle.validation.specs.Recent.{stamp_in, AreOnePerKey, cleared_entry};
ghost use Rattle.validation.specs.SetUp.{recent_list_check, new_stamps};

pub use crate::entry::Entry;
use crate::fault::{RecentListFault, ValidatorFault};
use crate::validator::{Clash, Validator};
use stamped::gaps::Drops;
use stamped::keys_outside;
use stamped::lookup::{Moment, find_last};
use stamped::packed::Packed;

/// Drops the entry of a key.
#[derive(Drop)]
struct OfKey {
    key: u16,
}

impl Drops<Entry> for OfKey {
    ghost drops = { λ r e behind. (e.key == r.key) };

    fn drops(&self, entry: &Entry, _behind: &[Entry]) -> bool {
        entry.key == self.key
    }
}

/// Drops the entries stamped below a tick.
#[derive(Drop)]
struct Older {
    tick: u32,
}

impl Drops<Entry> for Older {
    ghost drops = { λ r e behind. nat_lt e.stamp r.tick };

    fn drops(&self, entry: &Entry, _behind: &[Entry]) -> bool {
        entry.stamp < self.tick
    }
}

/// The keys that were noted and not trimmed since, in the order of noting, over lent memory.
#[derive(Drop)]
pub struct RecentList<'a> {
    keys: u16,
    entries: Packed<'a, Entry>,
    ghost few: { keys ≤ MAX_KEYS },
    ghost places: { capacity entries ≡ keys },
    ghost once: { AreOnePerKey keys entries.records },
}

impl<'a> RecentList<'a> {
    ghost use Rattle.validation.specs.RecentLists.{entries_of, places_behind, list_meaning};

    /// Whether a list can be made of so many keys over so many places.
    pub fn check(keys: u16, places: usize) -> Result<(), RecentListFault>
        ensures { result ≡ recent_list_check keys places }
    {
        if keys_outside(keys) {
            return Err(RecentListFault::Keys { keys });
        }
        if places != usize::from(keys) {
            return Err(RecentListFault::Places { places });
        }
        Ok(())
    }

    /// An empty list over cleared entries; one without keys where the check refuses.
    pub fn make(keys: u16, entries: &'a mut [Entry]) -> RecentList<'a>
        ensures fresh { list_meaning result ≡
            new_stamps (recent_list_check keys (length entries.old)) keys (λ k. k) }
        ensures none { entries_of result ≡ [] }
        ensures clear { places_behind result ≡ replicate (length (places_behind result)) cleared_entry }
    {
        entries.fill(Entry::CLEARED);
        if Self::check(keys, entries.len()).is_err() {
            return RecentList {
                keys: 0,
                entries: Packed::new(&mut []),
            };
        }
        RecentList {
            keys,
            entries: Packed::new(entries),
        }
    }

    /// The stamp of a key's entry, or 0 where it has none.
    fn stamp_of(&self, key: u16) -> u32
        ensures { result ≡ stamp_in (entries_of self.now) key }
    {
        let entries = self.entries.as_slice();
        find_last(entries, key, Moment::Now).map_or(0, |i| entries[i].stamp)
    }
}

impl<'a> Validator for RecentList<'a> {
    ghost use Rattle.validation.specs.RecentLists.{list_meaning, list_lawful};

    ghost meaning = { list_meaning };

    ghost lawful = { list_lawful };

    fn keys(&self) -> u16 {
        self.keys
    }

    fn granule(&self, key: u16) -> Result<u16, ValidatorFault> {
        if key >= self.keys {
            return Err(ValidatorFault::KeyOutside { key });
        }
        Ok(key)
    }

    fn note(&mut self, key: u16, stamp: u32) -> Result<(), ValidatorFault> {
        self.granule(key)?;
        if stamp < self.stamp_of(key) {
            return Err(ValidatorFault::StaleStamp { key });
        }
        self.entries.close_gaps(&OfKey { key });
        // Each other key has one entry at most, so there is a place.
        let _ = self.entries.push(Entry { key, stamp });
        Ok(())
    }

    fn clash(&self, first: u16, count: u16, start: u32) -> Result<Option<Clash>, ValidatorFault> {
        if u32::from(first) + u32::from(count) > u32::from(self.keys) {
            return Err(ValidatorFault::KeyOutside { key: first });
        }
        let mut lowest = None;
        // Once a key is hit, only those below it matter.
        let mut end = first + count;
        for entry in self.entries.as_slice() {
            if entry.key >= first && entry.key < end && entry.stamp > start {
                lowest = Some(Clash {
                    key: entry.key,
                    stamp: entry.stamp,
                });
                end = entry.key;
            }
        }
        Ok(lowest)
    }

    fn trim(&mut self, tick: u32) {
        self.entries.close_gaps(&Older { tick });
    }

    fn latest(&self) -> u32 {
        let entries = self.entries.as_slice();
        entries.iter().map(|entry| entry.stamp).max().unwrap_or(0)
    }
}
