// How transactions end: reclaim and commit.
ghost use Rattle.std.specs.Prelude.{◌≡◌, ◌<◌, Ok, OnErr};
ghost use Rattle.ledger.specs.declared.Call.TheVariants.{Reclaim, Commit};
ghost use Rattle.ledger.specs.declared.Done.TheVariants.{Reclaimed, Ended};
ghost use Rattle.std.specs.Option.{option_map};
ghost use Rattle.refusals.specs.Results.{result_map};
ghost use Rattle.ledger.specs.Ledger.{shortage};
ghost use Rattle.versions.specs.Stores.{kept};
ghost use Rattle.validation.specs.Stamps.{clash_answer};
ghost use Rattle.transaction_table.specs.View.{ranges};
ghost use Rattle.engine.specs.Endings.{named, first_named, all_added, all_noted};
ghost use Rattle.engine.specs.Verdicts.{ReclaimsIfShort, Judges};
ghost use Rattle.engine.specs.Parts.{table_of};
ghost use Rattle.engine.specs.Steps.{RefinesUnlent, StaysIdle};

use super::Engine;
use ledger::{Call, Fault, Kind, Range, Verdict, Write};
use transaction_table::record::{Next, Record, State};
use validation::validator::{Clash, Validator};
use versions::store::VersionStore;

impl<S: VersionStore, V: Validator> Engine<S, V> {
    /// Removes the versions that no transaction reads, now or later, and answers how many.
    pub fn reclaim(&mut self) -> u16
        ensures refines { RefinesUnlent S.meaning V.meaning self.old self.new
            Reclaim (Ok (Reclaimed result)) }
        ensures table { table_of self.new ≡ table_of self.old }
        ensures idle { (table_of self.old).last ≡ 0 → (result ≡ 0) × (self.new ≡ self.old) }
    {
        // Made from what its check refuses, an engine touches neither store nor validator.
        if self.table.last == 0 {
            return 0;
        }
        let removed = self.store.prune(self.table.least_start(Kind::Reader));
        self.validator.trim(self.table.least_start(Kind::Updater));
        removed
    }

    /// Ends a transaction. A reader is closed; an updater is committed, unless something that it read
    /// was committed since it began, or ticks or cells are lacking.
    pub fn commit(&mut self, handle: u32) -> Result<Verdict, Fault>
        ensures refines { RefinesUnlent S.meaning V.meaning self.old self.new
            (Commit handle) (result_map Ended result) }
        ensures refusal { OnErr result (self.new ≡ self.old) }
        ensures idle { StaysIdle self.old self.new }
    {
        let slot = self.place(handle)?;
        let keys = self.store.keys();
        let next = self.table.records[slot].take(Call::Commit { handle }, keys, 0)?;
        let ending = self.table.records[slot];
        let verdict = match next {
            Next::Judge => self.judge(&ending),
            Next::Answer => Verdict::Closed,
        };
        self.table.records[slot].state = State::Free;
        Ok(verdict)
    }

    /// The verdict on an updater, which is still active. Where it is committed, the next tick is drawn and its writes are versions.
    fn judge(&mut self, updater: &Record) -> Verdict
        ensures judges { Judges S.meaning V.meaning self.old self.new updater.now result }
        ensures idle { StaysIdle self.old self.new }
    {
        let writes = updater.writes.as_slice();
        self.reclaim_if_short(writes.len());
        if let Some(Clash { key, stamp }) = self.clash(updater) {
            return Verdict::Restart { key, stamp };
        }
        if self.table.clock >= self.table.last {
            return Verdict::Spent;
        }
        if let Some(free) = self.shortage(writes.len()) {
            return Verdict::Full {
                // At most `MAX_WRITES`, which 16 bits hold.
                writes: writes.len() as u16,
                free,
            };
        }
        self.table.clock += 1;
        self.install(writes);
        Verdict::Committed {
            tick: self.table.clock,
        }
    }

    /// Reclaims, if fewer cells are free than versions are to be added.
    fn reclaim_if_short(&mut self, versions: usize)
        ensures fits { ReclaimsIfShort S.meaning V.meaning self.old self.new versions }
        ensures table { self.new.table ≡ self.old.table }
        ensures idle { StaysIdle self.old self.new }
    {
        if self.shortage(versions).is_some() {
            self.reclaim();
        }
    }

    /// How many cells are free, if those are too few for so many versions.
    fn shortage(&self, versions: usize) -> Option<u16>
        ensures { result ≡ option_map (λ s. s.free)
            (shortage (S.meaning self.now.store).cells (kept (S.meaning self.now.store)) versions) }
    {
        let free = self.store.free();
        (versions > usize::from(free)).then_some(free)
    }

    /// The first clash of an updater.
    fn clash(&self, updater: &Record) -> Option<Clash>
        ensures { result ≡ first_named (V.meaning self.now.validator) updater.now.start
            (ranges updater.now.reads) }
    {
        let reads = updater.reads.as_slice();
        // The search ends at the first clash, and is seen to end where the loop is left.
        let mut found = None;
        'entries: for range in reads {
            match self.clash_in(*range, updater.start) {
                Some(clash) => {
                    found = Some(clash);
                    break 'entries;
                }
                None => {}
            }
        }
        found
    }

    /// The first key of the range that clashes with a start, and its granule's stamp.
    fn clash_in(&self, range: Range, start: u32) -> Option<Clash>
        ensures { result ≡ named
            (clash_answer (V.meaning self.now.validator) range.first range.count start) }
    {
        // The ranges of a read list are in the table, so the validator refuses none.
        self.validator
            .clash(range.first, range.count, start)
            .unwrap_or(None)
    }

    /// Adds a version for each write, stamped with the last tick drawn, and notes its key.
    fn install(&mut self, writes: &[Write])
        ensures table { self.new.table ≡ self.old.table }
        ensures store { S.meaning self.new.store ≡
            all_added self.old.table.clock (S.meaning self.old.store) writes.now }
        ensures validator { V.meaning self.new.validator ≡
            all_noted self.old.table.clock (V.meaning self.old.validator) writes.now }
    {
        let tick = self.table.clock;
        for write in writes {
            // Cells are free, and the tick is above every stamp, so neither refuses.
            let _ = self.store.add(write.key, tick, write.value);
            let _ = self.validator.note(write.key, tick);
        }
    }
}
