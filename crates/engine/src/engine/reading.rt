// What transactions read: the values of a range, or one figure of them.
ghost use Rattle.std.specs.Prelude.{◌≡◌, ◌+◌, ◌^◌, ◌<◌, ◌≤◌, ◌++◌, length, drop, OnErr};
ghost use Rattle.refusals.specs.Results.{result_map};
ghost use Rattle.ledger.specs.declared.Call.TheVariants.{Read};
ghost use Rattle.ledger.specs.declared.Done.TheVariants.{Read as ReadDone};
ghost use Rattle.transaction_table.specs.View.{view};
ghost use Rattle.engine.specs.Reads.{read_value, values_read};
ghost use Rattle.engine.specs.Steps.{Refines, StaysIdle};
ghost use Rattle.engine.specs.Totals.{TotalsRead, CutsAnywhere, HalvesJoin};
ghost use Rattle.summaries.specs.Summaries.{summary_of};

use super::Engine;
use ledger::{Fault, Range};
use summaries::Summary;
use transaction_table::record::{Record, State};
use validation::validator::Validator;
use versions::store::VersionStore;

impl<S: VersionStore, V: Validator> Engine<S, V> {
    /// Reads the values of count keys from the first on into the front of the buffer.
    pub fn read(
        &mut self,
        handle: u32,
        first: u16,
        count: u16,
        buffer: &mut [u64],
    ) -> Result<(), Fault>
        ensures refines { Refines S.meaning V.meaning self.old self.new
            (Read handle first count) buffer.old (result_map (λ _. ReadDone count) result) buffer.new }
        ensures refusal { OnErr result ((self.new ≡ self.old) × (buffer.new ≡ buffer.old)) }
        ensures idle { StaysIdle self.old self.new }
    {
        let slot = self.place(handle)?;
        let keys = self.store.keys();
        let record = &mut self.table.records[slot];
        let range = Range { first, count };
        record.take(range.read_by(handle), keys, buffer.len())?;
        fill(&self.store, record, range, buffer);
        Ok(())
    }

    /// One figure of what a read of count keys from the first on would give: their values, joined by rising key.
    /// It is refused as that read is, but for the buffer, which it does not need; an updater's range joins its read list.
    pub fn total<M: Summary + Drop>(
        &mut self,
        handle: u32,
        first: u16,
        count: u16,
    ) -> Result<M, Fault>
        ensures refines { TotalsRead S.meaning V.meaning self.old self.new
            handle first count (summary_of M.one M.neutral M.join first) result }
        ensures halves { HalvesJoin S.meaning V.meaning self.old
            M.join (summary_of M.one M.neutral M.join) handle first count result }
        ensures refusal { OnErr result (self.new ≡ self.old) }
        ensures idle { StaysIdle self.old self.new }
    {
        let slot = self.place(handle)?;
        let keys = self.store.keys();
        let record = &mut self.table.records[slot];
        let range = Range { first, count };
        // To its transaction a total is a read, into a buffer of just so many places.
        record.take(range.read_by(handle), keys, usize::from(count))?;
        Ok(total_of(&self.store, record, range))
    }
}

/// Fills the front of the buffer with what the transaction reads at the keys of the range.
fn fill<S: VersionStore>(store: &S, transaction: &Record, range: Range, buffer: &mut [u64])
    requires count_in_bounds { range.count ≤ length buffer.old }
    requires count_bound { range.first + range.count < 2 ^ 16 }
    requires in_store { range.first + range.count ≤ (S.meaning store.now).keys }
    ensures { buffer.new ≡ values_read (S.meaning store.now) (view transaction.now)
        range.first range.count ++ drop range.count buffer.old }
{
    // No `zip` with the keys: of what a loop writes through a `zip` no proof knows the values.
    let front = &mut buffer[..usize::from(range.count)];
    for (i, place) in front.iter_mut().enumerate() {
        // `i` is below the count.
        *place = value_at(store, transaction, range.first + i as u16);
    }
}

/// Joins what the transaction reads at the keys of the range, by rising key.
fn total_of<M: Summary + Drop, S: VersionStore>(store: &S, transaction: &Record, range: Range) -> M
    requires count_bound { range.first + range.count < 2 ^ 16 }
    requires in_store { range.first + range.count ≤ (S.meaning store.now).keys }
    ensures joined { result ≡ summary_of M.one M.neutral M.join range.first
        (values_read (S.meaning store.now) (view transaction.now) range.first range.count) }
    ensures halves { CutsAnywhere M.join (λ k n. summary_of M.one M.neutral M.join k
        (values_read (S.meaning store.now) (view transaction.now) k n)) range.first range.count result }
{
    let mut figure = M::neutral();
    for i in 0..range.count {
        let key = range.first + i;
        figure = figure.join(M::one(key, value_at(store, transaction, key)));
    }
    figure
}

/// What the transaction reads at a key.
fn value_at<S: VersionStore>(store: &S, transaction: &Record, key: u16) -> u64
    requires { key < (S.meaning store.now).keys }
    ensures { result ≡ read_value (S.meaning store.now) (view transaction.now) key }
{
    match transaction.state {
        State::Updater => match transaction.writes.value(key) {
            Some(own) => own,
            None => store.newest(key).unwrap().1,
        },
        State::Free | State::Reader => store.as_of(key, transaction.moment()).unwrap().1,
    }
}
