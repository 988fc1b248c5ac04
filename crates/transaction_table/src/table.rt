ghost use Rattle.std.specs.Prelude.{◌≡◌, ◌+◌, ◌-◌, ◌^◌, ◌<◌, min, position, IfSome, OnOk, OnErr};
ghost use Rattle.ledger.specs.Ledger.{least_start};
ghost use Rattle.transaction_table.specs.View.{active_of};
ghost use Rattle.transaction_table.specs.Shuffle.{IsShuffle};
ghost use Rattle.transaction_table.specs.Slots.{is_free, has_handle, new_table, begin_answer, begun, begun_active, is_of_kind};

use crate::record::{Record, State};
use ledger::{Fault, Kind, MAX_ACTIVE};

/// The clock, and the active transactions.
#[derive(Clone, Copy)]
pub struct TransactionTable {
    /// The last tick drawn.
    pub clock: u32,
    /// The last tick that may be drawn; 0 in an engine from a refused set-up.
    pub last: u32,
    pub records: [Record; MAX_ACTIVE],
}

impl TransactionTable {
    pub fn new(last: u32) -> TransactionTable
        ensures { result ≡ new_table last }
    {
        TransactionTable {
            clock: 0,
            last,
            records: [Record::free(); MAX_ACTIVE],
        }
    }

    /// The place of the transaction with this handle.
    pub fn find(&self, handle: u32) -> Option<usize>
        ensures place { result ≡ position (has_handle handle) self.now.records }
        // What a caller that indexes by it has to know.
        ensures within { IfSome result (λ place. place < MAX_ACTIVE) }
    {
        self.records.iter().position(|record| record.handle() == handle
            && record.state != State::Free)
    }

    /// A free place.
    fn vacant(&self) -> Option<usize>
        ensures { result ≡ position is_free self.now.records }
    {
        self.records
            .iter()
            .position(|record| record.state == State::Free)
    }

    /// Draws the next tick, and puts a transaction that begins at it into a free place.
    pub fn begin(&mut self, kind: Kind) -> Result<u32, Fault>
        ensures answer { result ≡ begin_answer self.old }
        ensures after { OnOk result (self.new ≡ begun kind self.old) }
        ensures refusal { OnErr result (self.new ≡ self.old) }
        ensures active { IsShuffle (begun_active result kind self.old.records)
            (active_of self.new.records) }
    {
        let slot = self.vacant().ok_or(Fault::TooManyActive)?;
        if self.clock >= self.last {
            return Err(Fault::ClockSpent { last: self.last });
        }
        let start = self.clock + 1;
        self.clock = start;
        self.records[slot] = Record::new(start, kind);
        Ok(start)
    }

    /// The least start tick of the transactions of this kind, or without any the next tick.
    pub fn least_start(&self, kind: Kind) -> u32
        ensures { result ≡ least_start (is_of_kind kind) (min (self.now.clock + 1) (2 ^ 32 - 1))
            (active_of self.now.records) }
    {
        let next = self.clock.saturating_add(1);
        self.records
            .iter()
            .filter(|record| record.state.holds(kind))
            .map(|record| record.start)
            .fold(next, u32::min)
    }
}
