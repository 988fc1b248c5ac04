ghost use Rattle.std.specs.Prelude.{◌≡◌, OnErr};
ghost use Rattle.transaction_table.specs.View.{ranges, no_ranges};
ghost use Rattle.transaction_table.specs.Lists.{join_answer, reads_with};

use super::{Bounded, Full, ReadList};
use ledger::{MAX_READS, Range};

impl Bounded<Range, MAX_READS> {
    pub fn new() -> ReadList
        ensures { result ≡ no_ranges }
    {
        Bounded::empty(Range { first: 0, count: 0 })
    }

    /// Puts a range at the end, unless this very range is in the list.
    pub fn join(&mut self, range: Range) -> Result<(), Full>
        ensures answer { result ≡ join_answer (ranges self.old) range }
        ensures after { ranges self.new ≡ reads_with (ranges self.old) range }
        ensures refusal { OnErr result (self.new ≡ self.old) }
    {
        if self.as_slice().contains(&range) {
            return Ok(());
        }
        self.push(range)
    }
}
