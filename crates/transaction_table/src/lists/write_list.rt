ghost use Rattle.std.specs.Prelude.{◌≡◌, position, OnErr};
ghost use Rattle.ledger.specs.Ledger.{own_write};
ghost use Rattle.transaction_table.specs.View.{writes_of, no_writes};
ghost use Rattle.transaction_table.specs.Lists.{writes_to, put_answer, writes_with};

use super::{Bounded, Full, WriteList};
use ledger::{MAX_WRITES, Write};

impl Bounded<Write, MAX_WRITES> {
    pub fn new() -> WriteList
        ensures { result ≡ no_writes }
    {
        Bounded::empty(Write { key: 0, value: 0 })
    }

    /// Where the key stands.
    fn place(&self, key: u16) -> Option<usize>
        ensures { result ≡ position (writes_to key) (writes_of self.now) }
    {
        self.as_slice().iter().position(|write| write.key == key)
    }

    /// The value written to the key.
    pub fn value(&self, key: u16) -> Option<u64>
        ensures { result ≡ own_write key (writes_of self.now) }
    {
        self.as_slice()
            .iter()
            .find(|write| write.key == key)
            .map(|write| write.value)
    }

    /// Puts a write in its key's old place, or behind the others.
    pub fn put(&mut self, write: Write) -> Result<(), Full>
        ensures answer { result ≡ put_answer (writes_of self.old) write.key }
        ensures after { writes_of self.new ≡ writes_with (writes_of self.old) write }
        ensures refusal { OnErr result (self.new ≡ self.old) }
    {
        if let Some(i) = self.place(write.key) {
            self.items[i] = write;
            return Ok(());
        }
        self.push(write)
    }
}
