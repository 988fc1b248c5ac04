ghost use Rattle.std.specs.Prelude.{◌≡◌, if◌then◌else◌, OnErr};
ghost use Rattle.std.specs.Result.{is_ok};
ghost use Rattle.ledger.specs.Ledger.{handle_of, moment_of};
ghost use Rattle.ledger.specs.Calls.{joined, wrote, range_check, read_check, write_check, having_made};
ghost use Rattle.transaction_table.specs.View.{view};
ghost use Rattle.transaction_table.specs.Slots.{holds_kind, state_of, new_record, free_record};
ghost use Rattle.transaction_table.specs.Next.{take_answer};

use crate::lists::{ReadList, WriteList};
use ledger::{Call, Fault, Kind, Range, Write};

/// What a record is: free, or an active transaction of this kind.
// No `Option<Kind>`: what a record does with a call is decided by kind and call together, and a free place is a kind of its own.
#[derive(Clone, Copy, PartialEq)]
pub enum State {
    Free,
    Reader,
    Updater,
}

/// What is left to do for a call that a record took.
#[derive(Clone, Copy, PartialEq)]
pub enum Next {
    /// The call can be answered.
    Answer,
    /// An updater wants to be committed, and has to be judged first.
    Judge,
}

/// A place for one active transaction.
#[derive(Clone, Copy)]
pub struct Record {
    pub state: State,
    /// The tick at which the transaction began.
    pub start: u32,
    pub reads: ReadList,
    pub writes: WriteList,
}

impl From<Kind> for State {
    ghost from_gives = { λ kind state. state ≡ state_of kind };

    fn from(kind: Kind) -> State {
        match kind {
            Kind::Reader => State::Reader,
            Kind::Updater => State::Updater,
        }
    }
}

impl State {
    /// Whether a transaction of this kind is in the record.
    pub fn holds(self, kind: Kind) -> bool
        ensures { result ≡ holds_kind kind self }
    {
        self == State::from(kind)
    }
}

impl Record {
    /// A transaction that begins at this tick.
    pub fn new(start: u32, kind: Kind) -> Record
        ensures { result ≡ new_record start kind }
    {
        Record {
            state: State::from(kind),
            start,
            reads: ReadList::new(),
            writes: WriteList::new(),
        }
    }

    /// A place that no transaction has.
    pub fn free() -> Record
        ensures { result ≡ free_record }
    {
        Record {
            state: State::Free,
            start: 0,
            reads: ReadList::new(),
            writes: WriteList::new(),
        }
    }

    /// The handle that names the transaction: its start.
    pub fn handle(&self) -> u32
        ensures { result ≡ handle_of (view self.now) }
    {
        self.start
    }

    /// The moment that a reader reads as of.
    pub fn moment(&self) -> u32
        ensures { result ≡ moment_of (view self.now) }
    {
        // A reader reads as of its start, and its handle is that tick.
        self.handle()
    }

    /// Takes a call of the transaction, on a table of so many keys and with a buffer of this length:
    /// notes what it reads or writes, and says what is left to do, or refuses it.
    pub fn take(&mut self, call: Call, keys: u16, room: usize) -> Result<Next, Fault>
        ensures answer { result ≡ take_answer keys room (view self.old) call }
        ensures state { self.new.state ≡ self.old.state }
        ensures after { view self.new ≡
            (if is_ok result then having_made (view self.old) call else view self.old) }
        ensures refusal { OnErr result (self.new ≡ self.old) }
    {
        match (self.state, call) {
            (State::Updater, Call::Write { handle, key, value }) => {
                self.take_write(handle, Write { key, value }, keys)?;
            }
            (_, Call::Write { handle, .. }) => return Err(Fault::ReaderWrites { handle }),
            (
                State::Updater,
                Call::Read {
                    handle,
                    first,
                    count,
                },
            ) => {
                self.take_read(handle, Range { first, count }, keys, room)?;
            }
            (_, Call::Read { first, count, .. }) => readable(Range { first, count }, keys, room)?,
            // It is lent no buffer, and needs none.
            (
                State::Updater,
                Call::Total {
                    handle,
                    first,
                    count,
                    ..
                },
            ) => {
                self.take_read(handle, Range { first, count }, keys, usize::from(count))?;
            }
            (_, Call::Total { first, count, .. }) => {
                readable(Range { first, count }, keys, usize::from(count))?;
            }
            (State::Updater, Call::Commit { .. }) => return Ok(Next::Judge),
            (_, _) => {}
        }
        Ok(Next::Answer)
    }

    /// An updater's write, under this handle.
    fn take_write(&mut self, handle: u32, write: Write, keys: u16) -> Result<(), Fault>
        requires { self.old.state ≡ State.Updater }
        ensures answer { result ≡ write_check keys handle (view self.old) write.key }
        ensures state { self.new.state ≡ self.old.state }
        ensures after { view self.new ≡
            (if is_ok result then wrote (view self.old) write.key write.value else view self.old) }
        ensures refusal { OnErr result (self.new ≡ self.old) }
    {
        if write.key >= keys {
            return Err(Fault::KeyOutside { key: write.key });
        }
        self.writes
            .put(write)
            .map_err(|_| Fault::WriteListFull { handle })
    }

    /// An updater's read of a range under this handle, into a buffer of this length.
    fn take_read(&mut self, handle: u32, range: Range, keys: u16, room: usize) -> Result<(), Fault>
        requires { self.old.state ≡ State.Updater }
        ensures answer { result ≡ read_check keys room handle (view self.old) range.first range.count }
        ensures state { self.new.state ≡ self.old.state }
        ensures after { view self.new ≡
            (if is_ok result then joined (view self.old) range.first range.count else view self.old) }
        ensures refusal { OnErr result (self.new ≡ self.old) }
    {
        readable(range, keys, room)?;
        // A range of no keys reads nothing, so nothing can clash with it.
        if range.count == 0 {
            return Ok(());
        }
        self.reads
            .join(range)
            .map_err(|_| Fault::ReadListFull { handle })
    }
}

/// Whether the range lies in the table, and its values have room in a buffer of this length.
fn readable(range: Range, keys: u16, room: usize) -> Result<(), Fault>
    ensures { result ≡ range_check keys room range.first range.count }
{
    if u32::from(range.first) + u32::from(range.count) > u32::from(keys) {
        return Err(Fault::KeyOutside { key: range.first });
    }
    if room < usize::from(range.count) {
        return Err(Fault::ShortBuffer { length: room });
    }
    Ok(())
}
