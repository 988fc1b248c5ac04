ghost use Rattle.std.specs.Prelude.{◌≡◌, ◌<◌, position, IfOk, OnErr};
ghost use Rattle.std.specs.Option.{ok_or};
ghost use Rattle.refusals.specs.Results.{result_map};
ghost use Rattle.ledger.specs.declared.Call.TheVariants.{Begin, Write, Abort};
ghost use Rattle.ledger.specs.declared.Done.TheVariants.{Began, Wrote, Aborted};
ghost use Rattle.ledger.specs.declared.Fault.TheVariants.{NoTransaction};
ghost use Rattle.transaction_table.specs.Slots.{begin_answer, has_handle};
ghost use Rattle.engine.specs.Parts.{store_of, validator_of, table_of, FitsNew};
ghost use Rattle.engine.specs.SetUp.{engine_check, last_of};
ghost use Rattle.engine.specs.Steps.{RefinesUnlent, StaysIdle};

use crate::fault::SetUpFault;
use ledger::{Call, Fault, Kind, MAX_ACTIVE};
use transaction_table::record::State;
use transaction_table::table::TransactionTable;
use validation::validator::Validator;
use versions::store::VersionStore;

mod calling;
mod ending;
mod reading;

/// The last tick is at most this.
pub const LAST_TICK: u32 = 4_294_967_294;

/// A store and a validator, and the active transactions on them.
#[derive(Drop)]
pub struct Engine<S, V> {
    store: S,
    validator: V,
    table: TransactionTable,
}

// `StaysIdle` stands at each call: a fact of the step, and of no engine by itself.
impl<S: VersionStore, V: Validator> Engine<S, V> {
    /// Whether an engine can be made of these.
    // The three travel together only as far as `make`, and the struct of them is what it makes.
    pub fn check(last: u32, store: &S, validator: &V) -> Result<(), SetUpFault>
        ensures answer { result ≡ engine_check last (S.meaning store.now) (V.meaning validator.now) }
        // The definitions cite it by its name.
        ensures limit { LAST_TICK ≡ 4294967294 }
    {
        if last == 0 || last > LAST_TICK {
            return Err(SetUpFault::LastTick { tick: last });
        }
        if store.keys() != validator.keys() || store.kept() > 0 || validator.latest() > 0 {
            return Err(SetUpFault::NotFresh);
        }
        Ok(())
    }

    /// An engine on which no call was made yet; one without keys, cells and ticks where the check refuses.
    pub fn make(last: u32, store: S, validator: V) -> Engine<S, V>
        ensures store { store_of result ≡ store }
        ensures validator { validator_of result ≡ validator }
        ensures last { (table_of result).last ≡
            last_of last (S.meaning store) (V.meaning validator) }
        ensures fits { FitsNew S.meaning V.meaning result }
    {
        let last = Self::check(last, &store, &validator).map_or(0, |()| last);
        Engine {
            store,
            validator,
            table: TransactionTable::new(last),
        }
    }

    /// Begins a transaction, and gives its handle.
    pub fn begin(&mut self, kind: Kind) -> Result<u32, Fault>
        ensures answer { result ≡ begin_answer (table_of self.old) }
        ensures refines { RefinesUnlent S.meaning V.meaning self.old self.new
            (Begin kind) (result_map Began result) }
        ensures refusal { OnErr result (self.new ≡ self.old) }
        ensures idle { StaysIdle self.old self.new }
    {
        self.table.begin(kind)
    }

    /// Notes a value to be written to a key when the transaction is committed.
    pub fn write(&mut self, handle: u32, key: u16, value: u64) -> Result<(), Fault>
        ensures refines { RefinesUnlent S.meaning V.meaning self.old self.new
            (Write handle key value) (result_map (λ _. Wrote) result) }
        ensures refusal { OnErr result (self.new ≡ self.old) }
        ensures idle { StaysIdle self.old self.new }
    {
        let slot = self.place(handle)?;
        let keys = self.store.keys();
        let record = &mut self.table.records[slot];
        record.take(Call::Write { handle, key, value }, keys, 0)?;
        Ok(())
    }

    /// Ends a transaction, and nothing that it wrote is kept.
    pub fn abort(&mut self, handle: u32) -> Result<(), Fault>
        ensures refines { RefinesUnlent S.meaning V.meaning self.old self.new
            (Abort handle) (result_map (λ _. Aborted) result) }
        ensures refusal { OnErr result (self.new ≡ self.old) }
        ensures idle { StaysIdle self.old self.new }
    {
        let slot = self.place(handle)?;
        let keys = self.store.keys();
        self.table.records[slot].take(Call::Abort { handle }, keys, 0)?;
        self.table.records[slot].state = State::Free;
        Ok(())
    }

    /// The place of the transaction with this handle, if there is one.
    fn place(&self, handle: u32) -> Result<usize, Fault>
        ensures place { result ≡ ok_or (position (has_handle handle) self.now.table.records)
            (NoTransaction handle) }
        ensures within { IfOk result (λ slot. slot < MAX_ACTIVE) }
    {
        self.table
            .find(handle)
            .ok_or(Fault::NoTransaction { handle })
    }
}
