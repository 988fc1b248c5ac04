// Slips: a transaction in hand, which has to be ended.
ghost use Rattle.std.specs.Prelude.{◌≡◌, ◌<◌, IfOk, OnErr};
ghost use Rattle.refusals.specs.Results.{result_map};
ghost use Rattle.ledger.specs.declared.Kind.{Kind};
ghost use Rattle.ledger.specs.declared.Kind.TheVariants.{Reader, Updater};
ghost use Rattle.ledger.specs.declared.Call.TheVariants.{Begin, Read, Write, Commit, Abort};
ghost use Rattle.ledger.specs.declared.Done.TheVariants.{Began, Read as ReadDone, Wrote, Ended, Aborted};
ghost use Rattle.engine.specs.Parts.{slip_handle};
ghost use Rattle.engine.specs.Steps.{Refines, RefinesUnlent, StaysIdle};
ghost use Rattle.engine.specs.Totals.{TotalsRead, HalvesJoin};
ghost use Rattle.summaries.specs.Summaries.{summary_of};

use crate::engine::Engine;
use ledger::{Fault, Kind, Verdict};
use std::marker::PhantomData;
use summaries::Summary;
use validation::validator::Validator;
use versions::store::VersionStore;

/// What a slip lets its holder do: to act in a transaction of this kind.
pub trait Leave {
    ghost KIND: { Kind };

    const KIND: Kind;
}

/// What a reader's slip allows.
#[derive(Clone, Copy)]
pub struct Reading {}

/// What an updater's slip allows.
#[derive(Clone, Copy)]
pub struct Updating {}

impl Leave for Reading {
    ghost KIND = { Reader };

    const KIND: Kind = Kind::Reader;
}

impl Leave for Updating {
    ghost KIND = { Updater };

    const KIND: Kind = Kind::Updater;
}

/// Leave to act in one transaction. It goes only to the commit or the abort that ends it:
/// a slip of no transaction could be let go, and no call gives one.
pub struct Slip<K> {
    handle: u32,
    leave: PhantomData<K>,
}

impl<K> Drop for Slip<K> {
    fn drop(self)
        requires { slip_handle self ≡ 0 }
    {
        let Slip {
            handle: _,
            leave: _,
        } = self;
    }
}

impl<K> Slip<K> {
    pub fn handle(&self) -> u32
        ensures { result ≡ slip_handle self.now }
    {
        self.handle
    }

    fn spent(self) -> u32
        ensures { result ≡ slip_handle self }
    {
        let Slip { handle, leave: _ } = self;
        handle
    }
}

/// A slip that lets its holder write: who names one shows that it is an updater's.
#[derive(Drop)]
pub struct Writing<'s, K: Leave> {
    pub slip: &'s Slip<K>,
    ghost updates: { K.KIND ≡ Updater },
}

impl<S: VersionStore, V: Validator> Engine<S, V> {
    /// Begins a transaction of the slip's kind.
    pub fn begin_slip<K: Leave>(&mut self) -> Result<Slip<K>, Fault>
        ensures refines { RefinesUnlent S.meaning V.meaning self.old self.new
            (Begin K.KIND) (result_map (λ s. Began (slip_handle s)) result) }
        ensures refusal { OnErr result (self.new ≡ self.old) }
        ensures held { IfOk result (λ s. 0 < slip_handle s) }
        ensures idle { StaysIdle self.old self.new }
    {
        let handle = self.begin(K::KIND)?;
        Ok(Slip {
            handle,
            leave: PhantomData,
        })
    }

    pub fn read_under<K>(
        &mut self,
        slip: &Slip<K>,
        first: u16,
        count: u16,
        buffer: &mut [u64],
    ) -> Result<(), Fault>
        ensures refines { Refines S.meaning V.meaning self.old self.new
            (Read (slip_handle slip.now) first count)
            buffer.old (result_map (λ _. ReadDone count) result) buffer.new }
        ensures refusal { OnErr result ((self.new ≡ self.old) × (buffer.new ≡ buffer.old)) }
        ensures idle { StaysIdle self.old self.new }
    {
        self.read(slip.handle, first, count, buffer)
    }

    pub fn total_under<K, M: Summary + Drop>(
        &mut self,
        slip: &Slip<K>,
        first: u16,
        count: u16,
    ) -> Result<M, Fault>
        ensures refines { TotalsRead S.meaning V.meaning self.old self.new
            (slip_handle slip.now) first count (summary_of M.one M.neutral M.join first) result }
        ensures halves { HalvesJoin S.meaning V.meaning self.old M.join
            (summary_of M.one M.neutral M.join) (slip_handle slip.now) first count result }
        ensures refusal { OnErr result (self.new ≡ self.old) }
        ensures idle { StaysIdle self.old self.new }
    {
        self.total(slip.handle, first, count)
    }

    /// Only an updater's slip lets it write.
    pub fn write_under<K: Leave>(
        &mut self,
        under: Writing<'_, K>,
        key: u16,
        value: u64,
    ) -> Result<(), Fault>
        ensures refines { RefinesUnlent S.meaning V.meaning self.old self.new
            (Write (slip_handle under.entry.slip.now) key value) (result_map (λ _. Wrote) result) }
        ensures refusal { OnErr result (self.new ≡ self.old) }
        ensures idle { StaysIdle self.old self.new }
    {
        self.write(under.slip.handle, key, value)
    }

    /// Takes the slip, even if it refuses.
    pub fn commit_under<K>(&mut self, slip: Slip<K>) -> Result<Verdict, Fault>
        ensures refines { RefinesUnlent S.meaning V.meaning self.old self.new
            (Commit (slip_handle slip)) (result_map Ended result) }
        ensures refusal { OnErr result (self.new ≡ self.old) }
        ensures idle { StaysIdle self.old self.new }
    {
        self.commit(slip.spent())
    }

    /// Takes the slip, even if it refuses.
    pub fn abort_under<K>(&mut self, slip: Slip<K>) -> Result<(), Fault>
        ensures refines { RefinesUnlent S.meaning V.meaning self.old self.new
            (Abort (slip_handle slip)) (result_map (λ _. Aborted) result) }
        ensures refusal { OnErr result (self.new ≡ self.old) }
        ensures idle { StaysIdle self.old self.new }
    {
        self.abort(slip.spent())
    }
}
