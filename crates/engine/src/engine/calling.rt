// Any of the calls, as a value.
ghost use Rattle.std.specs.Prelude.{◌≡◌, IfOk, OnErr};
ghost use Rattle.refusals.specs.Results.{result_map};
ghost use Rattle.ledger.specs.declared.Call.TheVariants.{Total};
ghost use Rattle.ledger.specs.declared.Done.TheVariants.{Total as TotalDone};
ghost use Rattle.engine.specs.Steps.{Refines, RefinesUnlent, StaysIdle, CountsAsAsked, GoesOn};

use super::Engine;
use ledger::{Call, Done, Fault, Figure, SummaryKind};
use summaries::kinds::{NonZero, Smallest, Sum};
use validation::validator::Validator;
use versions::store::VersionStore;

impl<S: VersionStore, V: Validator> Engine<S, V> {
    /// Makes a call. A read fills the front of the buffer; no other call touches it.
    pub fn call(&mut self, call: Call, buffer: &mut [u64]) -> Result<Done, Fault>
        ensures refines { Refines S.meaning V.meaning self.old self.new
            call buffer.old result buffer.new }
        ensures counted { IfOk result (CountsAsAsked call) }
        ensures refusal { OnErr result ((self.new ≡ self.old) × (buffer.new ≡ buffer.old)) }
        ensures idle { StaysIdle self.old self.new }
        ensures history { GoesOn S.meaning V.meaning self.old self.new
            call buffer.old result buffer.new }
    {
        self.dispatch(call, buffer)
    }

    // A function of its own, so that its history is told once for all calls.
    fn dispatch(&mut self, call: Call, buffer: &mut [u64]) -> Result<Done, Fault>
        ensures refines { Refines S.meaning V.meaning self.old self.new
            call buffer.old result buffer.new }
        ensures counted { IfOk result (CountsAsAsked call) }
        ensures refusal { OnErr result ((self.new ≡ self.old) × (buffer.new ≡ buffer.old)) }
        ensures idle { StaysIdle self.old self.new }
    {
        match call {
            Call::Begin(kind) => self.begin(kind).map(|handle| Done::Began { handle }),
            Call::Read {
                handle,
                first,
                count,
            } => self
                .read(handle, first, count, buffer)
                .map(|()| Done::Read { count }),
            Call::Total {
                handle,
                first,
                count,
                summary,
            } => self.figure(handle, first, count, summary).map(Done::Total),
            Call::Write { handle, key, value } => {
                self.write(handle, key, value).map(|()| Done::Wrote)
            }
            Call::Commit { handle } => self.commit(handle).map(Done::Ended),
            Call::Abort { handle } => self.abort(handle).map(|()| Done::Aborted),
            Call::Reclaim => Ok(Done::Reclaimed {
                count: self.reclaim(),
            }),
        }
    }

    /// A total of the kind that a call names.
    fn figure(
        &mut self,
        handle: u32,
        first: u16,
        count: u16,
        summary: SummaryKind,
    ) -> Result<Figure, Fault>
        ensures refines { RefinesUnlent S.meaning V.meaning self.old self.new
            (Total handle first count summary) (result_map TotalDone result) }
        ensures refusal { OnErr result (self.new ≡ self.old) }
        ensures idle { StaysIdle self.old self.new }
    {
        match summary {
            SummaryKind::Sum => self.total::<Sum>(handle, first, count).map(Figure::from),
            SummaryKind::Smallest => self
                .total::<Smallest>(handle, first, count)
                .map(Figure::from),
            SummaryKind::NonZero => self
                .total::<NonZero>(handle, first, count)
                .map(Figure::from),
        }
    }
}
