//! What each event of an afternoon does.
ghost use Rattle.std.specs.Prelude.{◌≡◌, None, IfSome, IfNone};
ghost use Rattle.std.specs.Result.{result_ok};
ghost use Rattle.club.specs.Lines.{event_in};
ghost use Rattle.procedures.specs.Procedures.{Performs};
ghost use Rattle.club.specs.Events.{Shows, engine_of, pending_of, pending_after, new_desk, acted, answered, recalculated};

use crate::event::Event;
use crate::line::parse;
use crate::said::{Recalculation, Said};
use crate::transactions::{correct, list, list_figures, post, redo, show, show_figures, work_out};
use answer_lines::LineFault;
use engine::engine::Engine;
use ledger::{Fault, Kind, Verdict};
use procedures::updates::commit_with_write;
use validation::validator::Validator;
use versions::store::VersionStore;

/// One engine with the recalculation that is under way on it.
#[derive(Drop)]
pub struct Desk<S, V> {
    engine: Engine<S, V>,
    pending: Option<Recalculation>,
}

impl<S: VersionStore, V: Validator> Desk<S, V> {
    pub fn new(engine: Engine<S, V>) -> Self
        ensures { result ≡ new_desk engine }
    {
        Desk {
            engine,
            pending: None,
        }
    }

    /// Does what a line tells of; a malformed one is refused with its number.
    pub fn answer(&mut self, number: u64, line: &[u8]) -> Result<Said, LineFault>
        ensures performs { Performs S.meaning V.meaning (engine_of self.old) (engine_of self.new)
            (answered number (pending_of self.old) (event_in line.now))
            (result, pending_of self.new) }
        ensures pending { IfSome (event_in line.now) (λ event.
            pending_of self.new ≡ pending_after event (pending_of self.old) (result_ok result)) }
        ensures malformed { IfNone (event_in line.now) (self.new ≡ self.old) }
        ensures shows { IfSome (event_in line.now) (λ event.
            Shows S.meaning V.meaning (engine_of self.old) event result) }
    {
        self.answer_event(number, parse(line))
    }

    /// The same, of the event that the line with this number tells of, if it tells of one.
    pub fn answer_event(&mut self, number: u64, event: Option<Event>) -> Result<Said, LineFault>
        ensures performs { Performs S.meaning V.meaning (engine_of self.old) (engine_of self.new)
            (answered number (pending_of self.old) event) (result, pending_of self.new) }
        ensures pending { IfSome event (λ event.
            pending_of self.new ≡ pending_after event (pending_of self.old) (result_ok result)) }
        ensures malformed { IfNone event (self.new ≡ self.old) }
        ensures shows { IfSome event (λ event.
            Shows S.meaning V.meaning (engine_of self.old) event result) }
    {
        let event = event.ok_or(LineFault::Malformed { number })?;
        Ok(self.act(event)?)
    }

    pub fn act(&mut self, event: Event) -> Result<Said, Fault>
        ensures performs { Performs S.meaning V.meaning (engine_of self.old) (engine_of self.new)
            (acted event (pending_of self.old)) (result, pending_of self.new) }
        ensures pending { pending_of self.new ≡
            pending_after event (pending_of self.old) (result_ok result) }
        ensures shows { Shows S.meaning V.meaning (engine_of self.old) event result }
    {
        let engine = &mut self.engine;
        match event {
            Event::Card { key, value } => Ok(Said::Card {
                key,
                value,
                end: post(engine, key, value),
            }),
            Event::Correction { key, value } => correct(engine, key, value),
            Event::Recalculation {
                first,
                count,
                index,
            } => self.recalculate(first, count, index),
            Event::Finish => self.finish(),
            Event::List => list(engine),
            Event::Figures { first, count } => list_figures(engine, first, count),
            Event::Report => engine
                .begin(Kind::Reader)
                .map(|handle| Said::Report { handle }),
            Event::Show { report } => show(engine, report),
            Event::ShowFigures {
                report,
                first,
                count,
            } => show_figures(engine, report, first, count),
            Event::Close { report } => engine.commit(report).map(Said::Ended),
            Event::CleanUp => Ok(Said::Removed {
                count: engine.reclaim(),
            }),
        }
    }

    fn recalculate(&mut self, first: u16, count: u16, index: u16) -> Result<Said, Fault>
        ensures performs { Performs S.meaning V.meaning self.old.engine self.new.engine
            (recalculated first count index self.old.pending) (result, self.new.pending) }
        ensures pending { self.new.pending ≡
            pending_after (Event.Recalculation first count index) self.old.pending
            (result_ok result) }
    {
        if self.pending.is_some() {
            return Ok(Said::AlreadyOpen);
        }
        let work = work_out(&mut self.engine, first, count, index)?;
        self.pending = Some(work);
        Ok(Said::Recalculation(work))
    }

    /// Commits the recalculation; one that is restarted is done again at once.
    fn finish(&mut self) -> Result<Said, Fault>
        ensures performs { Performs S.meaning V.meaning self.old.engine self.new.engine
            (acted Event.Finish self.old.pending) (result, self.new.pending) }
        ensures pending { self.new.pending ≡ None }
    {
        let Some(work) = self.pending.take() else {
            return Ok(Said::NoneOpen);
        };
        match commit_with_write(&mut self.engine, work.handle, work.index, work.value)? {
            Verdict::Restart { key, stamp } => {
                let again = redo(&mut self.engine, work);
                Ok(Said::Restarted { key, stamp, again })
            }
            verdict => Ok(Said::Ended(verdict)),
        }
    }
}
