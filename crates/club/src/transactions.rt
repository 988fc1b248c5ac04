//! The transactions that a club's events are made of, on any engine.
ghost use Rattle.std.specs.Prelude.{IfOk};
ghost use Rattle.club.specs.Moments.{club_in, figures_at, ShowsNow, ShowsOpening};
ghost use Rattle.procedures.specs.Procedures.{Performs};
ghost use Rattle.club.specs.Transactions.{posted, corrected, worked_out, redone, listed, report_shown, figures_told, figures_listed, figures_shown};

use crate::index::index_of;
use crate::said::{Figures, KEYS, Recalculation, Redone, Said};
use engine::engine::Engine;
use engine::slip::Reading;
use ledger::{Fault, Kind, Verdict};
use procedures::updates::{begin_with_read, commit_with_write};
use summaries::kinds::{NonZero, Smallest, Sum};
use validation::validator::Validator;
use versions::store::VersionStore;

/// Posts a card: an updater that writes one key.
pub fn post<S: VersionStore, V: Validator>(
    engine: &mut Engine<S, V>,
    key: u16,
    value: u64,
) -> Result<Verdict, Fault>
    ensures { Performs S.meaning V.meaning engine.old engine.new
        (posted key value) result }
{
    let handle = engine.begin(Kind::Updater)?;
    commit_with_write(engine, handle, key, value)
}

/// Posts the right value of a card: an updater that reads the key and writes it.
pub fn correct<S: VersionStore, V: Validator>(
    engine: &mut Engine<S, V>,
    key: u16,
    value: u64,
) -> Result<Said, Fault>
    ensures { Performs S.meaning V.meaning engine.old engine.new
        (corrected key value) result }
{
    let mut old = [0];
    let handle = begin_with_read(engine, key, 1, &mut old)?;
    let end = commit_with_write(engine, handle, key, value);
    Ok(Said::Correction {
        key,
        value,
        was: old[0],
        end,
    })
}

/// Reads the rounds of a recalculation, and works out the index to write.
pub fn work_out<S: VersionStore, V: Validator>(
    engine: &mut Engine<S, V>,
    first: u16,
    count: u16,
    index: u16,
) -> Result<Recalculation, Fault>
    ensures { Performs S.meaning V.meaning engine.old engine.new
        (worked_out first count index) result }
{
    let mut rounds = [0; KEYS as usize];
    let handle = begin_with_read(engine, first, count, &mut rounds)?;
    let used = usize::from(count).min(rounds.len());
    let value = index_of(&rounds[..used]);
    Ok(Recalculation {
        handle,
        first,
        count,
        index,
        value,
    })
}

/// Does a recalculation again, from its begin to its commit.
pub fn redo<S: VersionStore, V: Validator>(
    engine: &mut Engine<S, V>,
    work: Recalculation,
) -> Result<Redone, Fault>
    ensures { Performs S.meaning V.meaning engine.old engine.new
        (redone work) result }
{
    let work = work_out(engine, work.first, work.count, work.index)?;
    let end = commit_with_write(engine, work.handle, work.index, work.value);
    Ok(Redone { work, end })
}

/// The club list: a reader with a slip in hand, which has to be given up.
pub fn list<S: VersionStore, V: Validator>(engine: &mut Engine<S, V>) -> Result<Said, Fault>
    ensures performs { Performs S.meaning V.meaning engine.old engine.new listed result }
    ensures now { IfOk result (ShowsNow S.meaning V.meaning engine.old club_in) }
{
    let mut values = [0; KEYS as usize];
    let slip = engine.begin_slip::<Reading>()?;
    let read = engine.read_under(&slip, 0, KEYS, &mut values);
    let _ = engine.commit_under(slip);
    read?;
    Ok(Said::Values(values))
}

/// The figures of a run of rounds as they are now: a reader with a slip in hand, as for the club list.
pub fn list_figures<S: VersionStore, V: Validator>(
    engine: &mut Engine<S, V>,
    first: u16,
    count: u16,
) -> Result<Said, Fault>
    ensures performs { Performs S.meaning V.meaning engine.old engine.new
        (figures_listed first count) result }
    ensures now { IfOk result (ShowsNow S.meaning V.meaning engine.old (figures_at first count)) }
{
    let slip = engine.begin_slip::<Reading>()?;
    let figures = tell_figures(engine, slip.handle(), first, count);
    let _ = engine.commit_under(slip);
    figures.map(Said::Figures)
}

/// The club list that an open report shows.
pub fn show<S: VersionStore, V: Validator>(
    engine: &mut Engine<S, V>,
    report: u32,
) -> Result<Said, Fault>
    ensures performs { Performs S.meaning V.meaning engine.old engine.new (report_shown report) result }
    ensures opening { IfOk result (ShowsOpening S.meaning V.meaning engine.old report club_in) }
{
    let mut values = [0; KEYS as usize];
    engine.read(report, 0, KEYS, &mut values)?;
    Ok(Said::Values(values))
}

/// The figures of a run of rounds that an open report shows.
pub fn show_figures<S: VersionStore, V: Validator>(
    engine: &mut Engine<S, V>,
    report: u32,
    first: u16,
    count: u16,
) -> Result<Said, Fault>
    ensures performs { Performs S.meaning V.meaning engine.old engine.new
        (figures_shown report first count) result }
    ensures opening { IfOk result (ShowsOpening S.meaning V.meaning engine.old report
        (figures_at first count)) }
{
    tell_figures(engine, report, first, count).map(Said::Figures)
}

/// The three figures of a run of rounds, each a total under the handle; the first that is refused is the answer.
fn tell_figures<S: VersionStore, V: Validator>(
    engine: &mut Engine<S, V>,
    handle: u32,
    first: u16,
    count: u16,
) -> Result<Figures, Fault>
    ensures performs { Performs S.meaning V.meaning engine.old engine.new
        (figures_told handle first count) result }
    ensures opening { IfOk result (λ f. ShowsOpening S.meaning V.meaning engine.old handle
        (figures_at first count) (Said.Figures f)) }
{
    let sum = engine.total::<Sum>(handle, first, count)?;
    let smallest = engine.total::<Smallest>(handle, first, count)?;
    let number = engine.total::<NonZero>(handle, first, count)?;
    Ok(Figures {
        sum: sum.value,
        smallest: smallest.least,
        played: number.count,
    })
}
