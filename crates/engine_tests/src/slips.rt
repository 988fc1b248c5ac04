use crate::calls::{ENTRY, VERSION};
use engine::engine::Engine;
use engine::slip::{Reading, Updating, Writing};
use ledger::{Fault, Verdict};
use refusals::Refusal;
use std::process::Abort;
use validation::recent::RecentList;
use validation::validator::Validator;
use versions::log::LogStore;
use versions::store::VersionStore;

/// Writes a key under a slip, and gives what it held and the verdict of the commit.
fn post<S: VersionStore, V: Validator>(
    engine: &mut Engine<S, V>,
    key: u16,
    value: u64,
) -> Result<(u64, Verdict), Fault> {
    let slip = engine.begin_slip::<Updating>()?;
    let mut old = [0];
    let read = engine.read_under(&slip, key, 1, &mut old);
    let wrote = engine.write_under(Writing { slip: &slip }, key, value);
    let verdict = engine.commit_under(slip)?;
    read?;
    wrote?;
    Ok((old[0], verdict))
}

/// Reads a key under a slip, and ends its transaction twice: the value, and the answer to the second.
fn read_and_end_twice<S: VersionStore, V: Validator>(
    engine: &mut Engine<S, V>,
    key: u16,
) -> Result<(u64, Result<Verdict, Fault>), Fault> {
    let slip = engine.begin_slip::<Reading>()?;
    let mut value = [0];
    let read = engine.read_under(&slip, key, 1, &mut value);
    let aborted = engine.abort(slip.handle());
    let committed = engine.commit_under(slip);
    read?;
    aborted?;
    Ok((value[0], committed))
}

fn under_slips<S: VersionStore + Drop, V: Validator + Drop>(
    rt: &impl Abort,
    store: S,
    validator: V,
) {
    let mut engine = Engine::make(100, store, validator);
    assert_eq!(rt;
        post(&mut engine, 2, 54),
        Ok((0, Verdict::Committed { tick: 2 }))
    );
    assert_eq!(rt;
        post(&mut engine, 2, 55),
        Ok((54, Verdict::Committed { tick: 4 }))
    );
    // A slip is gone even if the call that takes it is refused.
    let twice = read_and_end_twice(&mut engine, 2);
    assert_eq!(rt; twice, Ok((55, Err(Fault::NoTransaction { handle: 5 }))));
    assert_eq!(rt; Fault::NoTransaction { handle: 5 }.report().place, 5);
    assert_eq!(rt; post(&mut engine, 8, 1), Err(Fault::KeyOutside { key: 8 }));
    assert_eq!(rt; engine.reclaim(), 1);
}

#[test]
fn slips_make_the_numbered_calls(rt: HostRuntime) {
    let mut cells = [VERSION; 8];
    let mut entries = [ENTRY; 8];
    under_slips(
        &rt,
        LogStore::make(8, &mut cells),
        RecentList::make(8, &mut entries),
    );
}
