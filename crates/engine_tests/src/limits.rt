use crate::calls::{ENTRY, VERSION, begins, says, sees};
use engine::engine::Engine;
use engine::fault::SetUpFault;
use ledger::{Call, Done, Fault, Kind, Verdict};
use refusals::{Refusal, Report};
use std::fmt::Debug;
use std::process::Abort;
use validation::recent::RecentList;
use validation::table::StampTable;
use validation::validator::Validator;
use versions::log::LogStore;
use versions::store::VersionStore;

fn seventeen<S: VersionStore + Drop, V: Validator + Drop>(rt: &impl Abort, store: S, validator: V) {
    let mut engine = Engine::make(100, store, validator);
    for handle in 1..17u32 {
        begins(rt, &mut engine, Kind::Updater, handle);
    }
    says(
        rt,
        &mut engine,
        Call::Begin(Kind::Reader),
        Err(Fault::TooManyActive),
    );
    says(
        rt,
        &mut engine,
        Call::Abort { handle: 3 },
        Ok(Done::Aborted),
    );
    says(
        rt,
        &mut engine,
        Call::Abort { handle: 3 },
        Err(Fault::NoTransaction { handle: 3 }),
    );
    begins(rt, &mut engine, Kind::Reader, 17);
    says(
        rt,
        &mut engine,
        Call::Begin(Kind::Reader),
        Err(Fault::TooManyActive),
    );
}

#[test]
fn the_seventeenth_begin_is_refused(rt: HostRuntime) {
    let mut cells = [VERSION; 8];
    let mut stamps = [7; 40];
    seventeen(
        &rt,
        LogStore::make(40, &mut cells),
        StampTable::make(40, 1, &mut stamps),
    );
}

fn ranges<S: VersionStore + Drop, V: Validator + Drop>(rt: &impl Abort, store: S, validator: V) {
    let mut engine = Engine::make(100, store, validator);
    begins(rt, &mut engine, Kind::Updater, 1);
    for key in 0..32u16 {
        sees(rt, &mut engine, 1, key, 0);
    }
    let mut buffer = [9, 9];
    let full = engine.read(1, 32, 1, &mut buffer);
    refuses(rt, full, Fault::ReadListFull { handle: 1 }, 13, 1);
    assert_eq!(rt; buffer[0], 9);
    sees(rt, &mut engine, 1, 0, 0);
    says(
        rt,
        &mut engine,
        Call::Read {
            handle: 1,
            first: 40,
            count: 0,
        },
        Ok(Done::Read { count: 0 }),
    );
    says(
        rt,
        &mut engine,
        Call::Read {
            handle: 1,
            first: 40,
            count: 1,
        },
        Err(Fault::KeyOutside { key: 40 }),
    );
    says(
        rt,
        &mut engine,
        Call::Read {
            handle: 1,
            first: 1,
            count: 1,
        },
        Err(Fault::ShortBuffer { length: 0 }),
    );
}

/// Checks that an answer refuses with this fault, and the number and place that it is reported by.
fn refuses<F: Refusal + Debug + PartialEq + Copy + Drop>(
    rt: &impl Abort,
    answer: Result<(), F>,
    fault: F,
    number: u8,
    place: u64,
) {
    assert_eq!(rt; answer, Err(fault));
    assert_eq!(rt;
        fault.report(),
        Report {
            layer: 3,
            number,
            place
        }
    );
}

#[test]
fn the_33rd_range_is_refused_and_the_first_again_is_not(rt: HostRuntime) {
    let mut cells = [VERSION; 8];
    let mut entries = [ENTRY; 40];
    ranges(
        &rt,
        LogStore::make(40, &mut cells),
        RecentList::make(40, &mut entries),
    );
}

fn keys<S: VersionStore + Drop, V: Validator + Drop>(rt: &impl Abort, store: S, validator: V) {
    let mut engine = Engine::make(100, store, validator);
    begins(rt, &mut engine, Kind::Updater, 1);
    for key in 0..32u16 {
        says(
            rt,
            &mut engine,
            Call::Write {
                handle: 1,
                key,
                value: u64::from(key),
            },
            Ok(Done::Wrote),
        );
    }
    says(
        rt,
        &mut engine,
        Call::Write {
            handle: 1,
            key: 32,
            value: 5,
        },
        Err(Fault::WriteListFull { handle: 1 }),
    );
    says(
        rt,
        &mut engine,
        Call::Write {
            handle: 1,
            key: 0,
            value: 70,
        },
        Ok(Done::Wrote),
    );
    sees(rt, &mut engine, 1, 0, 70);
    sees(rt, &mut engine, 1, 31, 31);
    sees(rt, &mut engine, 1, 32, 0);
    says(
        rt,
        &mut engine,
        Call::Commit { handle: 1 },
        Ok(Done::Ended(Verdict::Full {
            writes: 32,
            free: 8,
        })),
    );
    says(
        rt,
        &mut engine,
        Call::Commit { handle: 1 },
        Err(Fault::NoTransaction { handle: 1 }),
    );
}

#[test]
fn the_33rd_key_is_refused_and_an_old_key_is_not(rt: HostRuntime) {
    let mut cells = [VERSION; 8];
    let mut stamps = [7; 40];
    keys(
        &rt,
        LogStore::make(40, &mut cells),
        StampTable::make(40, 1, &mut stamps),
    );
}

fn ticks<S: VersionStore + Drop, V: Validator + Drop>(rt: &impl Abort, store: S, validator: V) {
    let mut engine = Engine::make(2, store, validator);
    begins(rt, &mut engine, Kind::Updater, 1);
    begins(rt, &mut engine, Kind::Reader, 2);
    says(
        rt,
        &mut engine,
        Call::Begin(Kind::Reader),
        Err(Fault::ClockSpent { last: 2 }),
    );
    says(
        rt,
        &mut engine,
        Call::Write {
            handle: 2,
            key: 0,
            value: 5,
        },
        Err(Fault::ReaderWrites { handle: 2 }),
    );
    says(
        rt,
        &mut engine,
        Call::Write {
            handle: 1,
            key: 0,
            value: 5,
        },
        Ok(Done::Wrote),
    );
    says(
        rt,
        &mut engine,
        Call::Commit { handle: 1 },
        Ok(Done::Ended(Verdict::Spent)),
    );
    sees(rt, &mut engine, 2, 0, 0);
    says(
        rt,
        &mut engine,
        Call::Commit { handle: 2 },
        Ok(Done::Ended(Verdict::Closed)),
    );
    says(
        rt,
        &mut engine,
        Call::Begin(Kind::Reader),
        Err(Fault::ClockSpent { last: 2 }),
    );
}

#[test]
fn no_tick_comes_after_the_last(rt: HostRuntime) {
    let mut cells = [VERSION; 8];
    let mut entries = [ENTRY; 40];
    ticks(
        &rt,
        LogStore::make(40, &mut cells),
        RecentList::make(40, &mut entries),
    );
}

// Set up wrongly, it refuses every transaction, and has nothing to reclaim.
fn idles<S: VersionStore + Drop, V: Validator + Drop>(
    rt: &impl Abort,
    last: u32,
    store: S,
    validator: V,
    fault: SetUpFault,
    number: u8,
    place: u64,
) {
    let checked = Engine::check(last, &store, &validator);
    refuses(rt, checked, fault, number, place);
    let mut engine = Engine::make(last, store, validator);
    says(
        rt,
        &mut engine,
        Call::Begin(Kind::Updater),
        Err(Fault::ClockSpent { last: 0 }),
    );
    says(
        rt,
        &mut engine,
        Call::Read {
            handle: 0,
            first: 0,
            count: 0,
        },
        Err(Fault::NoTransaction { handle: 0 }),
    );
    says(
        rt,
        &mut engine,
        Call::Reclaim,
        Ok(Done::Reclaimed { count: 0 }),
    );
}

#[test]
fn without_a_last_tick_there_is_no_engine(rt: HostRuntime) {
    let mut cells = [VERSION; 8];
    let mut stamps = [7; 40];
    idles(
        &rt,
        0,
        LogStore::make(40, &mut cells),
        StampTable::make(40, 1, &mut stamps),
        SetUpFault::LastTick { tick: 0 },
        2,
        0,
    );
}

#[test]
fn store_and_validator_have_the_same_keys(rt: HostRuntime) {
    let mut cells = [VERSION; 8];
    let mut stamps = [7; 41];
    idles(
        &rt,
        9,
        LogStore::make(40, &mut cells),
        StampTable::make(41, 1, &mut stamps),
        SetUpFault::NotFresh,
        8,
        0,
    );
}

#[test]
fn an_engine_begins_with_an_empty_store(rt: HostRuntime) {
    let mut cells = [VERSION; 8];
    let mut stamps = [7; 40];
    let mut store = LogStore::make(40, &mut cells);
    assert_eq!(rt; store.add(3, 1, 54), Ok(()));
    idles(
        &rt,
        9,
        store,
        StampTable::make(40, 1, &mut stamps),
        SetUpFault::NotFresh,
        8,
        0,
    );
}

#[test]
fn an_engine_begins_without_a_stamp(rt: HostRuntime) {
    let mut cells = [VERSION; 8];
    let mut stamps = [7; 40];
    let mut validator = StampTable::make(40, 1, &mut stamps);
    assert!(rt; validator.note(3, 1).is_ok());
    idles(
        &rt,
        9,
        LogStore::make(40, &mut cells),
        validator,
        SetUpFault::NotFresh,
        8,
        0,
    );
}
