use crate::calls::{ENTRY, VERSION};
use chain::cell::Cell;
use chain::store::ChainStore;
use engine::replay::{Request, replay};
use ledger::{Call, Done, Fault, Kind, Verdict};
use std::process::Abort;
use validation::recent::RecentList;
use validation::table::StampTable;
use validation::validator::Validator;
use versions::log::LogStore;
use versions::store::VersionStore;

fn ask(call: Call, room: usize) -> Request {
    Request {
        call,
        room,
        answer: Ok(Done::Aborted),
    }
}

// A card is posted while a report reads and an index is made again from it: the report sees one
// moment, and the index is restarted.
fn report<S: VersionStore + Drop, V: Validator + Drop>(rt: &impl Abort, store: S, validator: V) {
    let mut requests = [
        ask(Call::Begin(Kind::Updater), 0),
        ask(
            Call::Write {
                handle: 1,
                key: 5,
                value: 54,
            },
            0,
        ),
        ask(Call::Begin(Kind::Reader), 0),
        ask(Call::Begin(Kind::Updater), 0),
        ask(
            Call::Read {
                handle: 3,
                first: 5,
                count: 1,
            },
            2,
        ),
        ask(Call::Commit { handle: 1 }, 0),
        ask(
            Call::Read {
                handle: 2,
                first: 5,
                count: 2,
            },
            2,
        ),
        ask(Call::Commit { handle: 3 }, 0),
        ask(Call::Reclaim, 0),
        ask(Call::Commit { handle: 2 }, 0),
        ask(
            Call::Read {
                handle: 2,
                first: 64,
                count: 0,
            },
            2,
        ),
        ask(Call::Begin(Kind::Reader), 0),
        ask(
            Call::Read {
                handle: 5,
                first: 5,
                count: 1,
            },
            2,
        ),
        ask(
            Call::Read {
                handle: 5,
                first: 64,
                count: 1,
            },
            2,
        ),
    ];
    let answers = [
        Ok(Done::Began { handle: 1 }),
        Ok(Done::Wrote),
        Ok(Done::Began { handle: 2 }),
        Ok(Done::Began { handle: 3 }),
        Ok(Done::Read { count: 1 }),
        Ok(Done::Ended(Verdict::Committed { tick: 4 })),
        Ok(Done::Read { count: 2 }),
        Ok(Done::Ended(Verdict::Restart { key: 5, stamp: 4 })),
        Ok(Done::Reclaimed { count: 0 }),
        Ok(Done::Ended(Verdict::Closed)),
        Err(Fault::NoTransaction { handle: 2 }),
        Ok(Done::Began { handle: 5 }),
        Ok(Done::Read { count: 1 }),
        Err(Fault::KeyOutside { key: 64 }),
    ];
    let mut buffers = [9; 10];
    let _ = replay(4_294_967_294, store, validator, &mut requests, &mut buffers);
    assert_eq!(rt; requests.map(|request| request.answer), answers);
    assert_eq!(rt; buffers, [0, 9, 0, 0, 9, 9, 54, 9, 9, 9]);
}

// Two cells: without a reader a reclaim frees one, with a reader it does not.
fn handicaps<S: VersionStore + Drop, V: Validator + Drop>(rt: &impl Abort, store: S, validator: V) {
    let mut requests = [
        ask(Call::Begin(Kind::Updater), 0),
        ask(
            Call::Write {
                handle: 1,
                key: 0,
                value: 21,
            },
            0,
        ),
        ask(Call::Commit { handle: 1 }, 0),
        ask(Call::Begin(Kind::Updater), 0),
        ask(
            Call::Write {
                handle: 3,
                key: 0,
                value: 22,
            },
            0,
        ),
        ask(Call::Commit { handle: 3 }, 0),
        ask(Call::Begin(Kind::Updater), 0),
        ask(
            Call::Write {
                handle: 5,
                key: 0,
                value: 23,
            },
            0,
        ),
        ask(Call::Commit { handle: 5 }, 0),
        ask(Call::Begin(Kind::Reader), 0),
        ask(Call::Begin(Kind::Updater), 0),
        ask(
            Call::Write {
                handle: 8,
                key: 0,
                value: 24,
            },
            0,
        ),
        ask(Call::Commit { handle: 8 }, 0),
        ask(Call::Begin(Kind::Updater), 0),
        ask(
            Call::Write {
                handle: 10,
                key: 0,
                value: 25,
            },
            0,
        ),
        ask(Call::Commit { handle: 10 }, 0),
        ask(
            Call::Read {
                handle: 7,
                first: 0,
                count: 1,
            },
            1,
        ),
        ask(Call::Abort { handle: 7 }, 0),
        ask(Call::Reclaim, 0),
    ];
    let answers = [
        Ok(Done::Began { handle: 1 }),
        Ok(Done::Wrote),
        Ok(Done::Ended(Verdict::Committed { tick: 2 })),
        Ok(Done::Began { handle: 3 }),
        Ok(Done::Wrote),
        Ok(Done::Ended(Verdict::Committed { tick: 4 })),
        Ok(Done::Began { handle: 5 }),
        Ok(Done::Wrote),
        Ok(Done::Ended(Verdict::Committed { tick: 6 })),
        Ok(Done::Began { handle: 7 }),
        Ok(Done::Began { handle: 8 }),
        Ok(Done::Wrote),
        Ok(Done::Ended(Verdict::Committed { tick: 9 })),
        Ok(Done::Began { handle: 10 }),
        Ok(Done::Wrote),
        Ok(Done::Ended(Verdict::Full { writes: 1, free: 0 })),
        Ok(Done::Read { count: 1 }),
        Ok(Done::Aborted),
        Ok(Done::Reclaimed { count: 1 }),
    ];
    let mut buffers = [9; 1];
    let _ = replay(100, store, validator, &mut requests, &mut buffers);
    assert_eq!(rt; requests.map(|request| request.answer), answers);
    assert_eq!(rt; buffers, [23]);
}

// Each test lends its own memory to a pair: a helper that makes a pair and hands it to a closure did not prove.
#[test]
fn a_report_on_log_and_stamps(rt: HostRuntime) {
    let mut cells = [VERSION; 8];
    let mut stamps = [7; 64];
    report(
        &rt,
        LogStore::make(64, &mut cells),
        StampTable::make(64, 1, &mut stamps),
    );
}

#[test]
fn a_report_on_log_and_recent(rt: HostRuntime) {
    let mut cells = [VERSION; 8];
    let mut entries = [ENTRY; 64];
    report(
        &rt,
        LogStore::make(64, &mut cells),
        RecentList::make(64, &mut entries),
    );
}

#[test]
fn a_report_on_chain_and_stamps(rt: HostRuntime) {
    let mut heads = [None; 64];
    let mut cells = [Cell::CLEARED; 8];
    let mut stamps = [7; 64];
    report(
        &rt,
        ChainStore::make(64, &mut heads, &mut cells),
        StampTable::make(64, 1, &mut stamps),
    );
}

#[test]
fn a_report_on_chain_and_recent(rt: HostRuntime) {
    let mut heads = [None; 64];
    let mut cells = [Cell::CLEARED; 8];
    let mut entries = [ENTRY; 64];
    report(
        &rt,
        ChainStore::make(64, &mut heads, &mut cells),
        RecentList::make(64, &mut entries),
    );
}

#[test]
fn handicaps_on_log_and_stamps(rt: HostRuntime) {
    let mut cells = [VERSION; 2];
    let mut stamps = [7; 64];
    handicaps(
        &rt,
        LogStore::make(64, &mut cells),
        StampTable::make(64, 1, &mut stamps),
    );
}

#[test]
fn handicaps_on_log_and_recent(rt: HostRuntime) {
    let mut cells = [VERSION; 2];
    let mut entries = [ENTRY; 64];
    handicaps(
        &rt,
        LogStore::make(64, &mut cells),
        RecentList::make(64, &mut entries),
    );
}

#[test]
fn handicaps_on_chain_and_stamps(rt: HostRuntime) {
    let mut heads = [None; 64];
    let mut cells = [Cell::CLEARED; 2];
    let mut stamps = [7; 64];
    handicaps(
        &rt,
        ChainStore::make(64, &mut heads, &mut cells),
        StampTable::make(64, 1, &mut stamps),
    );
}

#[test]
fn handicaps_on_chain_and_recent(rt: HostRuntime) {
    let mut heads = [None; 64];
    let mut cells = [Cell::CLEARED; 2];
    let mut entries = [ENTRY; 64];
    handicaps(
        &rt,
        ChainStore::make(64, &mut heads, &mut cells),
        RecentList::make(64, &mut entries),
    );
}
