// Runs the chain store beside the log store, and holds every answer of the one to the other's.
use crate::cell::{Cell, Link};
use crate::fault::ChainFault;
use crate::store::ChainStore;
use refusals::{Refusal, Report};
use std::fmt::Debug;
use std::process::Abort;
use versions::fault::{SizeFault, StoreFault};
use versions::log::LogStore;
use versions::store::{Version, VersionStore};

// What lent memory holds before, and not `Cell::CLEARED`: a store has to clear it.
const CELL: Cell = Cell {
    stamp: 7,
    value: 7,
    next: Some(7),
};

const VERSION: Version = Version {
    key: 7,
    stamp: 7,
    value: 7,
};

// Checks that an answer refuses with this fault, and the number and place that it is reported by.
fn refuses<F: Refusal + Copy + Debug + PartialEq>(
    rt: &impl Abort,
    answer: Result<(), F>,
    fault: F,
    number: u8,
    place: u64,
) {
    assert_eq!(rt; answer, Err(fault));
    assert_eq!(rt;
        fault.report(),
        Report {
            layer: 1,
            number,
            place
        }
    );
}

// Whether two stores answer every question alike, of one key more than they have and up to a tick.
fn alike<A: VersionStore, B: VersionStore>(a: &A, b: &B, last: u32) -> bool {
    (0..5).all(|key| {
        a.newest(key) == b.newest(key)
            && (0..last).all(|tick| a.as_of(key, tick) == b.as_of(key, tick))
    }) && a.kept() == b.kept()
        && a.free() == b.free()
}

// Adds to both stores until they are full, and on; some stamps are stale, and one key is not there.
fn fill<A: VersionStore, B: VersionStore>(rt: &impl Abort, a: &mut A, b: &mut B, round: u8) {
    let first = u32::from(round) * 10 + 1;
    for step in 0..24u16 {
        let key = step / 2 % 5;
        let stamp = first + u32::from(step / 3);
        let value = u64::from(stamp) * 100 + u64::from(key);
        assert_eq!(rt; a.add(key, stamp, value), b.add(key, stamp, value));
        assert!(rt; alike(a, b, first + 10));
    }
    assert_eq!(rt; a.free(), 0);
}

// Prunes both stores, and answers how many versions went.
fn prune<A: VersionStore, B: VersionStore>(
    rt: &impl Abort,
    a: &mut A,
    b: &mut B,
    horizon: u32,
) -> u16 {
    let gone = a.prune(horizon);
    assert_eq!(rt; gone, b.prune(horizon));
    assert!(rt; alike(a, b, 100));
    gone
}

fn rounds<A: VersionStore, B: VersionStore>(rt: &impl Abort, a: &mut A, b: &mut B) {
    fill(rt, a, b, 0);
    assert_eq!(rt; prune(rt, a, b, 1), 0);
    assert!(rt; prune(rt, a, b, 6) > 0);
    fill(rt, a, b, 1);
    assert!(rt; prune(rt, a, b, 14) > 0);
    fill(rt, a, b, 2);
    assert!(rt; prune(rt, a, b, u32::MAX) > 0);
    assert_eq!(rt; a.kept(), 4);
    fill(rt, a, b, 3);
    assert!(rt; prune(rt, a, b, 35) > 0);
}

#[test]
fn answers_as_the_log_does(rt: HostRuntime) {
    let mut heads = [Some(7); 4];
    let mut cells = [CELL; 10];
    let mut versions = [VERSION; 10];
    let mut chain = ChainStore::make(4, &mut heads, &mut cells);
    let mut log = LogStore::make(4, &mut versions);
    rounds(&rt, &mut chain, &mut log);
}

// Whether a store from a refused set-up has no keys, and every head and cell lent to it is cleared.
fn is_void(keys: u16, heads: &mut [Link], cells: &mut [Cell]) -> bool {
    let left = ChainStore::make(keys, heads, cells).keys();
    left == 0
        && heads.iter().all(|head| head.is_none())
        && cells.iter().all(|cell| cell.stamp == 0 && cell.value == 0 && cell.next.is_none())
}

#[test]
fn refused_set_ups_are_cleared(rt: HostRuntime) {
    assert!(rt; is_void(0, &mut [Some(7); 4], &mut [CELL; 10]));
    assert!(rt; is_void(1025, &mut [Some(7); 4], &mut [CELL; 10]));
    assert!(rt; is_void(4, &mut [Some(7); 4], &mut []));
    assert!(rt; is_void(4, &mut [Some(7); 4], &mut [CELL; 2049]));
    assert!(rt; is_void(4, &mut [Some(7); 3], &mut [CELL; 10]));
}

#[test]
fn refuses_a_set_up(rt: HostRuntime) {
    assert_eq!(rt; ChainStore::check(4, 4, 10), Ok(()));
    refuses(
        &rt,
        ChainStore::check(0, 0, 0),
        ChainFault::Sizes(SizeFault::Keys { keys: 0 }),
        1,
        0,
    );
    refuses(
        &rt,
        ChainStore::check(1025, 1025, 10),
        ChainFault::Sizes(SizeFault::Keys { keys: 1025 }),
        1,
        1025,
    );
    refuses(
        &rt,
        ChainStore::check(4, 3, 0),
        ChainFault::Sizes(SizeFault::Cells { cells: 0 }),
        3,
        0,
    );
    refuses(
        &rt,
        ChainStore::check(4, 3, 2049),
        ChainFault::Sizes(SizeFault::Cells { cells: 2049 }),
        3,
        2049,
    );
    refuses(
        &rt,
        ChainStore::check(4, 3, 10),
        ChainFault::Heads { heads: 3 },
        3,
        3,
    );
}

#[test]
fn a_refused_set_up_has_no_keys(rt: HostRuntime) {
    let mut heads = [Some(7); 3];
    let mut cells = [CELL; 10];
    let mut versions = [VERSION; 10];
    let mut chain = ChainStore::make(4, &mut heads, &mut cells);
    let mut log = LogStore::make(0, &mut versions);
    refuses(
        &rt,
        chain.add(0, 1, 1),
        StoreFault::KeyOutside { key: 0 },
        5,
        0,
    );
    assert_eq!(rt; prune(&rt, &mut chain, &mut log, 9), 0);
    assert_eq!(rt; chain.free(), 0);
}
