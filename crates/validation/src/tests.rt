use crate::recent::{Entry, RecentList};
use crate::table::StampTable;
use crate::validator::{Clash, Validator};
use refusals::Refusal;
use std::process::Abort;

/// An answer with the number and the place of its fault: what the rules say of a refusal, not what it is called.
fn reported<T: Drop, F: Refusal + Drop>(answer: Result<T, F>) -> Result<T, (u8, u64)> {
    answer.map_err(|fault| {
        let report = fault.report();
        (report.number, report.place)
    })
}

fn answered<F: Refusal + Drop>(
    rt: &impl Abort,
    answer: Result<(), F>,
    expected: Result<(), (u8, u64)>,
) {
    assert_eq!(rt; reported(answer), expected);
}

fn noted<V: Validator>(
    rt: &impl Abort,
    validator: &mut V,
    key: u16,
    stamp: u32,
    answer: Result<(), (u8, u64)>,
) {
    answered(rt, validator.note(key, stamp), answer);
}

fn clash_of(key: u16, stamp: u32) -> Option<Clash> {
    Some(Clash { key, stamp })
}

fn clashes<V: Validator>(
    rt: &impl Abort,
    validator: &V,
    first: u16,
    count: u16,
    start: u32,
    answer: Result<Option<Clash>, (u8, u64)>,
) {
    assert_eq!(rt; reported(validator.clash(first, count, start)), answer);
}

/// Ten keys, each its own granule: keys 4 and 2 are noted, in this order.
fn notes_and_clashes<V: Validator + Drop>(rt: &impl Abort, mut validator: V) {
    noted(rt, &mut validator, 4, 6, Ok(()));
    noted(rt, &mut validator, 4, 7, Ok(()));
    noted(rt, &mut validator, 4, 7, Ok(()));
    noted(rt, &mut validator, 4, 6, Err((16, 4)));
    noted(rt, &mut validator, 10, 9, Err((5, 10)));
    noted(rt, &mut validator, 2, 9, Ok(()));
    clashes(rt, &validator, 0, 10, 6, Ok(clash_of(2, 9)));
    clashes(rt, &validator, 3, 7, 6, Ok(clash_of(4, 7)));
    clashes(rt, &validator, 3, 7, 7, Ok(None));
    clashes(rt, &validator, 0, 0, 0, Ok(None));
    clashes(rt, &validator, 10, 0, 0, Ok(None));
    clashes(rt, &validator, 10, 1, 0, Err((5, 10)));
    assert_eq!(rt; reported(validator.granule(9)), Ok(9));
    assert_eq!(rt; validator.latest(), 9);
}

/// Ten keys, each its own granule: a trim below the stamp 7, at it and above it.
fn trims<V: Validator + Drop>(rt: &impl Abort, mut validator: V) {
    noted(rt, &mut validator, 4, 7, Ok(()));
    noted(rt, &mut validator, 5, 3, Ok(()));
    validator.trim(6);
    clashes(rt, &validator, 0, 10, 0, Ok(clash_of(4, 7)));
    clashes(rt, &validator, 5, 1, 0, Ok(None));
    validator.trim(7);
    assert_eq!(rt; validator.latest(), 7);
    validator.trim(8);
    clashes(rt, &validator, 0, 10, 0, Ok(None));
    assert_eq!(rt; validator.latest(), 0);
    noted(rt, &mut validator, 4, 1, Ok(()));
}

#[test]
fn set_up_is_checked(rt: HostRuntime) {
    answered(&rt, StampTable::check(0, 1, 0), Err((1, 0)));
    answered(&rt, StampTable::check(1025, 0, 0), Err((1, 1025)));
    answered(&rt, StampTable::check(10, 0, 10), Err((4, 0)));
    answered(&rt, StampTable::check(10, 11, 1), Err((4, 11)));
    answered(&rt, StampTable::check(10, 3, 3), Err((3, 3)));
    answered(&rt, StampTable::check(10, 3, 4), Ok(()));
    answered(&rt, StampTable::check(1024, 1024, 1), Ok(()));
    answered(&rt, RecentList::check(1025, 1025), Err((1, 1025)));
    answered(&rt, RecentList::check(10, 11), Err((3, 11)));
    answered(&rt, RecentList::check(10, 10), Ok(()));
}

/// Whether a table from a refused set-up has no keys, and every place lent to it is cleared.
fn table_is_void(keys: u16, grain: u16, stamps: &mut [u32]) -> bool {
    let left = StampTable::make(keys, grain, stamps).keys();
    left == 0 && stamps.iter().all(|stamp| *stamp == 0)
}

/// Whether a list from a refused set-up has no keys, and every place lent to it is cleared.
fn list_is_void(keys: u16, entries: &mut [Entry]) -> bool {
    let left = RecentList::make(keys, entries).keys();
    left == 0
        && entries
            .iter()
            .all(|entry| entry.key == 0 && entry.stamp == 0)
}

#[test]
fn refused_set_ups_are_cleared(rt: HostRuntime) {
    assert!(rt; table_is_void(0, 1, &mut [8; 3]));
    assert!(rt; table_is_void(1025, 1, &mut [8; 3]));
    assert!(rt; table_is_void(10, 0, &mut [8; 3]));
    assert!(rt; table_is_void(10, 11, &mut [8; 3]));
    assert!(rt; table_is_void(10, 3, &mut [8; 3]));
    let noted = Entry { key: 8, stamp: 8 };
    assert!(rt; list_is_void(0, &mut [noted; 3]));
    assert!(rt; list_is_void(1025, &mut [noted; 3]));
    assert!(rt; list_is_void(10, &mut [noted; 9]));
}

#[test]
fn a_key_is_a_granule(rt: HostRuntime) {
    notes_and_clashes(&rt, StampTable::make(10, 1, &mut [8; 10]));
    notes_and_clashes(
        &rt,
        RecentList::make(10, &mut [Entry { key: 1, stamp: 8 }; 10]),
    );
    trims(&rt, StampTable::make(10, 1, &mut [8; 10]));
    trims(
        &rt,
        RecentList::make(10, &mut [Entry { key: 1, stamp: 8 }; 10]),
    );
}

#[test]
fn three_keys_are_a_granule(rt: HostRuntime) {
    let mut stamps = [8; 4];
    let mut table = StampTable::make(10, 3, &mut stamps);
    assert_eq!(rt; reported(table.granule(8)), Ok(2));
    assert_eq!(rt; reported(table.granule(9)), Ok(3));
    noted(&rt, &mut table, 4, 5, Ok(()));
    noted(&rt, &mut table, 3, 4, Err((16, 3)));
    clashes(&rt, &table, 0, 10, 4, Ok(clash_of(3, 5)));
    clashes(&rt, &table, 5, 5, 4, Ok(clash_of(5, 5)));
    clashes(&rt, &table, 6, 4, 0, Ok(None));
}

#[test]
fn all_keys_are_a_granule(rt: HostRuntime) {
    let mut stamps = [8; 1];
    let mut table = StampTable::make(10, 10, &mut stamps);
    assert_eq!(rt; reported(table.granule(9)), Ok(0));
    noted(&rt, &mut table, 9, 2, Ok(()));
    clashes(&rt, &table, 0, 1, 1, Ok(clash_of(0, 2)));
    clashes(&rt, &table, 0, 10, 2, Ok(None));
}
