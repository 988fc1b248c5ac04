use crate::fault::{SizeFault, StoreFault};
use crate::log::LogStore;
use crate::store::{Version, VersionStore};

const VERSION: Version = Version {
    key: 9,
    stamp: 9,
    value: 9,
};

// The checks of add come in the order key, stamp, cells.
#[test]
fn add_refuses_in_order(rt: HostRuntime) {
    let mut cells = [VERSION; 2];
    let mut store = LogStore::make(3, &mut cells);
    assert_eq!(rt; store.newest(2), Ok((0, 0)));
    assert_eq!(rt; store.add(2, 0, 7), Err(StoreFault::StaleStamp { key: 2 }));
    assert_eq!(rt; store.add(2, 4, 7), Ok(()));
    assert_eq!(rt; store.add(0, 4, 8), Ok(()));
    assert_eq!(rt; store.add(3, 0, 1), Err(StoreFault::KeyOutside { key: 3 }));
    assert_eq!(rt; store.add(2, 4, 1), Err(StoreFault::StaleStamp { key: 2 }));
    assert_eq!(rt; store.add(2, 5, 1), Err(StoreFault::Full { key: 2 }));
    assert_eq!(rt; store.newest(2), Ok((4, 7)));
    assert_eq!(rt; store.as_of(2, 4), Ok((0, 0)));
    assert_eq!(rt; store.as_of(2, 5), Ok((4, 7)));
    assert_eq!(rt; store.newest(3), Err(StoreFault::KeyOutside { key: 3 }));
    assert_eq!(rt; store.as_of(3, 1), Err(StoreFault::KeyOutside { key: 3 }));
    assert!(rt; store.kept() == 2 && store.free() == 0);
}

// How many versions a prune removes of a key stamped 2, 4 and 6 and another stamped 3.
fn removed(horizon: u32) -> (u16, u32) {
    let mut cells = [VERSION; 4];
    let mut store = LogStore::make(1024, &mut cells);
    let _ = store.add(1023, 2, 20);
    let _ = store.add(0, 3, 30);
    let _ = store.add(1023, 4, 40);
    let _ = store.add(1023, 6, 60);
    let count = store.prune(horizon);
    let oldest = store.as_of(1023, 5).map_or(9, |(stamp, _)| stamp);
    (count, oldest)
}

#[test]
fn prune_goes_by_the_horizon(rt: HostRuntime) {
    assert_eq!(rt; removed(0), (0, 4));
    assert_eq!(rt; removed(2), (0, 4));
    assert_eq!(rt; removed(4), (0, 4));
    assert_eq!(rt; removed(5), (1, 4));
    assert_eq!(rt; removed(6), (1, 4));
    assert_eq!(rt; removed(7), (2, 0));
    assert_eq!(rt; removed(u32::MAX), (2, 0));
}

// A store from a refused set-up has no keys and no cells, and answers every call.
fn answers_as_void(mut store: LogStore<'_>) -> bool {
    let refuses = store.newest(0) == Err(StoreFault::KeyOutside { key: 0 })
        && store.as_of(0, 1) == Err(StoreFault::KeyOutside { key: 0 })
        && store.add(0, 1, 1) == Err(StoreFault::KeyOutside { key: 0 });
    refuses && store.keys() == 0 && store.kept() == 0 && store.free() == 0 && store.prune(9) == 0
}

// Every cell that was lent to it is cleared all the same.
fn is_void(keys: u16, cells: &mut [Version]) -> bool {
    answers_as_void(LogStore::make(keys, cells))
        && cells
            .iter()
            .all(|cell| cell.key == 0 && cell.stamp == 0 && cell.value == 0)
}

#[test]
fn refused_set_ups_make_void_stores(rt: HostRuntime) {
    assert!(rt; is_void(0, &mut [VERSION; 2]));
    assert!(rt; is_void(1025, &mut [VERSION; 2]));
    assert!(rt; is_void(1, &mut []));
    assert!(rt; is_void(1, &mut [VERSION; 2049]));
}

#[test]
fn check_refuses_in_order(rt: HostRuntime) {
    assert_eq!(rt; LogStore::check(0, 0), Err(SizeFault::Keys { keys: 0 }));
    assert_eq!(rt;
        LogStore::check(1025, 1),
        Err(SizeFault::Keys { keys: 1025 })
    );
    assert_eq!(rt; LogStore::check(1, 0), Err(SizeFault::Cells { cells: 0 }));
    assert_eq!(rt;
        LogStore::check(1, 2049),
        Err(SizeFault::Cells { cells: 2049 })
    );
    assert_eq!(rt; LogStore::check(1024, 2048), Ok(()));
}
