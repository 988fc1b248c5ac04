use engine::engine::Engine;
use ledger::{Call, Done, Fault, Kind};
use std::process::Abort;
use validation::recent::Entry;
use validation::validator::Validator;
use versions::store::{Version, VersionStore};

/// What lent memory holds before: a store or a validator clears it.
pub const VERSION: Version = Version {
    key: 7,
    stamp: 7,
    value: 7,
};

pub const ENTRY: Entry = Entry { key: 7, stamp: 7 };

/// Makes a call without a buffer, and checks what it answers.
pub fn says<S: VersionStore, V: Validator>(
    rt: &impl Abort,
    engine: &mut Engine<S, V>,
    call: Call,
    expected: Result<Done, Fault>,
) {
    assert_eq!(rt; engine.call(call, &mut []), expected);
}

/// Begins a transaction of this kind, which gets this handle.
pub fn begins<S: VersionStore, V: Validator>(
    rt: &impl Abort,
    engine: &mut Engine<S, V>,
    kind: Kind,
    handle: u32,
) {
    says(rt, engine, Call::Begin(kind), Ok(Done::Began { handle }));
}

/// Reads one key, and checks its value; the place behind it is left.
pub fn sees<S: VersionStore, V: Validator>(
    rt: &impl Abort,
    engine: &mut Engine<S, V>,
    handle: u32,
    key: u16,
    value: u64,
) {
    let mut buffer = [9, 9];
    let answer = engine.call(
        Call::Read {
            handle,
            first: key,
            count: 1,
        },
        &mut buffer,
    );
    assert_eq!(rt; answer, Ok(Done::Read { count: 1 }));
    assert_eq!(rt; buffer, [value, 9]);
}
