ghost use Rattle.std.specs.Int.Bits.{bit_xor, xor_zero_l, xor_zero_r, xor_assoc};
ghost use Rattle.std.proofs.Common.{ap};

use crate::calls::{ENTRY, VERSION, begins, says, sees};
use chain::cell::Cell;
use chain::store::ChainStore;
use engine::engine::Engine;
use engine::slip::{Reading, Updating, Writing};
use ledger::{Call, Done, Fault, Figure, KeyedValue, Kind, SummaryKind, Verdict};
use std::process::Abort;
use summaries::Summary;
use summaries::kinds::{Smallest, Sum};
use validation::recent::RecentList;
use validation::table::StampTable;
use validation::validator::Validator;
use versions::log::LogStore;
use versions::store::VersionStore;

/// The sum of a range.
fn sum_call(handle: u32, first: u16, count: u16) -> Call {
    Call::Total {
        handle,
        first,
        count,
        summary: SummaryKind::Sum,
    }
}

fn summed(value: u64) -> Result<Done, Fault> {
    Ok(Done::Total(Figure::Sum { value }))
}

fn least_is(least: Option<KeyedValue>) -> Result<Done, Fault> {
    Ok(Done::Total(Figure::Smallest { least }))
}

/// Writes a value to a key and commits, at the two next ticks.
fn posts<S: VersionStore, V: Validator>(
    rt: &impl Abort,
    engine: &mut Engine<S, V>,
    handle: u32,
    key: u16,
    value: u64,
) {
    begins(rt, engine, Kind::Updater, handle);
    says(
        rt,
        engine,
        Call::Write { handle, key, value },
        Ok(Done::Wrote),
    );
    let tick = handle.saturating_add(1);
    let committed = Done::Ended(Verdict::Committed { tick });
    says(rt, engine, Call::Commit { handle }, Ok(committed));
}

fn refused_in_order<S: VersionStore + Drop, V: Validator + Drop>(
    rt: &impl Abort,
    store: S,
    validator: V,
) {
    let mut engine = Engine::make(100, store, validator);
    // Without a transaction, then past the table: each goes before the next.
    let none = Fault::NoTransaction { handle: 1 };
    says(rt, &mut engine, sum_call(1, 39, 2), Err(none));
    begins(rt, &mut engine, Kind::Updater, 1);
    for key in 0..31u16 {
        sees(rt, &mut engine, 1, key, 0);
    }
    says(rt, &mut engine, sum_call(1, 31, 1), summed(0));
    let outside = Fault::KeyOutside { key: 39 };
    says(rt, &mut engine, sum_call(1, 39, 2), Err(outside));
    let full = Fault::ReadListFull { handle: 1 };
    says(rt, &mut engine, sum_call(1, 32, 1), Err(full));
    // What a read or a total joined is there, and no keys need not join.
    says(rt, &mut engine, sum_call(1, 30, 1), summed(0));
    says(rt, &mut engine, sum_call(1, 31, 1), summed(0));
    sees(rt, &mut engine, 1, 31, 0);
    says(rt, &mut engine, sum_call(1, 40, 0), summed(0));
    let past = Fault::KeyOutside { key: 41 };
    says(rt, &mut engine, sum_call(1, 41, 0), Err(past));
    // A buffer that is lent stays whole, accepted or refused.
    let mut buffer = [9, 9];
    assert_eq!(rt; engine.call(sum_call(1, 0, 1), &mut buffer), summed(0));
    assert_eq!(rt; buffer, [9, 9]);
    assert_eq!(rt; engine.call(sum_call(1, 0, 2), &mut buffer), Err(full));
    assert_eq!(rt; buffer, [9, 9]);
}

#[test]
fn a_total_is_refused_in_order(rt: HostRuntime) {
    let mut cells = [VERSION; 8];
    let mut stamps = [7; 40];
    refused_in_order(
        &rt,
        LogStore::make(40, &mut cells),
        StampTable::make(40, 1, &mut stamps),
    );
}

fn figures<S: VersionStore + Drop, V: Validator + Drop>(rt: &impl Abort, store: S, validator: V) {
    let mut engine = Engine::make(100, store, validator);
    posts(rt, &mut engine, 1, 0, u64::MAX);
    posts(rt, &mut engine, 3, 2, 5);
    posts(rt, &mut engine, 5, 3, 5);
    begins(rt, &mut engine, Kind::Reader, 7);
    posts(rt, &mut engine, 8, 3, 4);
    // The sum goes round at 2^64, and a card that came later is not in the report.
    says(rt, &mut engine, sum_call(7, 0, 4), summed(9));
    assert_eq!(rt; engine.total::<Sum>(7, 2, 2), Ok(Sum { value: 10 }));
    // Of equal values the lowest key, and a key that was never written has 0.
    let least = Some(KeyedValue { key: 2, value: 5 });
    assert_eq!(rt; engine.total::<Smallest>(7, 2, 2), Ok(Smallest { least }));
    let least = Some(KeyedValue { key: 1, value: 0 });
    let smallest = |count| Call::Total {
        handle: 7,
        first: 0,
        count,
        summary: SummaryKind::Smallest,
    };
    says(rt, &mut engine, smallest(4), least_is(least));
    says(rt, &mut engine, smallest(0), least_is(None));
    let non_zero = Call::Total {
        handle: 7,
        first: 0,
        count: 4,
        summary: SummaryKind::NonZero,
    };
    let three = Done::Total(Figure::NonZero { count: 3 });
    says(rt, &mut engine, non_zero, Ok(three));
}

#[test]
fn figures_are_those_of_the_values(rt: HostRuntime) {
    let mut heads = [None; 8];
    let mut cells = [Cell::CLEARED; 8];
    let mut entries = [ENTRY; 8];
    figures(
        &rt,
        ChainStore::make(8, &mut heads, &mut cells),
        RecentList::make(8, &mut entries),
    );
}

fn restarted<S: VersionStore + Drop, V: Validator + Drop>(rt: &impl Abort, store: S, validator: V) {
    let mut engine = Engine::make(100, store, validator);
    begins(rt, &mut engine, Kind::Updater, 1);
    begins(rt, &mut engine, Kind::Updater, 2);
    says(rt, &mut engine, sum_call(1, 2, 2), summed(0));
    says(rt, &mut engine, sum_call(2, 3, 0), summed(0));
    posts(rt, &mut engine, 3, 3, 7);
    let restart = Done::Ended(Verdict::Restart { key: 3, stamp: 4 });
    says(rt, &mut engine, Call::Commit { handle: 1 }, Ok(restart));
    let committed = Done::Ended(Verdict::Committed { tick: 5 });
    says(rt, &mut engine, Call::Commit { handle: 2 }, Ok(committed));
}

#[test]
fn a_total_of_keys_is_restarted_and_one_of_none_is_not(rt: HostRuntime) {
    let mut cells = [VERSION; 8];
    let mut stamps = [7; 8];
    restarted(
        &rt,
        LogStore::make(8, &mut cells),
        StampTable::make(8, 1, &mut stamps),
    );
}

/// Totals eight keys under an updater's slip that writes one of them, and under a reader's: both sums.
fn totals_under_slips<S: VersionStore, V: Validator>(
    engine: &mut Engine<S, V>,
) -> Result<(Sum, Sum), Fault> {
    let slip = engine.begin_slip::<Updating>()?;
    let wrote = engine.write_under(Writing { slip: &slip }, 2, 54);
    let own = engine.total_under::<_, Sum>(&slip, 0, 8);
    let committed = engine.commit_under(slip);
    let slip = engine.begin_slip::<Reading>()?;
    let shown = engine.total_under::<_, Sum>(&slip, 0, 8);
    let closed = engine.commit_under(slip);
    wrote?;
    committed?;
    closed?;
    Ok((own?, shown?))
}

fn under_slips<S: VersionStore + Drop, V: Validator + Drop>(
    rt: &impl Abort,
    store: S,
    validator: V,
) {
    let mut engine = Engine::make(100, store, validator);
    let sum = Sum { value: 54 };
    assert_eq!(rt; totals_under_slips(&mut engine), Ok((sum, sum)));
}

#[test]
fn both_slips_allow_a_total(rt: HostRuntime) {
    let mut cells = [VERSION; 8];
    let mut entries = [ENTRY; 8];
    under_slips(
        &rt,
        LogStore::make(8, &mut cells),
        RecentList::make(8, &mut entries),
    );
}

/// The exclusive-or of the values: a kind that no call names.
#[derive(Clone, Copy, Debug, PartialEq, Eq)]
struct Xor {
    bits: u64,
}

impl Summary for Xor {
    ghost one = { λ k v. record { bits = v } };

    ghost neutral = { record { bits = 0 } };

    ghost join = { λ x y. record { bits = bit_xor x.bits y.bits } };

    ghost laws = { record {
      left_neutral = λ x. ap (λ b. record { bits = b }) (xor_zero_l x.bits);
      right_neutral = λ x. ap (λ b. record { bits = b }) (xor_zero_r x.bits);
      assoc = λ x y z. ap (λ b. record { bits = b }) (xor_assoc x.bits y.bits z.bits);
    } };

    fn one(_key: u16, value: u64) -> Xor {
        Xor { bits: value }
    }

    fn neutral() -> Xor {
        Xor { bits: 0 }
    }

    fn join(self, other: Xor) -> Xor {
        Xor {
            bits: self.bits ^ other.bits,
        }
    }
}

fn own_kind<S: VersionStore + Drop, V: Validator + Drop>(rt: &impl Abort, store: S, validator: V) {
    let mut engine = Engine::make(100, store, validator);
    posts(rt, &mut engine, 1, 0, 12);
    posts(rt, &mut engine, 3, 2, 10);
    begins(rt, &mut engine, Kind::Reader, 5);
    assert_eq!(rt; engine.total::<Xor>(5, 0, 8), Ok(Xor { bits: 6 }));
    assert_eq!(rt; engine.total::<Xor>(5, 3, 0), Ok(Xor { bits: 0 }));
    let refused = Err(Fault::KeyOutside { key: 3 });
    assert_eq!(rt; engine.total::<Xor>(5, 3, 6), refused);
}

#[test]
fn another_kind_of_summary_is_one_more_implementation(rt: HostRuntime) {
    let mut cells = [VERSION; 8];
    let mut entries = [ENTRY; 8];
    own_kind(
        &rt,
        LogStore::make(8, &mut cells),
        RecentList::make(8, &mut entries),
    );
}

#[test]
fn without_ticks_there_is_nothing_to_total(rt: HostRuntime) {
    let mut cells = [VERSION; 8];
    let mut entries = [ENTRY; 8];
    let store = LogStore::make(8, &mut cells);
    let mut engine = Engine::make(0, store, RecentList::make(8, &mut entries));
    let none = Fault::NoTransaction { handle: 0 };
    assert_eq!(rt; engine.total::<Sum>(0, 0, 0), Err(none));
    says(&rt, &mut engine, sum_call(0, 0, 0), Err(none));
}
