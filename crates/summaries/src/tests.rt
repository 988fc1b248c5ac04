use crate::Summary;
use crate::kinds::{NonZero, Smallest, Sum};
use ledger::KeyedValue;

/// The figure of the values of keys 7, 8, ..
fn summarized<M: Summary + Copy>(values: &[u64]) -> M {
    let mut figure = M::neutral();
    let mut key = 7;
    for value in values {
        figure = figure.join(M::one(key, *value));
        key = key.wrapping_add(1);
    }
    figure
}

#[test]
fn a_sum_wraps(rt: HostRuntime) {
    assert_eq!(rt; summarized::<Sum>(&[u64::MAX, 2]), Sum { value: 1 });
    assert_eq!(rt; summarized::<Sum>(&[]), Sum { value: 0 });
}

#[test]
fn of_equal_smallest_values_the_lowest_key_is_named(rt: HostRuntime) {
    let least = Some(KeyedValue { key: 8, value: 3 });
    assert_eq!(rt; summarized::<Smallest>(&[5, 3, 4, 3]), Smallest { least });
    assert_eq!(rt; summarized::<Smallest>(&[]), Smallest { least: None });
}

#[test]
fn values_that_are_not_zero_are_counted(rt: HostRuntime) {
    assert_eq!(rt;
        summarized::<NonZero>(&[0, 9, 0, u64::MAX, 1]),
        NonZero { count: 3 }
    );
    assert_eq!(rt; summarized::<NonZero>(&[]), NonZero { count: 0 });
}
