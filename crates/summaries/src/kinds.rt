//! The sum of the values, the smallest of them, and how many are not 0.
ghost use Rattle.std.specs.Prelude.{◌<◌, ◌^◌};

use crate::Summary;
use ledger::KeyedValue;

/// The sum of the values, modulo 2^64.
#[derive(Clone, Copy, Debug, PartialEq, Eq)]
pub struct Sum {
    pub value: u64,
    pub ghost in_range: { value < 2 ^ 64 },
}

/// The smallest value and its key, the first that has it; none of no keys.
#[derive(Clone, Copy, Debug, PartialEq, Eq)]
pub struct Smallest {
    pub least: Option<KeyedValue>,
}

/// How many values are not 0, modulo 2^64.
#[derive(Clone, Copy, Debug, PartialEq, Eq)]
pub struct NonZero {
    pub count: u64,
    pub ghost in_range: { count < 2 ^ 64 },
}

impl Summary for Sum {
    ghost use Rattle.summaries.specs.Kinds.{sum_of, sum_one, sum_join};
    ghost use Rattle.summaries.specs.KindLaws.{sum_laws};

    ghost one = { sum_one };

    ghost neutral = { sum_of 0 };

    ghost join = { sum_join };

    ghost laws = { sum_laws };

    fn one(_key: u16, value: u64) -> Sum {
        Sum { value }
    }

    fn neutral() -> Sum {
        Sum { value: 0 }
    }

    fn join(self, other: Sum) -> Sum {
        Sum {
            value: self.value.wrapping_add(other.value),
        }
    }
}

impl Summary for Smallest {
    ghost use Rattle.summaries.specs.Kinds.{smallest_one, smallest_none, smallest_join};
    ghost use Rattle.summaries.specs.KindLaws.{smallest_laws};

    ghost one = { smallest_one };

    ghost neutral = { smallest_none };

    ghost join = { smallest_join };

    ghost laws = { smallest_laws };

    fn one(key: u16, value: u64) -> Smallest {
        Smallest {
            least: Some(KeyedValue { key, value }),
        }
    }

    fn neutral() -> Smallest {
        Smallest { least: None }
    }

    fn join(self, other: Smallest) -> Smallest {
        match (self.least, other.least) {
            (Some(left), Some(right)) if right.value < left.value => other,
            (Some(_), _) => self,
            (None, _) => other,
        }
    }
}

impl Summary for NonZero {
    ghost use Rattle.summaries.specs.Kinds.{non_zero_of, non_zero_one, non_zero_join};
    ghost use Rattle.summaries.specs.KindLaws.{non_zero_laws};

    ghost one = { non_zero_one };

    ghost neutral = { non_zero_of 0 };

    ghost join = { non_zero_join };

    ghost laws = { non_zero_laws };

    fn one(_key: u16, value: u64) -> NonZero {
        NonZero {
            count: u64::from(value > 0),
        }
    }

    fn neutral() -> NonZero {
        NonZero { count: 0 }
    }

    fn join(self, other: NonZero) -> NonZero {
        NonZero {
            count: self.count.wrapping_add(other.count),
        }
    }
}
