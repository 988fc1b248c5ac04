ghost use Rattle.std.specs.Prelude.{◌≡◌};
ghost use Rattle.stamped.specs.Lookups.{takes, matches, last_position};

use crate::Stamped;

/// Which stamps a look-up takes: every one, or those below a tick. No `Option` of a tick, since the present is
/// a moment too.
#[derive(Clone, Copy)]
pub enum Moment {
    Now,
    Before(u32),
}

impl Moment {
    /// Whether a stamp counts at this moment.
    pub fn takes(self, stamp: u32) -> bool
        ensures { result ≡ takes self stamp }
    {
        match self {
            Moment::Now => true,
            Moment::Before(tick) => stamp < tick,
        }
    }
}

/// The index of the last record of the key that counts at the moment, or none where no record is such.
pub fn find_last<T: Stamped>(records: &[T], key: u16, moment: Moment) -> Option<usize>
    ensures { result ≡ last_position
        (λ x. matches key moment (T.Stamped.key_of x) (T.Stamped.stamp_of x)) records.now }
{
    records.iter().rposition(|record| record.key() == key && moment.takes(record.stamp()))
}
