ghost use Rattle.std.specs.Prelude.{◌≡◌};
ghost use Rattle.validation.specs.Faults.{second_layer};

use refusals::{Refusal, Report};

/// Validators are the second layer.
pub const LAYER: u8 = 2;

/// What the calls of every validator refuse.
#[derive(Clone, Copy, Debug, PartialEq, Eq)]
pub enum ValidatorFault {
    /// The validator has no such key.
    KeyOutside { key: u16 },
    /// The stamp is below that of this key's granule.
    StaleStamp { key: u16 },
}

/// Why no stamp table can be made.
#[derive(Clone, Copy, Debug, PartialEq, Eq)]
pub enum StampTableFault {
    /// The number of keys is outside its limits.
    Keys { keys: u16 },
    /// The keys to a granule are none or more than there are.
    Grain { grain: u16 },
    /// The places are not one a granule.
    Places { places: usize },
}

/// Why no recent list can be made.
#[derive(Clone, Copy, Debug, PartialEq, Eq)]
pub enum RecentListFault {
    /// The number of keys is outside its limits.
    Keys { keys: u16 },
    /// The places are not one a key.
    Places { places: usize },
}

impl Refusal for ValidatorFault {
    ghost use Rattle.validation.specs.Faults.{validator_report};

    ghost reported = { validator_report };

    fn report(&self) -> Report {
        match *self {
            ValidatorFault::KeyOutside { key } => of_layer(5, u64::from(key)),
            ValidatorFault::StaleStamp { key } => of_layer(16, u64::from(key)),
        }
    }
}

impl Refusal for StampTableFault {
    ghost use Rattle.validation.specs.Faults.{stamp_table_report};

    ghost reported = { stamp_table_report };

    fn report(&self) -> Report {
        match *self {
            StampTableFault::Keys { keys } => of_layer(1, u64::from(keys)),
            StampTableFault::Grain { grain } => of_layer(4, u64::from(grain)),
            StampTableFault::Places { places } => of_layer(3, places as u64),
        }
    }
}

impl Refusal for RecentListFault {
    ghost use Rattle.validation.specs.Faults.{recent_list_report};

    ghost reported = { recent_list_report };

    fn report(&self) -> Report {
        match *self {
            RecentListFault::Keys { keys } => of_layer(1, u64::from(keys)),
            RecentListFault::Places { places } => of_layer(3, places as u64),
        }
    }
}

/// What a refusal of this layer says.
fn of_layer(number: u8, place: u64) -> Report
    ensures { result ≡ second_layer number place }
{
    Report {
        layer: LAYER,
        number,
        place,
    }
}
