use refusals::{Refusal, Report};

/// Version stores are the first layer.
pub const LAYER: u8 = 1;

/// Why a version store refuses a call.
#[derive(Clone, Copy, Debug, PartialEq, Eq)]
pub enum StoreFault {
    /// The store has no such key.
    KeyOutside { key: u16 },
    /// No cell is free for this key's version.
    Full { key: u16 },
    /// The stamp is not above the newest of this key.
    StaleStamp { key: u16 },
}

impl Refusal for StoreFault {
    ghost use Rattle.versions.specs.Faults.{store_report};

    ghost reported = { store_report };

    fn report(&self) -> Report {
        let (number, key) = match *self {
            StoreFault::KeyOutside { key } => (5, key),
            StoreFault::Full { key } => (15, key),
            StoreFault::StaleStamp { key } => (16, key),
        };
        Report {
            layer: LAYER,
            number,
            place: u64::from(key),
        }
    }
}

/// Why a version store cannot be set up with such sizes.
#[derive(Clone, Copy, Debug, PartialEq, Eq)]
pub enum SizeFault {
    /// The number of keys is outside its limits.
    Keys { keys: u16 },
    /// The number of cells is outside its limits.
    Cells { cells: usize },
}

impl Refusal for SizeFault {
    ghost use Rattle.versions.specs.Faults.{size_report};

    ghost reported = { size_report };

    fn report(&self) -> Report {
        let (number, place) = match *self {
            SizeFault::Keys { keys } => (1, u64::from(keys)),
            SizeFault::Cells { cells } => (3, cells as u64),
        };
        Report {
            layer: LAYER,
            number,
            place,
        }
    }
}
