use ledger::LAYER;
use refusals::{Refusal, Report};

/// Why no engine is made.
#[derive(Clone, Copy, Debug, PartialEq, Eq)]
pub enum SetUpFault {
    /// The last tick is 0 or above the greatest.
    LastTick { tick: u32 },
    /// Store and validator differ in keys, or one of them is not empty.
    NotFresh,
}

impl Refusal for SetUpFault {
    ghost use Rattle.engine.specs.SetUp.{set_up_report};

    ghost reported = { set_up_report };

    fn report(&self) -> Report {
        let (number, place) = match *self {
            SetUpFault::LastTick { tick } => (2, u64::from(tick)),
            SetUpFault::NotFresh => (8, 0),
        };
        Report {
            layer: LAYER,
            number,
            place,
        }
    }
}
