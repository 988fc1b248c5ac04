ghost use Rattle.std.specs.Prelude.{◌≡◌};
ghost use Rattle.chain.specs.declared.fault.ChainFault.TheVariants.{Sizes};

use refusals::{Refusal, Report};
use versions::fault::{LAYER, SizeFault};

/// Why a chain store cannot be set up.
#[derive(Clone, Copy, Debug, PartialEq, Eq)]
pub enum ChainFault {
    /// No version store can have such sizes.
    Sizes(SizeFault),
    /// The number of heads is not that of the keys.
    Heads { heads: usize },
}

impl Refusal for ChainFault {
    ghost use Rattle.chain.specs.Faults.{chain_report};

    ghost reported = { chain_report };

    fn report(&self) -> Report {
        match *self {
            ChainFault::Sizes(fault) => fault.report(),
            ChainFault::Heads { heads } => Report {
                layer: LAYER,
                number: 3,
                place: heads as u64,
            },
        }
    }
}

impl From<SizeFault> for ChainFault {
    ghost from_gives = { λ f e. e ≡ Sizes f };

    fn from(value: SizeFault) -> ChainFault {
        ChainFault::Sizes(value)
    }
}
