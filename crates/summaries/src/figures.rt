// The ledger's figure for each of the three kinds.
ghost use Rattle.std.specs.Prelude.{◌≡◌};

use crate::kinds::{NonZero, Smallest, Sum};
use ledger::Figure;

impl From<Sum> for Figure {
    ghost use Rattle.ledger.specs.declared.Figure.TheVariants.{Sum as SumFigure};

    ghost from_gives = { λ sum figure. figure ≡ SumFigure sum.value };

    fn from(sum: Sum) -> Figure {
        Figure::Sum { value: sum.value }
    }
}

impl From<Smallest> for Figure {
    ghost use Rattle.ledger.specs.declared.Figure.TheVariants.{Smallest as SmallestFigure};

    ghost from_gives = { λ smallest figure. figure ≡ SmallestFigure smallest.least };

    fn from(smallest: Smallest) -> Figure {
        Figure::Smallest {
            least: smallest.least,
        }
    }
}

impl From<NonZero> for Figure {
    ghost use Rattle.ledger.specs.declared.Figure.TheVariants.{NonZero as NonZeroFigure};

    ghost from_gives = { λ number figure. figure ≡ NonZeroFigure number.count };

    fn from(number: NonZero) -> Figure {
        Figure::NonZero {
            count: number.count,
        }
    }
}
