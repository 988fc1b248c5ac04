//! The worked example of a call file: the contract of a function, so it is proved, or the crate is not.
ghost use Rattle.callfile.specs.Examples.{Example};

/// The fifteen records, as bytes, are answered with their fifteen lines.
pub fn the_example_holds()
    ensures { Example }
{}
