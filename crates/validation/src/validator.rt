ghost use Rattle.std.specs.Prelude.{◌≡◌};

use crate::fault::ValidatorFault;

/// A key, and the stamp of its granule, which is above the start given.
#[derive(Clone, Copy, Debug, PartialEq, Eq)]
pub struct Clash {
    pub key: u16,
    pub stamp: u32,
}

/// A number of keys, a granule for each key, and for each granule the stamp that was noted last.
pub trait Validator {
    ghost use Rattle.validation.specs.Stamps.{Stamps, IsLawfulValidator, granule_answer, clash_answer, note_answer, noted, trimmed, latest};

    ghost meaning: { Self → Stamps };

    fn keys(&self) -> u16
        ensures { result ≡ (meaning self.now).keys };

    /// The granule of a key, which never changes.
    fn granule(&self, key: u16) -> Result<u16, ValidatorFault>
        ensures { result ≡ granule_answer (meaning self.now) key };

    /// Sets the stamp of the key's granule.
    // Key and stamp stand apart in the interface of a validator; an `Entry` is how a list keeps them.
    fn note(&mut self, key: u16, stamp: u32) -> Result<(), ValidatorFault>
        ensures answer { result ≡ note_answer (meaning self.old) key stamp }
        ensures after { meaning self.new ≡ noted (meaning self.old) key stamp };

    /// The lowest of the keys first, first + 1, .. whose granule has a stamp above the start.
    // Two numbers, since the struct of a range is the ledger's, and a validator stands on no ledger.
    fn clash(&self, first: u16, count: u16, start: u32) -> Result<Option<Clash>, ValidatorFault>
        ensures { result ≡ clash_answer (meaning self.now) first count start };

    /// Sets every stamp below the tick to 0.
    fn trim(&mut self, tick: u32)
        ensures { meaning self.new ≡ trimmed (meaning self.old) tick };

    /// The greatest stamp, or 0.
    fn latest(&self) -> u32
        ensures { result ≡ latest (meaning self.now) };

    /// What holds of every validator.
    ghost lawful: { (v : Self) → IsLawfulValidator (meaning v) };
}
