//! Records that carry a key and a stamp: one look-up, one closing of gaps and one packed list over lent slices,
//! for every kind of them.
#![tactic(auto)]

pub mod gaps;
pub mod lookup;
pub mod packed;

ghost use Rattle.std.specs.Prelude.{◌≡◌, ℕ};
ghost use Rattle.stamped.specs.Sizes.{keys_outside};

/// The most keys that a version store or a validator has.
pub const MAX_KEYS: u16 = 1024;

/// Whether no store and no validator has so many keys: none, or more than `MAX_KEYS`.
pub fn keys_outside(keys: u16) -> bool
    ensures answer { result ≡ keys_outside keys }
    // The definitions cite it by its name.
    ensures limit { MAX_KEYS ≡ 1024 }
{
    keys == 0 || keys > MAX_KEYS
}

/// A record that carries a key and a stamp. Each kind of record shows its own two fields.
pub trait Stamped {
    ghost key_of: { Self → ℕ };

    ghost stamp_of: { Self → ℕ };

    fn key(&self) -> u16
        ensures { result ≡ key_of self.now };

    fn stamp(&self) -> u32
        ensures { result ≡ stamp_of self.now };
}
