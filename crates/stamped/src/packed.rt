ghost use Rattle.std.specs.Prelude.{◌≡◌, ◌+◌, ◌<◌, ◌≤◌, [], ◌∷◌, ◌++◌, length, take, drop, IsOk, OnOk, OnErr, IfErr, ◌↔◌};
ghost use Rattle.stamped.specs.Gaps.{closed, closed_places};
ghost use Rattle.stamped.specs.Packing.{Packing, closed_packing};

use crate::Stamped;
use crate::gaps::{Drops, close_gaps};
use std::marker::Model;

/// Records at the front of lent places, in the order of adding. A length beside a lent slice, and no `Vec`,
/// since all memory is lent by the caller.
#[derive(Drop)]
pub struct Packed<'a, T> {
    places: &'a mut [T],
    used: usize,
}

impl<'a, T> Model for Packed<'a, T> {
    ghost Value = { Packing T };

    ghost view = { λ p. record { records = take p.used p.places.now; rest = drop p.used p.places.now } };

    ghost invariant = { λ p. p.used ≤ length p.places.now };
}

impl<'a, T> Packed<'a, T> {
    /// No records yet, before all the places.
    pub fn new(places: &'a mut [T]) -> Packed<'a, T>
        ensures none { result.records ≡ [] }
        ensures rest { result.rest ≡ places.old }
    {
        Packed { places, used: 0 }
    }

    /// The records, to be gone through.
    pub fn as_slice(&self) -> &[T]
        ensures { result.now ≡ self.now.records }
    {
        &self.places[..self.used]
    }

    /// How many places are left.
    pub fn free(&self) -> usize
        ensures { result ≡ length self.now.rest }
    {
        self.places.len() - self.used
    }
}

impl<'a, T: Copy> Packed<'a, T> {
    /// Puts an entry behind the others, or gives it back where no place is left.
    pub fn push(&mut self, entry: T) -> Result<(), T>
        ensures fits { IsOk result ↔ (0 < length self.old.rest) }
        ensures pushed { OnOk result (self.new ≡
            record { records = self.old.records ++ entry ∷ []; rest = drop 1 self.old.rest }) }
        ensures full { OnErr result (self.new ≡ self.old) }
        ensures back { IfErr result (λ e. e ≡ entry) }
    {
        if self.used >= self.places.len() {
            return Err(entry);
        }
        self.places[self.used] = entry;
        self.used += 1;
        Ok(())
    }
}

impl<'a, T: Stamped + Copy> Packed<'a, T> {
    /// Lets go of the records that the rule drops; the others stay, in their order.
    pub fn close_gaps<R: Drops<T>>(&mut self, rule: &R)
        ensures { self.new ≡ closed_packing (R.Drops.drops rule.now) self.old }
    {
        self.used = close_front(self.places, self.used, rule);
    }
}

// A function over the places: of a slice that is cut in place out of a struct with a model no proof knows the items.
/// Closes the gaps among so many records at the front, and answers how many they are then.
fn close_front<T: Stamped + Copy, R: Drops<T>>(places: &mut [T], used: usize, rule: &R) -> usize
    requires { used ≤ length places.old }
    ensures count { result ≡ length (closed (R.Drops.drops rule.now) (take used places.old)) }
    ensures places { places.new ≡
        closed_places (R.Drops.drops rule.now) (take used places.old) ++ drop used places.old }
{
    close_gaps(&mut places[..used], rule)
}
