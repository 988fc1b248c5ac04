ghost use Rattle.std.specs.Prelude.{◌≡◌, Bool, List, length};
ghost use Rattle.stamped.specs.Gaps.{closed, closed_places};

use crate::Stamped;

/// Says which records of a list are to go. A trait and no closure: its ghost member makes what stays an
/// equation, and nothing is asked of who gives the rule.
pub trait Drops<T: Stamped> {
    ghost drops: { Self → T → List T → Bool };

    /// Whether a record is to go, told from itself and the records behind it.
    fn drops(&self, entry: &T, behind: &[T]) -> bool
        ensures { result ≡ drops self.now entry.now behind.now };
}

/// Moves the records that stay to the front, in their order, and answers how many they are.
pub fn close_gaps<T: Stamped + Copy, R: Drops<T>>(records: &mut [T], rule: &R) -> usize
    ensures count { result ≡ length (closed (R.Drops.drops rule.now) records.old) }
    ensures places { records.new ≡ closed_places (R.Drops.drops rule.now) records.old }
{
    let mut left = 0;
    // By index, since it writes to the slice that it reads.
    for i in 0..records.len() {
        let record = records[i];
        if !rule.drops(&record, &records[i + 1..]) {
            records[left] = record;
            left += 1;
        }
    }
    left
}
