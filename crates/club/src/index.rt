ghost use Rattle.std.specs.Prelude.{◌≡◌};
ghost use Rattle.club.specs.Indexes.{index};

/// The index of a run of rounds: the mean of the values that are not 0, its fraction dropped; 0 without any.
pub fn index_of(rounds: &[u64]) -> u64
    ensures { result ≡ index rounds.now }
{
    let sum: u128 = rounds.iter().map(|round| u128::from(*round)).sum();
    let count = rounds.iter().filter(|round| **round > 0).count();
    if count == 0 {
        return 0;
    }
    // No `From` leads from `usize` to `u128`, nor back to `u64`; a mean is no greater than the greatest.
    (sum / count as u128) as u64
}
