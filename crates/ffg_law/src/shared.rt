//! The weight that two sets of validators share.

ghost use Rattle.std.specs.Prelude.{◌≡◌, ◌<◌, ◌+◌, ◌^◌, ◌&&◌, if◌then◌else◌, ℕ, sum};
ghost use Rattle.ffg_law.specs.Weights.{among, both, weight_of, AscendsFrom, IsSet};

/// Whether the indices have this one, of which none is less, and those behind it.
#[tactic(auto, unfolding(crate::specs::Weights::among), using(crate::proofs::Weights::absent, crate::proofs::Weights::absent_first))]
fn behind(indices: &[u64], index: u64) -> (bool, &[u64])
    requires { AscendsFrom index indices.now }
    ensures here { result.0 ≡ among indices.now index }
    ensures rest { AscendsFrom (index + 1) result.1.now }
    ensures same { (k : ℕ) → index < k → among result.1.now k ≡ among indices.now k }
{
    match indices {
        [] => (false, indices),
        [first, rest @ ..] => {
            if *first == index {
                (true, rest)
            } else {
                (false, indices)
            }
        }
    }
}

/// The weight of a validator that is in both, and else none.
fn counted(of_first: bool, of_second: bool, weight: u64) -> u64
    ensures { result ≡ (if of_first && of_second then weight else 0) }
{
    if of_first && of_second { weight } else { 0 }
}

/// The weight of the validators in both lists, which are ascending and name each validator once. An index that has no
/// weight adds none.
pub fn third_shared(first: &[u64], second: &[u64], weights: &[u64]) -> u64
    requires first_set { IsSet first.now }
    requires second_set { IsSet second.now }
    requires room { sum weights.now < 2 ^ 64 }
    ensures { result ≡ weight_of weights.now (both (among first.now) (among second.now)) }
{
    let mut shared = 0;
    let mut left = first;
    let mut right = second;
    for (index, weight) in weights.iter().enumerate() {
        let (of_first, left_behind) = behind(left, index as u64);
        let (of_second, right_behind) = behind(right, index as u64);
        left = left_behind;
        right = right_behind;
        shared += counted(of_first, of_second, *weight);
    }
    shared
}
