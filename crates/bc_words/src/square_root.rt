//! The square root of a whole number, which base rewards divide by.

ghost use Rattle.std.specs.Prelude.{◌≡◌, ℕ, ◌+◌, ◌*◌, ◌<◌, ◌≤◌};
ghost use Rattle.bc_words.specs.SquareRoot.{integer_squareroot, IsSquareRoot};

/// The greatest number whose square is at most `n` (beacon-chain.md, `integer_squareroot`).
#[tactic(auto, using(crate::proofs::Roots::root_between))]
pub fn isqrt(n: u64) -> u64
    ensures exact { result ≡ integer_squareroot n }
    ensures greatest { IsSquareRoot n result }
{
    n.isqrt()
}
