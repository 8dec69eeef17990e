//! Sums, differences and products of the state transition, which refuse where they do not fit in 64 bits.

ghost use Rattle.bc_words.specs.Outcome.{GivesExactly, checked_add, checked_sub, checked_mul, checked_sum};

use crate::refusal::Refusal;
use crate::stop::Stop;

/// The sum, refused as an overflow exactly where it does not fit in 64 bits.
#[tactic(auto, unfolding(crate::specs::Outcome::checked_add))]
pub fn checked_add(a: u64, b: u64) -> Result<u64, Stop>
    ensures { GivesExactly result (checked_add a b) }
{
    a.checked_add(b).ok_or(Stop::Refused(Refusal::Overflow))
}

/// The difference, refused as an overflow exactly where it is below 0.
#[tactic(auto, unfolding(crate::specs::Outcome::checked_sub))]
pub fn checked_sub(a: u64, b: u64) -> Result<u64, Stop>
    ensures { GivesExactly result (checked_sub a b) }
{
    a.checked_sub(b).ok_or(Stop::Refused(Refusal::Overflow))
}

/// The product, refused as an overflow exactly where it does not fit in 64 bits.
#[tactic(auto, unfolding(crate::specs::Outcome::checked_mul))]
pub fn checked_mul(a: u64, b: u64) -> Result<u64, Stop>
    ensures { GivesExactly result (checked_mul a b) }
{
    a.checked_mul(b).ok_or(Stop::Refused(Refusal::Overflow))
}

/// The sum of the numbers from left to right, refused as an overflow exactly where it does not fit in 64 bits.
#[tactic(auto, using(crate::proofs::Sums::sum_by_number))]
pub fn checked_sum(numbers: &[u64]) -> Result<u64, Stop>
    ensures { GivesExactly result (checked_sum numbers.now) }
{
    let mut sum = 0;
    for number in numbers {
        sum = checked_add(sum, *number)?;
    }
    Ok(sum)
}
