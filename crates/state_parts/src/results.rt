//! Two results as one, so that a function that owns many lists has one place where memory may have been refused.

ghost use Rattle.std.specs.Prelude.{◌≡◌, Ok, IfOk};

use bc_words::NoMemory;

/// Both values, where memory was refused for neither.
pub fn both<A: Drop, B: Drop>(
    first: Result<A, NoMemory>,
    second: Result<B, NoMemory>,
) -> Result<(A, B), NoMemory>
    ensures { IfOk result (λ values. (first ≡ Ok values.0) × (second ≡ Ok values.1)) }
{
    match (first, second) {
        (Ok(first), Ok(second)) => Ok((first, second)),
        _ => Err(NoMemory),
    }
}
