//! Lists of a number for each validator.

ghost use Rattle.std.specs.Prelude.{◌≡◌, slice_index, ◌∷◌, ◌++◌, [], length, replicate, IfOk, IfErr, OnOk, IsOkAnd, MatchResult};
ghost use Rattle.bc_words.specs.declared.stop.Stop.TheVariants as stops;

use bc_words::{NoMemory, Stop};
use beacon_state::State;
use std::alloc::Global;

/// A number of a list, or 0 past its end.
pub(crate) fn number_at(numbers: &[u64], index: u64) -> u64
    ensures { result ≡ slice_index numbers.now index }
{
    numbers.get(index as usize).copied().unwrap_or(0)
}

/// 0 for each validator.
pub(crate) fn zeros(alloc: Global, state: &State) -> Result<Vec<u64>, NoMemory>
    ensures { IfOk result (λ zeros. zeros.items ≡ replicate (length state.now.validators) 0) }
{
    let zeros = vec![in alloc; 0u64; state.validators_len() as usize]?;
    Ok(zeros)
}

/// One number more behind the others, where there is one, and else why there is none.
pub(crate) fn push_made(numbers: &mut Vec<u64>, made: Result<u64, Stop>) -> Result<(), Stop>
    ensures pushed { OnOk result (IsOkAnd made (λ number. numbers.new.items ≡ numbers.old.items ++ number ∷ [])) }
    ensures stops { IfErr result (λ stop. MatchResult made (λ _. stop ≡ stops.NoMemory) (λ why. stop ≡ why)) }
{
    match made {
        Ok(number) => match numbers.push(number) {
            Ok(()) => Ok(()),
            Err(_refused) => Err(Stop::NoMemory),
        },
        Err(stop) => Err(stop),
    }
}
