//! Whether the indices of an attestation may stand there (beacon-chain.md, "is_valid_indexed_attestation").

ghost use Rattle.std.specs.Prelude.{◌≡◌, nat_lt};
ghost use Rattle.std.specs.List.{list_all};
ghost use Rattle.bc_words.specs.Outcome.{GivesExactly};
ghost use Rattle.spec_blocks.specs.IsValidIndexedAttestation.{is_strictly_ascending, is_valid_indexed_attestation};

use bc_words::{Refusal, Stop};
use beacon_state::State;
use beacon_types::IndexedAttestation;

/// Whether the indices are sorted, each once.
#[tactic(auto, using(crate::proofs::Ascending::falls_here, crate::proofs::Ascending::ascends_here, crate::proofs::Ascending::ascends_to_the_end))]
fn is_strictly_ascending(indices: &[u64]) -> bool
    ensures { result ≡ is_strictly_ascending indices.now }
{
    for i in 0..indices.len() {
        if i + 1 < indices.len() && indices[i + 1] <= indices[i] {
            return false;
        }
    }
    true
}

/// Whether each index is less than the count.
fn all_below(indices: &[u64], count: u64) -> bool
    ensures { result ≡ list_all (λ index. nat_lt index count) indices.now }
{
    for index in indices {
        if *index >= count {
            return false;
        }
    }
    true
}

/// Refused where there are no indices, or they aren't sorted, each once; and then where one is past the registry
/// (beacon-chain.md, `is_valid_indexed_attestation`). The signature isn't checked.
#[tactic(auto, unfolding(spec_blocks::specs::IsValidIndexedAttestation::is_valid_indexed_attestation))]
pub fn is_valid_indexed_attestation(
    state: &State,
    attestation: &IndexedAttestation,
) -> Result<(), Stop>
    ensures { GivesExactly result (is_valid_indexed_attestation state.now attestation.now) }
{
    let indices = attestation.attesting_indices.as_slice();
    if indices.is_empty() || !is_strictly_ascending(indices) {
        return Err(Stop::Refused(Refusal::AsIndices));
    }
    if !all_below(indices, state.validators_len()) {
        return Err(Stop::Refused(Refusal::IndexRange));
    }
    Ok(())
}
