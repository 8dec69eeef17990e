//! Who attested (beacon-chain.md, "get_attesting_indices").

ghost use Rattle.std.specs.Prelude.{◌≡◌, IfOk};
ghost use Rattle.spec_state.specs.Accessors.{members_with_bits};
ghost use Rattle.block_operations.specs.inside.Bits.{is_set};

use bc_words::NoMemory;
use ssz_codec::BitList;
use std::alloc::Global;

/// Whether the bit at a place is set. One that isn't there is not.
fn is_set(bits: &BitList, i: usize) -> bool
    ensures { result ≡ is_set bits.now i }
{
    bits.get(i as u64).unwrap_or(false)
}

/// The members of a committee whose bit is set, in the committee's order (beacon-chain.md, `get_attesting_indices`).
#[tactic(auto, using(crate::proofs::Members::listing))]
pub fn attesting_indices(
    alloc: Global,
    committee: &[u64],
    bits: &BitList,
) -> Result<Vec<u64>, NoMemory>
    ensures { IfOk result (λ members. members.items ≡ members_with_bits committee.now bits.now) }
{
    let mut members = Vec::new(alloc);
    for i in 0..committee.len() {
        if !is_set(bits, i) {
            continue;
        }
        members.push(committee[i])?;
    }
    Ok(members)
}
