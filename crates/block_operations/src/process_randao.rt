//! The randomness that a block brings (beacon-chain.md, "RANDAO").

ghost use Rattle.std.specs.Prelude.{◌≡◌, ◌<◌, ◌%◌, length};
ghost use Rattle.bc_words.specs.Outcome.{Becomes};
ghost use Rattle.hash_tree.specs.Merkle.{hash};
ghost use Rattle.spec_blocks.specs.ProcessRandao.{xor, process_randao};

use balance_totals::current_epoch;
use bc_words::NoMemory;
use beacon_state::State;
use beacon_types::BeaconBlockBody;
use committees::Lookup;
use hash_tree::Root;
use sha2::{Digest, Sha256};

/// The exclusive or of the bytes (beacon-chain.md, `xor`).
#[tactic(auto, using(crate::proofs::Xor::xor_begins, crate::proofs::Xor::xor_goes_on, crate::proofs::Xor::xor_ends))]
fn xor(bytes_1: &Root, bytes_2: &Root) -> Root
    ensures { result ≡ xor bytes_1.now bytes_2.now }
{
    let mut mixed = *bytes_1;
    for i in 0..32 {
        mixed[i] = bytes_1[i] ^ bytes_2[i];
    }
    mixed
}

/// The hash of a signature.
#[tactic(auto, unfolding(hash_tree::specs::Merkle::hash))]
fn hash(signature: &[u8; 96]) -> Root
    ensures { result ≡ hash signature.now }
{
    let mut hasher = Sha256::new();
    hasher.update(signature);
    hasher.finalize()
}

/// Where the mix of the epoch stands.
#[tactic(auto, using(bc_preset::proofs::Bounds::preset_bounds))]
fn mix_index(state: &State, epoch: u64) -> u64
    ensures index { result ≡ epoch % state.now.preset.epochs_per_historical_vector }
    ensures in_list { result < length state.now.randao_mixes }
{
    let _mixes = state.randao_mixes_len();
    epoch % state.preset().epochs_per_historical_vector
}

/// The mix of the current epoch takes in the hash of the block's randao reveal, which isn't checked. Where memory is
/// refused, the state is as before.
#[tactic(auto, unfolding(spec_blocks::specs::ProcessRandao::process_randao))]
pub fn process_randao(state: &mut State, body: &BeaconBlockBody) -> Result<(), NoMemory>
    ensures { Becomes result state.old state.new (process_randao state.old body.now) }
{
    let epoch = current_epoch(state);
    let mix = xor(&Lookup::mix(state, epoch), &hash(&body.randao_reveal));
    let index = mix_index(state, epoch);
    state.set_randao_mixes_at(index, mix)
}
