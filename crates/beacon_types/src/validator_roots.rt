//! The roots of many validators, eight side by side.
//!
//! Validators come from the registry of a state, whose root takes theirs. A validator has eight chunks below it, of which
//! the key's is the root of two. Where eight are alike in all but their keys and withdrawal credentials, what is hashed of
//! the rest is taken from `kept_roots`.

ghost use Rattle.std.specs.Prelude.{◌≡◌, ◌↔◌, ◌<◌, ◌++◌, IsTrue, All, length, map};
ghost use Rattle.std.specs.List.{flat_map};
ghost use Rattle.hash_tree.specs.Merkle.{hash};
ghost use Rattle.beacon_types.specs.Containers.{validator_codec};
ghost use Rattle.beacon_types.specs.inside.ValidatorChunks.{key_chunks, root_of_chunks, key_root, chunks_below};
ghost use Rattle.beacon_types.specs.inside.ValidatorChunks.{owner_chunks, owner_root, IsAlike, status_root, epochs_root};

use crate::kept_roots::{KeptRoots, is_alike, kept_or_new};
use crate::validator::Validator;
use hash_tree::{Leaf, Root, chunk_root, hash_layer, hash_pairs};

/// A key has 48 bytes.
fn is_long(key: &[u8; 48])
    ensures { length key.now ≡ 48 }
{}

/// Writes the two chunks of a validator's key.
fn write_key(validator: &Validator, out: &mut [Root])
    requires { length out.old ≡ 2 }
    ensures chunks { out.new ≡ key_chunks validator.now }
    ensures root { root_of_chunks validator.now ≡ key_root validator.now }
{
    let key = &validator.pubkey;
    is_long(key);
    out.copy_from_slice(&[chunk_root(&key[..32]), chunk_root(&key[32..])]);
}

/// Writes the roots of eight keys.
fn write_keys(validators: &[Validator], out: &mut [Root])
    requires validators { length validators.now ≡ 8 }
    requires out { length out.old ≡ 8 }
    ensures { out.new ≡ map key_root validators.now }
{
    let mut chunks = [[0; 32]; 16];
    'keys: for i in 0..8 {
        write_key(&validators[i], &mut chunks[2 * i..2 * i + 2]);
    }
    hash_layer(&chunks, out);
}

/// Writes the chunks below a validator, of which the first is the root of its key.
#[tactic(auto, unfolding(crate::specs::inside::ValidatorChunks::chunks_below))]
fn write_chunks(validator: &Validator, key: &Root, out: &mut [Root])
    requires key { key.now ≡ key_root validator.now }
    requires out { length out.old ≡ 8 }
    ensures { out.new ≡ chunks_below validator.now }
{
    out.copy_from_slice(&[
        *key,
        validator.withdrawal_credentials,
        validator.effective_balance.root(),
        validator.slashed.root(),
        validator.activation_eligibility_epoch.root(),
        validator.activation_epoch.root(),
        validator.exit_epoch.root(),
        validator.withdrawable_epoch.root(),
    ]);
}

/// Writes the chunks below eight validators, whose keys have these roots.
fn write_eight_chunks(validators: &[Validator], keys: &[Root], out: &mut [Root])
    requires validators { length validators.now ≡ 8 }
    requires keys { keys.now ≡ map key_root validators.now }
    requires out { length out.old ≡ 64 }
    ensures { out.new ≡ flat_map chunks_below validators.now }
{
    'chunks: for i in 0..8 {
        write_chunks(&validators[i], &keys[i], &mut out[8 * i..8 * i + 8]);
    }
}

/// Writes the roots of eight validators, whose keys have these roots, by all that is below them.
fn write_each(validators: &[Validator], keys: &[Root], out: &mut [Root])
    requires validators { length validators.now ≡ 8 }
    requires keys { keys.now ≡ map key_root validators.now }
    requires out { length out.old ≡ 8 }
    ensures { out.new ≡ map validator_codec.hash_tree_root validators.now }
{
    let mut chunks = [[0; 32]; 64];
    write_eight_chunks(validators, keys, &mut chunks);
    let mut fourths = [[0; 32]; 32];
    hash_layer(&chunks, &mut fourths);
    let mut halves = [[0; 32]; 16];
    hash_layer(&fourths, &mut halves);
    hash_layer(&halves, out);
}

/// Writes the root of a validator's key and its withdrawal credentials.
#[tactic(auto, unfolding(crate::specs::inside::ValidatorChunks::owner_chunks))]
fn write_owner(validator: &Validator, key: &Root, out: &mut [Root])
    requires key { key.now ≡ key_root validator.now }
    requires out { length out.old ≡ 2 }
    ensures { out.new ≡ owner_chunks validator.now }
{
    out.copy_from_slice(&[*key, validator.withdrawal_credentials]);
}

/// Writes the roots over the keys and the withdrawal credentials of eight validators, whose keys have these roots.
fn write_owners(validators: &[Validator], keys: &[Root], out: &mut [Root])
    requires validators { length validators.now ≡ 8 }
    requires keys { keys.now ≡ map key_root validators.now }
    requires out { length out.old ≡ 8 }
    ensures { out.new ≡ map owner_root validators.now }
{
    let mut chunks = [[0; 32]; 16];
    'owners: for i in 0..8 {
        write_owner(&validators[i], &keys[i], &mut chunks[2 * i..2 * i + 2]);
    }
    hash_layer(&chunks, out);
}

/// Writes the hashes of eight nodes, each with the same node behind it.
fn hash_with(nodes: &[Root], behind: &Root, out: &mut [Root])
    requires nodes { length nodes.now ≡ 8 }
    requires out { length out.old ≡ 8 }
    ensures { out.new ≡ map (λ node. hash (node ++ behind.now)) nodes.now }
{
    let mut pairs = [[[0; 32]; 2]; 8];
    'pairs: for i in 0..8 {
        pairs[i] = [nodes[i], *behind];
    }
    hash_pairs(&pairs, out);
}

/// Writes the roots of eight validators that are alike, whose keys have these roots.
fn write_alike(validators: &[Validator], keys: &[Root], kept: &KeptRoots, out: &mut [Root])
    requires validators { length validators.now ≡ 8 }
    requires keys { keys.now ≡ map key_root validators.now }
    requires status { All (λ v. status_root v ≡ kept.now.status) validators.now }
    requires epochs { All (λ v. epochs_root v ≡ kept.now.epochs) validators.now }
    requires out { length out.old ≡ 8 }
    ensures { out.new ≡ map validator_codec.hash_tree_root validators.now }
{
    let mut owners = [[0; 32]; 8];
    write_owners(validators, keys, &mut owners);
    let mut halves = [[0; 32]; 8];
    hash_with(&owners, &kept.status, &mut halves);
    hash_with(&halves, &kept.epochs, out);
}

/// Whether all of the validators are alike the first.
fn are_alike(validators: &[Validator], first: &Validator) -> bool
    ensures { IsTrue result ↔ All (λ v. IsAlike v first.now) validators.now }
{
    'each: for i in 0..validators.len() {
        if !is_alike(&validators[i], first) {
            return false;
        }
    }
    true
}

/// Writes the roots of eight validators.
fn write_eight(validators: &[Validator], kept: &mut Option<KeptRoots>, out: &mut [Root])
    requires validators { length validators.now ≡ 8 }
    requires out { length out.old ≡ 8 }
    ensures { out.new ≡ map validator_codec.hash_tree_root validators.now }
{
    let mut keys = [[0; 32]; 8];
    write_keys(validators, &mut keys);
    let first = &validators[0];
    if are_alike(validators, first) {
        let roots = kept_or_new(*kept, first);
        *kept = Some(roots);
        write_alike(validators, &keys, &roots, out);
    } else {
        write_each(validators, &keys, out);
    }
}

/// Writes the root of each validator: eight at a time side by side, and the rest one by one. It takes no memory.
pub fn write_validator_roots(validators: &[Validator], out: &mut [Root])
    requires { length out.old ≡ length validators.now }
    ensures { out.new ≡ map validator_codec.hash_tree_root validators.now }
{
    let whole = validators.len() / 8;
    let mut kept = None;
    'eights: for i in 0..whole {
        write_eight(
            &validators[8 * i..8 * i + 8],
            &mut kept,
            &mut out[8 * i..8 * i + 8],
        );
    }
    'rest: for i in 8 * whole..validators.len() {
        out[i] = validators[i].root();
    }
}
