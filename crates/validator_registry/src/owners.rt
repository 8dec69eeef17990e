//! The roots over the keys and the withdrawal credentials of validators, side by side.
//!
//! Validators come from `group`, whose members keep these roots.

ghost use Rattle.std.specs.Prelude.{◌≡◌, ◌≤◌, length, map};
ghost use Rattle.beacon_types.specs.inside.ValidatorChunks.{key_chunks, root_of_chunks, key_root, owner_root};

use crate::roots::hash_beside;
use beacon_types::Validator;
use hash_tree::{Root, chunk_root, hash_layer};

/// A key has 48 bytes.
fn is_long(key: &[u8; 48])
    ensures { length key.now ≡ 48 }
{}

/// Writes the two chunks of a validator's key.
fn write_key(validator: &Validator, out: &mut [Root])
    requires { length out.old ≡ 2 }
    ensures chunks { out.new ≡ key_chunks validator.now }
    ensures root { root_of_chunks validator.now ≡ key_root validator.now }
{
    let key = &validator.pubkey;
    is_long(key);
    out.copy_from_slice(&[chunk_root(&key[..32]), chunk_root(&key[32..])]);
}

/// Writes the roots of the validators' keys.
fn write_keys(validators: &[Validator], out: &mut [Root])
    requires few { length validators.now ≤ 16 }
    requires out { length out.old ≡ length validators.now }
    ensures { out.new ≡ map key_root validators.now }
{
    let mut chunks = [[0; 32]; 32];
    'keys: for i in 0..validators.len() {
        write_key(&validators[i], &mut chunks[2 * i..2 * i + 2]);
    }
    hash_layer(&chunks[..2 * validators.len()], out);
}

/// Writes the validators' withdrawal credentials.
fn write_credentials(validators: &[Validator], out: &mut [Root])
    requires { length out.old ≡ length validators.now }
    ensures { out.new ≡ map (λ v. v.withdrawal_credentials) validators.now }
{
    'credentials: for i in 0..validators.len() {
        out[i] = validators[i].withdrawal_credentials;
    }
}

/// Writes the root over each validator's key and withdrawal credentials. It takes no memory.
pub(crate) fn write_owner_roots(validators: &[Validator], out: &mut [Root])
    requires few { length validators.now ≤ 16 }
    requires out { length out.old ≡ length validators.now }
    ensures { out.new ≡ map owner_root validators.now }
{
    let count = validators.len();
    let mut keys = [[0; 32]; 16];
    write_keys(validators, &mut keys[..count]);
    let mut credentials = [[0; 32]; 16];
    write_credentials(validators, &mut credentials[..count]);
    hash_beside(&keys[..count], &credentials[..count], out);
}
