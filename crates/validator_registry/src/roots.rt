//! The roots of the members of a group, side by side, and the root over them.
//!
//! Groups come from `group`. A member keeps the root over its key and its withdrawal credentials; where all members of a group
//! are alike in the rest, what is hashed of that is taken from `rest_roots`.

ghost use Rattle.std.specs.Prelude.{◌≡◌, ◌↔◌, ◌<◌, ◌≤◌, ◌++◌, IsTrue, All, length, map};
ghost use Rattle.std.specs.Simd.Lanes.{zip2};
ghost use Rattle.hash_tree.specs.Merkle.{hash, merkle_root};
ghost use Rattle.beacon_types.specs.Containers.{validator_codec};
ghost use Rattle.beacon_types.specs.inside.ValidatorChunks.{owner_root, status_root, epochs_root, IsAlike};
ghost use Rattle.validator_registry.specs.inside.Groups.{validators_of, group_root, IsGroup};
ghost use Rattle.validator_registry.specs.inside.Columns.{epochs_chunks};

use crate::member::Member;
use crate::rest_roots::{RestRoots, is_alike, kept_or_new, validator_with};
use beacon_types::Validator;
use hash_tree::{Leaf, Root, hash_layer, hash_pair, hash_pairs};

/// Whether all of the members with their effective balances are alike the other validator.
fn are_alike(members: &[Member], balances: &[u64], other: &Validator) -> bool
    requires { length members.now ≤ length balances.now }
    ensures { IsTrue result ↔ All (λ v. IsAlike v other.now) (validators_of members.now balances.now) }
{
    'each: for i in 0..members.len() {
        if !is_alike(&members[i], balances[i], other) {
            return false;
        }
    }
    true
}

/// Writes the hashes of nodes, each with the one at its place on the right behind it.
pub(crate) fn hash_beside(left: &[Root], right: &[Root], out: &mut [Root])
    requires few { length left.now ≤ 16 }
    requires right { length right.now ≡ length left.now }
    requires out { length out.old ≡ length left.now }
    ensures { out.new ≡ zip2 (λ a b. hash (a ++ b)) left.now right.now }
{
    let mut pairs = [[[0; 32]; 2]; 16];
    'pairs: for i in 0..left.len() {
        pairs[i] = [left[i], right[i]];
    }
    hash_pairs(&pairs[..left.len()], out);
}

/// Writes the roots over the keys and the withdrawal credentials of the members.
fn write_owners(members: &[Member], out: &mut [Root])
    requires { length out.old ≡ length members.now }
    ensures { out.new ≡ map (λ member. owner_root member.validator) members.now }
{
    'owners: for i in 0..members.len() {
        out[i] = members[i].owner;
    }
}

/// Writes the roots over each member's effective balance and whether it was slashed.
fn write_statuses(members: &[Member], balances: &[u64], out: &mut [Root])
    requires few { length members.now ≤ 16 }
    requires balances { length members.now ≤ length balances.now }
    requires out { length out.old ≡ length members.now }
    ensures { out.new ≡ map status_root (validators_of members.now balances.now) }
{
    let mut pairs = [[[0; 32]; 2]; 16];
    'statuses: for i in 0..members.len() {
        pairs[i] = [balances[i].root(), members[i].validator.slashed.root()];
    }
    hash_pairs(&pairs[..members.len()], out);
}

/// Writes the four chunks of a member's epochs.
#[tactic(auto, unfolding(crate::specs::inside::Columns::epochs_chunks))]
fn write_chunks(member: &Member, out: &mut [Root])
    requires { length out.old ≡ 4 }
    ensures { out.new ≡ epochs_chunks member.now.validator }
{
    let validator = &member.validator;
    out.copy_from_slice(&[
        validator.activation_eligibility_epoch.root(),
        validator.activation_epoch.root(),
        validator.exit_epoch.root(),
        validator.withdrawable_epoch.root(),
    ]);
}

/// Writes the roots over the members' epochs.
fn write_epochs(members: &[Member], out: &mut [Root])
    requires few { length members.now ≤ 16 }
    requires out { length out.old ≡ length members.now }
    ensures { out.new ≡ map (λ member. epochs_root member.validator) members.now }
{
    let mut chunks = [[0; 32]; 64];
    'epochs: for i in 0..members.len() {
        write_chunks(&members[i], &mut chunks[4 * i..4 * i + 4]);
    }
    let mut halves = [[0; 32]; 32];
    hash_layer(
        &chunks[..4 * members.len()],
        &mut halves[..2 * members.len()],
    );
    hash_layer(&halves[..2 * members.len()], out);
}

/// Writes both roots of the rest of each member: those that are kept where all members are alike, else each member's own.
fn write_rests(
    members: &[Member],
    balances: &[u64],
    kept: &mut Option<RestRoots>,
    statuses: &mut [Root],
    epochs: &mut [Root],
)
    requires some { 0 < length members.now }
    requires few { length members.now ≤ 16 }
    requires balances { length members.now ≤ length balances.now }
    requires statuses { length statuses.old ≡ length members.now }
    requires epochs { length epochs.old ≡ length members.now }
    ensures statuses { statuses.new ≡ map status_root (validators_of members.now balances.now) }
    ensures epochs { epochs.new ≡ map epochs_root (validators_of members.now balances.now) }
{
    let first = &members[0];
    let balance = balances[0];
    if are_alike(members, balances, &validator_with(first, balance)) {
        let roots = kept_or_new(*kept, first, balance);
        *kept = Some(roots);
        statuses.fill(roots.status);
        epochs.fill(roots.epochs);
    } else {
        write_statuses(members, balances, statuses);
        write_epochs(members, epochs);
    }
}

/// Writes the root of each member with its effective balance. It takes no memory.
pub(crate) fn write_roots(
    members: &[Member],
    balances: &[u64],
    kept: &mut Option<RestRoots>,
    out: &mut [Root],
)
    requires out { length out.old ≡ length members.now }
    requires few { length members.now ≤ 16 }
    requires balances { length members.now ≤ length balances.now }
    ensures { out.new ≡ map validator_codec.hash_tree_root (validators_of members.now balances.now) }
{
    let count = members.len();
    if count == 0 {
        return;
    }
    let mut owners = [[0; 32]; 16];
    write_owners(members, &mut owners[..count]);
    let mut statuses = [[0; 32]; 16];
    let mut epochs = [[0; 32]; 16];
    write_rests(
        members,
        balances,
        kept,
        &mut statuses[..count],
        &mut epochs[..count],
    );
    let mut halves = [[0; 32]; 16];
    hash_beside(&owners[..count], &statuses[..count], &mut halves[..count]);
    hash_beside(&halves[..count], &epochs[..count], out);
}

/// The root over sixteen nodes.
fn root_of_sixteen(nodes: &[Root; 16]) -> Root
    ensures { result ≡ merkle_root 4 nodes.now }
{
    let mut eight = [[0; 32]; 8];
    hash_layer(nodes, &mut eight);
    let mut four = [[0; 32]; 4];
    hash_layer(&eight, &mut four);
    let mut two = [[0; 32]; 2];
    hash_layer(&four, &mut two);
    hash_pair(&two[0], &two[1])
}

/// The root of a group with these members and effective balances. It takes no memory.
pub(crate) fn root_of_members(
    members: &[Member],
    balances: &[u64; 16],
    kept: &mut Option<RestRoots>,
) -> Root
    requires { IsGroup members.now balances.now }
    ensures { result ≡ group_root (validators_of members.now balances.now) }
{
    let mut roots = [[0; 32]; 16];
    write_roots(members, balances, kept, &mut roots[..members.len()]);
    root_of_sixteen(&roots)
}
