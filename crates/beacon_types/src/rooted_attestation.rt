//! The attestations of a block, each with the roots that are made of it once.
//!
//! The block's root takes in the roots of its attestations, and the state's list of pending attestations takes in the same bits
//! and the same data. Both find the roots here.

ghost use Rattle.std.specs.Prelude.{◌≡◌, ◌≤◌, ◌++◌, length, IfOk, OnOk};
ghost use Rattle.ssz_codec.specs.Lists.{variable_size_list};
ghost use Rattle.beacon_types.specs.Containers.{eth1_data_codec, pending_attestation_codec};
ghost use Rattle.beacon_types.specs.Blocks.{attestation_codec, block_body_codec, max_attestations};
ghost use Rattle.beacon_types.specs.inside.AttestationChunks.{vote_root};
ghost use Rattle.beacon_types.specs.inside.RootedAttestations.{pending_of};

use crate::attestation::Attestation;
use crate::attestation_roots::{write_attestation_halves, write_attestation_roots};
use crate::body::BeaconBlockBody;
use crate::body_limits::AttestationsLimit;
use bc_words::NoMemory;
use hash_tree::{Leaf, Root, depth_of, hash_pair, merkle_leaves, mix_in_length};
use ssz_codec::ListLimit;
use std::alloc::Global;
use std::marker::Model;

/// An attestation with its root, and the one over its bits and its data. Contracts see the attestation.
#[derive(Drop)]
pub struct RootedAttestation<'a> {
    attestation: &'a Attestation,
    vote: Root,
    root: Root,
}

impl<'a> Model for RootedAttestation<'a> {
    ghost use Rattle.beacon_types.specs.declared.attestation.Attestation.{Attestation};

    ghost Value = { Attestation };

    ghost use Rattle.beacon_types.specs.inside.RootedAttestations.{HasRoots};

    ghost view = { λ rooted. rooted.attestation.now };

    ghost invariant = { λ rooted. HasRoots rooted.attestation.now rooted.vote rooted.root };
}

impl<'a> RootedAttestation<'a> {
    /// The attestation with these roots.
    fn with_roots(attestation: &'a Attestation, vote: Root, root: Root) -> RootedAttestation<'a>
        requires vote { vote ≡ vote_root attestation.now }
        requires root { root ≡ attestation_codec.hash_tree_root attestation.now }
        ensures { result ≡ attestation.now }
    {
        RootedAttestation {
            attestation,
            vote,
            root,
        }
    }

    /// The attestation with its roots. It takes no memory.
    pub fn of(attestation: &'a Attestation) -> RootedAttestation<'a>
        ensures { result ≡ attestation.now }
    {
        let vote = hash_pair(
            &attestation.aggregation_bits.root(),
            &attestation.content.root(),
        );
        let root = hash_pair(&vote, &hash_pair(&attestation.signature.root(), &[0; 32]));
        RootedAttestation::with_roots(attestation, vote, root)
    }

    /// The attestation alone.
    pub fn attestation(&self) -> &'a Attestation
        ensures { result.now ≡ self.now }
    {
        self.attestation
    }

    /// The root of the attestation as it waits in the state for the end of its epoch (beacon-chain.md, "PendingAttestation"), so many
    /// slots behind its own, in a block of this proposer. It takes no memory.
    pub fn pending_root(&self, inclusion_delay: u64, proposer_index: u64) -> Root
        ensures { result ≡ pending_attestation_codec.hash_tree_root (pending_of self.now inclusion_delay proposer_index) }
    {
        hash_pair(
            &self.vote,
            &hash_pair(&inclusion_delay.root(), &proposer_index.root()),
        )
    }
}

impl<'a> Leaf for RootedAttestation<'a> {
    ghost root_of = { attestation_codec.hash_tree_root };

    fn root(&self) -> Root {
        self.root
    }
}

/// How many attestations are hashed side by side.
const GROUP: usize = 8;

/// Puts at most eight attestations, each with its roots, behind others. Where memory is refused, some of them may stand there.
fn push_group<'a>(
    attestations: &'a [Attestation],
    rooted: &mut Vec<RootedAttestation<'a>>,
) -> Result<(), NoMemory>
    requires few { length attestations.now ≤ 8 }
    ensures { OnOk result (rooted.new.items ≡ rooted.old.items ++ attestations.now) }
{
    let count = attestations.len();
    let mut room = [[0; 32]; 16];
    let halves = &mut room[..2 * count];
    write_attestation_halves(attestations, halves);
    let mut room = [[0; 32]; 8];
    let roots = &mut room[..count];
    write_attestation_roots(attestations, halves, roots);
    'group: for i in 0..count {
        rooted.push(RootedAttestation::with_roots(&attestations[i], halves[2 * i], roots[i]))?;
    }
    Ok(())
}

/// The attestations of a block, each with its roots.
pub fn rooted_attestations(
    alloc: Global,
    attestations: &[Attestation],
) -> Result<Vec<RootedAttestation<'_>>, NoMemory>
    ensures { IfOk result (λ rooted. rooted.items ≡ attestations.now) }
{
    let mut rooted = Vec::with_capacity(alloc, attestations.len())?;
    for group in attestations.chunks(GROUP) {
        push_group(group, &mut rooted)?;
    }
    Ok(rooted)
}

/// The root of the list of a block's attestations.
#[tactic(auto, unfolding(hash_tree::specs::Merkle::merkleize))]
fn list_root(attestations: &[RootedAttestation<'_>]) -> Root
    requires { length attestations.now ≤ max_attestations }
    ensures { result ≡ (variable_size_list attestation_codec max_attestations).hash_tree_root attestations.now }
{
    let top = merkle_leaves(attestations, depth_of(AttestationsLimit::LIMIT));
    mix_in_length(&top, attestations.len() as u64)
}

impl BeaconBlockBody {
    /// The root of the body, whose vote for the deposit contract has this root, and whose attestations are these. It takes no memory.
    pub fn root_over(&self, eth1_data: &Root, attestations: &[RootedAttestation<'_>]) -> Root
        requires vote { eth1_data.now ≡ eth1_data_codec.hash_tree_root self.now.eth1_data }
        requires attestations { attestations.now ≡ self.now.attestations }
        ensures { result ≡ block_body_codec.hash_tree_root self.now }
    {
        let _few = self.attestations.len();
        self.root_with(eth1_data, &list_root(attestations))
    }
}
