//! What a block carries.

ghost use Rattle.std.specs.Prelude.{◌≡◌, ◌≤◌, ◌^◌, [], refl, IfOk, OnOk, IsTrue, ◌↔◌};
ghost use Rattle.hash_tree.specs.Merkle.{merkleize, mix_in_length as mixed_in};
ghost use Rattle.ssz_codec.specs.Lists.{list_codec};
ghost use Rattle.beacon_types.specs.Containers.{eth1_data_codec};
ghost use Rattle.beacon_types.specs.Blocks.{attestation_codec, block_body_codec, max_attestations, default_block_body, empty_body_root as root_of_default};
ghost use Rattle.beacon_types.specs.laws.Blocks.{block_body_lawful};

use crate::attestation::Attestation;
use crate::attester_slashing::AttesterSlashing;
use crate::body_limits::{
    AttestationsLimit, AttesterSlashingsLimit, DepositsLimit, ProposerSlashingsLimit,
    VoluntaryExitsLimit,
};
use crate::deposit::Deposit;
use crate::eth1_data::Eth1Data;
use crate::proposer_slashing::ProposerSlashing;
use crate::signed_exit::SignedVoluntaryExit;
use bc_words::NoMemory;
use hash_tree::{Leaf, Root, depth_of, fields_root, mix_in_length, zero_hash};
use ssz_codec::{
    Field, Items, LimitedList, ListLimit, Ssz, SszFault, VariableList, Writer, read_container,
    write_variable_container,
};
use std::alloc::Global;

/// The proposer slashings of a block.
pub type ProposerSlashings = LimitedList<ProposerSlashing, ProposerSlashingsLimit>;

/// The attester slashings of a block.
pub type AttesterSlashings = VariableList<AttesterSlashing, AttesterSlashingsLimit>;

/// The attestations of a block.
pub type Attestations = VariableList<Attestation, AttestationsLimit>;

/// The deposits of a block.
pub type Deposits = LimitedList<Deposit, DepositsLimit>;

/// The exits of a block.
pub type VoluntaryExits = LimitedList<SignedVoluntaryExit, VoluntaryExitsLimit>;

/// The body of a block (beacon-chain.md, "BeaconBlockBody").
pub struct BeaconBlockBody {
    /// The signature that the randao mix takes in, which is not checked.
    pub randao_reveal: [u8; 96],
    /// The proposer's vote for the data of the deposit contract.
    pub eth1_data: Eth1Data,
    /// Anything.
    pub graffiti: Root,
    /// The proposer slashings.
    pub proposer_slashings: ProposerSlashings,
    /// The attester slashings.
    pub attester_slashings: AttesterSlashings,
    /// The attestations.
    pub attestations: Attestations,
    /// The deposits.
    pub deposits: Deposits,
    /// The exits.
    pub voluntary_exits: VoluntaryExits,
}

// Written by hand, so that a call that lets one go is one call, and not one for each of its lists.
impl Drop for BeaconBlockBody {
    fn drop(self) {
        let BeaconBlockBody {
            randao_reveal: _,
            eth1_data: _,
            graffiti: _,
            proposer_slashings,
            attester_slashings,
            attestations,
            deposits,
            voluntary_exits,
        } = self;
        drop(proposer_slashings);
        drop(attester_slashings);
        drop(attestations);
        drop(deposits);
        drop(voluntary_exits);
    }
}

impl BeaconBlockBody {
    /// Whether it is the same body.
    pub fn equals(&self, other: &BeaconBlockBody) -> bool
        ensures { IsTrue result ↔ (self.now ≡ other.now) }
    {
        self.randao_reveal == other.randao_reveal
            && self.eth1_data == other.eth1_data
            && self.graffiti == other.graffiti
            && self.proposer_slashings.equals(&other.proposer_slashings)
            && self.attester_slashings.equals(&other.attester_slashings)
            && self.attestations.equals(&other.attestations)
            && self.deposits.equals(&other.deposits)
            && self.voluntary_exits.equals(&other.voluntary_exits)
    }

    /// The same body once more.
    pub fn copy(&self, alloc: Global) -> Result<BeaconBlockBody, NoMemory>
        ensures { IfOk result (λ copy. copy ≡ self.now) }
    {
        let mut copy = default_block_body(alloc);
        copy.randao_reveal = self.randao_reveal;
        copy.eth1_data = self.eth1_data;
        copy.graffiti = self.graffiti;
        copy_lists(alloc, self, &mut copy)?;
        Ok(copy)
    }
}

/// The body whose fields are all zero or empty, which the genesis block has (beacon-chain.md, "Genesis block").
pub fn default_block_body(alloc: Global) -> BeaconBlockBody
    ensures { result ≡ default_block_body }
{
    BeaconBlockBody {
        randao_reveal: [0; 96],
        eth1_data: Eth1Data {
            deposit_root: [0; 32],
            deposit_count: 0,
            block_hash: [0; 32],
        },
        graffiti: [0; 32],
        proposer_slashings: LimitedList::from_items(Items::new(alloc)),
        attester_slashings: VariableList::from_items(Items::new(alloc)),
        attestations: VariableList::from_items(Items::new(alloc)),
        deposits: LimitedList::from_items(Items::new(alloc)),
        voluntary_exits: LimitedList::from_items(Items::new(alloc)),
    }
}

/// The lists of a body once more, in the place of another body's.
fn copy_lists(
    alloc: Global,
    from: &BeaconBlockBody,
    into: &mut BeaconBlockBody,
) -> Result<(), NoMemory>
    ensures { OnOk result (into.new ≡ record from.now { randao_reveal = into.old.randao_reveal; eth1_data = into.old.eth1_data; graffiti = into.old.graffiti }) }
{
    into.proposer_slashings = from.proposer_slashings.copy(alloc)?;
    into.attester_slashings = from.attester_slashings.copy(alloc)?;
    into.attestations = from.attestations.copy(alloc)?;
    into.deposits = from.deposits.copy(alloc)?;
    into.voluntary_exits = from.voluntary_exits.copy(alloc)?;
    Ok(())
}

/// The root of a list that is empty: the zero tree of room for sixteen values that are not basic, and the length 0.
const EMPTY_OF_SIXTEEN: Root = [
    0x79, 0x29, 0x30, 0xbb, 0xd5, 0xba, 0xac, 0x43, 0xbc, 0xc7, 0x98, 0xee, 0x49, 0xaa, 0x81, 0x85,
    0xef, 0x76, 0xbb, 0x3b, 0x44, 0xba, 0x62, 0xb9, 0x1d, 0x86, 0xae, 0x56, 0x9e, 0x4b, 0xb5, 0x35,
];

/// The root of a list that is empty and has room for two such values.
const EMPTY_OF_TWO: Root = [
    0x7a, 0x05, 0x01, 0xf5, 0x95, 0x7b, 0xdf, 0x9c, 0xb3, 0xa8, 0xff, 0x49, 0x66, 0xf0, 0x22, 0x65,
    0xf9, 0x68, 0x65, 0x8b, 0x7a, 0x9c, 0x62, 0x64, 0x2c, 0xba, 0x11, 0x65, 0xe8, 0x66, 0x42, 0xf5,
];

/// The root of a list of so many values, of which this is the root where it is empty: most blocks have no such operation.
fn root_unless_empty<T: Leaf>(list: &T, length: u64, empty: &Root) -> Root
    requires { length ≡ 0 → empty.now ≡ T.root_of list.now }
    ensures { result ≡ T.root_of list.now }
{
    if length == 0 { *empty } else { list.root() }
}

impl BeaconBlockBody {
    /// The root of the body, whose vote for the deposit contract and whose list of attestations have these roots. It takes no memory.
    pub(crate) fn root_with(&self, eth1_data: &Root, attestations: &Root) -> Root
        requires vote { eth1_data.now ≡ eth1_data_codec.hash_tree_root self.now.eth1_data }
        requires attestations { attestations.now ≡ (list_codec attestation_codec max_attestations).hash_tree_root self.now.attestations }
        ensures { result ≡ block_body_codec.hash_tree_root self.now }
    {
        let (proposers, attesters) = (&self.proposer_slashings, &self.attester_slashings);
        let (deposits, exits) = (&self.deposits, &self.voluntary_exits);
        fields_root(&[
            self.randao_reveal.root(),
            *eth1_data,
            self.graffiti,
            root_unless_empty(proposers, proposers.len(), &EMPTY_OF_SIXTEEN),
            root_unless_empty(attesters, attesters.len(), &EMPTY_OF_TWO),
            *attestations,
            root_unless_empty(deposits, deposits.len(), &EMPTY_OF_SIXTEEN),
            root_unless_empty(exits, exits.len(), &EMPTY_OF_SIXTEEN),
        ])
    }
}

impl Leaf for BeaconBlockBody {
    ghost root_of = { block_body_codec.hash_tree_root };

    fn root(&self) -> Root {
        self.root_with(&self.eth1_data.root(), &self.attestations.root())
    }
}

impl Ssz for BeaconBlockBody {
    ghost codec = { block_body_codec };

    fn field() -> Field {
        Field::Variable
    }

    fn parse(alloc: Global, bytes: &[u8]) -> Result<BeaconBlockBody, SszFault> {
        read_container!(
            alloc,
            bytes,
            BeaconBlockBody {
                randao_reveal: [u8; 96],
                eth1_data: Eth1Data,
                graffiti: Root,
                proposer_slashings: ProposerSlashings,
                attester_slashings: AttesterSlashings,
                attestations: Attestations,
                deposits: Deposits,
                voluntary_exits: VoluntaryExits
            }
        )
    }

    fn append_to(&self, out: &mut Writer) -> Result<(), NoMemory> {
        write_variable_container!(
            self,
            out,
            220,
            randao_reveal,
            eth1_data,
            graffiti,
            proposer_slashings,
            attester_slashings,
            attestations,
            deposits,
            voluntary_exits
        )
    }

    ghost lawful = { block_body_lawful };

    ghost roots = { refl };
}

/// The root of an empty list of at most so many values that are not basic.
#[tactic(auto, unfolding(hash_tree::specs::Merkle::merkleize))]
fn empty_list_root(limit: u64) -> Root
    requires { limit ≤ 2 ^ 40 }
    ensures { result ≡ mixed_in (merkleize [] limit) 0 }
{
    mix_in_length(&zero_hash(depth_of(limit)), 0)
}

/// The root of the body whose fields are all zero or empty, which the genesis block has (beacon-chain.md, "Genesis
/// block").
#[tactic(auto, unfolding(crate::specs::Blocks::empty_body_root))]
pub fn empty_body_root() -> Root
    ensures { result ≡ root_of_default }
{
    let eth1_data = Eth1Data {
        deposit_root: [0; 32],
        deposit_count: 0,
        block_hash: [0; 32],
    };
    fields_root(&[
        [0; 96].root(),
        eth1_data.root(),
        [0; 32],
        empty_list_root(ProposerSlashingsLimit::LIMIT),
        empty_list_root(AttesterSlashingsLimit::LIMIT),
        empty_list_root(AttestationsLimit::LIMIT),
        empty_list_root(DepositsLimit::LIMIT),
        empty_list_root(VoluntaryExitsLimit::LIMIT),
    ])
}
