//! The laws of operations. They do nothing when they run.

ghost use Rattle.std.specs.Prelude.{◌≡◌, ◌<◌, ◌≤◌, ℕ, ◌+◌, List, ◌++◌, length, true, All, AllPairs, Contains, Some, is_some};
ghost use Rattle.bc_words.specs.Outcome.{done, refused};
ghost use Rattle.bc_words.specs.declared.refusal.Refusal.TheVariants.{AsNone};
ghost use Rattle.bc_preset.specs.declared.configuration.ConfigValues.{ConfigValues};
ghost use Rattle.beacon_types.specs.Slashable.{is_slashable_attestation_data};
ghost use Rattle.beacon_types.specs.Blocks.{attester_slashing_codec};
ghost use Rattle.beacon_types.specs.declared.attester_slashing.AttesterSlashing.{AttesterSlashing};
ghost use Rattle.spec_state.specs.declared.plain.PlainState.{PlainState};
ghost use Rattle.spec_state.specs.Limits.{IsState};
ghost use Rattle.spec_state.specs.Soundness.{IsSound};
ghost use Rattle.spec_blocks.specs.IsValidIndexedAttestation.{is_strictly_ascending, is_valid_indexed_attestation};
ghost use Rattle.spec_blocks.specs.ProcessAttesterSlashing.{process_attester_slashing};
ghost use Rattle.spec_forensics.specs.declared.vote.Vote.{Vote};
ghost use Rattle.spec_fork_choice.specs.Store.{Store};
ghost use Rattle.spec_fork_choice.specs.OnEvent.{Accepted};
ghost use Rattle.spec_forensics.specs.Histories.{AcceptedBlock, with_event};
ghost use Rattle.spec_forensics.specs.CarriedVotes.{all_votes};
ghost use Rattle.spec_forensics.specs.Verdict.{offences_of};
ghost use Rattle.spec_slasher.specs.GetIndexedAttestation.{in_order};
ghost use Rattle.spec_slasher.specs.AttestationOf.{CarriedAttestation, all_attestations, AreInOrder, names, indexed, attestation_of};
ghost use Rattle.spec_slasher.specs.Operations.{operations, AreCarriedIn, HasOperation, offenders, IsNamed};
ghost use Rattle.spec_slasher.specs.Accepts.{IsDoneOrOverflow, IsHeld, HasSlashable, HasNoSlashable, IsTaken};
ghost use Rattle.spec_slasher.specs.Written.{IsReadable};

/// The sorted list of a list's indices ascends strictly, has the same indices, and is the only such list.
pub fn indices_are_sorted()
    ensures ascends { (indices : List ℕ) → is_strictly_ascending (in_order indices) ≡ true }
    ensures keeps { (indices : List ℕ) (index : ℕ) → Contains indices index → Contains (in_order indices) index }
    ensures adds_none { (indices : List ℕ) (index : ℕ) → Contains (in_order indices) index → Contains indices index }
    ensures only { (indices sorted : List ℕ) → is_strictly_ascending sorted ≡ true → ((index : ℕ) → Contains indices index → Contains sorted index) → ((index : ℕ) → Contains sorted index → Contains indices index)
        → sorted ≡ in_order indices }
{}

/// A vote names an attestation exactly where a block carries it; and where each block has an event of its own, it names the one of each
/// place that carries it.
pub fn carried_votes_name_attestations()
    ensures carried { (genesis : PlainState) (first second : List AcceptedBlock) (vote : Vote) → is_some (attestation_of genesis first second vote) ≡ true → Contains (all_votes genesis first second) vote }
    ensures named { (genesis : PlainState) (first second : List AcceptedBlock) (vote : Vote) → Contains (all_votes genesis first second) vote → is_some (attestation_of genesis first second vote) ≡ true }
    ensures only { (genesis : PlainState) (first second : List AcceptedBlock) (vote : Vote) (carried : CarriedAttestation) → AreInOrder first → AreInOrder second → Contains (all_attestations first second) carried
        → names genesis vote carried ≡ true → attestation_of genesis first second vote ≡ Some (indexed carried) }
{}

/// The blocks of a history have an event each, in order, where each event of its run has a number above those before.
pub fn events_stay_in_order()
    ensures order { (event : ℕ) (history : List AcceptedBlock) (store : Store) (accepted : Accepted) → AreInOrder history → All (λ b. b.event < event) history → AreInOrder (with_event event history store accepted) }
    ensures below { (event : ℕ) (history : List AcceptedBlock) (store : Store) (accepted : Accepted) → AreInOrder history → All (λ b. b.event < event) history
        → All (λ b. b.event < event + 1) (with_event event history store accepted) }
{}

/// Each offence has its operation.
pub fn offences_have_operations()
    ensures { (genesis : PlainState) (first second : List AcceptedBlock) → All (HasOperation genesis first second) (offences_of genesis first second) }
{}

/// No two operations are equal.
pub fn operations_differ()
    ensures { (genesis : PlainState) (first second : List AcceptedBlock) → AllPairs (λ a b. a ≡ b → ⊥) (operations genesis first second) }
{}

/// Both attestations of each operation are carried by accepted blocks, and have all their attesters.
pub fn operations_are_carried()
    ensures { (genesis : PlainState) (first second : List AcceptedBlock) → All (AreCarriedIn (first ++ second)) (operations genesis first second) }
{}

/// The data of each operation are slashable in the given order.
#[tactic(auto, using(crate::proofs::Operations::all_slashable))]
pub fn operations_are_slashable()
    ensures { (genesis : PlainState) (first second : List AcceptedBlock) → All (λ o. is_slashable_attestation_data o.attestation_1.content o.attestation_2.content ≡ true) (operations genesis first second) }
{}

/// The validators of the genesis registry that stand in both attestations of some operation are exactly the offenders.
pub fn operations_name_offenders()
    ensures only { (genesis : PlainState) (first second : List AcceptedBlock) (index : ℕ) → index < length genesis.validators → IsNamed (operations genesis first second) index → Contains (offenders genesis first second) index }
    ensures all { (genesis : PlainState) (first second : List AcceptedBlock) (index : ℕ) → Contains (offenders genesis first second) index → index < length genesis.validators × IsNamed (operations genesis first second) index }
{}

/// A registry that is as long as those of the states behind all accepted blocks holds every index of each operation.
pub fn operations_are_held()
    ensures { (genesis : PlainState) (first second : List AcceptedBlock) (s : PlainState) → All (λ b. length b.state.validators ≤ length s.validators) (first ++ second) → All (IsHeld s) (operations genesis first second) }
{}

/// In a state whose registry holds every index of an operation, both of its attestations are valid.
pub fn operations_are_valid()
    ensures first { (genesis : PlainState) (first second : List AcceptedBlock) (operation : AttesterSlashing) (s : PlainState) → Contains (operations genesis first second) operation → IsHeld s operation
        → is_valid_indexed_attestation s operation.attestation_1 ≡ done tt }
    ensures second { (genesis : PlainState) (first second : List AcceptedBlock) (operation : AttesterSlashing) (s : PlainState) → Contains (operations genesis first second) operation → IsHeld s operation
        → is_valid_indexed_attestation s operation.attestation_2 ≡ done tt }
{}

/// In a sound state whose registry holds every index of an operation, and where a common validator is slashable, a block's step with
/// it is done, or refused because a number doesn't fit; where no common validator is slashable, it is refused for that.
pub fn operations_are_processed()
    ensures some { (genesis : PlainState) (first second : List AcceptedBlock) (operation : AttesterSlashing) (s : PlainState) (proposer : ℕ) (config : ConfigValues) → Contains (operations genesis first second) operation
        → IsState s → IsSound s → proposer < length s.validators → IsHeld s operation → HasSlashable s operation → IsDoneOrOverflow (process_attester_slashing s operation proposer config) }
    ensures none { (genesis : PlainState) (first second : List AcceptedBlock) (operation : AttesterSlashing) (s : PlainState) (proposer : ℕ) (config : ConfigValues) → Contains (operations genesis first second) operation
        → IsHeld s operation → HasNoSlashable s operation → process_attester_slashing s operation proposer config ≡ refused AsNone }
{}

/// Fork choice accepts each operation in a store whose justified root's own state holds every index: behind it exactly the common
/// validators are equivocating beside those before, and all else is as it was.
pub fn operations_are_taken()
    ensures { (genesis : PlainState) (first second : List AcceptedBlock) → All IsTaken (operations genesis first second) }
{}

/// Where the accepted blocks are readable, each operation has a writing that is read as it, of at most 33,232 bytes.
pub fn operations_are_written()
    ensures read { (genesis : PlainState) (first second : List AcceptedBlock) → All IsReadable (first ++ second)
        → All (λ o. attester_slashing_codec.deserialize (attester_slashing_codec.serialize o) ≡ Some o) (operations genesis first second) }
    ensures size { (genesis : PlainState) (first second : List AcceptedBlock) → All IsReadable (first ++ second) → All (λ o. length (attester_slashing_codec.serialize o) ≤ 33_232) (operations genesis first second) }
{}
