//! The laws of two histories, each a function that does nothing when it runs and whose promise is the law.
//!
//! A history is what a store accepted; what is said of histories goes to the verdict on two of them.

ghost use Rattle.std.specs.Prelude.{◌≡◌, ◌≤◌, ℕ, ◌*◌, false, List, [], ◌∷◌, None};
ghost use Rattle.bc_words.specs.Events.{accepted};
ghost use Rattle.bc_preset.specs.declared.configuration.ConfigValues.{ConfigValues};
ghost use Rattle.ssz_codec.specs.Lawful.{IsBytes};
ghost use Rattle.beacon_types.specs.Equality.{same_root};
ghost use Rattle.beacon_types.specs.declared.checkpoint.Checkpoint.{Checkpoint};
ghost use Rattle.spec_state.specs.declared.plain.PlainState.{PlainState};
ghost use Rattle.spec_state.specs.Genesis.{genesis_fault, zero_root};
ghost use Rattle.spec_state.specs.Limits.{IsState, IsInRange};
ghost use Rattle.spec_state.specs.States.{state_codec};
ghost use Rattle.spec_fork_choice.specs.Store.{Store};
ghost use Rattle.spec_fork_choice.specs.GetForkchoiceStore.{genesis_store};
ghost use Rattle.spec_fork_choice.specs.OnBlock.{BlockIn};
ghost use Rattle.spec_fork_choice.specs.OnEvent.{Accepted, block, on_event};
ghost use Rattle.spec_forensics.specs.declared.verdict.Verdict.TheVariants.{Conflict};
ghost use Rattle.spec_forensics.specs.Histories.{AcceptedBlock, with_event, IsStepOn};
ghost use Rattle.spec_forensics.specs.Clash.{clash_with};
ghost use Rattle.spec_forensics.specs.Steady.{genesis_total};
ghost use Rattle.spec_forensics.specs.Verdict.{balance_of, offences_of, verdict_of};
ghost use Rattle.safety_law.specs.Histories.{Begins, AreHistories};
ghost use Rattle.safety_law.specs.Finals.{IsFinalOf, IsConflict, IsLargeGenesis, StaysSteady, AreInConflict};
ghost use Rattle.safety_law.specs.Follows.{Follows, IsAdded};

/// A state that the check of a genesis takes, and whose root isn't zero, begins histories.
#[tactic(auto, using(crate::proofs::Beginning::genesis_begins))]
pub fn genesis_begins_histories()
    ensures { (genesis : PlainState) → genesis_fault genesis ≡ None → IsState genesis → IsInRange genesis
        → same_root ((state_codec genesis.preset).hash_tree_root genesis) zero_root ≡ false → Begins genesis }
{}

/// The store of fork choice follows its history: at genesis, and behind each event that it accepts. An accepted block is a step of
/// the history, and its root is no name for another block of it.
#[tactic(auto, using(crate::proofs::Followed::begins_followed))]
pub fn store_follows_its_history()
    ensures begins { (config : ConfigValues) (genesis : PlainState) → Begins genesis → Follows config genesis [] (genesis_store config genesis) }
    ensures follows { (config : ConfigValues) (genesis : PlainState) (history : List AcceptedBlock) (store new : Store) (kind : ℕ) (payload : List ℕ) (given : Accepted) (event : ℕ)
        → Follows config genesis history store → IsBytes payload → on_event store kind payload ≡ accepted (new, given)
        → Follows config genesis (with_event event history new given) new }
    ensures adds { (config : ConfigValues) (genesis : PlainState) (history : List AcceptedBlock) (store new : Store) (kind : ℕ) (payload : List ℕ) (given : BlockIn) (event : ℕ)
        → Follows config genesis history store → IsBytes payload → on_event store kind payload ≡ accepted (new, block given)
        → IsAdded config genesis history new event given }
{}

/// Two histories on one genesis in which a root is a name for one block stay so with a block more of one of them, where the block's
/// root is no name for another block of both.
#[tactic(auto, using(crate::proofs::Growing::none_yet))]
pub fn histories_grow()
    ensures begin { (config : ConfigValues) (genesis : PlainState) → Begins genesis → AreHistories config genesis [] [] }
    ensures first { (config : ConfigValues) (genesis : PlainState) (first second : List AcceptedBlock) (b : AcceptedBlock) → AreHistories config genesis first second
        → IsStepOn config genesis first b → clash_with genesis first second b.root b.block ≡ None → AreHistories config genesis (b ∷ first) second }
    ensures second { (config : ConfigValues) (genesis : PlainState) (first second : List AcceptedBlock) (b : AcceptedBlock) → AreHistories config genesis first second
        → IsStepOn config genesis second b → clash_with genesis first second b.root b.block ≡ None → AreHistories config genesis first (b ∷ second) }
{}

/// Accountable safety: where two histories finalised blocks apart, the genesis total is at least two increments, and the validators
/// stay as they were at genesis on both chains to the finalising blocks, the validators with offences among the votes that both
/// histories carry have at least a third of the genesis total.
pub fn conflict_convicts()
    ensures { (config : ConfigValues) (genesis : PlainState) (first second : List AcceptedBlock) (a b : Checkpoint) → AreHistories config genesis first second
        → IsFinalOf genesis first a → IsFinalOf genesis second b → IsConflict genesis first second a b → IsLargeGenesis genesis
        → StaysSteady genesis first a → StaysSteady genesis second b → genesis_total genesis ≤ 3 * balance_of genesis (offences_of genesis first second) }
{}

/// The verdict is one of conflict exactly where two histories conflict on a large genesis whose validators stay, and it names the
/// offenders' balance and the total.
#[tactic(auto, using(crate::proofs::Verdicts::verdict_says, crate::proofs::Verdicts::verdict_is))]
pub fn verdict_tells_of_conflict()
    ensures says { (genesis : PlainState) (first second : List AcceptedBlock) (a b : Checkpoint) (balance total : ℕ)
        → verdict_of genesis first second a b ≡ Conflict balance total → AreInConflict genesis first second a b balance total }
    ensures said { (genesis : PlainState) (first second : List AcceptedBlock) (a b : Checkpoint) (balance total : ℕ)
        → AreInConflict genesis first second a b balance total → verdict_of genesis first second a b ≡ Conflict balance total }
{}

/// Three times the balance that a verdict of conflict names is at least the total that it names.
#[tactic(auto, using(crate::proofs::Judge::verdict_convicts))]
pub fn verdict_convicts()
    ensures { (config : ConfigValues) (genesis : PlainState) (first second : List AcceptedBlock) (a b : Checkpoint) (balance total : ℕ) → AreHistories config genesis first second
        → IsFinalOf genesis first a → IsFinalOf genesis second b → verdict_of genesis first second a b ≡ Conflict balance total → total ≤ 3 * balance }
{}
