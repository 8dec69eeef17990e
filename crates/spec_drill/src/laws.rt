//! The laws of made chains: their events and how they end. They do nothing when they run.

ghost use Rattle.std.specs.Prelude.{◌≡◌, None};
ghost use Rattle.spec_fork_choice.specs.GetForkchoiceStore.{genesis_store};
ghost use Rattle.spec_fork_choice.specs.OnEvent.{genesis_clash};
ghost use Rattle.spec_drill.specs.Plan.{Plan, IsPlan};
ghost use Rattle.spec_drill.specs.MakeGenesis.{genesis_of_plan};
ghost use Rattle.spec_drill.specs.Make.{EndsWell, made};
ghost use Rattle.spec_drill.specs.Taken.{AreTakenAsWritten};

/// The law that each event of a made chain, as it is written, is accepted by the store behind the events before it, until one
/// clashes: for every number, and every configuration by which a full validator isn't ejected.
#[tactic(auto, using(crate::proofs::Genesis::made_is_accepted_as_written))]
pub fn made_is_accepted()
    ensures { (plan : Plan) → IsPlan plan → genesis_clash (genesis_of_plan plan) ≡ None → AreTakenAsWritten (genesis_store plan.config (genesis_of_plan plan)) (made plan).events }
{}

/// The law that the events end with the last slot, or with the proposer's limit.
#[tactic(auto, using(crate::proofs::Genesis::made_ends_well))]
pub fn made_ends_well()
    ensures { (plan : Plan) → IsPlan plan → EndsWell (made plan).end }
{}
