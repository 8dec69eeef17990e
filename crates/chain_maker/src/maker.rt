//! The maker of a chain: where it stands between two events, and the next event.

ghost use Rattle.std.specs.Prelude.{◌≡◌, ◌<◌, ◌≤◌, ◌+◌, List, [], Some, None, Err, IfOk, IfErr, IfSome, IsSome, if◌then◌else◌};
ghost use Rattle.hash_tree.specs.Merkle.{uint_to_bytes};
ghost use Rattle.bc_words.specs.Outcome.{done};
ghost use Rattle.spec_state.specs.Genesis.{genesis_fault, header_root_of};
ghost use Rattle.spec_transition.specs.ProcessSlots.{process_slots};
ghost use Rattle.spec_fork_choice.specs.Store.{Store};
ghost use Rattle.spec_fork_choice.specs.GetForkchoiceStore.{genesis_store};
ghost use Rattle.spec_fork_choice.specs.OnEvent.{genesis_clash};
ghost use Rattle.spec_drill.specs.Plan.{IsPlan, last_slot};
ghost use Rattle.spec_drill.specs.MakeGenesis.{genesis_of_plan};
ghost use Rattle.spec_drill.specs.MakeVotes.{votes_of};
ghost use Rattle.spec_drill.specs.Make.{MadeEvent, time_of};
ghost use Rattle.spec_drill.specs.Taken.{store_after};
ghost use Rattle.spec_drill.specs.Maker.{new_maker, HasGiven};
ghost use Rattle.chain_maker.specs.Next.{NextIs, IsAcceptedBy, StepIs, all_given};
ghost use Rattle.chain_maker.specs.inside.Standing.{Gives, GivesVote, one_given};

use crate::attestations::votes_of;
use crate::block::make_block;
use crate::genesis::made_genesis;
use crate::given::{Given, SteppedBlock, no_block};
use crate::plan::Plan;
use crate::votes::{Source, Votes};
use bc_preset::Config;
use bc_words::{NoMemory, Stop};
use beacon_state::State;
use beacon_types::Attestations;
use epoch_visitor::Seen;
use record_file::{Event, Payload};
use ssz_codec::{Ssz, Writer};
use std::alloc::Global;
use std::marker::Model;
use std::mem;
use transition::Step;
use transition::process_slots::process_slots;

/// What a slot begins with.
#[derive(Drop)]
struct Opening {
    // The slot.
    slot: u64,
    // The step to it from the state behind the chain's last block.
    step: Step,
    // The attestations of the slot before it.
    votes: Attestations,
    // The payload of its tick.
    tick: Payload,
}

/// A chain that is being made. Contracts see what it is made by, the state behind its last block, the last slot that was begun,
/// and what is still to be given of that slot.
pub struct Maker {
    plan: Plan,
    // The state behind the chain's last block.
    state: State,
    // The last slot that was begun.
    slot: u64,
    // The attestations of the slot before it.
    votes: Votes,
    // The state at the slot, where its block is still to be made.
    due: Option<State>,
    // The states on which epoch processing was entered on the way to it, which only clauses see.
    entered: Seen,
}

// Written by hand, so that a call that lets one go is one call, and not one for each of its parts.
impl Drop for Maker {
    fn drop(self) {
        let Maker {
            plan: _,
            state: _state,
            slot: _,
            votes: _votes,
            due: _due,
            entered: _entered,
        } = self;
    }
}

impl Model for Maker {
    ghost use Rattle.spec_drill.specs.Maker.{PlainMaker};

    ghost Value = { PlainMaker };

    ghost use Rattle.chain_maker.specs.inside.Standing.{maker_of, Stands};

    ghost view = { maker_of };

    ghost invariant = { Stands };
}

impl Maker {
    /// The maker of a plan's chain, at genesis.
    fn begin(alloc: Global, plan: Plan) -> Result<Maker, NoMemory>
        ensures { IfOk result (λ maker. maker ≡ new_maker plan) }
    {
        let state = made_genesis(alloc, plan.config.preset(), plan.number)?;
        Ok(Maker {
            plan,
            state,
            slot: 0,
            votes: Votes::new(alloc),
            due: None,
            entered: Seen::new(),
        })
    }

    /// The maker of a number's chain, which has 32 epochs. The ejection balance must be below the full effective balance.
    pub fn new(alloc: Global, number: u64, config: &Config) -> Result<Maker, NoMemory>
        requires { config.now.ejection_balance < 32_000_000_000 }
        ensures { IfOk result (λ maker. maker ≡ new_maker (record { config = config.now; number = number; which = None })) }
    {
        config.in_range();
        let plan = Plan {
            config: *config,
            number,
            which: None,
        };
        Maker::begin(alloc, plan)
    }

    /// The maker of one of two chains of 5 epochs, 0 or 1, on the same genesis: they skip no slot, and part at the first one.
    pub fn split(&self, alloc: Global, which: u8) -> Result<Maker, NoMemory>
        requires { which < 2 }
        ensures { IfOk result (λ maker. maker ≡ new_maker (record self.now.plan { which = Some which })) }
    {
        let plan = Plan {
            config: self.plan.config,
            number: self.plan.number,
            which: Some(which),
        };
        Maker::begin(alloc, plan)
    }

    /// The genesis state of the chain. It passes the genesis check.
    #[tactic(auto, unfolding(spec_drill::specs::MakeGenesis::genesis_of_plan))]
    pub fn genesis(&self, alloc: Global) -> Result<State, NoMemory>
        ensures state { IfOk result (λ state. state ≡ genesis_of_plan self.now.plan) }
        ensures passes { IfOk result (λ state. genesis_fault state ≡ None) }
    {
        made_genesis(alloc, self.plan.config.preset(), self.plan.number)
    }

    /// The last slot that was begun.
    #[tactic(auto, using(crate::proofs::Steps::begun_low))]
    fn last_begun(&self) -> u64
        ensures exact { result ≡ self.now.slot }
        ensures low { result ≤ 1024 }
    {
        self.slot
    }

    /// The law that every maker has a plan. It does nothing when it runs.
    pub(crate) fn is_planned(&self)
        ensures { IsPlan self.now.plan }
    {
        let _ = &self.plan;
    }

    /// Gives the next attestation of the slot, if one is left.
    fn give_vote(&mut self, alloc: Global) -> Result<Option<Event>, NoMemory>
        ensures gives { GivesVote result self.old self.new }
        ensures plan { self.new.plan ≡ self.old.plan }
        ensures state { self.new.state ≡ self.old.state }
    {
        self.votes.next(alloc)
    }

    /// What the next slot begins with.
    fn next_slot(&self, alloc: Global) -> Result<Opening, Stop>
        requires none { self.now.pending ≡ [] }
        requires no_block { self.now.due ≡ None }
        requires later { self.now.slot < last_slot self.now.plan }
        ensures slot { IfOk result (λ opening. opening.slot ≡ self.now.slot + 1) }
        ensures step { IfOk result (λ opening. process_slots self.now.state (self.now.slot + 1) self.now.plan.config ≡ done opening.step) }
        ensures votes { IfOk result (λ opening. opening.votes ≡ votes_of opening.step.state (header_root_of self.now.state) self.now.slot) }
        ensures tick { IfOk result (λ opening. opening.tick ≡ uint_to_bytes (time_of self.now.plan (self.now.slot + 1))) }
        ensures stops { IfErr result (λ stop. Gives (Err stop) self.now self.now) }
    {
        let begun = self.last_begun();
        let slot = begun + 1;
        let root = self.state.header_root();
        let step = process_slots(alloc, &self.state, slot, &self.plan.config)?;
        let votes = votes_of(alloc, &step.state, &root, begun)?;
        let tick = tick_payload(alloc, self.plan.time_of(slot))?;
        Ok(Opening {
            slot,
            step,
            votes,
            tick,
        })
    }

    /// Begins the next slot: the event is its tick.
    fn begin_slot(&mut self, alloc: Global) -> Result<Event, Stop>
        requires none { self.old.pending ≡ [] }
        requires no_block { self.old.due ≡ None }
        requires later { self.old.slot < last_slot self.old.plan }
        ensures gives { Gives result self.old self.new }
        ensures plan { self.new.plan ≡ self.old.plan }
        ensures state { self.new.state ≡ self.old.state }
    {
        let Opening {
            slot,
            step,
            votes,
            tick,
        } = self.next_slot(alloc)?;
        let skipped = self.plan.is_skipped(slot);
        let due = unless(skipped, step.state);
        self.due = due;
        self.entered = step.entered;
        self.votes = Votes {
            all: votes,
            given: 0,
            source: Source::Wire,
        };
        self.slot = slot;
        Ok(Event {
            kind: 1,
            payload: tick,
        })
    }

    /// Makes the slot's block: the event is the block.
    fn give_block(&mut self, alloc: Global) -> Result<Given, Stop>
        requires none { self.old.pending ≡ [] }
        requires block { IsSome self.old.due }
        ensures gives { Gives (one_given result) self.old self.new }
        ensures plan { self.new.plan ≡ self.old.plan }
        ensures stepped { IfOk result (λ given. StepIs given.stepped self.old self.new) }
    {
        let root = self.state.header_root();
        let made = match &self.due {
            Some(at) => make_block(alloc, &self.plan, at, &root, &self.votes.all)?,
            None => unreachable!(),
        };
        let payload = Payload::new(made.block.write(alloc)?);
        let state = made.state.share()?;
        self.state = made.state;
        let entered = mem::replace(&mut self.entered, Seen::new());
        self.due = None;
        self.votes.given = 0;
        self.votes.source = Source::Carried;
        Ok(Given {
            event: Event { kind: 2, payload },
            stepped: Some(SteppedBlock {
                block: made.block,
                step: Step { state, entered },
            }),
        })
    }

    /// The next event, or None exactly behind the last slot. It is accepted by the store behind the events before it, unless it
    /// clashes. A block comes with its step from the state behind the one before it.
    ///
    /// Limited where none of the candidates for the proposer of the next block passes: the chain ends there. Nothing is refused.
    /// Where no event is given, the maker is as before.
    pub fn next_given(&mut self, alloc: Global) -> Result<Option<Given>, Stop>
        ensures gives { NextIs (all_given result) self.old self.new }
        ensures plan { self.new.plan ≡ self.old.plan }
        ensures stepped { IfOk result (λ next. IfSome next (λ given. StepIs given.stepped self.old self.new)) }
        ensures accepted { (given : List MadeEvent) (store : Store) → genesis_clash (genesis_of_plan self.old.plan) ≡ None → HasGiven given self.old
            → store_after (genesis_store self.old.plan.config (genesis_of_plan self.old.plan)) given ≡ Some store → IsAcceptedBy store (all_given result) }
    {
        self.give(alloc)
    }

    /// The next event, as `next_given` gives it.
    pub fn next_event(&mut self, alloc: Global) -> Result<Option<Event>, Stop>
        ensures gives { NextIs result self.old self.new }
        ensures plan { self.new.plan ≡ self.old.plan }
        ensures accepted { (given : List MadeEvent) (store : Store) → genesis_clash (genesis_of_plan self.old.plan) ≡ None → HasGiven given self.old
            → store_after (genesis_store self.old.plan.config (genesis_of_plan self.old.plan)) given ≡ Some store → IsAcceptedBy store result }
    {
        match self.next_given(alloc) {
            Ok(Some(given)) => Ok(Some(given.event)),
            Ok(None) => Ok(None),
            Err(stop) => Err(stop),
        }
    }

    /// The next event: of what is left of the slot, or of the next slot.
    #[tactic(auto, using(crate::proofs::Steps::nothing_left))]
    fn give(&mut self, alloc: Global) -> Result<Option<Given>, Stop>
        ensures gives { NextIs (all_given result) self.old self.new }
        ensures plan { self.new.plan ≡ self.old.plan }
        ensures stepped { IfOk result (λ next. IfSome next (λ given. StepIs given.stepped self.old self.new)) }
        ensures ok { IsPlan self.old.plan }
    {
        self.is_planned();
        if let Some(event) = self.give_vote(alloc)? {
            return Ok(Some(no_block(event)));
        }
        if self.due.is_some() {
            return Ok(Some(self.give_block(alloc)?));
        }
        if self.slot == self.plan.last_slot() {
            return Ok(None);
        }
        Ok(Some(no_block(self.begin_slot(alloc)?)))
    }
}

/// The state at a slot that has a block.
fn unless(skipped: bool, at: State) -> Option<State>
    ensures { result ≡ (if skipped then None else Some at) }
{
    if skipped { None } else { Some(at) }
}

/// The payload of a tick: its time in eight bytes, low byte first.
#[tactic(auto, unfolding(hash_tree::specs::Merkle::uint_to_bytes))]
fn tick_payload(alloc: Global, time: u64) -> Result<Payload, NoMemory>
    ensures { IfOk result (λ payload. payload ≡ uint_to_bytes time) }
{
    let mut out = Writer::new(alloc);
    out.put_u64(time)?;
    Ok(Payload::new(out.finish()))
}
