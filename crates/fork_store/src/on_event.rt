//! One event of a record (fork-choice.md, "Handlers").
//!
//! The payload's bytes come from a record; the store changes, and what an accepted block leaves goes to the event's line.

ghost use Rattle.std.specs.Prelude.{◌≡◌, ◌≢◌, ◌<◌, ◌≤◌, ◌-◌, ◌^◌, Some, length, IfErr, IfOk};
ghost use Rattle.beacon_types.specs.Blocks.{signed_block_codec, attestation_codec, attester_slashing_codec};
ghost use Rattle.spec_fork_choice.specs.OnTick.{on_tick};
ghost use Rattle.spec_fork_choice.specs.OnAttestation.{on_attestation};
ghost use Rattle.spec_fork_choice.specs.OnAttesterSlashing.{on_attester_slashing};
ghost use Rattle.spec_fork_choice.specs.OnEvent.{without_block, handle_tick, handle_block, handle_attestation, handle_attester_slashing, on_event};
ghost use Rattle.fork_store.specs.Events.{AcceptsBy, accepted_of, entered_of, number_of_kind};
ghost use Rattle.fork_store.specs.Seen.{StoreStays};
ghost use Rattle.epoch_visitor.specs.Shown.{shown_all};

use crate::block_in::BlockIn;
use crate::store::Store;
use bc_words::{Refusal, StoreStop};
use beacon_types::{Attestation, AttesterSlashing, SignedBeaconBlock};
use epoch_visitor::{Seen, Visitor, Watched};
use ssz_codec::{Ssz, SszFault};
use std::alloc::Global;

/// The kinds of events.
#[derive(Clone, Copy)]
pub enum EventKind {
    /// A tick, whose payload is a time.
    Tick,
    /// A signed block.
    SignedBlock,
    /// An attestation from the wire.
    WireAttestation,
    /// An attestation from a block.
    BlockAttestation,
    /// An attester slashing.
    Slashing,
}

impl EventKind {
    /// The kind of a number: 1 is a tick, 2 a signed block, 3 an attestation from the wire, 4 one from a block, 5 an attester slashing.
    #[tactic(auto, unfolding(crate::specs::Events::number_of_kind))]
    pub fn of(number: u8) -> EventKind
        requires first { 1 ≤ number }
        requires last { number ≤ 5 }
        ensures { number_of_kind result ≡ number }
    {
        match number {
            1 => EventKind::Tick,
            2 => EventKind::SignedBlock,
            3 => EventKind::WireAttestation,
            4 => EventKind::BlockAttestation,
            _ => EventKind::Slashing,
        }
    }
}

/// What an accepted event gives beside the new store.
#[derive(Drop)]
pub enum Accepted {
    /// What a block leaves.
    Block(BlockIn),
    /// The event is no block.
    Other,
}

/// Takes the time of a tick.
#[tactic(auto, using(crate::proofs::Events::ticking))]
fn take_tick(store: &mut Store, time: u64) -> Result<Accepted, StoreStop>
    ensures exact { AcceptsBy accepted_of result store.old.plain store.new.plain (without_block (on_tick store.old.plain time)) }
    ensures other { IfOk result (λ given. given ≡ Accepted.Other) }
    ensures balances_set_stays { store.new.plain.justified_checkpoint ≡ store.old.plain.justified_checkpoint → store.new.array.balances_set ≡ store.old.array.balances_set }
    ensures stays { IfErr result (λ _. StoreStays store.old store.new) }
{
    match store.on_tick(time) {
        Ok(()) => Ok(Accepted::Other),
        Err(why) => Err(StoreStop::Refused(why)),
    }
}

/// Takes a tick, whose payload is its time in 8 bytes, low byte first.
#[tactic(auto, unfolding(spec_fork_choice::specs::OnEvent::handle_tick), using(crate::proofs::StoreStays::unchanged))]
fn handle_tick(store: &mut Store, payload: &[u8]) -> Result<Accepted, StoreStop>
    ensures exact { AcceptsBy accepted_of result store.old.plain store.new.plain (handle_tick store.old.plain payload.now) }
    ensures other { IfOk result (λ given. given ≡ Accepted.Other) }
    ensures balances_set_stays { store.new.plain.justified_checkpoint ≡ store.old.plain.justified_checkpoint → store.new.array.balances_set ≡ store.old.array.balances_set }
    ensures stays { IfErr result (λ _. StoreStays store.old store.new) }
{
    match payload {
        [a, b, c, d, e, f, g, h] => {
            take_tick(store, u64::from_le_bytes([*a, *b, *c, *d, *e, *f, *g, *h]))
        }
        _ => Err(StoreStop::Refused(Refusal::Malformed)),
    }
}

/// Takes a signed block, and shows a visitor the states that it entered.
#[tactic(auto, unfolding(spec_fork_choice::specs::OnEvent::handle_block), using(crate::proofs::Events::blocks))]
fn take_block<V: Visitor>(
    alloc: Global,
    store: &mut Store,
    block: &SignedBeaconBlock,
    visitor: &mut Watched<V>,
) -> Result<Accepted, StoreStop>
    requires few { length store.old.plain.blocks < 2 ^ 32 - 1 }
    ensures exact { AcceptsBy accepted_of result store.old.plain store.new.plain (handle_block store.old.plain (Some block.now)) }
    ensures shown { IfOk result (λ given. visitor.new.visitor ≡ shown_all V.shown visitor.old.visitor (entered_of (accepted_of given))) }
    ensures balances_set_stays { store.new.plain.justified_checkpoint ≡ store.old.plain.justified_checkpoint → store.new.array.balances_set ≡ store.old.array.balances_set }
    ensures stays { IfErr result (λ _. StoreStays store.old store.new) }
{
    Ok(Accepted::Block(store.visit_block(alloc, block, visitor)?))
}

/// Takes a signed block, whose payload is its writing, and shows a visitor the states that it entered.
#[tactic(auto, unfolding(spec_fork_choice::specs::OnEvent::handle_block), using(crate::proofs::StoreStays::unchanged))]
fn handle_block<V: Visitor>(
    alloc: Global,
    store: &mut Store,
    payload: &[u8],
    visitor: &mut Watched<V>,
) -> Result<Accepted, StoreStop>
    requires few { length store.old.plain.blocks < 2 ^ 32 - 1 }
    ensures exact { AcceptsBy accepted_of result store.old.plain store.new.plain (handle_block store.old.plain (signed_block_codec.deserialize payload.now)) }
    ensures shown { IfOk result (λ given. visitor.new.visitor ≡ shown_all V.shown visitor.old.visitor (entered_of (accepted_of given))) }
    ensures balances_set_stays { store.new.plain.justified_checkpoint ≡ store.old.plain.justified_checkpoint → store.new.array.balances_set ≡ store.old.array.balances_set }
    ensures stays { IfErr result (λ _. StoreStays store.old store.new) }
{
    match SignedBeaconBlock::read(alloc, payload) {
        Ok(block) => take_block(alloc, store, &block, visitor),
        Err(SszFault::NotAWriting) => Err(StoreStop::Refused(Refusal::Malformed)),
        Err(SszFault::NoMemory) => Err(StoreStop::NoMemory),
    }
}

/// Takes a signed block.
#[tactic(auto, unfolding(spec_fork_choice::specs::OnEvent::handle_block), using(crate::proofs::Events::blocks))]
fn take_signed_block(
    alloc: Global,
    store: &mut Store,
    block: &SignedBeaconBlock,
) -> Result<Accepted, StoreStop>
    requires few { length store.old.plain.blocks < 2 ^ 32 - 1 }
    ensures exact { AcceptsBy accepted_of result store.old.plain store.new.plain (handle_block store.old.plain (Some block.now)) }
    ensures balances_set_stays { store.new.plain.justified_checkpoint ≡ store.old.plain.justified_checkpoint → store.new.array.balances_set ≡ store.old.array.balances_set }
    ensures stays { IfErr result (λ _. StoreStays store.old store.new) }
{
    Ok(Accepted::Block(store.on_block(alloc, block)?))
}

/// Takes a signed block, whose payload is its writing.
#[tactic(auto, unfolding(spec_fork_choice::specs::OnEvent::handle_block), using(crate::proofs::StoreStays::unchanged))]
fn handle_signed_block(
    alloc: Global,
    store: &mut Store,
    payload: &[u8],
) -> Result<Accepted, StoreStop>
    requires few { length store.old.plain.blocks < 2 ^ 32 - 1 }
    ensures exact { AcceptsBy accepted_of result store.old.plain store.new.plain (handle_block store.old.plain (signed_block_codec.deserialize payload.now)) }
    ensures balances_set_stays { store.new.plain.justified_checkpoint ≡ store.old.plain.justified_checkpoint → store.new.array.balances_set ≡ store.old.array.balances_set }
    ensures stays { IfErr result (λ _. StoreStays store.old store.new) }
{
    match SignedBeaconBlock::read(alloc, payload) {
        Ok(block) => take_signed_block(alloc, store, &block),
        Err(SszFault::NotAWriting) => Err(StoreStop::Refused(Refusal::Malformed)),
        Err(SszFault::NoMemory) => Err(StoreStop::NoMemory),
    }
}

/// Takes an attestation from the wire or from a block.
#[tactic(auto, using(crate::proofs::Events::voting))]
fn take_attestation(
    alloc: Global,
    store: &mut Store,
    attestation: &Attestation,
    from_block: bool,
) -> Result<Accepted, StoreStop>
    ensures exact { AcceptsBy accepted_of result store.old.plain store.new.plain (without_block (on_attestation store.old.plain attestation.now from_block)) }
    ensures other { IfOk result (λ given. given ≡ Accepted.Other) }
    ensures balances_set_stays { store.new.plain.justified_checkpoint ≡ store.old.plain.justified_checkpoint → store.new.array.balances_set ≡ store.old.array.balances_set }
    ensures stays { IfErr result (λ _. StoreStays store.old store.new) }
{
    match store.on_attestation(alloc, attestation, from_block) {
        Ok(()) => Ok(Accepted::Other),
        Err(stop) => Err(stop),
    }
}

/// Takes an attestation from the wire or from a block, whose payload is its writing.
#[tactic(auto, unfolding(spec_fork_choice::specs::OnEvent::handle_attestation), using(crate::proofs::StoreStays::unchanged))]
fn handle_attestation(
    alloc: Global,
    store: &mut Store,
    payload: &[u8],
    from_block: bool,
) -> Result<Accepted, StoreStop>
    ensures exact { AcceptsBy accepted_of result store.old.plain store.new.plain (handle_attestation store.old.plain from_block (attestation_codec.deserialize payload.now)) }
    ensures other { IfOk result (λ given. given ≡ Accepted.Other) }
    ensures balances_set_stays { store.new.plain.justified_checkpoint ≡ store.old.plain.justified_checkpoint → store.new.array.balances_set ≡ store.old.array.balances_set }
    ensures stays { IfErr result (λ _. StoreStays store.old store.new) }
{
    match Attestation::read(alloc, payload) {
        Ok(attestation) => take_attestation(alloc, store, &attestation, from_block),
        Err(SszFault::NotAWriting) => Err(StoreStop::Refused(Refusal::Malformed)),
        Err(SszFault::NoMemory) => Err(StoreStop::NoMemory),
    }
}

/// Takes an attester slashing.
#[tactic(auto, using(crate::proofs::Events::voting))]
fn take_attester_slashing(
    alloc: Global,
    store: &mut Store,
    slashing: &AttesterSlashing,
) -> Result<Accepted, StoreStop>
    ensures exact { AcceptsBy accepted_of result store.old.plain store.new.plain (without_block (on_attester_slashing store.old.plain slashing.now)) }
    ensures other { IfOk result (λ given. given ≡ Accepted.Other) }
    ensures balances_set_stays { store.new.plain.justified_checkpoint ≡ store.old.plain.justified_checkpoint → store.new.array.balances_set ≡ store.old.array.balances_set }
    ensures stays { IfErr result (λ _. StoreStays store.old store.new) }
{
    match store.on_attester_slashing(alloc, slashing) {
        Ok(()) => Ok(Accepted::Other),
        Err(stop) => Err(stop),
    }
}

/// Takes an attester slashing, whose payload is its writing.
#[tactic(auto, unfolding(spec_fork_choice::specs::OnEvent::handle_attester_slashing), using(crate::proofs::StoreStays::unchanged))]
fn handle_attester_slashing(
    alloc: Global,
    store: &mut Store,
    payload: &[u8],
) -> Result<Accepted, StoreStop>
    ensures exact { AcceptsBy accepted_of result store.old.plain store.new.plain (handle_attester_slashing store.old.plain (attester_slashing_codec.deserialize payload.now)) }
    ensures other { IfOk result (λ given. given ≡ Accepted.Other) }
    ensures balances_set_stays { store.new.plain.justified_checkpoint ≡ store.old.plain.justified_checkpoint → store.new.array.balances_set ≡ store.old.array.balances_set }
    ensures stays { IfErr result (λ _. StoreStays store.old store.new) }
{
    match AttesterSlashing::read(alloc, payload) {
        Ok(slashing) => take_attester_slashing(alloc, store, &slashing),
        Err(SszFault::NotAWriting) => Err(StoreStop::Refused(Refusal::Malformed)),
        Err(SszFault::NoMemory) => Err(StoreStop::NoMemory),
    }
}

impl Store {
    /// Takes an event of a kind as `take_event` does, and shows a visitor each state on which epoch processing is entered by a block.
    #[tactic(auto, unfolding(spec_fork_choice::specs::OnEvent::on_event, crate::specs::Events::number_of_kind, epoch_visitor::specs::Shown::shown_all))]
    fn visit_kind<V: Visitor>(
        &mut self,
        alloc: Global,
        kind: EventKind,
        payload: &[u8],
        visitor: &mut Watched<V>,
    ) -> Result<Accepted, StoreStop>
        requires few { length self.old.plain.blocks < 2 ^ 32 - 1 }
        ensures exact { AcceptsBy accepted_of result self.old.plain self.new.plain (on_event self.old.plain (number_of_kind kind) payload.now) }
        ensures shown { IfOk result (λ given. visitor.new.visitor ≡ shown_all V.shown visitor.old.visitor (entered_of (accepted_of given))) }
        ensures no_block { number_of_kind kind ≢ 2 → visitor.new.visitor ≡ visitor.old.visitor }
        ensures balances_set_stays { self.new.plain.justified_checkpoint ≡ self.old.plain.justified_checkpoint → self.new.array.balances_set ≡ self.old.array.balances_set }
        ensures stays { IfErr result (λ _. StoreStays self.old self.new) }
    {
        match kind {
            EventKind::Tick => handle_tick(self, payload),
            EventKind::SignedBlock => handle_block(alloc, self, payload, visitor),
            EventKind::WireAttestation => handle_attestation(alloc, self, payload, false),
            EventKind::BlockAttestation => handle_attestation(alloc, self, payload, true),
            EventKind::Slashing => handle_attester_slashing(alloc, self, payload),
        }
    }

    /// Takes an event by the number of its kind as `on_event` does, and shows a visitor each state on which epoch processing is
    /// entered on the way to the state behind a block: where the event is accepted, it was shown all of them, also where its block
    /// was kept already, and none where the event is no block. It is shown them as they are made, so where a block isn't accepted
    /// it may have been shown the first of them.
    pub fn visit_event<V: Visitor>(
        &mut self,
        alloc: Global,
        kind: u8,
        payload: &[u8],
        visitor: &mut Watched<V>,
    ) -> Result<Accepted, StoreStop>
        requires few { length self.old.plain.blocks < 2 ^ 32 - 1 }
        requires first { 1 ≤ kind }
        requires last { kind ≤ 5 }
        ensures exact { AcceptsBy accepted_of result self.old.plain self.new.plain (on_event self.old.plain kind payload.now) }
        ensures shown { IfOk result (λ given. visitor.new.visitor ≡ shown_all V.shown visitor.old.visitor (entered_of (accepted_of given))) }
        ensures no_block { kind ≢ 2 → visitor.new.visitor ≡ visitor.old.visitor }
        ensures balances_set_stays { self.new.plain.justified_checkpoint ≡ self.old.plain.justified_checkpoint → self.new.array.balances_set ≡ self.old.array.balances_set }
        ensures stays { IfErr result (λ _. StoreStays self.old self.new) }
    {
        self.visit_kind(alloc, EventKind::of(kind), payload, visitor)
    }

    /// Takes an event of a kind. The block of an accepted block event is answered, and nothing for the others. A kept block that comes
    /// again is not run again, as `on_block` says.
    ///
    /// Refused as `Malformed` where the payload isn't the writing of such an event, and refused, limited and clashing as its
    /// handler is. After a stop all is as before but for room that was made. Where the justified checkpoint stays, the array is given no
    /// balances.
    #[tactic(auto, unfolding(spec_fork_choice::specs::OnEvent::on_event, crate::specs::Events::number_of_kind))]
    pub fn take_event(
        &mut self,
        alloc: Global,
        kind: EventKind,
        payload: &[u8],
    ) -> Result<Accepted, StoreStop>
        requires few { length self.old.plain.blocks < 2 ^ 32 - 1 }
        ensures exact { AcceptsBy accepted_of result self.old.plain self.new.plain (on_event self.old.plain (number_of_kind kind) payload.now) }
        ensures balances_set_stays { self.new.plain.justified_checkpoint ≡ self.old.plain.justified_checkpoint → self.new.array.balances_set ≡ self.old.array.balances_set }
        ensures stays { IfErr result (λ _. StoreStays self.old self.new) }
    {
        match kind {
            EventKind::SignedBlock => handle_signed_block(alloc, self, payload),
            _ => self.visit_kind(alloc, kind, payload, &mut Watched::new(Seen::new())),
        }
    }

    /// Takes an event by the number of its kind in a record, 1 to 5, as `take_event` does.
    pub fn on_event(
        &mut self,
        alloc: Global,
        kind: u8,
        payload: &[u8],
    ) -> Result<Accepted, StoreStop>
        requires few { length self.old.plain.blocks < 2 ^ 32 - 1 }
        requires first { 1 ≤ kind }
        requires last { kind ≤ 5 }
        ensures exact { AcceptsBy accepted_of result self.old.plain self.new.plain (on_event self.old.plain kind payload.now) }
        ensures balances_set_stays { self.new.plain.justified_checkpoint ≡ self.old.plain.justified_checkpoint → self.new.array.balances_set ≡ self.old.array.balances_set }
        ensures stays { IfErr result (λ _. StoreStays self.old self.new) }
    {
        self.take_event(alloc, EventKind::of(kind), payload)
    }
}
