//! The attester slashings that the offences of a book give, as evidence for others.
//!
//! Each offence's two votes are looked up among the attestations that the book keeps.

ghost use Rattle.std.specs.Prelude.{◌≡◌, ℕ, ◌<◌, ◌∷◌, [], ◌++◌, List, Contains, length, true, All, IfOk, OnOk};
ghost use Rattle.std.specs.List.{filter_map};
ghost use Rattle.beacon_types.specs.Slashable.{is_slashable_attestation_data};
ghost use Rattle.spec_forensics.specs.declared.offence.Offence.{Offence};
ghost use Rattle.spec_fork_choice.specs.SameBlock.{same_attester_slashing};
ghost use Rattle.spec_slasher.specs.Accepts.{IsProcessed, IsTaken};
ghost use Rattle.spec_slasher.specs.Operations.{is_listed, each_once, pair_of, operation_of, operations, offenders, IsNamed};

use crate::vote_book::VoteBook;
use bc_words::NoMemory;
use beacon_types::{AttesterSlashing, IndexedAttestation};
use spec_forensics::Offence;
use std::alloc::Global;

/// Whether two operations are the same.
#[tactic(auto, using(spec_fork_choice::proofs::SameBlock::attester_slashing_decides))]
fn is_same(a: &AttesterSlashing, b: &AttesterSlashing) -> bool
    ensures { result ≡ same_attester_slashing a.now b.now }
{
    a.equals(b)
}

/// Whether an operation equals one of a list.
#[tactic(auto, unfolding(spec_slasher::specs::Operations::is_listed))]
fn is_listed(operations: &[AttesterSlashing], operation: &AttesterSlashing) -> bool
    ensures { result ≡ is_listed operations.now operation.now }
{
    for other in operations {
        if is_same(other, operation) {
            return true;
        }
    }
    false
}

/// The operation of two attestations, where both are there.
#[tactic(auto, unfolding(spec_slasher::specs::Operations::pair_of))]
fn pair_of(
    first: Option<IndexedAttestation>,
    second: Option<IndexedAttestation>,
) -> Option<AttesterSlashing>
    ensures { result ≡ pair_of first second }
{
    let attestation_1 = first?;
    let attestation_2 = second?;
    Some(AttesterSlashing {
        attestation_1,
        attestation_2,
    })
}

/// The operation of an offence: the attestation that its first vote names, and then that of its second.
#[tactic(auto, unfolding(spec_slasher::specs::Operations::operation_of))]
fn operation_of(
    alloc: Global,
    book: &VoteBook,
    offence: &Offence,
) -> Result<Option<AttesterSlashing>, NoMemory>
    ensures { IfOk result (λ operation. operation ≡ operation_of book.now.genesis book.now.first book.now.second offence.now) }
{
    let first = book.attestation(alloc, &offence.first)?;
    let second = book.attestation(alloc, &offence.second)?;
    Ok(pair_of(first, second))
}

/// Puts an operation behind the others, unless it equals one of them.
fn put(operations: &mut Vec<AttesterSlashing>, operation: AttesterSlashing) -> Result<(), NoMemory>
    ensures { OnOk result ((later : List AttesterSlashing) → operations.new.items ++ each_once operations.new.items later ≡ operations.old.items ++ each_once operations.old.items (operation ∷ later)) }
{
    if is_listed(operations.as_slice(), &operation) {
        return Ok(());
    }
    operations.push(operation)?;
    Ok(())
}

/// Puts the operation of an offence behind the others, unless it equals one of them.
fn put_of(
    alloc: Global,
    book: &VoteBook,
    offence: &Offence,
    operations: &mut Vec<AttesterSlashing>,
) -> Result<(), NoMemory>
    ensures { OnOk result ((later : List Offence) → let of = operation_of book.now.genesis book.now.first book.now.second in
        operations.new.items ++ each_once operations.new.items (filter_map of later) ≡ operations.old.items ++ each_once operations.old.items (filter_map of (offence.now ∷ later))) }
{
    let found = operation_of(alloc, book, offence)?;
    match found {
        Some(operation) => put(operations, operation),
        None => Ok(()),
    }
}

/// The operations of these offences. One that equals an earlier one is left out.
fn operations_of(
    alloc: Global,
    book: &VoteBook,
    offences: &[Offence],
) -> Result<Vec<AttesterSlashing>, NoMemory>
    ensures { IfOk result (λ list. list.items ≡ each_once [] (filter_map (operation_of book.now.genesis book.now.first book.now.second) offences.now)) }
{
    let mut operations = Vec::new(alloc);
    for offence in offences {
        put_of(alloc, book, offence, &mut operations)?;
    }
    Ok(operations)
}

/// The attester slashings of all offences of a book, in order of validator, in the order of the votes of each. One that equals an
/// earlier one is left out.
///
/// Each is slashable in its order. Of the validators of the genesis registry, those in both attestations of one of them are exactly
/// the offenders. A block takes each on a sound state whose registry holds its indices, where one who is in both is slashable; and so
/// does fork choice, where the justified root's own state holds them.
pub fn operations(alloc: Global, book: &VoteBook) -> Result<Vec<AttesterSlashing>, NoMemory>
    ensures exact { IfOk result (λ list. list.items ≡ operations book.now.genesis book.now.first book.now.second) }
    ensures slashable { IfOk result (λ list. All (λ o. is_slashable_attestation_data o.attestation_1.content o.attestation_2.content ≡ true) list.items) }
    ensures offenders { IfOk result (λ list. (index : ℕ) → index < length book.now.genesis.validators → IsNamed list.items index → Contains (offenders book.now.genesis book.now.first book.now.second) index) }
    ensures named { IfOk result (λ list. (index : ℕ) → Contains (offenders book.now.genesis book.now.first book.now.second) index → index < length book.now.genesis.validators × IsNamed list.items index) }
    ensures processed { IfOk result (λ list. All IsProcessed list.items) }
    ensures taken { IfOk result (λ list. All IsTaken list.items) }
{
    let offences = book.offences(alloc)?;
    operations_of(alloc, book, &offences)
}
