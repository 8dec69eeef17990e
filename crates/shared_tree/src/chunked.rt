//! Changes of many numbers, as changes of the chunks that they stand in.
//!
//! Changes come from `packed_list`, and the tree takes those of the chunks.

ghost use Rattle.std.specs.Prelude.{◌≡◌, ℕ, ◌+◌, ◌/◌, ◌<◌, ◌≤◌, ◌^◌, List, length, slice_get, slice_set, Some, IfOk, OnOk};
ghost use Rattle.std.specs.List.{AllByRecursion};
ghost use Rattle.ssz_codec.specs.Basic.{uint64};
ghost use Rattle.shared_tree.specs.declared.four.Four.{Four};
ghost use Rattle.tree_nodes.specs.Changes.{AreChanges, changed};
ghost use Rattle.shared_tree.specs.inside.Fours.{packed, numbers_in};

use crate::four::{Four, chunk_at};
use bc_words::NoMemory;
use std::alloc::Global;
use tree_nodes::{Tree, next_of, reaches};

/// The chunk at a place behind which no chunk is changed yet: the changed one, which is taken off the list, or that of the
/// tree.
fn held_chunk(tree: &Tree<Four>, chunks: &mut Vec<(u64, Four)>, chunk: u64) -> Four
    requires within { chunk < length tree.now.1 }
    requires places { AreChanges 0 (chunk + 1) chunks.old.items }
    ensures places { AreChanges 0 chunk chunks.new.items }
    ensures fewer { length chunks.new.items ≤ length chunks.old.items }
    ensures held { slice_get (changed tree.now.1 chunks.old.items) chunk ≡ Some result }
    ensures set { (four : Four) → slice_set (changed tree.now.1 chunks.new.items) chunk four ≡ slice_set (changed tree.now.1 chunks.old.items) chunk four }
{
    if reaches(chunks, chunk) {
        return match chunks.pop() {
            Some((_at, four)) => four,
            None => unreachable!(),
        };
    }
    chunk_at(tree, chunk)
}

/// Changes a number too, which is behind those that are changed.
fn add_number(
    tree: &Tree<Four>,
    chunks: &mut Vec<(u64, Four)>,
    at: u64,
    number: u64,
) -> Result<(), NoMemory>
    requires within { at / 4 < length tree.now.1 }
    requires places { AreChanges 0 (at / 4 + 1) chunks.old.items }
    ensures number { number < 2 ^ 64 }
    ensures places { OnOk result (AreChanges 0 (at / 4 + 1) chunks.new.items) }
    ensures few { OnOk result (length chunks.new.items ≤ length chunks.old.items + 1) }
    ensures made { OnOk result ((numbers : List ℕ) → at < length numbers → changed tree.now.1 chunks.old.items ≡ packed numbers → changed tree.now.1 chunks.new.items ≡ packed (slice_set numbers at number)) }
{
    let chunk = at / 4;
    let four = held_chunk(tree, chunks, chunk).with(at % 4, number);
    chunks.push((chunk, four))?;
    Ok(())
}

/// The changes of the chunks.
pub(crate) fn chunk_changes(
    tree: &Tree<Four>,
    len: u64,
    changes: Vec<(u64, u64)>,
    alloc: Global,
) -> Result<Vec<(u64, Four)>, NoMemory>
    requires len_is { len ≡ length (numbers_in len tree.now.1) }
    requires packs { tree.now.1 ≡ packed (numbers_in len tree.now.1) }
    requires within { AllByRecursion uint64.Within (numbers_in len tree.now.1) }
    requires places { AreChanges 0 len changes.items }
    ensures places { IfOk result (λ chunks. AreChanges 0 (length tree.now.1) chunks.items) }
    ensures few { IfOk result (λ chunks. length chunks.items ≤ length changes.items) }
    ensures made { IfOk result (λ chunks. changed tree.now.1 chunks.items ≡ packed (changed (numbers_in len tree.now.1) changes.items)) }
    ensures within { OnOk result (AllByRecursion uint64.Within (changed (numbers_in len tree.now.1) changes.items)) }
{
    let count = changes.len();
    let mut chunks = Vec::new(alloc);
    let mut low = 0u64;
    let mut rest = changes.into_iter();
    'numbers: for k in 0..count {
        let (at, number) = next_of(&mut rest);
        add_number(tree, &mut chunks, at, number)?;
        low = at + 1;
    }
    Ok(chunks)
}
