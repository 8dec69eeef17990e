//! Trees of deposits, which grow by leaves: the root behind each number of leaves, and the branches of all.

use crate::calls::given::Given;
use anyhow::{Result, bail};
use genesis_maker::DepositTree;
use hash_tree::Root;
use std::alloc::Global;

/// The greatest numbers that a branch is asked for. None of them is a leaf's.
const FAR: [u64; 3] = [4_294_967_295, 4_294_967_296, u64::MAX];

/// Adds a root to a line.
fn push_root(alloc: Global, root: &Root, text: &mut String) -> Result<()> {
    let root = hex::encode(alloc, root)?;
    text.push_str(" 0x")?;
    text.push_str(root.as_str())?;
    Ok(())
}

/// Adds the line of the root behind so many leaves.
fn root_line(alloc: Global, tree: &DepositTree, text: &mut String) -> Result<()> {
    let count = tree.len();
    text.push_str(format!(in alloc; "\nroot {count}")?.as_str())?;
    push_root(alloc, &tree.root(), text)
}

/// Adds the roots of a branch to a line.
fn push_roots(alloc: Global, roots: &[Root], text: &mut String) -> Result<()> {
    for root in roots {
        push_root(alloc, root, text)?;
    }
    Ok(())
}

/// Adds the line of a leaf's branch.
fn branch_line(alloc: Global, tree: &DepositTree, index: u64, text: &mut String) -> Result<()> {
    text.push_str(format!(in alloc; "\nbranch {index}")?.as_str())?;
    match tree.branch(index) {
        Some(branch) => push_roots(alloc, &branch, text),
        None => Ok(text.push_str(" none")?),
    }
}

/// Pushes the leaf that these bytes are.
fn push_leaf(tree: &mut DepositTree, bytes: &[u8]) -> Result<()> {
    if tree.len() >= 4_294_967_296 {
        bail!("too many leaves");
    }
    match Root::try_from(bytes) {
        Ok(leaf) => match tree.push(leaf) {
            Ok(()) => Ok(()),
            Err(_) => bail!("out of memory"),
        },
        Err(_) => bail!("no leaf"),
    }
}

/// Pushes the leaves, with the line of the root behind each number of them.
fn push_leaves(
    alloc: Global,
    tree: &mut DepositTree,
    leaves: &[u8],
    text: &mut String,
) -> Result<()> {
    root_line(alloc, tree, text)?;
    for leaf in leaves.chunks(32) {
        push_leaf(tree, leaf)?;
        root_line(alloc, tree, text)?;
    }
    Ok(())
}

/// Adds the lines of all branches, and of some that there aren't.
fn branch_lines(alloc: Global, tree: &DepositTree, text: &mut String) -> Result<()> {
    for index in 0..tree.len().saturating_add(2) {
        branch_line(alloc, tree, index, text)?;
    }
    for index in FAR {
        branch_line(alloc, tree, index, text)?;
    }
    Ok(())
}

/// Adds the lines of a tree of these leaves.
fn tree_lines(alloc: Global, leaves: &[u8], text: &mut String) -> Result<()> {
    let mut tree = DepositTree::new(alloc);
    match push_leaves(alloc, &mut tree, leaves, text) {
        Ok(()) => branch_lines(alloc, &tree, text),
        Err(error) => Err(error),
    }
}

/// The answer of pushing the leaves in their order.
pub fn answer(alloc: Global, given: &Given) -> Result<String> {
    let leaves = given.input()?;
    let mut text = String::from_str(alloc, "ok")?;
    match tree_lines(alloc, leaves, &mut text) {
        Ok(()) => Ok(text),
        Err(error) => Err(error),
    }
}
