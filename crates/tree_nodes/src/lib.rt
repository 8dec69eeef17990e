//! Trees whose nodes are shared and keep their roots.
//!
//! Lists give the items of the leaves, and take roots back. A change makes the nodes of one path anew and shares the rest.
#![tactic(auto)]

mod build;
mod find;
mod iter;
mod layers;
mod more;
mod new_leaves;
mod node;
mod plan;
mod put;
mod repeated;
mod several;
mod taking;
mod tree;
mod work;

pub use iter::Iter;
pub use node::NewLeaf;
pub use put::{new_items, reaches};
pub use taking::next_of;
pub use tree::Tree;
pub use work::mix_step;
