//! Lists whose nodes are shared and keep their roots.
//!
//! Items come from the state above, and roots go back to it. A change makes the nodes of one path anew and shares the rest,
//! so that many states of one chain cost little more than one.
#![tactic(auto)]

mod chunked;
mod four;
mod laws;
mod numbers;
mod packed_list;
mod shared_list;

pub use laws::set_after_share;
pub use numbers::Numbers;
pub use packed_list::PackedList;
pub use shared_list::SharedList;
pub use tree_nodes::Iter;
