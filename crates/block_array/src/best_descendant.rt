//! What is made of each node: its weight, its best child, and the head from it on.

ghost use Rattle.std.specs.Prelude.{◌≡◌, ◌<◌, length};
ghost use Rattle.block_array.specs.inside.BestDescendants.{best_descendant_at};

/// A node's weight in Gwei, whether it has a child, the best of its viable children, and the head from it on.
#[derive(Clone, Copy)]
pub(crate) struct BestDescendant {
    pub(crate) weight: u128,
    pub(crate) has_child: bool,
    pub(crate) child: Option<u32>,
    pub(crate) descendant: u32,
}

/// What a node is before anything is made of it.
pub(crate) const UNMADE: BestDescendant = BestDescendant {
    weight: 0,
    has_child: false,
    child: None,
    descendant: 0,
};

/// What is made of a node.
#[tactic(auto, unfolding(crate::specs::inside::BestDescendants::best_descendant_at), using(crate::proofs::BestDescendants::setting_best))]
pub(crate) fn best_descendant_at(bests: &[BestDescendant], number: usize) -> BestDescendant
    requires { number < length bests.now }
    ensures { result ≡ best_descendant_at bests.now number }
{
    bests[number]
}
