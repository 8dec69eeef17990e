//! The depth of the tree over a list or a container, from how many leaves it may have.
//!
//! Limits come from the types above, depths go to `roots` and to trees that are kept.

ghost use Rattle.std.specs.Prelude.{◌≡◌, ◌≤◌, ◌^◌};
ghost use Rattle.hash_tree.specs.Merkle.{depth_of};

/// The leaves of a tree of the depth.
fn leaves_of(depth: u32) -> u64
    requires { depth ≤ 40 }
    ensures { result ≡ 2 ^ depth }
{
    1u64 << depth
}

/// The least depth whose tree has that many leaves (simple-serialize.md, "Merkleization": the next power of two of the
/// limit).
pub fn depth_of(limit: u64) -> u32
    requires { limit ≤ 2 ^ 40 }
    ensures depth { result ≡ depth_of limit }
    ensures low { result ≤ 40 }
    ensures fits { limit ≤ 2 ^ result }
{
    let mut depth = 0;
    while depth < 40 {
        if limit <= leaves_of(depth) {
            return depth;
        }
        depth += 1;
    }
    depth
}
