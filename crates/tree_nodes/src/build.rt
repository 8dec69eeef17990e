//! How deep a tree is, and how many leaves it has.

ghost use Rattle.std.specs.Prelude.{◌≡◌, suc, ◌+◌, ◌*◌, ◌≤◌, ◌^◌};

/// The least depth of a tree with so many leaves, which is no greater than one that has.
pub(crate) fn depth_over(len: u64, depth: u32) -> u32
    requires deep { depth ≤ 40 }
    requires fits { len ≤ 2 ^ depth }
    ensures low { result ≤ depth }
    ensures room { len ≤ 2 ^ result }
    ensures least { 2 ^ result ≤ 2 * len + 1 }
{
    let mut low = 0;
    'levels: while low < depth {
        if len <= leaves_of(low) {
            return low;
        }
        low += 1;
    }
    low
}

/// The leaves of a tree of the depth.
pub(crate) fn leaves_of(depth: u32) -> u64
    requires { depth ≤ 40 }
    ensures leaves { result ≡ 2 ^ depth }
    ensures next { result + result ≡ 2 ^ suc depth }
{
    1u64 << depth
}
