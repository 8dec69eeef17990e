//! The balances beside a walk over the registry.

ghost use Rattle.std.specs.Prelude.{◌≡◌, drop, slice_get};

use shared_tree::Numbers;

/// The next balance, in Gwei, or None where none is left.
pub(crate) fn next_balance(balances: &mut Numbers<'_>) -> Option<u64>
    ensures first { result ≡ slice_get balances.old 0 }
    ensures others { balances.new ≡ drop 1 balances.old }
{
    balances.next()
}
