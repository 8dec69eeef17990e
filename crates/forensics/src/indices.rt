//! Indices in order.

ghost use Rattle.std.specs.Prelude.{◌≡◌};
ghost use Rattle.spec_slasher.specs.GetIndexedAttestation.{in_order};

/// The indices, sorted and each once.
pub(crate) fn in_order(mut indices: Vec<u64>) -> Vec<u64>
    ensures { result.items ≡ in_order indices.items }
{
    indices.sort_unstable();
    indices.dedup();
    indices
}
