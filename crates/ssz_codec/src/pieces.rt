//! Taking parts of bytes without copying them: from the front, or by offsets. The bytes come from a reader of one's own,
//! and the parts go to the readers of fields.

ghost use Rattle.std.specs.Prelude.{◌≡◌, ◌<◌, ◌≤◌, ◌+◌, length, take, drop, MatchOption, IfSome, IfNone};
ghost use Rattle.std.proofs.Common.{get_or};
ghost use Rattle.ssz_codec.specs.Offsets.{sliced, part_at, AreOffsets, AreOrdered};

use std::marker::Model;

/// Bytes that are taken from the front, seen as those that are left.
#[derive(Drop)]
pub struct Cut<'a> {
    rest: &'a [u8],
}

impl<'a> Model for Cut<'a> {
    ghost use Rattle.std.specs.Prelude.{List, ℕ};

    ghost Value = { List ℕ };

    ghost view = { λ cut. cut.rest.now };
}

impl<'a> Cut<'a> {
    /// All of the bytes are left.
    pub fn new(bytes: &'a [u8]) -> Cut<'a>
        ensures { result ≡ bytes.now }
    {
        Cut { rest: bytes }
    }

    /// The next n bytes. None exactly where fewer are left, and then nothing is taken.
    pub fn take(&mut self, n: usize) -> Option<&'a [u8]>
        ensures { MatchOption result ((length self.old < n) × (self.new ≡ self.old)) (λ part. (n ≤ length self.old) × (part.now ≡ take n self.old) × (self.new ≡ drop n self.old)) }
    {
        let rest = self.rest;
        if rest.len() < n {
            return None;
        }
        let (part, left) = rest.split_at(n);
        self.rest = left;
        Some(part)
    }

    /// The parts of the bytes at these offsets, of which there is at least one. None exactly where the first offset isn't
    /// the length of the fixed part, one is smaller than the one before, or one is past the end.
    pub fn parts(whole: &'a [u8], fixed_len: usize, offsets: &'a [u32]) -> Option<Parts<'a>>
        requires { 0 < length offsets.now }
        ensures some { IfSome result (λ parts. (parts ≡ sliced whole.now offsets.now) × AreOffsets fixed_len (sliced whole.now offsets.now)) }
        ensures none { IfNone result (AreOffsets fixed_len (sliced whole.now offsets.now) → ⊥) }
    {
        if offsets[0] as usize != fixed_len {
            return None;
        }
        for k in 0..offsets.len() {
            let start = offsets[k] as usize;
            if start > whole.len() || start > next_offset(whole, offsets, k) {
                return None;
            }
        }
        Some(Parts { whole, offsets })
    }
}

/// The variable parts of a container or a list.
#[derive(Drop)]
pub struct Parts<'a> {
    whole: &'a [u8],
    offsets: &'a [u32],
}

impl<'a> Model for Parts<'a> {
    ghost use Rattle.ssz_codec.specs.Offsets.{Sliced, AreOrdered, sliced};

    ghost Value = { Sliced };

    ghost view = { λ parts. sliced parts.whole.now parts.offsets.now };

    ghost invariant = { λ parts. AreOrdered (sliced parts.whole.now parts.offsets.now) };
}

/// Where the part behind the k-th begins, or the end.
fn next_offset(whole: &[u8], offsets: &[u32], k: usize) -> usize
    requires { k < length offsets.now }
    ensures { result ≡ get_or offsets.now (k + 1) (length whole.now) }
{
    if k + 1 < offsets.len() {
        offsets[k + 1] as usize
    } else {
        whole.len()
    }
}

impl<'a> Parts<'a> {
    /// The k-th part.
    pub fn part(&self, k: usize) -> &'a [u8]
        requires { k < length self.now.offsets }
        ensures { result.now ≡ part_at self.now k }
    {
        let whole = self.whole;
        let offsets = self.offsets;
        let start = offsets[k] as usize;
        let end = next_offset(whole, offsets, k);
        &whole[start..end]
    }
}
