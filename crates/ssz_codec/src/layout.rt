//! How the parts of a container lie in its bytes: the bytes come from a reader, and the parts go to the readers of the
//! fields.

ghost use Rattle.std.specs.Prelude.{◌≡◌, ◌+◌, ◌*◌, ◌<◌, ◌≤◌, ◌^◌, length, take, drop, map};
ghost use Rattle.ssz_codec.specs.Layout.{field_length, fixed_length, offset_of, cut};
ghost use Rattle.ssz_codec.specs.inside.Cutting.{GivesParts};

use crate::fault::SszFault;

/// How a field stands in the fixed part of its container (simple-serialize.md, "Serialization").
#[derive(Clone, Copy)]
pub enum Field {
    /// By its own bytes, so many.
    Fixed(usize),
    /// By an offset of four bytes.
    Variable,
}

impl Field {
    /// How many bytes the field takes in the fixed part.
    fn field_length(&self) -> usize
        ensures { result ≡ field_length self.now }
    {
        match self {
            Field::Fixed(n) => *n,
            Field::Variable => 4,
        }
    }
}

/// The bytes of the fixed part.
fn fixed_len(fields: &[Field]) -> usize
    requires { fixed_length fields.now < 2 ^ 32 }
    ensures { result ≡ fixed_length fields.now }
{
    let mut len = 0;
    for field in fields {
        len += field.field_length();
    }
    len
}

/// The offset at this place.
#[tactic(auto, unfolding(crate::specs::Layout::offset_of))]
pub(crate) fn offset_at(bytes: &[u8], at: usize) -> usize
    requires { at + 4 ≤ length bytes.now }
    ensures value { result ≡ offset_of (take 4 (drop at bytes.now)) }
    ensures small { result < 2 ^ 32 }
{
    let piece = &bytes[at..at + 4];
    u32::from_le_bytes([piece[0], piece[1], piece[2], piece[3]]) as usize
}

/// Cuts a whole container, or a whole list of variable parts, into its parts, without copying them. Offsets are
/// strict: the first is the length of the fixed part, none falls, and the last part ends where the bytes end.
/// It takes no memory, so its fault is always `NotAWriting`.
pub fn cut<'a>(bytes: &'a [u8], fields: &[Field], parts: &mut [&'a [u8]]) -> Result<(), SszFault>
    requires same { length parts.old ≡ length fields.now }
    requires room { fixed_length fields.now < 2 ^ 32 }
    ensures { GivesParts result (map (λ part. part.now) parts.new) (cut fields.now bytes.now) }
{
    let head = fixed_len(fields);
    if bytes.len() < head {
        return Err(SszFault::NotAWriting);
    }
    let mut at = head;
    let mut end = bytes.len();
    let mut i = fields.len();
    while i > 0 {
        i -= 1;
        match fields[i] {
            Field::Fixed(n) => {
                at -= n;
                parts[i] = &bytes[at..at + n];
            }
            Field::Variable => {
                at -= 4;
                let start = offset_at(bytes, at);
                if start > end {
                    return Err(SszFault::NotAWriting);
                }
                parts[i] = &bytes[start..end];
                end = start;
            }
        }
    }
    if end != head {
        return Err(SszFault::NotAWriting);
    }
    Ok(())
}
