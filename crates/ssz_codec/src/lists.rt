//! Reading vectors and lists: the bytes come from the readers of containers.

ghost use Rattle.std.specs.Prelude.{◌≡◌, ◌<◌, ◌≤◌, ◌*◌, ◌/◌, ◌^◌, ◌++◌, length, take, map, replicate, MatchResult, OnOk, OnErr, Some};
ghost use Rattle.std.specs.List.{flat_map};
ghost use Rattle.ssz_codec.specs.declared.layout.Field.TheVariants.{Variable};
ghost use Rattle.ssz_codec.specs.Lists.{parse_items, parse_list, parse_parts, parse_variable_list};
ghost use Rattle.ssz_codec.specs.Layout.{cut, fixed_length};
ghost use Rattle.ssz_codec.specs.Reads.{ReadsAs, Fails};
ghost use Rattle.ssz_codec.specs.inside.Reading.{ReadsBehind, with_one};

use crate::fault::SszFault;
use crate::items::Items;
use crate::layout::{self, Field};
use crate::ssz::Ssz;
use crate::writer::Writer;
use bc_words::NoMemory;
use std::alloc::Global;

/// Reads one more value, behind those that were read before.
fn read_behind<T: Ssz>(alloc: Global, part: &[u8], values: &mut Items<T>) -> Result<(), SszFault>
    ensures { MatchResult result (λ _. with_one values.old (T.codec.deserialize part.now) ≡ Some values.new) (λ e. Fails e (T.codec.deserialize part.now)) }
{
    match T::parse(alloc, part) {
        Ok(value) => match values.push(value) {
            Ok(()) => Ok(()),
            Err(_refused) => Err(SszFault::NoMemory),
        },
        Err(fault) => Err(fault),
    }
}

/// Reads so many values of fixed size, one after another, behind those that were read before.
fn read_items_behind<T: Ssz>(
    alloc: Global,
    bytes: &[u8],
    size: usize,
    count: usize,
    values: &mut Items<T>,
) -> Result<(), SszFault>
    ensures { ReadsBehind result values.old values.new (parse_items T.codec.deserialize size count bytes.now) }
{
    let mut rest = bytes;
    for _ in 0..count {
        if rest.len() < size {
            return Err(SszFault::NotAWriting);
        }
        let (front, after) = rest.split_at(size);
        match read_behind(alloc, front, values) {
            Ok(()) => rest = after,
            Err(fault) => return Err(fault),
        }
    }
    match rest {
        [] => Ok(()),
        _ => Err(SszFault::NotAWriting),
    }
}

/// Reads so many values of fixed size, one after another: a vector. The size is the codec's.
pub fn read_items<T: Ssz>(
    alloc: Global,
    bytes: &[u8],
    size: usize,
    count: usize,
) -> Result<Items<T>, SszFault>
    ensures { ReadsAs result (parse_items T.codec.deserialize size count bytes.now) }
{
    match Items::with_room(alloc, count) {
        Ok(mut values) => match read_items_behind(alloc, bytes, size, count, &mut values) {
            Ok(()) => Ok(values),
            Err(fault) => Err(fault),
        },
        Err(_refused) => Err(SszFault::NoMemory),
    }
}

/// Reads a list of values of fixed size, at most `limit` of them. The size is the codec's.
#[tactic(auto, unfolding(crate::specs::Lists::parse_list))]
pub fn read_list<T: Ssz>(
    alloc: Global,
    bytes: &[u8],
    size: usize,
    limit: u64,
) -> Result<Items<T>, SszFault>
    requires { 0 < size }
    ensures { ReadsAs result (parse_list T.codec.deserialize size limit bytes.now) }
{
    let count = bytes.len() / size;
    if count as u64 > limit {
        return Err(SszFault::NotAWriting);
    }
    read_items(alloc, bytes, size, count)
}

/// Reads one value of each part, behind those that were read before.
fn read_parts_behind<T: Ssz>(
    alloc: Global,
    parts: &[&[u8]],
    values: &mut Items<T>,
) -> Result<(), SszFault>
    ensures { ReadsBehind result values.old values.new (parse_parts T.codec.deserialize (map (λ p. p.now) parts.now)) }
{
    for part in parts {
        match read_behind(alloc, part, values) {
            Ok(()) => {}
            Err(fault) => return Err(fault),
        }
    }
    Ok(())
}

/// Reads one value of each part.
fn read_parts<T: Ssz>(alloc: Global, parts: &[&[u8]]) -> Result<Items<T>, SszFault>
    ensures { ReadsAs result (parse_parts T.codec.deserialize (map (λ part. part.now) parts.now)) }
{
    match Items::with_room(alloc, parts.len()) {
        Ok(mut values) => match read_parts_behind(alloc, parts, &mut values) {
            Ok(()) => Ok(values),
            Err(fault) => Err(fault),
        },
        Err(_refused) => Err(SszFault::NoMemory),
    }
}

/// Cuts bytes into the parts of these fields.
fn cut_at<'a>(alloc: Global, bytes: &'a [u8], fields: &[Field]) -> Result<Vec<&'a [u8]>, SszFault>
    requires { fixed_length fields.now < 2 ^ 32 }
    ensures { MatchResult result (λ parts. cut fields.now bytes.now ≡ Some (map (λ part. part.now) parts.items)) (λ e. Fails e (cut fields.now bytes.now)) }
{
    match vec![in alloc; bytes; fields.len()] {
        Ok(mut parts) => match layout::cut(bytes, fields, &mut parts) {
            Ok(()) => Ok(parts),
            Err(fault) => Err(fault),
        },
        Err(_refused) => Err(SszFault::NoMemory),
    }
}

/// Cuts a list of so many variable parts.
#[tactic(auto, using(crate::specs::laws::Lists::variable_heads))]
fn cut_list(alloc: Global, bytes: &[u8], count: usize) -> Result<Vec<&[u8]>, SszFault>
    requires { 4 * count < 2 ^ 32 }
    ensures { MatchResult result (λ parts. cut (replicate count Variable) bytes.now ≡ Some (map (λ part. part.now) parts.items)) (λ e. Fails e (cut (replicate count Variable) bytes.now)) }
{
    match vec![in alloc; Field::Variable; count] {
        Ok(fields) => cut_at(alloc, bytes, &fields),
        Err(_refused) => Err(SszFault::NoMemory),
    }
}

/// Reads a list of values of variable size, at most `limit` of them.
pub fn read_variable_list<T: Ssz>(
    alloc: Global,
    bytes: &[u8],
    limit: u64,
) -> Result<Items<T>, SszFault>
    ensures { ReadsAs result (parse_variable_list T.codec.deserialize limit bytes.now) }
{
    if bytes.is_empty() {
        return Ok(Items::new(alloc));
    }
    if bytes.len() < 4 {
        return Err(SszFault::NotAWriting);
    }
    let count = layout::offset_at(bytes, 0) / 4;
    if count as u64 > limit {
        return Err(SszFault::NotAWriting);
    }
    if count > bytes.len() / 4 {
        return Err(SszFault::NotAWriting);
    }
    match cut_list(alloc, bytes, count) {
        Ok(parts) => read_parts(alloc, &parts),
        Err(fault) => Err(fault),
    }
}

/// Writes values one after another. Where memory is refused, some of them may stand there.
pub fn append_items<T: Ssz>(values: &[T], out: &mut Writer) -> Result<(), NoMemory>
    ensures ok { OnOk result (out.new ≡ out.old ++ flat_map T.codec.serialize values.now) }
    ensures err { OnErr result (take (length out.old) out.new ≡ out.old) }
{
    for value in values {
        match value.write_to(out) {
            Ok(()) => {}
            Err(refused) => return Err(refused),
        }
    }
    Ok(())
}
