//! What a line of a configuration is. The bytes of a line come from `settings`, and go back to it as a key and its
//! value.

ghost use Rattle.std.specs.Prelude.{◌≡◌, ◌<◌, ◌==◌, length, take_while, position, IfSome};
ghost use Rattle.std.specs.List.{prefix_len, suffix_len};
ghost use Rattle.std.specs.Option.{option_map};
ghost use Rattle.bc_preset.specs.Lines.{is_blank, is_key_byte, is_quote, begins_comment, skip_while, trim_end, is_empty_or_comment, is_skipped, before_comment, quoted, value_from, value_of, keyed, begins_value, key_line, line_of};
ghost use Rattle.bc_preset.specs.Keys.{key_named};
ghost use Rattle.bc_preset.specs.inside.LineViews.{as_line};

use crate::keys::Key;

/// What a line is.
pub enum Line<'a> {
    /// Nothing but spaces, tabs and a comment.
    Skipped,
    /// A key that is not in the table.
    Other,
    /// A key of the table with the text of its value.
    Setting(Key, &'a [u8]),
    /// None of these, or a value with wrong quotes.
    Faulty,
}

fn is_blank(b: u8) -> bool
    ensures { result ≡ is_blank b }
{
    b == b' ' || b == b'\t'
}

fn is_key_byte(b: u8) -> bool
    ensures { result ≡ is_key_byte b }
{
    b.is_ascii_alphanumeric() || b == b'_'
}

fn is_quote(b: u8) -> bool
    ensures { result ≡ is_quote b }
{
    b == b'\'' || b == b'"'
}

#[tactic(auto, using(crate::proofs::Prefixes::prefixes))]
fn blanks_in_front(text: &[u8]) -> usize
    ensures { result ≡ prefix_len is_blank text.now }
{
    text.iter().take_while(|b| is_blank(**b)).count()
}

#[tactic(auto, using(crate::proofs::Prefixes::prefixes))]
fn blanks_at_end(text: &[u8]) -> usize
    ensures { result ≡ suffix_len is_blank text.now }
{
    text.iter().rev().take_while(|b| is_blank(**b)).count()
}

#[tactic(auto, using(crate::proofs::Prefixes::prefixes))]
fn key_len(line: &[u8]) -> usize
    ensures { result ≡ prefix_len is_key_byte line.now }
{
    line.iter().take_while(|b| is_key_byte(**b)).count()
}

#[tactic(auto, using(crate::proofs::Prefixes::prefixes))]
fn trim_start(text: &[u8]) -> &[u8]
    ensures { result.now ≡ skip_while is_blank text.now }
{
    let blanks = blanks_in_front(text);
    &text[blanks..]
}

#[tactic(auto, unfolding(crate::specs::Lines::trim_end), using(crate::proofs::Prefixes::prefixes))]
fn trim_end(text: &[u8]) -> &[u8]
    ensures { result.now ≡ trim_end text.now }
{
    let end = text.len() - blanks_at_end(text);
    &text[..end]
}

#[tactic(auto, unfolding(crate::specs::Lines::is_skipped))]
fn is_skipped(line: &[u8]) -> bool
    ensures { result ≡ is_skipped line.now }
{
    match trim_start(line) {
        [] => true,
        [first, ..] => *first == b'#',
    }
}

fn begins_comment(bytes: &[u8]) -> bool
    ensures { result ≡ begins_comment bytes.now }
{
    match bytes {
        [] => false,
        [first, ..] => *first == b'#',
    }
}

#[tactic(auto, unfolding(crate::specs::Lines::before_comment))]
fn before_comment(text: &[u8]) -> &[u8]
    ensures { result.now ≡ before_comment text.now }
{
    for i in 0..text.len() {
        if is_blank(text[i]) && begins_comment(&text[i + 1..]) {
            return &text[..i];
        }
    }
    text
}

fn closing_quote(quote: u8, bytes: &[u8]) -> Option<usize>
    ensures exact { result ≡ position (λ b. b == quote) bytes.now }
    ensures within { IfSome result (λ end. end < length bytes.now) }
{
    bytes.iter().position(|b| *b == quote)
}

/// What stands before the closing quote.
#[tactic(auto, unfolding(crate::specs::Lines::quoted))]
fn quoted(quote: u8, bytes: &[u8]) -> Option<&[u8]>
    ensures { option_map (λ x. x.now) result ≡ quoted quote bytes.now }
{
    match closing_quote(quote, bytes) {
        None => None,
        Some(end) => {
            if is_skipped(&bytes[end + 1..]) {
                Some(&bytes[..end])
            } else {
                None
            }
        }
    }
}

#[tactic(auto, unfolding(crate::specs::Lines::value_from))]
fn value_from(text: &[u8]) -> Option<&[u8]>
    ensures { option_map (λ x. x.now) result ≡ value_from text.now }
{
    match text {
        [] => Some(text),
        [first, bytes @ ..] => {
            if is_quote(*first) {
                quoted(*first, bytes)
            } else {
                Some(trim_end(before_comment(text)))
            }
        }
    }
}

/// The value in what follows a key's colon; none where its quotes are wrong.
#[tactic(auto, unfolding(crate::specs::Lines::value_of))]
fn value(text: &[u8]) -> Option<&[u8]>
    ensures { option_map (λ x. x.now) result ≡ value_of text.now }
{
    value_from(trim_start(text))
}

fn begins_value(text: &[u8]) -> bool
    ensures { result ≡ begins_value text.now }
{
    match text {
        [] => true,
        [first, ..] => is_blank(*first),
    }
}

fn keyed<'a>(name: &[u8], text: &'a [u8]) -> Line<'a>
    ensures { as_line result ≡ keyed (key_named name.now) text.now }
{
    match Key::named(name) {
        None => Line::Other,
        Some(key) => match value(text) {
            None => Line::Faulty,
            Some(value) => Line::Setting(key, value),
        },
    }
}

#[tactic(auto, unfolding(crate::specs::Lines::key_line))]
fn key_line<'a>(name: &[u8], rest: &'a [u8]) -> Line<'a>
    ensures { as_line result ≡ key_line name.now rest.now }
{
    match rest {
        [b':', text @ ..] => {
            if !name.is_empty() && begins_value(text) {
                keyed(name, text)
            } else {
                Line::Faulty
            }
        }
        _ => Line::Faulty,
    }
}

impl<'a> Line<'a> {
    /// What the line is.
    #[tactic(auto, unfolding(crate::specs::Lines::line_of), using(crate::proofs::Prefixes::prefixes))]
    pub fn read(line: &'a [u8]) -> Line<'a>
        ensures { as_line result ≡ line_of line.now }
    {
        if is_skipped(line) {
            return Line::Skipped;
        }
        let (name, rest) = line.split_at(key_len(line));
        key_line(name, rest)
    }
}
