//! The fields of a head, by their names.
ghost use Rattle.std.specs.Prelude.{◌≡◌, ◌≤◌, ◌&&◌, ◌==◌, length, map, All, codes, reverse, ◌<◌, true};
ghost use Rattle.std.specs.List.{list_any, slice_split};
ghost use Rattle.httparse.specs.Spans.{IsHeaderWithin, header_bytes, span_bytes};
ghost use Rattle.httparse.specs.Grammar.{trim_ows, skip_ows, is_ows};
ghost use Rattle.station_http.specs.Plans.{has_name, values_of, length_of, has_close, is_close, is_last};
ghost use Rattle.station_http.specs.Fields.{length_with, value_with, begins_ows};

use httparse::spans::HeaderSpan;
use numerals::number;

/// What the `content-length` fields say.
#[derive(Clone, Copy, Debug, PartialEq, Eq)]
pub enum BodyLength {
    Absent,
    Bad,
    Said(u64),
}

/// Whether a field has the name, in any letter case.
fn is_field(bytes: &[u8], field: &HeaderSpan, name: &[u8]) -> bool
    requires { IsHeaderWithin (length bytes.now) field.now }
    ensures { result ≡ has_name name.now (header_bytes bytes.now field.now) }
{
    field.name.of(bytes).eq_ignore_ascii_case(name)
}

/// Whether one of the fields has the name, in any letter case.
pub fn has_field(bytes: &[u8], fields: &[HeaderSpan], name: &[u8]) -> bool
    requires { All (IsHeaderWithin (length bytes.now)) fields.now }
    ensures { result ≡ list_any (λ field. has_name name.now (header_bytes bytes.now field)) fields.now }
{
    for field in fields {
        if is_field(bytes, field, name) {
            return true;
        }
    }
    false
}

/// What the fields say of the body's length.
pub fn body_length(bytes: &[u8], fields: &[HeaderSpan]) -> BodyLength
    requires { All (IsHeaderWithin (length bytes.now)) fields.now }
    ensures { result ≡ length_of (values_of (codes "content-length") (map (header_bytes bytes.now) fields.now)) }
{
    let mut so_far = BodyLength::Absent;
    for field in fields {
        so_far = with_field(so_far, bytes, field);
    }
    so_far
}

/// The length after one more field.
fn with_field(so_far: BodyLength, bytes: &[u8], field: &HeaderSpan) -> BodyLength
    requires { IsHeaderWithin (length bytes.now) field.now }
    ensures { result ≡ length_with so_far (header_bytes bytes.now field.now) }
{
    if !is_field(bytes, field, b"content-length") {
        return so_far;
    }
    with_value(so_far, number(field.value.of(bytes), 10))
}

/// The length after one more value.
fn with_value(so_far: BodyLength, value: Option<u64>) -> BodyLength
    ensures { result ≡ value_with so_far value }
{
    let Some(value) = value else {
        return BodyLength::Bad;
    };
    match so_far {
        BodyLength::Bad => BodyLength::Bad,
        BodyLength::Absent => BodyLength::Said(value),
        BodyLength::Said(other) => {
            if value == other {
                return BodyLength::Said(value);
            }
            BodyLength::Bad
        }
    }
}

/// Whether a `connection` field has the word `close`.
pub fn says_close(bytes: &[u8], fields: &[HeaderSpan]) -> bool
    requires { All (IsHeaderWithin (length bytes.now)) fields.now }
    ensures { result ≡ list_any (λ field. is_last (header_bytes bytes.now field)) fields.now }
{
    for field in fields {
        if is_close_field(bytes, field) {
            return true;
        }
    }
    false
}

fn is_close_field(bytes: &[u8], field: &HeaderSpan) -> bool
    requires { IsHeaderWithin (length bytes.now) field.now }
    ensures { result ≡ is_last (header_bytes bytes.now field.now) }
{
    if !is_field(bytes, field, b"connection") {
        return false;
    }
    has_close_word(field.value.of(bytes))
}

fn has_close_word(value: &[u8]) -> bool
    ensures { result ≡ has_close value.now }
{
    value
        .split(|byte| *byte == b',')
        .any(|word| is_close_word(word))
}

fn is_close_word(word: &[u8]) -> bool
    ensures { result ≡ is_close word.now }
{
    without_blanks(word).eq_ignore_ascii_case(b"close")
}

/// A word without the spaces and tabs around it.
#[tactic(auto, unfolding(httparse::specs::Grammar::trim_ows))]
fn without_blanks<'a>(word: &'a [u8]) -> &'a [u8]
    ensures { result.now ≡ trim_ows word.entry.now }
{
    without_last_blanks(without_first_blanks(word))
}

fn without_first_blanks<'a>(word: &'a [u8]) -> &'a [u8]
    ensures { result.now ≡ skip_ows word.entry.now }
{
    let mut at = 0;
    'blanks: while begins_blank(&word[at..]) {
        at += 1;
    }
    &word[at..]
}

fn without_last_blanks<'a>(word: &'a [u8]) -> &'a [u8]
    ensures { result.now ≡ reverse (skip_ows (reverse word.entry.now)) }
{
    let mut end = word.len();
    'blanks: while ends_blank(&word[..end]) {
        end -= 1;
    }
    &word[..end]
}

fn begins_blank(word: &[u8]) -> bool
    ensures blank { result ≡ begins_ows word.now }
    ensures some { result ≡ true → 0 < length word.now }
{
    match word {
        [byte, ..] => is_space(*byte),
        [] => false,
    }
}

fn ends_blank(word: &[u8]) -> bool
    ensures blank { result ≡ begins_ows (reverse word.now) }
    ensures some { result ≡ true → 0 < length word.now }
{
    let count = word.len();
    if count == 0 {
        return false;
    }
    is_space(word[count - 1])
}

fn is_space(byte: u8) -> bool
    ensures { result ≡ is_ows byte }
{
    byte == b' ' || byte == b'\t'
}
