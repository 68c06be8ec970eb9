//! How far runs of octets go.

ghost use Rattle.std.specs.Prelude.{◌≡◌, ◌+◌, ◌≤◌, length, take, false, count_by, slice_index, IfSome, IfNone};
ghost use Rattle.std.specs.List.{prefix_len};
ghost use Rattle.module_lexer.specs.Octets.{is_newline, is_letter_or_digit, is_string_octet};
ghost use Rattle.module_lexer.specs.Cut.{is_in_line, has_close};

use crate::octets::{is_letter_or_digit, is_newline, is_string_octet};

/// How many octets at the front may go on an identifier.
pub(crate) fn word_len(octets: &[u8]) -> usize
    ensures run { result ≡ prefix_len is_letter_or_digit octets.now }
    ensures within { result ≤ length octets.now }
{
    octets
        .iter()
        .take_while(|octet| is_letter_or_digit(**octet))
        .count()
}

/// How many octets at the front may stand in a string.
pub(crate) fn string_len(octets: &[u8]) -> usize
    ensures run { result ≡ prefix_len is_string_octet octets.now }
    ensures within { result ≤ length octets.now }
{
    octets
        .iter()
        .take_while(|octet| is_string_octet(**octet))
        .count()
}

/// How many octets stand before the first NEWLINE, or before the end.
pub(crate) fn line_len(octets: &[u8]) -> usize
    ensures run { result ≡ prefix_len is_in_line octets.now }
    ensures within { result ≤ length octets.now }
{
    octets
        .iter()
        .take_while(|octet| !is_newline(**octet))
        .count()
}

/// How many NEWLINEs stand in the octets.
pub(crate) fn newline_count(octets: &[u8]) -> usize
    ensures value { result ≡ count_by is_newline octets.now }
    ensures within { result ≤ length octets.now }
{
    octets.iter().filter(|octet| is_newline(**octet)).count()
}

/// The place of the first `*/`, if there is one.
pub(crate) fn close_at(octets: &[u8]) -> Option<usize>
    ensures within { IfSome result (λ place. place + 2 ≤ length octets.now) }
    ensures first { IfSome result (λ place. has_close (take place octets.now) ≡ false) }
    ensures star { IfSome result (λ place. slice_index octets.now place ≡ 42) }
    ensures slash { IfSome result (λ place. slice_index octets.now (place + 1) ≡ 47) }
    ensures none { IfNone result (has_close octets.now ≡ false) }
{
    if octets.len() < 2 {
        return None;
    }
    for place in 0..octets.len() - 1 {
        if octets[place] == b'*' && octets[place + 1] == b'/' {
            return Some(place);
        }
    }
    None
}
