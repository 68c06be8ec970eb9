//! The grammar of names.

ghost use Rattle.std.specs.Prelude.{◌≡◌, ◌<◌, ◌≤◌, ◌==◌, length, position, OnSome, IfSome, IfNone};
ghost use Rattle.std.specs.List.{list_all, position_or_len, before_first, after_first};
ghost use Rattle.header_units.specs.Octets.{is_letter, is_letter_or_digit, is_path_octet};
ghost use Rattle.header_units.specs.Names.{is_identifier, is_dotted, is_partition, is_rooted, is_header, name_kind};

use crate::name::NameKind;

/// The most octets of a name.
const LONGEST_NAME: usize = 512;

/// The most octets of an identifier.
const LONGEST_IDENTIFIER: usize = 255;

/// Whether an identifier may begin with the octet.
#[tactic(auto, unfolding(crate::specs::Octets::is_letter))]
fn is_letter(octet: u8) -> bool
    ensures { result ≡ is_letter octet }
{
    octet.is_ascii_alphabetic() || octet == b'_'
}

/// Whether an identifier may go on with the octet.
#[tactic(auto, unfolding(crate::specs::Octets::is_letter_or_digit))]
fn is_letter_or_digit(octet: u8) -> bool
    ensures { result ≡ is_letter_or_digit octet }
{
    is_letter(octet) || octet.is_ascii_digit()
}

/// Whether the octet may stand in a header name.
fn is_path_octet(octet: u8) -> bool
    ensures { result ≡ is_path_octet octet }
{
    !octet.is_ascii_control()
}

/// Whether the octets are an identifier: a letter or `_`, and then letters, digits and `_`, at most 255 octets.
/// The limit is this project's own.
pub fn is_identifier(word: &[u8]) -> bool
    ensures { result ≡ is_identifier word.now }
{
    match word {
        [] => false,
        [first, rest @ ..] => {
            is_letter(*first) && have_letters_or_digits(rest) && word.len() <= LONGEST_IDENTIFIER
        }
    }
}

/// Whether an identifier may go on with these octets.
fn have_letters_or_digits(octets: &[u8]) -> bool
    ensures { result ≡ list_all is_letter_or_digit octets.now }
{
    octets.iter().all(|octet| is_letter_or_digit(*octet))
}

/// Whether the octets are identifiers joined by dots.
fn is_dotted(name: &[u8]) -> bool
    ensures { result ≡ is_dotted name.now }
{
    name.split(|octet| *octet == b'.')
        .all(|word| is_identifier(word))
}

/// The place of the first such octet, if there is one.
fn place_of(octets: &[u8], mark: u8) -> Option<usize>
    ensures { result ≡ position (λ octet. octet == mark) octets.now }
{
    octets.iter().position(|octet| *octet == mark)
}

/// What stands before the first such octet, and what stands behind it, if there is one.
pub(crate) fn cut_at(octets: &[u8], mark: u8) -> Option<(&[u8], &[u8])>
    ensures none { IfNone result (length octets.now ≤ position_or_len (λ octet. octet == mark) octets.now) }
    ensures found { OnSome result (position_or_len (λ octet. octet == mark) octets.now < length octets.now) }
    ensures front { IfSome result (λ parts. parts.0.now ≡ before_first (λ octet. octet == mark) octets.now) }
    ensures back { IfSome result (λ parts. parts.1.now ≡ after_first (λ octet. octet == mark) octets.now) }
{
    match place_of(octets, mark) {
        Some(at) => {
            let (front, _) = octets.split_at(at);
            let (_, back) = octets.split_at(at + 1);
            Some((front, back))
        }
        None => None,
    }
}

/// Whether the octets are two dotted names joined by a colon.
fn is_partition(name: &[u8]) -> bool
    ensures { result ≡ is_partition name.now }
{
    match cut_at(name, b':') {
        Some((front, back)) => is_dotted(front) && is_dotted(back),
        None => false,
    }
}

/// Whether more stands behind `./` or `/`.
fn is_rooted(name: &[u8]) -> bool
    ensures { result ≡ is_rooted name.now }
{
    name.starts_with(b"./") && name.len() > 2 || name.starts_with(b"/") && name.len() > 1
}

/// Whether each octet may stand in a header name.
fn have_path_octets(name: &[u8]) -> bool
    ensures { result ≡ list_all is_path_octet name.now }
{
    name.iter().all(|octet| is_path_octet(*octet))
}

/// Whether the octets are a header name, long or short.
fn is_header(name: &[u8]) -> bool
    ensures { result ≡ is_header name.now }
{
    is_rooted(name) && have_path_octets(name)
}

/// The kind of the name, or `None` where the octets are no name.
#[tactic(auto, unfolding(crate::specs::Names::name_kind))]
pub(crate) fn name_kind(octets: &[u8]) -> Option<NameKind>
    ensures { result ≡ name_kind octets.now }
{
    if octets.len() > LONGEST_NAME {
        None
    } else if is_dotted(octets) {
        Some(NameKind::Primary)
    } else if is_partition(octets) {
        Some(NameKind::Partition)
    } else if is_header(octets) {
        Some(NameKind::Header)
    } else {
        None
    }
}
