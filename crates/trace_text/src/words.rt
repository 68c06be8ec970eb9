//! The words of a line.

ghost use Rattle.std.specs.Prelude.{◌≡◌, ◌≤◌, ◌<◌, ◌∷◌, [], length, position, OnSome, IfSome, IfNone};
ghost use Rattle.std.specs.List.{position_or_len, before_first, after_first};
ghost use Rattle.std.specs.Option.{option_map_or};
ghost use Rattle.cody_words.specs.Octets.{space};
ghost use Rattle.trace_text.specs.Working.{is_octet, words_in, number_in, unit_in, HasWords};

use mapper_requests::read_decimal;
use memchr::memchr;

/// The words of a line, by how many there are.
#[derive(Clone, Copy, Debug)]
pub(crate) enum LineWords<'a> {
    One {
        first: &'a [u8],
    },
    Two {
        first: &'a [u8],
        second: &'a [u8],
    },
    Three {
        first: &'a [u8],
        second: &'a [u8],
        third: &'a [u8],
    },
    Four {
        first: &'a [u8],
        second: &'a [u8],
        third: &'a [u8],
        fourth: &'a [u8],
    },
    /// More than four.
    More,
}

/// The place of the first space, if there is one.
fn place_of_space(octets: &[u8]) -> Option<usize>
    ensures { result ≡ position (is_octet space) octets.now }
{
    memchr(b' ', octets)
}

/// What stands before the first space, and what stands behind it, if there is one.
fn cut_at_space(octets: &[u8]) -> Option<(&[u8], &[u8])>
    ensures none { IfNone result (length octets.now ≤ position_or_len (is_octet space) octets.now) }
    ensures found { OnSome result (position_or_len (is_octet space) octets.now < length octets.now) }
    ensures front { IfSome result (λ parts. parts.0.now ≡ before_first (is_octet space) octets.now) }
    ensures back { IfSome result (λ parts. parts.1.now ≡ after_first (is_octet space) octets.now) }
{
    match place_of_space(octets) {
        Some(at) => {
            let (front, _) = octets.split_at(at);
            let (_, back) = octets.split_at(at + 1);
            Some((front, back))
        }
        None => None,
    }
}

/// The first word, and what stands behind its space, if there is one.
fn cut_word(text: &[u8]) -> (&[u8], Option<&[u8]>)
    ensures { words_in text.now
        ≡ result.0.now ∷ option_map_or (λ rest. words_in rest.now) result.1 [] }
{
    match cut_at_space(text) {
        Some((word, rest)) => (word, Some(rest)),
        None => (text, None),
    }
}

/// The words of a line.
#[tactic(auto, using(crate::proofs::Cuts::words_some))]
pub(crate) fn cut_words(line: &[u8]) -> LineWords<'_>
    ensures { HasWords result (words_in line.now) }
{
    let (first, rest) = cut_word(line);
    let Some(rest) = rest else {
        return LineWords::One { first };
    };
    let (second, rest) = cut_word(rest);
    let Some(rest) = rest else {
        return LineWords::Two { first, second };
    };
    let (third, rest) = cut_word(rest);
    let Some(rest) = rest else {
        return LineWords::Three {
            first,
            second,
            third,
        };
    };
    let (fourth, rest) = cut_word(rest);
    match rest {
        Some(_) => LineWords::More,
        None => LineWords::Four {
            first,
            second,
            third,
            fourth,
        },
    }
}

/// The number that the word is, without leading zeros and at most 4,294,967,295.
pub(crate) fn number_in(word: &[u8]) -> Option<u32>
    ensures { result ≡ number_in word.now }
{
    read_decimal(word)
}

/// The unit that the word is, where this word stands for none.
pub(crate) fn unit_in(none: &[u8], word: &[u8]) -> Option<Option<u32>>
    ensures { result ≡ unit_in none.now word.now }
{
    if word == none {
        Some(None)
    } else {
        match number_in(word) {
            Some(number) => Some(Some(number)),
            None => None,
        }
    }
}
