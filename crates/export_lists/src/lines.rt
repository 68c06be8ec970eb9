//! Lines of words in canonical writing.

ghost use Rattle.std.specs.Prelude.{◌≡◌, ◌≤◌, ◌++◌, ◌∷◌, [], length, decimal, IfSome, IfOk, OnOk};
ghost use Rattle.cody_words.specs.Canonical.{words_of, line_room};
ghost use Rattle.export_lists.specs.Words.{line_of};

use cody_words::{LineBuf, write_number, write_words};
use mm_outside::{Memory, Text};
use std::alloc::Global;

/// The most octets of a word. Where one is longer, there is no memory for its line.
const LONGEST_WORD: usize = 268_435_456;

/// The room for a line of words, if none of them is too long.
fn room_for(words: &[&[u8]]) -> Option<u32>
    requires { length words.now ≤ 5 }
    ensures { IfSome result (λ room. line_room (words_of words.now) ≤ room) }
{
    let mut room: u32 = 3;
    for word in words {
        if word.len() > LONGEST_WORD {
            return None;
        }
        room += 3 * word.len() as u32 + 3;
    }
    Some(room)
}

/// Appends the canonical line of at most five words.
pub(crate) fn append_line(alloc: Global, words: &[&[u8]], text: &mut Text) -> Result<(), Memory>
    requires { length words.now ≤ 5 }
    ensures { OnOk result (text.new ≡ text.old ++ line_of (words_of words.now)) }
{
    let Some(room) = room_for(words) else {
        return Err(Memory);
    };
    let mut line = LineBuf::new(alloc, room)?;
    write_words(words, false, &mut line);
    text.extend(line.octets())?;
    Ok(())
}

/// Appends a line of two words.
pub(crate) fn append_two<'a>(
    alloc: Global,
    first: &'a [u8],
    second: &'a [u8],
    text: &mut Text,
) -> Result<(), Memory>
    ensures { OnOk result (text.new ≡ text.old ++ line_of (first.now ∷ second.now ∷ [])) }
{
    append_line(alloc, &[first, second], text)
}

/// Appends a line of three words.
pub(crate) fn append_three<'a>(
    alloc: Global,
    first: &'a [u8],
    second: &'a [u8],
    third: &'a [u8],
    text: &mut Text,
) -> Result<(), Memory>
    ensures { OnOk result (text.new ≡ text.old ++ line_of (first.now ∷ second.now ∷ third.now ∷ [])) }
{
    append_line(alloc, &[first, second, third], text)
}

/// The decimal digits of a number, as a word.
pub(crate) fn digits_of(alloc: Global, number: u32) -> Result<LineBuf, Memory>
    ensures { IfOk result (λ digits. digits.octets ≡ decimal number) }
{
    let mut digits = LineBuf::new(alloc, 10)?;
    write_number(number, &mut digits);
    Ok(digits)
}
