//! The one canonical way of writing words and lines.

ghost use Rattle.std.specs.Prelude.{◌≡◌, ◌+◌, ◌++◌, ◌∷◌, [], ◌<◌, ◌≤◌, length, decimal};
ghost use Rattle.std.specs.List.{list_all};
ghost use Rattle.cody_words.specs.Octets.{newline, hex_digit};
ghost use Rattle.cody_words.specs.Buffers.{Appends};
ghost use Rattle.cody_words.specs.Canonical.{is_bare_letter, is_bare, quoted_octet, quote, next_word, mark, canonical_line, words_of, word_room, line_room};

use crate::line_buf::LineBuf;
use crate::octets::is_bare_letter;
use crate::words::Words;
use itoa::Buffer;

/// Whether each octet may stand without quotes.
fn has_bare_letters(word: &[u8]) -> bool
    ensures { result ≡ list_all is_bare_letter word.now }
{
    word.iter().all(|octet| is_bare_letter(*octet))
}

/// Whether the word is written without quotes.
fn is_bare(word: &[u8]) -> bool
    ensures { result ≡ is_bare word.now }
{
    !word.is_empty() && has_bare_letters(word)
}

/// The hexadecimal digit of a number below 16.
fn hex_digit(number: u8) -> u8
    requires { number < 16 }
    ensures { result ≡ hex_digit number }
{
    if number < 10 {
        b'0' + number
    } else {
        b'a' - 10 + number
    }
}

/// Appends what stands for the octet between quotes.
#[tactic(auto, unfolding(crate::specs::Canonical::quoted_octet))]
fn write_quoted_octet(octet: u8, out: &mut LineBuf)
    requires { 3 ≤ out.old.spare }
    ensures { Appends out.old out.new (quoted_octet octet) }
{
    match octet {
        b'\n' => out.extend(br"\n"),
        b'\t' => out.extend(br"\t"),
        b'\'' => out.extend(br"\'"),
        b'\\' => out.extend(br"\\"),
        0..=31 | 0x7f => out.extend(&[b'\\', hex_digit(octet / 16), hex_digit(octet % 16)]),
        _ => out.push(octet),
    }
}

/// Appends the one canonical spelling of a word: bare where the word isn't empty and has only octets
/// of `[-+_/%.A-Za-z0-9]`, and else one quoted run.
pub fn write_word(word: &[u8], out: &mut LineBuf)
    requires { word_room word.now ≤ out.old.spare }
    ensures text { Appends out.old out.new (quote word.now) }
    ensures room { out.old.spare ≤ out.new.spare + word_room word.now }
{
    if is_bare(word) {
        out.extend(word);
        return;
    }
    out.push(b'\'');
    for octet in word {
        write_quoted_octet(*octet, out);
    }
    out.push(b'\'');
}

/// Appends a word, behind a space where it isn't the first.
fn write_next_word(word: &[u8], first: bool, out: &mut LineBuf)
    requires { word_room word.now + 1 ≤ out.old.spare }
    ensures { Appends out.old out.new (next_word word.now first) }
{
    if !first {
        out.push(b' ');
    }
    write_word(word, out);
}

/// Appends the end of a line, with the mark where more follows.
fn write_end(more: bool, out: &mut LineBuf)
    requires { 3 ≤ out.old.spare }
    ensures { Appends out.old out.new (mark more ++ newline ∷ []) }
{
    if more {
        out.extend(b" ;\n");
    } else {
        out.push(b'\n');
    }
}

/// Appends the canonical line of words that were read: the words with single spaces, ` ;` where more
/// of the block follows, and NEWLINE. `Words::room` is the room that it asks for.
pub fn write_line(words: &Words, more: bool, out: &mut LineBuf)
    requires { line_room words.now ≤ out.old.spare }
    ensures text { Appends out.old out.new (canonical_line words.now more) }
    ensures room { out.old.spare ≤ out.new.spare + line_room words.now }
{
    for k in 0..words.len() {
        write_next_word(words.word(k), k == 0, out);
    }
    write_end(more, out);
}

/// Appends the canonical line of these words, as `write_line` does for words that were read.
pub fn write_words(words: &[&[u8]], more: bool, out: &mut LineBuf)
    requires { line_room (words_of words.now) ≤ out.old.spare }
    ensures text { Appends out.old out.new (canonical_line (words_of words.now) more) }
    ensures room { out.old.spare ≤ out.new.spare + line_room (words_of words.now) }
{
    for k in 0..words.len() {
        write_next_word(words[k], k == 0, out);
    }
    write_end(more, out);
}

/// Appends the decimal digits of a number, without leading zeros.
pub fn write_number(number: u32, out: &mut LineBuf)
    requires { 10 ≤ out.old.spare }
    ensures text { Appends out.old out.new (decimal number) }
    ensures room { out.old.spare ≤ out.new.spare + 10 }
{
    let mut digits = Buffer::new();
    out.extend(digits.format(number).as_bytes());
}
