//! Writing the lines of a trace.

ghost use Rattle.std.specs.Prelude.{◌≡◌, ◌+◌, ◌++◌, ◌∷◌, [], ◌≤◌, length, codes, decimal};
ghost use Rattle.cody_words.specs.Octets.{space};
ghost use Rattle.cody_words.specs.Buffers.{Appends};
ghost use Rattle.histories.specs.Entries.{IsEntry};
ghost use Rattle.trace_text.specs.Texts.{act_words, cause_word, compiled_word, conn_word, end_line, ended, entry_line, head_line, header_word, ident_word, import_word, name_word, unit_word};
ghost use Rattle.trace_text.specs.Working.{behind};

use cody_words::{LineBuf, write_number};
use histories::Entry;
use mapper_requests::Bad;
use unit_registry::Act;

/// The word of an import.
fn import_word(name_only: bool) -> &'static [u8]
    ensures { result.now ≡ import_word name_only }
{
    if name_only { b"name" } else { b"import" }
}

/// The word of a report that a unit is compiled.
fn compiled_word(stored: bool) -> &'static [u8]
    ensures { result.now ≡ compiled_word stored }
{
    if stored { b"stored" } else { b"compiled" }
}

/// The word for whether a name is that of a header unit.
fn header_word(header: bool) -> &'static [u8]
    ensures { result.now ≡ header_word header }
{
    if header { b"yes" } else { b"no" }
}

/// The word for why words are no request.
fn cause_word(why: Bad) -> &'static [u8]
    ensures { result.now ≡ cause_word why }
{
    match why {
        Bad::UnknownVerb => b"verb",
        Bad::WrongWords => b"words",
        Bad::BadNumber => b"number",
    }
}

/// Appends a space and the word, which has at most 8 octets.
fn write_next(word: &[u8], out: &mut LineBuf)
    requires short { length word.now ≤ 8 }
    requires room { 9 ≤ out.old.spare }
    ensures text { Appends out.old out.new (space ∷ word.now) }
    ensures room { out.old.spare ≤ out.new.spare + 9 }
{
    out.push(b' ');
    out.extend(word);
}

/// Appends a space and the number.
fn write_next_number(number: u32, out: &mut LineBuf)
    requires { 11 ≤ out.old.spare }
    ensures text { Appends out.old out.new (space ∷ decimal number) }
    ensures room { out.old.spare ≤ out.new.spare + 11 }
{
    out.push(b' ');
    write_number(number, out);
}

/// Appends a space and the unit, or this word where there is none.
fn write_unit(unit: Option<u32>, none: &[u8], out: &mut LineBuf)
    requires short { length none.now ≤ 8 }
    requires room { 11 ≤ out.old.spare }
    ensures text { Appends out.old out.new (space ∷ unit_word none.now unit) }
    ensures room { out.old.spare ≤ out.new.spare + 11 }
{
    match unit {
        Some(unit) => write_next_number(unit, out),
        None => write_next(none, out),
    }
}

/// Appends a verb and the unit whose name was sent.
fn write_named(verb: &[u8], unit: Option<u32>, out: &mut LineBuf)
    requires short { length verb.now ≤ 8 }
    requires room { 20 ≤ out.old.spare }
    ensures text { Appends out.old out.new (behind (verb.now ∷ name_word unit ∷ [])) }
    ensures room { out.old.spare ≤ out.new.spare + 20 }
{
    write_next(verb, out);
    write_unit(unit, b"?", out);
}

/// Appends two words, a space before each.
fn write_pair(verb: &[u8], word: &[u8], out: &mut LineBuf)
    requires short_verb { length verb.now ≤ 9 }
    requires short_word { length word.now ≤ 8 }
    requires room { 20 ≤ out.old.spare }
    ensures text { Appends out.old out.new (behind (verb.now ∷ word.now ∷ [])) }
    ensures room { out.old.spare ≤ out.new.spare + 20 }
{
    out.push(b' ');
    out.extend(verb);
    write_next(word, out);
}

/// Appends the words of a Hello, a space before each.
fn write_hello(version: u32, unit: Option<u32>, out: &mut LineBuf)
    requires { 31 ≤ out.old.spare }
    ensures text { Appends out.old out.new
        (behind (codes "hello" ∷ decimal version ∷ ident_word unit ∷ [])) }
    ensures room { out.old.spare ≤ out.new.spare + 31 }
{
    write_next(b"hello", out);
    write_next_number(version, out);
    write_unit(unit, b"guest", out);
}

/// Appends the words of an act, a space before each.
fn write_act(act: &Act, out: &mut LineBuf)
    requires { 31 ≤ out.old.spare }
    ensures text { Appends out.old out.new (behind (act_words act.now)) }
    ensures room { out.old.spare ≤ out.new.spare + 31 }
{
    match *act {
        Act::Open => out.extend(b" open"),
        Act::Hello { version, unit } => write_hello(version, unit, out),
        Act::Repo => out.extend(b" repo"),
        Act::Export { unit } => write_named(b"export", unit, out),
        Act::Import { unit, name_only } => write_named(import_word(name_only), unit, out),
        Act::Compiled { unit, stored } => write_named(compiled_word(stored), unit, out),
        Act::Translate { header } => write_pair(b"translate", header_word(header), out),
        Act::Bad { why } => write_pair(b"bad", cause_word(why), out),
        Act::Pause => out.extend(b" pause"),
        Act::Left => out.extend(b" left"),
        Act::Lost => out.extend(b" lost"),
        Act::Done => out.extend(b" done"),
    }
}

/// Appends the connection of an entry, or `-`.
fn write_conn(entry: &Entry, out: &mut LineBuf)
    requires { 10 ≤ out.old.spare }
    ensures text { Appends out.old out.new (conn_word entry.now) }
    ensures room { out.old.spare ≤ out.new.spare + 10 }
{
    match entry.act {
        Act::Done => out.push(b'-'),
        _ => write_number(entry.conn, out),
    }
}

/// Appends the line of an entry.
pub fn write_entry(entry: &Entry, out: &mut LineBuf)
    requires entry { IsEntry entry.now }
    requires room { 64 ≤ out.old.spare }
    ensures text { Appends out.old out.new (ended (entry_line entry.now)) }
    ensures room { out.old.spare ≤ out.new.spare + 64 }
{
    write_conn(entry, out);
    write_act(&entry.act, out);
    out.push(b'\n');
}

/// Appends two numbers, a space before each.
fn write_numbers(first: u32, second: u32, out: &mut LineBuf)
    requires { 22 ≤ out.old.spare }
    ensures text { Appends out.old out.new (behind (decimal first ∷ decimal second ∷ [])) }
    ensures room { out.old.spare ≤ out.new.spare + 22 }
{
    write_next_number(first, out);
    write_next_number(second, out);
}

/// Appends the first line of a trace, with the number of workers and the limit of the history.
pub fn write_head(workers: u32, limit: u32, out: &mut LineBuf)
    requires { 64 ≤ out.old.spare }
    ensures text { Appends out.old out.new (ended (head_line workers limit)) }
    ensures room { out.old.spare ≤ out.new.spare + 64 }
{
    out.extend(b"modmap-trace 1");
    write_numbers(workers, limit, out);
    out.push(b'\n');
}

/// Appends the last line of a trace, with the number of its entries.
pub fn write_end(count: u32, out: &mut LineBuf)
    requires { 64 ≤ out.old.spare }
    ensures text { Appends out.old out.new (ended (end_line count)) }
    ensures room { out.old.spare ≤ out.new.spare + 64 }
{
    out.extend(b"end");
    write_next_number(count, out);
    out.push(b'\n');
}
