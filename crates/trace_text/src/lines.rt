//! What a line of a trace is.

ghost use Rattle.std.specs.Prelude.{◌≡◌};
ghost use Rattle.trace_text.specs.Working.{body_line, cause_in, head_by, head_of, header_in, hello_act, hello_by, if_conn, is_head, lone_act, paired_act, short_entry, short_line, number_in, unit_in, entry_by, as_entry, words_in};

use crate::words::{LineWords, cut_words, number_in, unit_in};
use histories::Entry;
use mapper_requests::Bad;
use unit_registry::Act;

/// The most workers of a trace (this project's own limit).
const MOST_WORKERS: u32 = 16384;

/// The greatest limit of a trace (this project's own limit).
const GREATEST_LIMIT: u32 = 67108864;

/// The connection of a Done, which is of none.
const NO_CONNECTION: u32 = 4294967295;

/// What the first line says.
#[derive(Clone, Copy, Debug)]
pub(crate) struct Head {
    /// How many workers there are.
    pub workers: u32,
    /// The most entries.
    pub limit: u32,
}

/// A line behind the first.
#[derive(Clone, Copy, Debug)]
pub(crate) enum BodyLine {
    /// The last one, with its number of entries.
    End { count: u32 },
    /// An entry.
    Item { entry: Entry },
}

/// What the word says of a header unit.
fn header_in(word: &[u8]) -> Option<bool>
    ensures { result ≡ header_in word.now }
{
    if word == b"yes".as_slice() {
        Some(true)
    } else if word == b"no".as_slice() {
        Some(false)
    } else {
        None
    }
}

/// The cause that the word is.
fn cause_in(word: &[u8]) -> Option<Bad>
    ensures { result ≡ cause_in word.now }
{
    if word == b"verb".as_slice() {
        Some(Bad::UnknownVerb)
    } else if word == b"words".as_slice() {
        Some(Bad::WrongWords)
    } else if word == b"number".as_slice() {
        Some(Bad::BadNumber)
    } else {
        None
    }
}

/// The act that the verb is.
fn lone_act(verb: &[u8]) -> Option<Act>
    ensures { result ≡ lone_act verb.now }
{
    if verb == b"open".as_slice() {
        Some(Act::Open)
    } else if verb == b"repo".as_slice() {
        Some(Act::Repo)
    } else if verb == b"pause".as_slice() {
        Some(Act::Pause)
    } else if verb == b"left".as_slice() {
        Some(Act::Left)
    } else if verb == b"lost".as_slice() {
        Some(Act::Lost)
    } else {
        None
    }
}

/// The act that the verb and the word are.
fn paired_act(verb: &[u8], word: &[u8]) -> Option<Act>
    ensures { result ≡ paired_act verb.now word.now }
{
    if verb == b"export".as_slice() {
        unit_in(b"?", word).map(|unit| Act::Export { unit })
    } else if verb == b"import".as_slice() {
        unit_in(b"?", word).map(|unit| Act::Import {
            unit,
            name_only: false,
        })
    } else if verb == b"name".as_slice() {
        unit_in(b"?", word).map(|unit| Act::Import {
            unit,
            name_only: true,
        })
    } else if verb == b"compiled".as_slice() {
        unit_in(b"?", word).map(|unit| Act::Compiled {
            unit,
            stored: false,
        })
    } else if verb == b"stored".as_slice() {
        number_in(word).map(|unit| Act::Compiled {
            unit: Some(unit),
            stored: true,
        })
    } else if verb == b"translate".as_slice() {
        header_in(word).map(|header| Act::Translate { header })
    } else if verb == b"bad".as_slice() {
        cause_in(word).map(|why| Act::Bad { why })
    } else {
        None
    }
}

/// The act that the verb, a version and a unit are.
fn hello_act(verb: &[u8], version: &[u8], unit: &[u8]) -> Option<Act>
    ensures { result ≡ hello_act verb.now version.now unit.now }
{
    if verb != b"hello".as_slice() {
        return None;
    }
    let version = number_in(version)?;
    let unit = unit_in(b"guest", unit)?;
    Some(Act::Hello { version, unit })
}

/// The connection that the word is.
fn conn_in(word: &[u8]) -> Option<u32>
    ensures { result ≡ if_conn (number_in word.now) }
{
    match number_in(word) {
        Some(conn) if conn < NO_CONNECTION => Some(conn),
        _ => None,
    }
}

/// The entry of the connection that the word is, and the act.
fn entry_by(who: &[u8], act: Option<Act>) -> Option<Entry>
    ensures { result ≡ entry_by (if_conn (number_in who.now)) act }
{
    let conn = conn_in(who)?;
    let act = act?;
    Some(Entry { conn, act })
}

/// The entry that the two words are.
fn short_entry(who: &[u8], verb: &[u8]) -> Option<Entry>
    ensures { result ≡ short_entry who.now verb.now }
{
    if who != b"-".as_slice() {
        entry_by(who, lone_act(verb))
    } else if verb == b"done".as_slice() {
        Some(Entry {
            conn: NO_CONNECTION,
            act: Act::Done,
        })
    } else {
        None
    }
}

/// The line of an entry.
fn as_entry(entry: Option<Entry>) -> Option<BodyLine>
    ensures { result ≡ as_entry entry }
{
    entry.map(|entry| BodyLine::Item { entry })
}

/// The line that the two words are.
fn short_line(first: &[u8], second: &[u8]) -> Option<BodyLine>
    ensures { result ≡ short_line first.now second.now }
{
    if first == b"end".as_slice() {
        number_in(second).map(|count| BodyLine::End { count })
    } else {
        as_entry(short_entry(first, second))
    }
}

/// What a line behind the first is.
pub(crate) fn read_line(line: &[u8]) -> Option<BodyLine>
    ensures { result ≡ body_line (words_in line.now) }
{
    match cut_words(line) {
        LineWords::Two { first, second } => short_line(first, second),
        LineWords::Three {
            first,
            second,
            third,
        } => { as_entry(entry_by(first, paired_act(second, third))) }
        LineWords::Four {
            first,
            second,
            third,
            fourth,
        } => { as_entry(entry_by(first, hello_act(second, third, fourth))) }
        LineWords::One { .. } | LineWords::More => None,
    }
}

/// Whether these are the number of workers and the limit of a trace.
fn is_head(workers: u32, limit: u32) -> bool
    ensures { result ≡ is_head workers limit }
{
    1 <= workers && workers <= MOST_WORKERS && workers <= limit && limit <= GREATEST_LIMIT
}

/// The head of two numbers.
fn head_by(workers: &[u8], limit: &[u8]) -> Option<Head>
    ensures { result ≡ head_by (number_in workers.now) (number_in limit.now) }
{
    let workers = number_in(workers)?;
    let limit = number_in(limit)?;
    if is_head(workers, limit) {
        Some(Head { workers, limit })
    } else {
        None
    }
}

/// What the first line says.
pub(crate) fn read_head(line: &[u8]) -> Option<Head>
    ensures { result ≡ head_of (words_in line.now) }
{
    match cut_words(line) {
        LineWords::Four {
            first,
            second,
            third,
            fourth,
        } if first == b"modmap-trace".as_slice() && second == b"1".as_slice() => {
            head_by(third, fourth)
        }
        _ => None,
    }
}
