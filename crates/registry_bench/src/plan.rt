//! The words of the command line.

ghost use Rattle.std.specs.Prelude.{◌≤◌, IfSome};
ghost use Rattle.registry_bench.specs.Plans.{IsWithin};

use mapper_requests::read_decimal;

/// The most threads.
const MOST_THREADS: u32 = 64;

/// The most requests of a block.
const MOST_BLOCK: u32 = 1000;

/// The most entries that are asked for.
const MOST_ENTRIES: u32 = 8_000_000;

/// The greatest limit of a book.
const MOST_LIMIT: u32 = 67_108_864;

/// What is to be entered: by so many threads, each so many blocks of so many requests and a pause.
#[derive(Clone, Copy)]
pub struct Plan {
    /// How many threads there are.
    pub threads: u32,
    /// How many requests a block has.
    pub block: u32,
    /// How many blocks each thread enters.
    pub rounds: u32,
    /// Whether a turn is kept for a block, and not taken for each call.
    pub kept: bool,
    /// A limit that has room for all entries and the ends of the workers.
    pub limit: u32,
}

impl Plan {
    /// What the words say: THREADS BLOCK ENTRIES, and `each` or `block`. There are about ENTRIES entries in all, and a
    /// block for each thread at least.
    pub fn read(words: &[String]) -> Option<Plan>
        ensures { IfSome result IsWithin }
    {
        let [threads, block, entries, turns] = words else {
            return None;
        };
        let threads = number(threads.as_str(), MOST_THREADS)?;
        let block = number(block.as_str(), MOST_BLOCK)?;
        let entries = number(entries.as_str(), MOST_ENTRIES)?;
        let kept = keeps(turns.as_str())?;
        let rounds = rounds(threads, block, entries)?;
        let limit = limit(threads, block, rounds)?;
        Some(Plan {
            threads,
            block,
            rounds,
            kept,
            limit,
        })
    }
}

/// How many blocks each thread enters.
fn rounds(threads: u32, block: u32, entries: u32) -> Option<u32> {
    let all = threads.checked_mul(block.checked_add(1)?)?;
    let rounds = entries.checked_div(all)?;
    if rounds == 0 { Some(1) } else { Some(rounds) }
}

/// The entries of each thread, which are an Open, a greeting, its blocks with a pause each and an end, and the end of
/// its worker.
fn limit(threads: u32, block: u32, rounds: u32) -> Option<u32>
    ensures { IfSome result (λ limit. (threads ≤ limit) × (limit ≤ 67108864)) }
{
    let each = rounds.checked_mul(block.checked_add(1)?)?.checked_add(4)?;
    let limit = threads.checked_mul(each)?;
    if limit < threads || limit > MOST_LIMIT {
        return None;
    }
    Some(limit)
}

/// The number that a word is, where it is one from 1 to `most`.
fn number(word: &str, most: u32) -> Option<u32>
    ensures { IfSome result (λ number. (1 ≤ number) × (number ≤ most)) }
{
    let number = read_decimal(word.as_bytes())?;
    if number < 1 || number > most {
        return None;
    }
    Some(number)
}

/// Whether a turn is kept for a block, by a word.
fn keeps(word: &str) -> Option<bool> {
    if word == "block" {
        return Some(true);
    }
    if word == "each" {
        return Some(false);
    }
    None
}
