//! The words of the command `serve`.

ghost use Rattle.std.specs.Prelude.{◌∷◌, [], map, string_bytes, codes, IfNone, IfSome};
ghost use Rattle.mapper_commands.specs.Commands.{ServeWords, AsksToServe, serve_words};

use crate::address::is_address;
use crate::askings::{MOST_ENTRIES, read_within};

/// The most workers of `serve`.
const MOST_WORKERS: u32 = 64;

/// The most links that a hall of `serve` gives.
const MOST_LINKS: u32 = 65_536;

/// What the words of `serve` ask for. Contracts see what `serve_words` makes of it.
#[derive(Clone, Copy, Debug, PartialEq, Eq)]
pub struct ServeCommand<'a> {
    /// The name of the project file.
    pub project: &'a [u8],
    /// The address of the halls, as the words spell it.
    pub address: &'a [u8],
    /// How many workers serve.
    pub workers: u32,
    /// The most links that the hall of each worker gives.
    pub links: u32,
    /// The most entries of the history.
    pub entries: u32,
}

impl<'a> ServeCommand<'a> {
    /// The command of these words after `serve`; `None` where they aren't `PROJECT ADDRESS WORKERS LINKS ENTRIES` with
    /// an ADDRESS `unix:PATH` or `tcp:HOST:PORT`, WORKERS from 1 to 64, LINKS from 1 to 65,536 and ENTRIES from WORKERS
    /// to 1,048,576, decimal without leading zeros. The form is this project's own.
    pub fn read(words: &'a [String]) -> Option<ServeCommand<'a>>
        ensures asked { IfSome result (λ command. AsksToServe (codes "serve" ∷ map string_bytes words.now) (serve_words command)) }
        ensures none { IfNone result ((serve : ServeWords) → AsksToServe (codes "serve" ∷ map string_bytes words.now) serve → ⊥) }
    {
        match words {
            [project, address, workers, links, entries] => read_counts(
                project.as_bytes(),
                address.as_bytes(),
                workers.as_bytes(),
                links.as_bytes(),
                entries.as_bytes(),
            ),
            _ => None,
        }
    }
}

/// The command `serve` with these five words after it.
fn read_counts<'a>(
    project: &'a [u8],
    address: &'a [u8],
    workers: &[u8],
    links: &[u8],
    entries: &[u8],
) -> Option<ServeCommand<'a>>
    ensures asked { IfSome result (λ command. AsksToServe (codes "serve" ∷ project.now ∷ address.now ∷ workers.now ∷ links.now ∷ entries.now ∷ []) (serve_words command)) }
    ensures none { IfNone result ((serve : ServeWords) → AsksToServe (codes "serve" ∷ project.now ∷ address.now ∷ workers.now ∷ links.now ∷ entries.now ∷ []) serve → ⊥) }
{
    if !is_address(address) {
        return None;
    }
    let Some(workers) = read_within(1, MOST_WORKERS, workers) else {
        return None;
    };
    let Some(links) = read_within(1, MOST_LINKS, links) else {
        return None;
    };
    let Some(entries) = read_within(workers, MOST_ENTRIES, entries) else {
        return None;
    };
    Some(ServeCommand {
        project,
        address,
        workers,
        links,
        entries,
    })
}
