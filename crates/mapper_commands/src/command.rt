//! The commands, as words of the command line.

ghost use Rattle.std.specs.Prelude.{◌≡◌, ◌∷◌, [], ℕ, map, string_bytes, IfNone, IfSome};
ghost use Rattle.mapper_commands.specs.Askings.{IsNumberWithin};
ghost use Rattle.mapper_server.specs.Limits.{fewest_entries, most_entries};
ghost use Rattle.mapper_commands.specs.Commands.{Task, Check, Replay, task_of, AsksAs, AsksFor, AsksNothing, AsksOfTrace, AsksPipe};

use crate::askings::{MOST_ENTRIES, read_gen, read_list, read_within};
use crate::verb::Verb;

/// The entries of a history that `pipe` keeps where its words don't say.
const USUAL_ENTRIES: u32 = 65_536;

/// The fewest entries of a history that `pipe` can be asked to keep.
const FEWEST_ENTRIES: u32 = 3;

/// What the words of the command line ask for. Contracts see what `task_of` makes of it.
#[derive(Clone, Copy, Debug, PartialEq, Eq)]
pub enum Command<'a> {
    /// `pipe PROJECT [ENTRIES]`: serves the link as the only connection.
    Pipe {
        /// The name of the project file.
        project: &'a [u8],
        /// The most entries of the history, 65,536 where the words don't say.
        entries: u32,
    },
    /// `check PROJECT TRACE`: says whether a trace is legal.
    Check {
        /// The name of the project file.
        project: &'a [u8],
        /// The name of the trace's file.
        trace: &'a [u8],
    },
    /// `replay PROJECT TRACE`: prints the entries of a trace and the replies that come with each.
    Replay {
        /// The name of the project file.
        project: &'a [u8],
        /// The name of the trace's file.
        trace: &'a [u8],
    },
    /// `list PROJECT`: compiles the units of a project one by one, and reports on them.
    List {
        /// The name of the project file.
        project: &'a [u8],
    },
    /// `gen FOLDER UNITS SEED`: writes a generated project.
    Gen {
        /// The folder of the project.
        folder: &'a [u8],
        /// How many units it is to have.
        units: u32,
        /// The number that its draws begin with.
        seed: u32,
    },
}

impl<'a> Command<'a> {
    /// The command that the words are, without the program's name; `None` where they are of no form:
    /// `pipe PROJECT [ENTRIES]` with ENTRIES from 3 to 1,048,576, decimal without leading zeros, `check PROJECT TRACE`,
    /// `replay PROJECT TRACE`, `list PROJECT`, or `gen FOLDER UNITS SEED` with a FOLDER of 1 to 400 octets, none below
    /// 0x20 and none 0x7f, UNITS from 1 to 2,000 and SEED from 0 to 2,147,483,647. The forms are this project's own.
    pub fn read(words: &'a [String]) -> Option<Command<'a>>
        ensures asked { IfSome result (λ command. AsksFor (map string_bytes words.now) (task_of command)) }
        ensures only { IfSome result (λ command. (task : Task) → AsksFor (map string_bytes words.now) task → task ≡ task_of command) }
        ensures none { IfNone result (AsksNothing words.now) }
    {
        let Some((first, rest)) = words.split_first() else {
            return None;
        };
        match Verb::read(first.as_bytes()) {
            Some(verb) => read_behind(verb, rest),
            None => None,
        }
    }
}

/// The command of this verb with these words after it.
fn read_behind(verb: Verb, words: &[String]) -> Option<Command<'_>>
    ensures asked { IfSome result (λ command. AsksAs verb (map string_bytes words.now) (task_of command)) }
    ensures none { IfNone result ((task : Task) → AsksAs verb (map string_bytes words.now) task → ⊥) }
{
    match verb {
        Verb::Pipe => read_pipe(words),
        Verb::Check => read_check(words),
        Verb::Replay => read_replay(words),
        Verb::List => read_list(words),
        Verb::Gen => read_gen(words),
    }
}

/// The command `check` with these words after it.
fn read_check(words: &[String]) -> Option<Command<'_>>
    ensures asked { IfSome result (λ command. AsksOfTrace Check (map string_bytes words.now) (task_of command)) }
    ensures none { IfNone result ((task : Task) → AsksOfTrace Check (map string_bytes words.now) task → ⊥) }
{
    match words {
        [project, trace] => Some(Command::Check {
            project: project.as_bytes(),
            trace: trace.as_bytes(),
        }),
        _ => None,
    }
}

/// The command `replay` with these words after it.
fn read_replay(words: &[String]) -> Option<Command<'_>>
    ensures asked { IfSome result (λ command. AsksOfTrace Replay (map string_bytes words.now) (task_of command)) }
    ensures none { IfNone result ((task : Task) → AsksOfTrace Replay (map string_bytes words.now) task → ⊥) }
{
    match words {
        [project, trace] => Some(Command::Replay {
            project: project.as_bytes(),
            trace: trace.as_bytes(),
        }),
        _ => None,
    }
}

/// The command `pipe` with these words after it.
fn read_pipe(words: &[String]) -> Option<Command<'_>>
    ensures asked { IfSome result (λ command. AsksPipe (map string_bytes words.now) (task_of command)) }
    ensures none { IfNone result ((task : Task) → AsksPipe (map string_bytes words.now) task → ⊥) }
{
    match words {
        [project] => Some(Command::Pipe {
            project: project.as_bytes(),
            entries: USUAL_ENTRIES,
        }),
        [project, entries] => read_counted(project.as_bytes(), entries.as_bytes()),
        _ => None,
    }
}

/// The command `pipe` with this project file and this word for the entries.
fn read_counted<'a>(project: &'a [u8], word: &[u8]) -> Option<Command<'a>>
    ensures asked { IfSome result (λ command. AsksPipe (project.now ∷ word.now ∷ []) (task_of command)) }
    ensures none { IfNone result ((entries : ℕ) → IsNumberWithin fewest_entries most_entries word.now entries → ⊥) }
{
    match read_within(FEWEST_ENTRIES, MOST_ENTRIES, word) {
        Some(entries) => Some(Command::Pipe { project, entries }),
        None => None,
    }
}
