//! The words after `gen` and after `list`, and numbers among words.

ghost use Rattle.std.specs.Prelude.{◌≡◌, ◌∷◌, [], ℕ, map, string_bytes, IfNone, IfSome};
ghost use Rattle.std.specs.List.{list_all};
ghost use Rattle.header_units.specs.Octets.{is_path_octet};
ghost use Rattle.mapper_commands.specs.Askings.{IsNumberWithin, is_folder};
ghost use Rattle.mapper_commands.specs.Commands.{Task, task_of, AsksToGenerate, AsksToList};

use crate::command::Command;
use mapper_requests::read_decimal;

/// The most octets of a folder.
const LONGEST_FOLDER: usize = 400;

/// The most units that can be generated.
const MOST_UNITS: u32 = 2_000;

/// The greatest seed.
const GREATEST_SEED: u32 = 2_147_483_647;

/// The most entries of a history that a command can be asked to keep.
pub const MOST_ENTRIES: u32 = 1_048_576;

/// Whether no octet is below 0x20 or 0x7f.
fn has_no_control(word: &[u8]) -> bool
    ensures { result ≡ list_all is_path_octet word.now }
{
    word.iter().all(|octet| !octet.is_ascii_control())
}

/// Whether the word may be a folder: 1 to 400 octets, none below 0x20 and none 0x7f.
fn is_folder(word: &[u8]) -> bool
    ensures { result ≡ is_folder word.now }
{
    !word.is_empty() && word.len() <= LONGEST_FOLDER && has_no_control(word)
}

/// The number that the word spells, where it lies between the two or is one of them.
pub fn read_within(low: u32, high: u32, word: &[u8]) -> Option<u32>
    ensures number { IfSome result (λ number. IsNumberWithin low high word.now number) }
    ensures none { IfNone result ((number : ℕ) → IsNumberWithin low high word.now number → ⊥) }
{
    let Some(number) = read_decimal(word) else {
        return None;
    };
    if low <= number && number <= high {
        Some(number)
    } else {
        None
    }
}

/// The command `gen` with these three words after it.
fn read_counts<'a>(folder: &'a [u8], units: &[u8], seed: &[u8]) -> Option<Command<'a>>
    ensures asked { IfSome result (λ command. AsksToGenerate (folder.now ∷ units.now ∷ seed.now ∷ []) (task_of command)) }
    ensures none { IfNone result ((task : Task) → AsksToGenerate (folder.now ∷ units.now ∷ seed.now ∷ []) task → ⊥) }
{
    if !is_folder(folder) {
        return None;
    }
    let Some(units) = read_within(1, MOST_UNITS, units) else {
        return None;
    };
    let Some(seed) = read_within(0, GREATEST_SEED, seed) else {
        return None;
    };
    Some(Command::Gen {
        folder,
        units,
        seed,
    })
}

/// The command `gen` with these words after it; `None` where they aren't `FOLDER UNITS SEED` with a FOLDER of 1 to 400
/// octets, none below 0x20 and none 0x7f, UNITS from 1 to 2,000 and SEED from 0 to 2,147,483,647, decimal without
/// leading zeros. The form is this project's own.
pub fn read_gen(words: &[String]) -> Option<Command<'_>>
    ensures asked { IfSome result (λ command. AsksToGenerate (map string_bytes words.now) (task_of command)) }
    ensures none { IfNone result ((task : Task) → AsksToGenerate (map string_bytes words.now) task → ⊥) }
{
    match words {
        [folder, units, seed] => read_counts(folder.as_bytes(), units.as_bytes(), seed.as_bytes()),
        _ => None,
    }
}

/// The command `list` with these words after it; `None` where they aren't one word. The form is this project's own.
pub fn read_list(words: &[String]) -> Option<Command<'_>>
    ensures asked { IfSome result (λ command. AsksToList (map string_bytes words.now) (task_of command)) }
    ensures none { IfNone result ((task : Task) → AsksToList (map string_bytes words.now) task → ⊥) }
{
    match words {
        [project] => Some(Command::List {
            project: project.as_bytes(),
        }),
        _ => None,
    }
}
