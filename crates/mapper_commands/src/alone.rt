//! The call behind the program: words in, a status out.

ghost use Rattle.std.specs.Prelude.{◌≡◌, ◌≢◌, ◌↔◌, ◌⊎◌, ◌≤◌, ◌+◌, ℕ, List, true, false};
ghost use Rattle.mm_outside.specs.Causes.{Rose};
ghost use Rattle.mm_outside.specs.Told.{Told};
ghost use Rattle.cody_words.specs.Canonical.{word_room};
ghost use Rattle.mapper_commands.specs.Endings.{Ends, frame_room, message_room, output_of, reason_room, told_by};
ghost use Rattle.mapper_server.specs.Limits.{fewest_entries, most_entries};
ghost use Rattle.mapper_commands.specs.Commands.{AsksFor, AsksNothing, Generate, task_of};
ghost use Rattle.mapper_commands.specs.Meanings.{FillsHistory, FitsHistory, Judges, NamesRefused, ReadsBeyond, EndsInBlock};
ghost use Rattle.mapper_commands.specs.Running.{AsksToReport, AsksToWrite, Does, DoesTask, HasNoFault, KeepsOthers, LacksFile, NothingHinders, Pipes, HidesNoFault, outside_of};

use crate::check::run_check;
use crate::command::Command;
use crate::ending::Ending;
use crate::generator::run_gen;
use crate::list::run_list;
use crate::project_file::read_project;
use crate::replay::run_replay;
use crate::telling::{message_buffer, print_text, tell_memory};
use mapper_server::pipe;
use mm_outside::{Files, Link, Memory, Sink};
use std::alloc::Global;

/// Serves the link over the project that the file of this name declares.
fn serve_project<'a, F: Files, L: Link>(
    alloc: Global,
    name: &'a [u8],
    entries: u32,
    files: &mut F,
    link: &mut L,
) -> Ending<'a>
    requires fewest { fewest_entries ≤ entries }
    requires most { entries ≤ most_entries }
    ensures pipes { Pipes (outside_of F.content F.read_faults F.write_faults L.octets L.read_faults L.write_faults files.old files.new link.old link.new)
        name.now entries (told_by result) }
    ensures room { message_room (told_by result) ≤ word_room name.now + reason_room + frame_room }
    ensures files { F.write_faults files.new ≡ F.write_faults files.old }
{
    match read_project(alloc, files, name) {
        Ok(project) => match pipe(alloc, &project, entries, link) {
            Ok(how) => Ending::Served(how),
            Err(Memory) => Ending::OutOfMemory,
        },
        Err(ending) => ending,
    }
}

/// Serves the link over the project that the file of this name declares, and prints the message of the ending.
fn run_pipe<F: Files, L: Link, K: Sink>(
    alloc: Global,
    name: &[u8],
    entries: u32,
    files: &mut F,
    link: &mut L,
    out: &mut K,
) -> u8
    requires fewest { fewest_entries ≤ entries }
    requires most { entries ≤ most_entries }
    ensures run { Ends (Pipes (outside_of F.content F.read_faults F.write_faults L.octets L.read_faults L.write_faults files.old files.new link.old link.new) name.now entries)
        (output_of K.written K.faults out.old out.new) result }
    ensures files { F.write_faults files.new ≡ F.write_faults files.old }
{
    let Ok(mut message) = message_buffer(alloc, name) else {
        return tell_memory(out);
    };
    let ending = serve_project(alloc, name, entries, files, link);
    ending.write_message(&mut message);
    print_text(message.octets(), out);
    ending.status()
}

/// Runs a command that some words ask for.
fn run_command<F: Files, L: Link, K: Sink>(
    alloc: Global,
    command: Command<'_>,
    files: &mut F,
    link: &mut L,
    out: &mut K,
) -> u8
    requires { (words : List (List ℕ)) × AsksFor words (task_of command) }
    ensures run { Ends (DoesTask (outside_of F.content F.read_faults F.write_faults L.octets L.read_faults L.write_faults files.old files.new link.old link.new) (task_of command.entry))
        (output_of K.written K.faults out.old out.new) result }
    ensures unhidden { HidesNoFault (outside_of F.content F.read_faults F.write_faults L.octets L.read_faults L.write_faults files.old files.new link.old link.new) result }
    ensures files { ((folder : List ℕ) (units seed : ℕ) → task_of command.entry ≡ Generate folder units seed → ⊥) → F.write_faults files.new ≡ F.write_faults files.old }
{
    match command {
        Command::Pipe { project, entries } => run_pipe(alloc, project, entries, files, link, out),
        Command::Check { project, trace } => run_check(alloc, project, trace, files, out),
        Command::Replay { project, trace } => run_replay(alloc, project, trace, files, out),
        Command::List { project } => run_list(alloc, project, files, out),
        Command::Gen {
            folder,
            units,
            seed,
        } => run_gen(alloc, folder, units, seed, files, out),
    }
}

/// Runs the program over one link: `words` are the command line without the program's name, `files` hold the files
/// that it names, `link` is what the command `pipe` serves, and `out` takes reports and messages. It answers the exit
/// status: 0 all done, 1 a trace isn't legal or a unit failed, 2 bad words, 3 want of memory before the link was
/// touched, 4 a file is absent or a read of it or of the link failed, 5 a write of the link, of a file or of a report
/// failed, 6 a file is refused or too long, 7 the input ended inside a block, 8 the input or a block was too long, 9
/// the history is full. The statuses are this project's own.
pub fn run_alone<R, F: Files, L: Link, K: Sink>(
    _rt: &R,
    alloc: Global,
    words: &[String],
    files: &mut F,
    link: &mut L,
    out: &mut K,
) -> u8
    ensures run { Ends (Does (outside_of F.content F.read_faults F.write_faults L.octets L.read_faults L.write_faults files.old files.new link.old link.new) words.now)
        (output_of K.written K.faults out.old out.new) result }
    ensures words { (result ≡ 2) ↔ AsksNothing words.now }
    ensures untouched { (result ≡ 2) ⊎ ((result ≡ 3) ⊎ (result ≡ 6)) → link.new ≡ link.old }
    ensures idle { result ≡ 2 → files.new ≡ files.old }
    ensures read_fault { result ≡ 4 → LacksFile words.now (F.content files.old) ⊎ Rose (F.read_faults files.old) (F.read_faults files.new) ⊎ Rose (L.read_faults link.old) (L.read_faults link.new) }
    ensures write_fault { result ≡ 5 → Rose (L.write_faults link.old) (L.write_faults link.new) ⊎ Rose (F.write_faults files.old) (F.write_faults files.new) ⊎ Rose (K.faults out.old) (K.faults out.new) }

    // What is done has no fault after it. No second try hides a read or a write that failed, and in `gen` no read
    // fails.
    ensures unfailing { (result ≡ 0) ⊎ (result ≡ 1) → HasNoFault (outside_of F.content F.read_faults F.write_faults L.octets L.read_faults L.write_faults files.old files.new link.old link.new)
        (output_of K.written K.faults out.old out.new) }
    ensures unhidden { HidesNoFault (outside_of F.content F.read_faults F.write_faults L.octets L.read_faults L.write_faults files.old files.new link.old link.new) result }
    ensures reads { AsksToWrite words.now → F.read_faults files.new ≡ F.read_faults files.old }

    // Only `gen` writes files, and no others than those of its project.
    ensures others { Told (KeepsOthers words.now) (F.content files.old) (F.content files.new) }
    ensures files { ¬ (AsksToWrite words.now) → F.write_faults files.new ≡ F.write_faults files.old }

    // Where nothing hinders what the words ask for, it is done whole, unless memory runs out before.
    ensures whole { NothingHinders (outside_of F.content F.read_faults F.write_faults L.octets L.read_faults L.write_faults files.old files.new link.old link.new)
        (output_of K.written K.faults out.old out.new) words.now → (result ≡ 0) ⊎ ((result ≡ 1) ⊎ (result ≡ 3)) }

    // Of what is reported on, 0 says that all is well and 1 that it isn't. 6 names a file that is refused. 7, 8 and 9
    // come only by the octets that were read, and 9 comes wherever they are too much for the history, unless a write
    // failed before.
    ensures well { result ≡ 0 → AsksToReport words.now → Judges (outside_of F.content F.read_faults F.write_faults L.octets L.read_faults L.write_faults files.old files.new link.old link.new)
        (output_of K.written K.faults out.old out.new) words.now true }
    ensures ill { result ≡ 1 → Judges (outside_of F.content F.read_faults F.write_faults L.octets L.read_faults L.write_faults files.old files.new link.old link.new)
        (output_of K.written K.faults out.old out.new) words.now false }
    ensures refused { result ≡ 6 → NamesRefused (outside_of F.content F.read_faults F.write_faults L.octets L.read_faults L.write_faults files.old files.new link.old link.new)
        (output_of K.written K.faults out.old out.new) words.now }
    ensures cut { result ≡ 7 → Told EndsInBlock (L.octets link.old) (L.octets link.new) }
    ensures beyond { result ≡ 8 → Told ReadsBeyond (L.octets link.old) (L.octets link.new) }
    ensures fits { result ≢ 9 → result ≢ 5 → FitsHistory (outside_of F.content F.read_faults F.write_faults L.octets L.read_faults L.write_faults files.old files.new link.old link.new) words.now }
    ensures full { result ≡ 9 → FillsHistory (outside_of F.content F.read_faults F.write_faults L.octets L.read_faults L.write_faults files.old files.new link.old link.new) words.now }
{
    match Command::read(words) {
        Some(command) => run_command(alloc, command, files, link, out),
        None => {
            print_text(b"modmap: bad words\n", out);
            2
        }
    }
}
