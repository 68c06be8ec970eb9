//! The call behind the program where many connections are served at once: words in, a status out.

ghost use Rattle.std.specs.Prelude.{◌≡◌, ◌≢◌, ◌↔◌, ◌⊎◌, ◌≤◌, ◌+◌, ℕ, List, All, IfErr, IfOk, IfNone, IfSome, IsTrue, OnErr, map, string_bytes, vec_len};
ghost use Rattle.mm_outside.specs.Causes.{Rose};
ghost use Rattle.mm_outside.specs.House.{TakesBack};
ghost use Rattle.mm_outside.specs.Told.{Told};
ghost use Rattle.unit_registry.specs.Projects.{ProjectView};
ghost use Rattle.mapper_server.specs.Limits.{most_entries, most_halls};
ghost use Rattle.mapper_server.specs.Statuses.{IsServingStatus};
ghost use Rattle.mapper_commands.specs.Commands.{ServeWords, AsksNotToServe, AsksToServe, BeginsWithServe, serve_words};
ghost use Rattle.mapper_commands.specs.Endings.{output_of, status_of, told_by};
ghost use Rattle.mapper_commands.specs.Hosting.{GetsAllBack, HandsBack, HasProject, Hosts, LacksProject, NamesProject, NoneFailed, RunsSo, ServesAll, ServesSo, StopsSo, around_of};
ghost use Rattle.mapper_commands.specs.HostSteps.{IsAsked, OpensNone, ServesAt, ServesHalls};
ghost use Rattle.mapper_commands.specs.Running.{HasStood};

use crate::ending::Ending;
use crate::project_file::read_project;
use crate::serve_words::ServeCommand;
use crate::telling::{print_text, tell};
use mapper_server::{ServeError, serve};
use mm_outside::{Files, Hall, House, HouseError, Memory, Sink};
use std::alloc::Global;
use std::sync::Wait;
use std::thread::Threads;
use unit_registry::Project;

/// Whether the words are of a command that `run_shared` runs: whether the first of them is `serve`.
pub fn is_shared(words: &[String]) -> bool
    ensures { IsTrue result ↔ BeginsWithServe words.now }
{
    match words {
        [first, ..] => first.as_str() == "serve",
        [] => false,
    }
}

/// What the words after the first one ask for.
fn read_command(words: &[String]) -> Option<ServeCommand<'_>>
    requires { BeginsWithServe words.now }
    ensures asked { IfSome result (λ command. AsksToServe (map string_bytes words.now) (serve_words command)) }
    ensures none { IfNone result (AsksNotToServe words.now) }
{
    let Some((_, rest)) = words.split_first() else {
        return None;
    };
    ServeCommand::read(rest)
}

/// Serves the links of the halls over one history of the project, and gives the halls back to their house. The status.
fn serve_halls<R: Threads + Wait + Sync, O: House, K: Sink>(
    rt: &R,
    alloc: Global,
    project: &Project,
    entries: u32,
    halls: Vec<O::Hall>,
    house: &mut O,
    out: &mut K,
) -> Result<u8, Memory>
where
    O::Hall: Send + Drop,
    <O::Hall as Hall>::Link: Send,
    requires some { 1 ≤ vec_len halls }
    requires few { vec_len halls ≤ most_halls }
    requires fewest { vec_len halls ≤ entries }
    requires most { entries ≤ most_entries }
    requires unused { All (λ hall. (O.Hall.counts hall).back ≡ 0) halls.items }
    requires given { (O.counts house.old).taken_back + vec_len halls ≤ (O.counts house.old).bound }
    ensures kind { IfOk result IsServingStatus }
    ensures served { IfOk result (λ status. ServesHalls O.Hall.links O.Hall.faults O.Hall.Link.octets O.Hall.Link.read_faults O.Hall.Link.write_faults
        project.now entries halls.items (output_of K.written K.faults out.old out.new) status (O.stock house.old) (O.stock house.new)) }
    ensures memory { OnErr result (Told (TakesBack halls.items) (O.stock house.old) (O.stock house.new)) }
    ensures silent { OnErr result (out.new ≡ out.old) }
    ensures counts { O.counts house.new ≡ record (O.counts house.old) { taken_back = (O.counts house.old).taken_back + vec_len halls } }
    ensures faults { O.faults house.new ≡ O.faults house.old }
{
    match serve(rt, alloc, project, entries, halls, out) {
        Ok(served) => {
            house.take_back(served.halls);
            Ok(served.status)
        }
        Err(ServeError::Memory(halls)) => {
            house.take_back(halls);
            Err(Memory)
        }
    }
}

/// Asks the house for halls at the address, serves their links over one history of the project, and gives the halls
/// back. The status, or the ending of a run that accepts no link.
fn serve_at<'a, R: Threads + Wait + Sync, O: House, K: Sink>(
    rt: &R,
    alloc: Global,
    project: &Project,
    command: &ServeCommand<'a>,
    house: &mut O,
    out: &mut K,
) -> Result<u8, Ending<'a>>
where
    O::Hall: Send + Drop,
    <O::Hall as Hall>::Link: Send,
    requires { IsAsked (serve_words command.now) }
    ensures served { IfOk result (λ status. ServesAt O.Hall.links O.Hall.faults O.Hall.Link.octets O.Hall.Link.read_faults O.Hall.Link.write_faults
        project.now (serve_words command.now) (output_of K.written K.faults out.old out.new) status (O.stock house.old) (O.stock house.new) (O.faults house.old) (O.faults house.new)) }
    ensures stopped { IfErr result (λ ending. OpensNone (serve_words command.now) (told_by ending) (O.stock house.old) (O.stock house.new) (O.faults house.old) (O.faults house.new)) }
    ensures silent { OnErr result (out.new ≡ out.old) }
    ensures returned { GetsAllBack (O.counts house.old) (O.counts house.new) }
{
    match house.bind(command.address, command.workers, command.links) {
        Ok(halls) => match serve_halls(rt, alloc, project, command.entries, halls, house, out) {
            Ok(status) => Ok(status),
            Err(Memory) => Err(Ending::OutOfMemory),
        },
        Err(HouseError::Failed) => Err(Ending::CannotOpen {
            address: command.address,
        }),
        Err(HouseError::Memory) => Err(Ending::OutOfMemory),
    }
}

/// Does what the command asks for. The status, or the ending of a run that accepts no link.
fn run_serve<'a, R: Threads + Wait + Sync, F: Files, O: House, K: Sink>(
    rt: &R,
    alloc: Global,
    command: &ServeCommand<'a>,
    files: &mut F,
    house: &mut O,
    out: &mut K,
) -> Result<u8, Ending<'a>>
where
    O::Hall: Send + Drop,
    <O::Hall as Hall>::Link: Send,
    requires { IsAsked (serve_words command.now) }
    ensures served { IfOk result (λ status. ServesSo (around_of O.Hall.links O.Hall.faults O.Hall.Link.octets O.Hall.Link.read_faults O.Hall.Link.write_faults F.content F.read_faults O.stock O.faults files.old files.new house.old house.new)
        (serve_words command.now) (output_of K.written K.faults out.old out.new) status) }
    ensures stopped { IfErr result (λ ending. StopsSo (around_of O.Hall.links O.Hall.faults O.Hall.Link.octets O.Hall.Link.read_faults O.Hall.Link.write_faults F.content F.read_faults O.stock O.faults files.old files.new house.old house.new)
        (serve_words command.now) (told_by ending)) }
    ensures silent { OnErr result (out.new ≡ out.old) }
    ensures refused { IfErr result (λ ending. status_of (told_by ending) ≡ 6 → house.new ≡ house.old) }
    ensures returned { GetsAllBack (O.counts house.old) (O.counts house.new) }
    ensures files { F.write_faults files.new ≡ F.write_faults files.old }
{
    match read_project(alloc, files, command.project) {
        Ok(project) => serve_at(rt, alloc, &project, command, house, out),
        Err(ending) => Err(ending),
    }
}

/// Runs the program where it serves many connections: `words` are the command line without the program's name, `files`
/// hold the project file, `house` gives the halls that the connections come from, and `out` takes the trace or the
/// message. The connections are served at once, by a worker for each hall in a thread of its own; nothing promises that
/// the call returns, since workers wait for one another. It answers the exit status: 2 bad words, 3 want of memory before
/// a link was accepted, 4 the project file is absent or a read of it failed, or the house gave no hall at the address, 6
/// the project file is refused or too long; and else the least above 0 that a link, a hall or the printing of the trace
/// ended with, or 0: 4 a read of a link or an accept failed, 5 a write of a link or of the trace failed, 7 an input ended
/// inside a block, 8 an input or a block was too long, 9 the history is full. The statuses are this project's own.
pub fn run_shared<R: Threads + Wait + Sync, F: Files, O: House, K: Sink>(
    rt: &R,
    alloc: Global,
    words: &[String],
    files: &mut F,
    house: &mut O,
    out: &mut K,
) -> u8
where
    O::Hall: Send + Drop,
    <O::Hall as Hall>::Link: Send,
    requires { BeginsWithServe words.now }

    // What is asked for is done: the trace of one legal history of the project is printed, by which all connections were
    // served.
    ensures headline { (serve : ServeWords) (project : ProjectView) → AsksToServe (map string_bytes words.now) serve → HasProject (F.content files.old) serve.project project
        → HasStood (F.read_faults files.old) (F.read_faults files.new) → HasStood (O.faults house.old) (O.faults house.new) → result ≢ 3
        → Hosts O.Hall.links O.Hall.faults O.Hall.Link.octets O.Hall.Link.read_faults O.Hall.Link.write_faults project serve (output_of K.written K.faults out.old out.new) result (O.stock house.old) (O.stock house.new) }
    ensures run { RunsSo (around_of O.Hall.links O.Hall.faults O.Hall.Link.octets O.Hall.Link.read_faults O.Hall.Link.write_faults F.content F.read_faults O.stock O.faults files.old files.new house.old house.new)
        words.now (output_of K.written K.faults out.old out.new) result }
    ensures words { (result ≡ 2) ↔ AsksNotToServe words.now }
    ensures untouched { (result ≡ 2) ⊎ (result ≡ 6) → house.new ≡ house.old }
    ensures idle { result ≡ 2 → files.new ≡ files.old }
    ensures memory { result ≡ 3 → Told HandsBack (O.stock house.old) (O.stock house.new) }
    ensures read_fault { result ≡ 4 → LacksProject words.now (F.content files.old) ⊎ Rose (F.read_faults files.old) (F.read_faults files.new) ⊎ Rose (O.faults house.old) (O.faults house.new)
        ⊎ ServesAll (around_of O.Hall.links O.Hall.faults O.Hall.Link.octets O.Hall.Link.read_faults O.Hall.Link.write_faults F.content F.read_faults O.stock O.faults files.old files.new house.old house.new)
        words.now (output_of K.written K.faults out.old out.new) result }
    ensures refused { result ≡ 6 → NamesProject (around_of O.Hall.links O.Hall.faults O.Hall.Link.octets O.Hall.Link.read_faults O.Hall.Link.write_faults F.content F.read_faults O.stock O.faults files.old files.new house.old house.new)
        (output_of K.written K.faults out.old out.new) words.now }
    ensures unfailing { result ≢ 3 → result ≢ 4 → NoneFailed (around_of O.Hall.links O.Hall.faults O.Hall.Link.octets O.Hall.Link.read_faults O.Hall.Link.write_faults F.content F.read_faults O.stock O.faults files.old files.new house.old house.new) }

    // All halls go back to their house, and no file changes.
    ensures returned { GetsAllBack (O.counts house.old) (O.counts house.new) }
    ensures content { Told (λ before now. now ≡ before) (F.content files.old) (F.content files.new) }
    ensures files { F.write_faults files.new ≡ F.write_faults files.old }
{
    let Some(command) = read_command(words) else {
        print_text(b"modmap: bad words\n", out);
        return 2;
    };
    match run_serve(rt, alloc, &command, files, house, out) {
        Ok(status) => status,
        Err(ending) => tell(alloc, ending, out),
    }
}
