//! A C++20 module mapper server over the libcody protocol. It serves one link, over standard input and output, or many at
//! once, over sockets; checks and replays traces, compiles the units of a project one by one with a report, and generates
//! projects.
#![tactic(auto)]

ghost use Rattle.std.specs.Prelude.{◌≡◌, ◌≢◌, ◌↔◌, IfOk, IsTrue, drop};
ghost use Rattle.std.specs.IoError.{error_kind};
ghost use Rattle.std.specs.Process.{exit_status};
ghost use Rattle.std.specs.Vec.Iter.{into_iter_items};
ghost use Rattle.mapper_commands.specs.Commands.{BeginsWithPipe};
ghost use Rattle.mapper_commands.specs.Endings.{BadWords, OutOfMemory, told_by};

mod adapters;
mod disk;
mod sockets;
mod streams;
#[cfg(test)]
mod tests;

use adapters::{Pipe, WriterSink};
use disk::DiskFiles;
use mapper_commands::{Ending, is_shared, run_alone, run_shared, tell};
use sockets::SocketHouse;
use std::alloc::{AllocError, Global};
use std::env;
use std::io::{self, ErrorKind};
use std::process::ExitCode;

/// The words after the first one, which is the program's name.
fn words_after_name(alloc: Global, all: env::Args) -> Result<Vec<String>, AllocError>
    ensures { IfOk result (λ words. words.items ≡ drop 1 (into_iter_items all)) }
{
    let mut all = all;
    let _name = all.next();
    let mut words = Vec::new(alloc);
    for word in all {
        words.push(word)?;
    }
    Ok(words)
}

/// The words of the command line, without the program's name.
fn words(rt: &HostRuntime) -> io::Result<Vec<String>> {
    Ok(words_after_name(rt.alloc(), env::args(rt)?)?)
}

/// Whether the first word is `pipe`. Standard output is then the link's, and messages go to standard error.
fn begins_with_pipe(words: &[String]) -> bool
    ensures { IsTrue result ↔ BeginsWithPipe words.now }
{
    match words {
        [first, ..] => first.as_str() == "pipe",
        [] => false,
    }
}

/// How a run ends that has no words: one of them isn't UTF-8, or there is no memory for them.
fn ending_without_words(error: &io::Error) -> Ending<'static>
    ensures not_utf8 { error_kind error.now ≡ ErrorKind.InvalidData → told_by result ≡ BadWords }
    ensures no_memory { error_kind error.now ≢ ErrorKind.InvalidData → told_by result ≡ OutOfMemory }
{
    if error.kind() == ErrorKind::InvalidData {
        Ending::BadWords
    } else {
        Ending::OutOfMemory
    }
}

/// What the machine is told of a run that ends with this status.
fn exit_code(status: u8) -> ExitCode
    ensures { exit_status result ≡ status }
{
    ExitCode::from(status)
}

fn main(rt: HostRuntime) -> ExitCode {
    let words = match words(&rt) {
        Ok(words) => words,
        Err(error) => {
            let mut out = WriterSink::new(rt.stderr());
            let status = tell(rt.alloc(), ending_without_words(&error), &mut out);
            return exit_code(status);
        }
    };
    let mut files = DiskFiles::new(&rt, rt.alloc());
    let mut link = Pipe::new(rt.stdin(), rt.stdout());
    let status = if is_shared(&words) {
        let mut house = SocketHouse::new(rt, rt.alloc());
        let mut out = WriterSink::new(rt.stdout());
        run_shared(&rt, rt.alloc(), &words, &mut files, &mut house, &mut out)
    } else if begins_with_pipe(&words) {
        let mut out = WriterSink::new(rt.stderr());
        run_alone(&rt, rt.alloc(), &words, &mut files, &mut link, &mut out)
    } else {
        let mut out = WriterSink::new(rt.stdout());
        run_alone(&rt, rt.alloc(), &words, &mut files, &mut link, &mut out)
    };
    exit_code(status)
}
