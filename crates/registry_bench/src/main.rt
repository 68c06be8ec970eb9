//! Threads that enter blocks in one shared registry: `THREADS BLOCK ENTRIES each` or `THREADS BLOCK ENTRIES block`.
//! So many threads each open a connection, enter blocks of BLOCK requests and a pause, look at each reply, and leave,
//! until there are about ENTRIES entries. With `each` every call takes a turn of its own, with `block` a block is one
//! turn. Printed is how many entries there are.
#![tactic(auto)]

ghost use Rattle.registry_bench.specs.Plans.{IsWithin};

mod blocks;
mod plan;
mod threads;

use plan::Plan;
use std::alloc::Global;
use std::process::ExitCode;
use std::sync::Wait;
use std::thread::Threads;
use std::{env, io};
use threads::run;
use unit_registry::Project;

/// A project of one module.
const PROJECT: &[u8] = b"modmap-project 1
repo gcm.cache
module a a.cc
end
";

/// The words of the command line, without the program's name.
fn words(rt: &HostRuntime) -> io::Result<Vec<String>> {
    let mut words = Vec::new(rt.alloc());
    for word in env::args(rt)?.skip(1) {
        words.push(word)?;
    }
    Ok(words)
}

/// How many entries were made, where all threads did their part.
fn entries<R: Threads + Wait + Sync>(rt: &R, alloc: Global, plan: &Plan) -> Option<usize>
    requires { IsWithin plan.now }
{
    let octets = PROJECT;
    if octets.len() > 2147483648 {
        return None;
    }
    let Ok(project) = Project::read(alloc, octets) else {
        return None;
    };
    match run(rt, alloc, &project, plan) {
        Ok((entries, true)) => Some(entries),
        _ => None,
    }
}

fn main(rt: HostRuntime) -> io::Result<ExitCode> {
    let words = words(&rt)?;
    let Some(plan) = Plan::read(words.as_slice()) else {
        println!(&rt; "the words are THREADS BLOCK ENTRIES, and each or block")?;
        return Ok(ExitCode::from(2));
    };
    match entries(&rt, rt.alloc(), &plan) {
        Some(entries) => {
            println!(&rt; "{entries} entries")?;
            Ok(ExitCode::SUCCESS)
        }
        None => {
            println!(&rt; "memory ran out, or the history was full")?;
            Ok(ExitCode::from(3))
        }
    }
}
