//! Compiling the units of a project one by one, and reporting on them.

ghost use Rattle.std.specs.Prelude.{◌≡◌, ◌≢◌, ◌<◌, length, not, IfOk, OnErr};
ghost use Rattle.std.specs.List.{list_any};
ghost use Rattle.mm_outside.specs.Causes.{Rose};
ghost use Rattle.unit_registry.specs.Projects.{unit_count};
ghost use Rattle.mapper_commands.specs.Endings.{Ends, Issues, Tells, output_of};
ghost use Rattle.mapper_commands.specs.ListRuns.{BuiltHaveNames, Fit, ListsSo, ReportsOn, ended_by, has_failed, list_report};

use crate::project_file::read_project;
use crate::telling::{issue, tell, tell_memory};
use crate::unit_files::{Gathered, Stop, gather, unit_file};
use export_lists::{Listing, Outcome, list_project};
use mm_outside::{Files, Memory, Sink};
use std::alloc::Global;
use unit_registry::Project;

/// Prints the message of a stop, and answers the status.
fn tell_stop<K: Sink>(alloc: Global, project: &Project, stop: Stop, out: &mut K) -> u8
    requires unit { stop.unit < unit_count project.now }
    requires named { BuiltHaveNames project.now }
    ensures { Tells (ended_by project.now stop) (output_of K.written K.faults out.old out.new) result }
{
    match unit_file(alloc, project, stop.unit) {
        Ok(name) => tell(alloc, stop.fault.ending(name.octets()), out),
        Err(Memory) => tell_memory(out),
    }
}

/// Whether a unit failed.
fn has_failed(outcome: &Outcome) -> bool
    ensures { result ≡ has_failed outcome.now }
{
    match outcome {
        Outcome::Compiled(_) => false,
        Outcome::Built(_) => false,
        Outcome::Failed(_) => true,
    }
}

/// Whether no unit failed.
fn is_good(listing: &Listing, units: u32) -> bool
    requires { length listing.now ≡ units }
    ensures { result ≡ not (list_any has_failed listing.now) }
{
    for unit in 0..units {
        if has_failed(listing.outcome(unit)) {
            return false;
        }
    }
    true
}

/// Prints the report, and answers the status. It runs out of memory only before it prints.
fn issue_listing<K: Sink>(
    alloc: Global,
    project: &Project,
    listing: &Listing,
    out: &mut K,
) -> Result<u8, Memory>
    requires { length listing.now ≡ unit_count project.now }
    ensures issued { IfOk result (λ status. Issues (list_report project.now listing.now) (output_of K.written K.faults out.old out.new) status) }
    ensures memory { OnErr result (out.new ≡ out.old) }
{
    let text = listing.write(alloc, project)?;
    let good = is_good(listing, project.unit_count());
    Ok(issue(text.octets(), good, out))
}

/// Compiles the units one by one, prints the report on them, and answers the status. It runs out of memory only before
/// it prints.
fn report_on<K: Sink>(
    alloc: Global,
    project: &Project,
    gathered: &Gathered,
    out: &mut K,
) -> Result<u8, Memory>
    requires { Fit project.now (unit_count project.now) gathered.now.sources gathered.now.built }
    ensures issued { IfOk result (λ status. ReportsOn project.now gathered.now.sources gathered.now.built (output_of K.written K.faults out.old out.new) status) }
    ensures memory { OnErr result (out.new ≡ out.old) }
{
    let sources = gathered.sources.as_slice();
    let built = gathered.built.as_slice();
    let listing = list_project(alloc, project, sources, built)?;
    issue_listing(alloc, project, &listing, out)
}

/// Compiles the units of a project one by one, without a server: reads the project file of this name, and then for
/// each unit in the order of the project its source, or the file of its interface where it was built before; and
/// prints the report on them. It answers the exit status: 0 all done, 1 a unit failed, 3 want of memory, 4 a file is
/// absent or a read of it failed, 5 a write of the sink failed, 6 a file is refused or too long. Where a file isn't
/// taken, nothing of the report is printed, and the message is. No file changes. The statuses and the report are this
/// project's own.
pub fn run_list<F: Files, K: Sink>(alloc: Global, name: &[u8], files: &mut F, out: &mut K) -> u8
    ensures run { Ends (ListsSo (Rose (F.read_faults files.old) (F.read_faults files.new)) (F.content files.old) (F.content files.new) name.now)
        (output_of K.written K.faults out.old out.new) result }
    ensures unhidden { result ≢ 3 → result ≢ 4 → F.read_faults files.new ≡ F.read_faults files.old }
    ensures files { F.write_faults files.new ≡ F.write_faults files.old }
{
    let project = match read_project(alloc, files, name) {
        Ok(project) => project,
        Err(ending) => return tell(alloc, ending, out),
    };
    project.units_differ();
    match gather(alloc, &project, files) {
        Ok(gathered) => match report_on(alloc, &project, &gathered, out) {
            Ok(status) => status,
            Err(Memory) => tell_memory(out),
        },
        Err(stop) => tell_stop(alloc, &project, stop, out),
    }
}
