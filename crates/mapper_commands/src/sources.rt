//! Reading a project file and the file of a trace.

ghost use Rattle.std.specs.Prelude.{◌≡◌, IfErr, IfOk};
ghost use Rattle.mm_outside.specs.Causes.{Rose};
ghost use Rattle.mapper_commands.specs.Endings.{told_by};
ghost use Rattle.mapper_commands.specs.ProjectFiles.{KeepsReadsOf, IsOfFile, read_as};
ghost use Rattle.mapper_commands.specs.Reports.{FindsBoth};
ghost use Rattle.mapper_commands.specs.TraceFiles.{HasForm};

use crate::ending::Ending;
use crate::project_file::read_project;
use crate::trace_file::read_trace;
use mm_outside::Files;
use std::alloc::Global;
use trace_text::Trace;
use unit_registry::Project;

/// A project, and a trace that is read beside it.
#[derive(Drop)]
pub struct Sources {
    /// The project.
    pub project: Project,
    /// The trace.
    pub trace: Trace,
}

/// The project and the trace that the files of these names hold, or the ending of a run that doesn't find both. The
/// project file is read first.
pub fn read_sources<'a, F: Files>(
    alloc: Global,
    project: &'a [u8],
    trace: &'a [u8],
    files: &mut F,
) -> Result<Sources, Ending<'a>>
    ensures found { FindsBoth (Rose (F.read_faults files.old) (F.read_faults files.new)) (F.content files.old) (F.content files.new) project.now trace.now (read_as result) }
    ensures form { IfOk result (λ sources. HasForm sources.trace) }
    ensures kind { IfErr result (λ ending. IsOfFile (told_by ending)) }
    ensures kept { KeepsReadsOf (read_as result) (F.read_faults files.old) (F.read_faults files.new) }
    ensures write_faults { F.write_faults files.new ≡ F.write_faults files.old }
{
    match read_project(alloc, files, project) {
        Ok(project) => match read_trace(alloc, files, trace) {
            Ok(trace) => Ok(Sources { project, trace }),
            Err(ending) => Err(ending),
        },
        Err(ending) => Err(ending),
    }
}
