//! The command `gen`: writing a generated project.

ghost use Rattle.std.specs.Prelude.{◌≡◌, ◌≤◌, ◌+◌, length};
ghost use Rattle.mm_outside.specs.Causes.{HasCause};
ghost use Rattle.mm_outside.specs.Files.{Stores};
ghost use Rattle.mm_outside.specs.Told.{Told};
ghost use Rattle.export_lists.specs.Generated.{source_path};
ghost use Rattle.mapper_commands.specs.Askings.{longest_folder, most_units};
ghost use Rattle.mapper_commands.specs.Endings.{Ends, output_of};
ghost use Rattle.mapper_server.specs.Printing.{capacity_of};
ghost use Rattle.mapper_commands.specs.Generating.{GeneratesSo, WritesAll, files_of, project_name, source_files, wrote_text};

use crate::telling::{issue, print_text, tell_memory};
use cody_words::{LineBuf, write_number};
use export_lists::{Generated, generate};
use mm_outside::{Failed, Files, List, Sink, Text};
use std::alloc::Global;

/// Room for the name of a file beside its folder, and for what is said at the end.
const ROOM: u32 = 30;

/// Puts the name of the project file into the buffer.
fn name_project(folder: &[u8], name: &mut LineBuf)
    requires { length folder.now + 30 ≤ capacity_of name.old }
    ensures name { name.new.octets ≡ project_name folder.now }
    ensures room { capacity_of name.new ≡ capacity_of name.old }
{
    name.clear();
    name.extend(folder);
    name.extend(b"/project");
}

/// Puts the name of the source of a unit into the buffer.
fn name_source(folder: &[u8], number: u32, name: &mut LineBuf)
    requires { length folder.now + 30 ≤ capacity_of name.old }
    ensures name { name.new.octets ≡ source_path folder.now number }
    ensures room { capacity_of name.new ≡ capacity_of name.old }
{
    name.clear();
    name.extend(folder);
    name.extend(b"/u");
    write_number(number, name);
    name.extend(b".cc");
}

/// Puts into the buffer how many files were written.
fn tell_count(count: u32, text: &mut LineBuf)
    requires { 30 ≤ capacity_of text.old }
    ensures { text.new.octets ≡ wrote_text count }
{
    text.clear();
    text.extend(b"wrote ");
    write_number(count, text);
    text.extend(b" files\n");
}

/// Writes the project file.
fn write_project<F: Files>(
    folder: &[u8],
    text: &[u8],
    name: &mut LineBuf,
    files: &mut F,
) -> Result<(), Failed>
    requires { length folder.now + 30 ≤ capacity_of name.old }
    ensures content { Told (Stores result (project_name folder.now) text.now) (F.content files.old) (F.content files.new) }
    ensures cause { HasCause (F.write_faults files.old) (F.write_faults files.new) result }
    ensures read_faults { F.read_faults files.new ≡ F.read_faults files.old }
    ensures room { capacity_of name.new ≡ capacity_of name.old }
{
    name_project(folder, name);
    files.write_all(name.octets(), text)
}

/// Writes the source of a unit.
fn write_source<F: Files>(
    folder: &[u8],
    number: u32,
    text: &[u8],
    name: &mut LineBuf,
    files: &mut F,
) -> Result<(), Failed>
    requires { length folder.now + 30 ≤ capacity_of name.old }
    ensures content { Told (Stores result (source_path folder.now number) text.now) (F.content files.old) (F.content files.new) }
    ensures cause { HasCause (F.write_faults files.old) (F.write_faults files.new) result }
    ensures read_faults { F.read_faults files.new ≡ F.read_faults files.old }
    ensures room { capacity_of name.new ≡ capacity_of name.old }
{
    name_source(folder, number, name);
    files.write_all(name.octets(), text)
}

/// Writes the sources in order, up to the first that can't be written.
fn write_sources<F: Files>(
    folder: &[u8],
    sources: &List<Text>,
    name: &mut LineBuf,
    files: &mut F,
) -> Result<(), Failed>
    requires { length folder.now + 30 ≤ capacity_of name.old }
    ensures content { Told (WritesAll result (source_files folder.now 0 sources.now)) (F.content files.old) (F.content files.new) }
    ensures cause { HasCause (F.write_faults files.old) (F.write_faults files.new) result }
    ensures read_faults { F.read_faults files.new ≡ F.read_faults files.old }
    ensures room { capacity_of name.new ≡ capacity_of name.old }
{
    for number in 0..sources.len() {
        let text = sources.get(number).octets();
        let Ok(()) = write_source(folder, number, text, name, files) else {
            return Err(Failed);
        };
    }
    Ok(())
}

/// Writes the files of a project, up to the first that can't be written.
fn write_files<F: Files>(
    folder: &[u8],
    made: &Generated,
    name: &mut LineBuf,
    files: &mut F,
) -> Result<(), Failed>
    requires { length folder.now + 30 ≤ capacity_of name.old }
    ensures content { Told (WritesAll result (files_of folder.now made.now)) (F.content files.old) (F.content files.new) }
    ensures cause { HasCause (F.write_faults files.old) (F.write_faults files.new) result }
    ensures read_faults { F.read_faults files.new ≡ F.read_faults files.old }
    ensures room { capacity_of name.new ≡ capacity_of name.old }
{
    let Ok(()) = write_project(folder, made.project.octets(), name, files) else {
        return Err(Failed);
    };
    write_sources(folder, &made.sources, name, files)
}

/// Generates a project of so many units in a folder, from a seed: writes its project file and its sources, and prints
/// how many files that are. It answers the exit status: 0 all done, 3 want of memory before any file is written, 5 a
/// write of a file or of the sink failed. Behind a failed write no further file is written. A message that can't be
/// printed changes nothing. The generated projects are this project's own.
pub fn run_gen<F: Files, K: Sink>(
    alloc: Global,
    folder: &[u8],
    units: u32,
    seed: u32,
    files: &mut F,
    out: &mut K,
) -> u8
    requires folder { length folder.now ≤ longest_folder }
    requires units { units ≤ most_units }
    ensures run { Ends (GeneratesSo (F.write_faults files.old) (F.write_faults files.new) (F.content files.old) (F.content files.new) folder.now units seed)
        (output_of K.written K.faults out.old out.new) result }
    ensures read_faults { F.read_faults files.new ≡ F.read_faults files.old }
{
    let Ok(mut text) = LineBuf::new(alloc, folder.len() as u32 + ROOM) else {
        return tell_memory(out);
    };
    let Ok(made) = generate(alloc, folder, units, seed) else {
        return tell_memory(out);
    };
    let Ok(()) = write_files(folder, &made, &mut text, files) else {
        print_text(b"modmap: write failed\n", out);
        return 5;
    };
    tell_count(units + 1, &mut text);
    issue(text.octets(), true, out)
}
