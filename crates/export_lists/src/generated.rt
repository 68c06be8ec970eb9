//! Generated projects.

ghost use Rattle.std.specs.Prelude.{◌≡◌, ◌≤◌, ◌++◌, codes, flat_map, IfOk, OnOk};
ghost use Rattle.export_lists.specs.Generated.{numbered, export_word, import_line, further_parameters, parameters, ended, function_of, source_of, sources_of, source_path, module_line, module_lines, project_text, generated};

use crate::draws::{Link, draw_links};
use crate::lines::{append_line, append_three, append_two, digits_of};
use mm_outside::{Bytes, List, Memory, Text};
use std::alloc::Global;

/// A generated project: its project file, and the sources of its units in order.
#[derive(Debug, Drop)]
pub struct Generated {
    /// The project file.
    pub project: Bytes,
    /// The sources.
    pub sources: List<Text>,
}

/// Appends letters with a number.
fn append_numbered(
    alloc: Global,
    letters: &[u8],
    number: u32,
    text: &mut Text,
) -> Result<(), Memory>
    ensures { OnOk result (text.new ≡ text.old ++ numbered letters.now number) }
{
    let digits = digits_of(alloc, number)?;
    text.extend(letters)?;
    text.extend(digits.octets())?;
    Ok(())
}

/// The word before an import, where it is exported.
fn export_word(exported: bool) -> &'static [u8]
    ensures { result.now ≡ export_word exported }
{
    if exported { b"export " } else { b"" }
}

/// Appends the line of an import.
fn append_import(alloc: Global, link: Link, text: &mut Text) -> Result<(), Memory>
    ensures { OnOk result (text.new ≡ text.old ++ import_line link) }
{
    text.extend(export_word(link.exported))?;
    append_numbered(alloc, b"import g", link.unit, text)?;
    text.extend(b";\n")?;
    Ok(())
}

/// Appends the lines of imports.
fn append_imports(alloc: Global, links: &[Link], text: &mut Text) -> Result<(), Memory>
    ensures { OnOk result (text.new ≡ text.old ++ flat_map import_line links.now) }
{
    for link in links {
        append_import(alloc, *link, text)?;
    }
    Ok(())
}

/// Appends parameters behind another.
fn append_further(alloc: Global, links: &[Link], text: &mut Text) -> Result<(), Memory>
    ensures { OnOk result (text.new ≡ text.old ++ further_parameters links.now) }
{
    for link in links {
        append_numbered(alloc, b", S", link.unit, text)?;
    }
    Ok(())
}

/// Appends the parameters of a function, one for each import.
fn append_parameters(alloc: Global, links: &[Link], text: &mut Text) -> Result<(), Memory>
    ensures { OnOk result (text.new ≡ text.old ++ parameters links.now) }
{
    match links {
        [] => Ok(()),
        [link, others @ ..] => {
            append_numbered(alloc, b"S", link.unit, text)?;
            append_further(alloc, others, text)
        }
    }
}

/// Appends a line of letters and a number, which ends in a semicolon.
fn append_statement(
    alloc: Global,
    letters: &[u8],
    number: u32,
    text: &mut Text,
) -> Result<(), Memory>
    ensures { OnOk result (text.new ≡ text.old ++ (numbered letters.now number ++ ended (codes ";"))) }
{
    append_numbered(alloc, letters, number, text)?;
    text.extend(b";\n")?;
    Ok(())
}

/// Appends the line of the function.
fn append_function(
    alloc: Global,
    number: u32,
    links: &[Link],
    text: &mut Text,
) -> Result<(), Memory>
    ensures { OnOk result (text.new ≡ text.old ++ function_of number links.now) }
{
    append_numbered(alloc, b"export S", number, text)?;
    append_numbered(alloc, b" f", number, text)?;
    text.extend(b"(")?;
    append_parameters(alloc, links, text)?;
    text.extend(b");\n")?;
    Ok(())
}

/// The source of the unit of this number, with these imports.
fn source_of(alloc: Global, number: u32, links: &[Link]) -> Result<Text, Memory>
    ensures { IfOk result (λ text. text ≡ source_of number links.now) }
{
    let mut text = Text::new(alloc);
    append_statement(alloc, b"export module g", number, &mut text)?;
    append_imports(alloc, links, &mut text)?;
    append_statement(alloc, b"export struct S", number, &mut text)?;
    append_function(alloc, number, links, &mut text)?;
    Ok(text)
}

/// The sources of so many units.
fn sources_of(alloc: Global, units: u32, seed: u32) -> Result<List<Text>, Memory>
    requires { units ≤ 2147483648 }
    ensures { IfOk result (λ sources. sources ≡ sources_of seed units) }
{
    let mut sources = List::new(alloc);
    let mut state = seed;
    for number in 0..units {
        let drawing = draw_links(alloc, number, state)?;
        let source = source_of(alloc, number, drawing.links.as_slice())?;
        sources.push(source)?;
        state = drawing.state;
    }
    Ok(sources)
}

/// A text with letters behind it.
fn joined(alloc: Global, folder: &[u8], letters: &[u8]) -> Result<Text, Memory>
    ensures { IfOk result (λ text. text ≡ folder.now ++ letters.now) }
{
    let mut text = Text::of(alloc, folder)?;
    text.extend(letters)?;
    Ok(text)
}

/// The path of the source of a unit.
fn path_of(alloc: Global, folder: &[u8], number: u32) -> Result<Text, Memory>
    ensures { IfOk result (λ path. path ≡ source_path folder.now number) }
{
    let mut path = Text::of(alloc, folder)?;
    append_numbered(alloc, b"/u", number, &mut path)?;
    path.extend(b".cc")?;
    Ok(path)
}

/// Appends the line of a unit in the project file.
fn append_unit(alloc: Global, folder: &[u8], number: u32, text: &mut Text) -> Result<(), Memory>
    ensures { OnOk result (text.new ≡ text.old ++ module_line folder.now number) }
{
    let mut name = Text::new(alloc);
    append_numbered(alloc, b"g", number, &mut name)?;
    let path = path_of(alloc, folder, number)?;
    append_three(alloc, b"module", name.octets(), path.octets(), text)
}

/// Appends the lines of so many units.
fn append_units(alloc: Global, folder: &[u8], units: u32, text: &mut Text) -> Result<(), Memory>
    ensures { OnOk result (text.new ≡ text.old ++ module_lines folder.now units) }
{
    for number in 0..units {
        append_unit(alloc, folder, number, text)?;
    }
    Ok(())
}

/// The project file.
fn project_of(alloc: Global, folder: &[u8], units: u32) -> Result<Text, Memory>
    ensures { IfOk result (λ text. text ≡ project_text folder.now units) }
{
    let cache = joined(alloc, folder, b"/cache")?;
    let mut text = Text::new(alloc);
    append_line(
        alloc,
        &[b"modmap-project".as_slice(), b"1".as_slice()],
        &mut text,
    )?;
    append_two(alloc, b"repo", cache.octets(), &mut text)?;
    append_units(alloc, folder, units, &mut text)?;
    append_line(alloc, &[b"end".as_slice()], &mut text)?;
    Ok(text)
}

/// A generated project of so many units in this folder, for trying a server with: the imports are drawn
/// from a sequence of numbers that begins with the seed.
///
/// Unit I is the module `gI` with the source `FOLDER/uI.cc`. It exports a struct `SI` and a function `fI`
/// with one parameter for each import, and imports up to three of the units before it, of which each is
/// exported or not. The projects are this project's own. There are at most 2,147,483,648 units, and `Memory`
/// may come for any number of them.
pub fn generate(alloc: Global, folder: &[u8], units: u32, seed: u32) -> Result<Generated, Memory>
    requires { units ≤ 2147483648 }
    ensures { IfOk result (λ project. project ≡ generated folder.now units seed) }
{
    let project = project_of(alloc, folder, units)?;
    let sources = sources_of(alloc, units, seed)?;
    Ok(Generated { project, sources })
}
