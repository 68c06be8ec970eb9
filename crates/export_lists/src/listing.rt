//! The outcomes of a project's units, and the report on them.

ghost use Rattle.std.specs.Prelude.{◌≡◌, ◌<◌, ◌≤◌, ◌++◌, ◌∷◌, [], Some, length, slice_get, codes, IfOk, OnOk};
ghost use Rattle.std.specs.List.{All};
ghost use Rattle.unit_registry.specs.Projects.{unit_count};
ghost use Rattle.export_lists.specs.Listings.{built_count, IsListing};
ghost use Rattle.export_lists.specs.Words.{line_of};
ghost use Rattle.export_lists.specs.Reports.{good_lines, failed_line, outcome_lines, report};
ghost use Rattle.export_lists.specs.declared.outcome.Verdict.TheVariants as verdicts;

use crate::cmi::Cmi;
use crate::cmi_text::append_entries;
use crate::lines::{append_line, append_three, digits_of};
use crate::listed::Listed;
use crate::outcome::{Outcome, Verdict};
use crate::rounds::settle_all;
use crate::slots::{first_slots, outcomes_of};
use mm_outside::{Bytes, List, Memory, Text};
use module_lexer::SourceReason;
use std::alloc::Global;
use std::marker::Model;
use unit_registry::Project;

/// What became of each unit of a project, in the order of the project.
#[derive(Debug, Drop)]
pub struct Listing {
    outcomes: List<Outcome>,
}

impl Model for Listing {
    ghost use Rattle.std.specs.Prelude.{List};
    ghost use Rattle.export_lists.specs.Outcomes.{Outcome};

    ghost Value = { List Outcome };

    ghost view = { λ listing. listing.outcomes };
}

/// Appends the lines of a unit that has an interface, behind a first word.
fn append_good<'a>(
    alloc: Global,
    first: &'a [u8],
    ident: &'a [u8],
    exports: &List<Listed>,
    text: &mut Text,
) -> Result<(), Memory>
    ensures { OnOk result (text.new ≡ text.old ++ good_lines first.now ident.now exports.now) }
{
    let count = digits_of(alloc, exports.len())?;
    append_three(alloc, first, ident, count.octets(), text)?;
    append_entries(alloc, b"name", exports.as_slice(), text)
}

/// Appends the line of a unit whose source is at fault, of its words.
fn append_words<'a>(
    alloc: Global,
    ident: &'a [u8],
    line: &'a [u8],
    reason: &'a [u8],
    text: &mut Text,
) -> Result<(), Memory>
    ensures { OnOk result (text.new ≡ text.old ++ line_of (codes "failed" ∷ ident.now ∷ codes "line" ∷ line.now ∷ reason.now ∷ [])) }
{
    append_line(alloc, &[b"failed", ident, b"line", line, reason], text)
}

/// Appends the line of a unit with an import whose unit has no interface.
fn append_lack<'a>(
    alloc: Global,
    ident: &'a [u8],
    name: &'a [u8],
    text: &mut Text,
) -> Result<(), Memory>
    ensures { OnOk result (text.new ≡ text.old ++ line_of (codes "failed" ∷ ident.now ∷ codes "import" ∷ name.now ∷ [])) }
{
    append_line(alloc, &[b"failed", ident, b"import", name], text)
}

/// Appends the line of a unit whose source is at fault.
fn append_fault(
    alloc: Global,
    ident: &[u8],
    line: u32,
    reason: SourceReason,
    text: &mut Text,
) -> Result<(), Memory>
    ensures { OnOk result (text.new ≡ text.old ++ failed_line ident.now (verdicts.Source line reason)) }
{
    let digits = digits_of(alloc, line)?;
    append_words(alloc, ident, digits.octets(), reason.text(), text)
}

/// Appends the line of a unit that failed.
fn append_failed(
    alloc: Global,
    ident: &[u8],
    verdict: &Verdict,
    text: &mut Text,
) -> Result<(), Memory>
    ensures { OnOk result (text.new ≡ text.old ++ failed_line ident.now verdict.now) }
{
    match verdict {
        Verdict::Source { line, reason } => append_fault(alloc, ident, *line, *reason, text),
        Verdict::Import { name } => append_lack(alloc, ident, name.octets(), text),
    }
}

/// Appends the lines of a unit.
fn append_outcome(
    alloc: Global,
    ident: &[u8],
    outcome: &Outcome,
    text: &mut Text,
) -> Result<(), Memory>
    ensures { OnOk result (text.new ≡ text.old ++ outcome_lines ident.now outcome.now) }
{
    match outcome {
        Outcome::Compiled(cmi) => append_good(alloc, b"ok", ident, &cmi.exports, text),
        Outcome::Built(cmi) => append_good(alloc, b"built", ident, &cmi.exports, text),
        Outcome::Failed(verdict) => append_failed(alloc, ident, verdict, text),
    }
}

impl Listing {
    /// What became of the unit of this number, counted from 0.
    pub fn outcome(&self, unit: u32) -> &Outcome
        requires { unit < length self.now }
        ensures { slice_get self.now unit ≡ Some result.now }
    {
        self.outcomes.get(unit)
    }

    /// The report: for each unit, in the order of the project, `ok IDENT COUNT`, or `built IDENT COUNT`
    /// where it was built before, and then `name KIND NAME OWNER` for each of the COUNT entries of its
    /// exports; `failed IDENT import NAME`; or `failed IDENT line LINE REASON`. Words are in canonical
    /// writing. The report is this project's own.
    ///
    /// The project is the one that was listed: of another, the report has lines for as many units as
    /// both have. `Memory` may come for any project.
    pub fn write(&self, alloc: Global, project: &Project) -> Result<Bytes, Memory>
        ensures { IfOk result (λ text. text ≡ report project.now self.now) }
    {
        let mut text = Text::new(alloc);
        for number in 0..project.unit_count() {
            if number >= self.outcomes.len() {
                return Ok(text);
            }
            append_outcome(
                alloc,
                project.ident(number),
                self.outcomes.get(number),
                &mut text,
            )?;
        }
        Ok(text)
    }
}

/// What becomes of the units of a project, one by one.
///
/// There is a source for each unit, which is not read where the unit was built before, and for each
/// unit that was built before, in the order of the project, its interface. A unit fails for the first
/// fault of its source, then for the first import whose unit isn't declared or has no interface, and
/// then for the first fault over the interfaces of its imports. Units whose imports lead round in a
/// ring have none. A source has at most 2,147,483,648 octets. `Memory` may come for any project.
pub fn list_project(
    alloc: Global,
    project: &Project,
    sources: &[Text],
    built: &[Cmi],
) -> Result<Listing, Memory>
    requires sources { length sources.now ≡ unit_count project.now }
    requires short { All (λ text. length text ≤ 2147483648) sources.now }
    requires built { length built.now ≡ built_count project.now }
    ensures { IfOk result (IsListing project.now sources.now built.now) }
{
    let mut slots = first_slots(alloc, project, sources, built)?;
    settle_all(alloc, project, &mut slots)?;
    let outcomes = outcomes_of(alloc, slots)?;
    Ok(Listing { outcomes })
}
