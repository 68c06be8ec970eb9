//! Reading the files of the units of a project.

ghost use Rattle.std.specs.Prelude.{◌≡◌, ◌≢◌, ◌⊎◌, ◌<◌, ◌≤◌, suc, length, true, false, None, IfOk, OnOk, IfErr};
ghost use Rattle.mm_outside.specs.Causes.{Rose};
ghost use Rattle.mm_outside.specs.Told.{Told};
ghost use Rattle.header_units.specs.Names.{name_kind};
ghost use Rattle.unit_registry.specs.Projects.{is_built, name_of, unit_count};
ghost use Rattle.mapper_commands.specs.Endings.{told_by};
ghost use Rattle.mapper_commands.specs.FileReadings.{Stay};
ghost use Rattle.mapper_commands.specs.ListRuns.{AddsSo, BuiltHaveNames, CmiSo, FileSo, Fit, GathersSo, KeepsReadsBut, SourceSo, TextSo, cmi_file, ended_at, most_source_octets, stopped_as, unit_file};
ghost use Rattle.mapper_commands.specs.ProjectFiles.{KeepsReadsOf};
ghost use Rattle.mapper_commands.specs.declared.unit_files.Fault.TheVariants as fault;

use crate::ending::Ending;
use cody_words::LineBuf;
use export_lists::{Cmi, CmiError};
use header_units::{CMI_NAME_ROOM, Name};
use mm_outside::{Bytes, Files, List, Memory, ReadAllError, Text};
use std::alloc::Global;
use unit_registry::Project;

/// The most octets of a source.
const MOST_SOURCE_OCTETS: u64 = 1_048_576;

/// The most octets of the file of an interface.
const MOST_CMI_OCTETS: u64 = 268_435_456;

/// Why a file isn't taken.
#[derive(Clone, Copy, Debug, PartialEq, Eq)]
pub enum Fault {
    /// It is absent, or reading it failed.
    Unreadable,
    /// It holds more octets than its kind may have.
    TooLong,
    /// A line isn't one of an interface's text.
    NotCmi {
        /// The first line at fault, counted from 1.
        line: u32,
    },
    /// It holds the interface of another unit.
    OtherUnit,
    /// Memory was wanted for it.
    Memory,
}

impl From<Memory> for Fault {
    ghost from_gives = { λ _ given. given ≡ fault.Memory };

    fn from(_memory: Memory) -> Fault {
        Fault::Memory
    }
}

impl Fault {
    /// The ending of a run that stops at the file of this name.
    pub fn ending(self, name: &[u8]) -> Ending<'_>
        ensures { told_by result ≡ ended_at name.now self }
    {
        match self {
            Fault::Unreadable => Ending::CannotRead { name },
            Fault::TooLong => Ending::FileTooLong { name },
            Fault::NotCmi { line } => Ending::Refused {
                name,
                line,
                reason: b"not a cmi",
            },
            Fault::OtherUnit => Ending::Refused {
                name,
                line: 2,
                reason: b"unit differs from project",
            },
            Fault::Memory => Ending::OutOfMemory,
        }
    }
}

/// Where reading the files of units stops.
#[derive(Clone, Copy, Debug, PartialEq, Eq)]
pub struct Stop {
    /// The unit whose file isn't taken.
    pub unit: u32,
    /// Why it isn't taken.
    pub fault: Fault,
}

/// What the files of a project's units hold.
#[derive(Debug, Drop)]
pub struct Gathered {
    /// The sources, one for each unit; of a unit that was built before an empty one.
    pub sources: List<Text>,
    /// The interfaces of the units that were built before.
    pub built: List<Cmi>,
}

/// What a file holds, if that is at most `most` octets.
fn read_file<F: Files>(name: &[u8], most: u64, files: &mut F) -> Result<Bytes, Fault>
    ensures file { Told (Stay (FileSo (Rose (F.read_faults files.old) (F.read_faults files.new)) name.now most result)) (F.content files.old) (F.content files.new) }
    ensures bound { IfOk result (λ text. length text ≤ most) }
    ensures kept { KeepsReadsBut result (F.read_faults files.old) (F.read_faults files.new) }
    ensures later { F.read_faults files.old ≤ F.read_faults files.new }
    ensures write_faults { F.write_faults files.new ≡ F.write_faults files.old }
{
    match files.read_all(name, most) {
        Ok(text) => Ok(text),
        Err(ReadAllError::Failed | ReadAllError::Absent) => Err(Fault::Unreadable),
        Err(ReadAllError::TooLong) => Err(Fault::TooLong),
        Err(ReadAllError::Memory) => Err(Fault::Memory),
    }
}

/// The source of a unit.
fn read_source<F: Files>(project: &Project, unit: u32, files: &mut F) -> Result<Text, Fault>
    requires unit { unit < unit_count project.now }
    requires source { is_built project.now unit ≡ false }
    ensures file { Told (Stay (SourceSo (Rose (F.read_faults files.old) (F.read_faults files.new)) project.now unit result)) (F.content files.old) (F.content files.new) }
    ensures bound { IfOk result (λ text. length text ≤ most_source_octets) }
    ensures kept { KeepsReadsBut result (F.read_faults files.old) (F.read_faults files.new) }
    ensures later { F.read_faults files.old ≤ F.read_faults files.new }
    ensures write_faults { F.write_faults files.new ≡ F.write_faults files.old }
{
    read_file(project.ident(unit), MOST_SOURCE_OCTETS, files)
}

/// The name of the file of a unit's interface.
fn cmi_file(alloc: Global, project: &Project, unit: u32) -> Result<Text, Memory>
    requires unit { unit < unit_count project.now }
    requires named { name_kind (name_of project.now unit) ≢ None }
    ensures { IfOk result (λ file. file ≡ cmi_file project.now unit) }
{
    let mut cmi_name = LineBuf::new(alloc, CMI_NAME_ROOM)?;
    let name = Name::read(project.name(unit)).unwrap();
    name.cmi_name_into(&mut cmi_name);
    let mut file = Text::of(alloc, project.workspace_repo())?;
    file.extend(b"/")?;
    file.extend(cmi_name.octets())?;
    Ok(file)
}

/// The name of the file that is read for a unit.
pub fn unit_file(alloc: Global, project: &Project, unit: u32) -> Result<Text, Memory>
    requires unit { unit < unit_count project.now }
    requires named { BuiltHaveNames project.now }
    ensures { IfOk result (λ file. file ≡ unit_file project.now unit) }
{
    if project.is_built(unit) {
        cmi_file(alloc, project, unit)
    } else {
        Text::of(alloc, project.ident(unit))
    }
}

/// The interface, where it is that of the declared unit.
fn check_unit(declared: &[u8], cmi: Cmi) -> Result<Cmi, Fault>
    ensures taken { IfOk result (λ checked. (checked ≡ cmi) × (cmi.unit ≡ declared.now)) }
    ensures refused { IfErr result (λ refused. (refused ≡ Fault.OtherUnit) × (cmi.unit ≢ declared.now)) }
{
    if cmi.unit.octets() == declared {
        Ok(cmi)
    } else {
        Err(Fault::OtherUnit)
    }
}

/// The interface of the declared unit, whose text this is.
fn parse_cmi(alloc: Global, declared: &[u8], octets: &[u8]) -> Result<Cmi, Fault>
    requires { length octets.now ≤ 2147483648 }
    ensures { TextSo declared.now octets.now result }
{
    match Cmi::read(alloc, octets) {
        Ok(cmi) => check_unit(declared, cmi),
        Err(CmiError::Text { line }) => Err(Fault::NotCmi { line }),
        Err(CmiError::Memory) => Err(Fault::Memory),
    }
}

/// The interface of a unit that was built before.
fn read_cmi<F: Files>(
    alloc: Global,
    project: &Project,
    unit: u32,
    files: &mut F,
) -> Result<Cmi, Fault>
    requires unit { unit < unit_count project.now }
    requires built { is_built project.now unit ≡ true }
    requires named { name_kind (name_of project.now unit) ≢ None }
    ensures file { Told (Stay (CmiSo (Rose (F.read_faults files.old) (F.read_faults files.new)) project.now unit result)) (F.content files.old) (F.content files.new) }
    ensures kept { KeepsReadsBut result (F.read_faults files.old) (F.read_faults files.new) }
    ensures later { F.read_faults files.old ≤ F.read_faults files.new }
    ensures write_faults { F.write_faults files.new ≡ F.write_faults files.old }
{
    let name = cmi_file(alloc, project, unit)?;
    let text = match read_file(name.octets(), MOST_CMI_OCTETS, files) {
        Ok(text) => text,
        Err(fault) => return Err(fault),
    };
    parse_cmi(alloc, project.name(unit), text.octets())
}

/// Adds the interface of a unit that was built before, and an empty source.
fn add_built<F: Files>(
    alloc: Global,
    project: &Project,
    unit: u32,
    files: &mut F,
    gathered: &mut Gathered,
) -> Result<(), Fault>
    requires unit { unit < unit_count project.now }
    requires few { unit < 65536 }
    requires built { is_built project.now unit ≡ true }
    requires named { name_kind (name_of project.now unit) ≢ None }
    requires fit { Fit project.now unit gathered.old.sources gathered.old.built }
    ensures file { Told (Stay (AddsSo (Rose (F.read_faults files.old) (F.read_faults files.new)) project.now unit result gathered.old gathered.new)) (F.content files.old) (F.content files.new) }
    ensures fit { OnOk result (Fit project.now (suc unit) gathered.new.sources gathered.new.built) }
    ensures kept { KeepsReadsBut result (F.read_faults files.old) (F.read_faults files.new) }
    ensures later { F.read_faults files.old ≤ F.read_faults files.new }
    ensures write_faults { F.write_faults files.new ≡ F.write_faults files.old }
{
    let cmi = match read_cmi(alloc, project, unit, files) {
        Ok(cmi) => cmi,
        Err(fault) => return Err(fault),
    };
    gathered.sources.push(Text::new(alloc))?;
    gathered.built.push(cmi)?;
    Ok(())
}

/// Adds the source of a unit.
fn add_source<F: Files>(
    alloc: Global,
    project: &Project,
    unit: u32,
    files: &mut F,
    gathered: &mut Gathered,
) -> Result<(), Fault>
    requires unit { unit < unit_count project.now }
    requires few { unit < 65536 }
    requires source { is_built project.now unit ≡ false }
    requires fit { Fit project.now unit gathered.old.sources gathered.old.built }
    ensures file { Told (Stay (AddsSo (Rose (F.read_faults files.old) (F.read_faults files.new)) project.now unit result gathered.old gathered.new)) (F.content files.old) (F.content files.new) }
    ensures fit { OnOk result (Fit project.now (suc unit) gathered.new.sources gathered.new.built) }
    ensures kept { KeepsReadsBut result (F.read_faults files.old) (F.read_faults files.new) }
    ensures later { F.read_faults files.old ≤ F.read_faults files.new }
    ensures write_faults { F.write_faults files.new ≡ F.write_faults files.old }
{
    let text = match read_source(project, unit, files) {
        Ok(text) => text,
        Err(fault) => return Err(fault),
    };
    gathered.sources.push(text)?;
    Ok(())
}

/// Adds what the file of a unit holds.
fn add_unit<F: Files>(
    alloc: Global,
    project: &Project,
    unit: u32,
    files: &mut F,
    gathered: &mut Gathered,
) -> Result<(), Fault>
    requires unit { unit < unit_count project.now }
    requires few { unit < 65536 }
    requires named { BuiltHaveNames project.now }
    requires fit { Fit project.now unit gathered.old.sources gathered.old.built }
    ensures file { Told (Stay (AddsSo (Rose (F.read_faults files.old) (F.read_faults files.new)) project.now unit result gathered.old gathered.new)) (F.content files.old) (F.content files.new) }
    ensures fit { OnOk result (Fit project.now (suc unit) gathered.new.sources gathered.new.built) }
    ensures kept { KeepsReadsBut result (F.read_faults files.old) (F.read_faults files.new) }
    ensures later { F.read_faults files.old ≤ F.read_faults files.new }
    ensures write_faults { F.write_faults files.new ≡ F.write_faults files.old }
{
    if project.is_built(unit) {
        add_built(alloc, project, unit, files, gathered)
    } else {
        add_source(alloc, project, unit, files, gathered)
    }
}

/// Reads the files of all units, in the order of the project, up to the first that isn't taken.
pub fn gather<F: Files>(alloc: Global, project: &Project, files: &mut F) -> Result<Gathered, Stop>
    requires named { BuiltHaveNames project.now }
    ensures files { Told (Stay (GathersSo (Rose (F.read_faults files.old) (F.read_faults files.new)) project.now result)) (F.content files.old) (F.content files.new) }
    ensures fit { IfOk result (λ gathered. Fit project.now (unit_count project.now) gathered.sources gathered.built) }
    ensures unit { IfErr result (λ stop. stop.unit < unit_count project.now) }
    ensures kept { KeepsReadsOf (stopped_as project.now result) (F.read_faults files.old) (F.read_faults files.new) }
    ensures later { F.read_faults files.old ≤ F.read_faults files.new }
    ensures write_faults { F.write_faults files.new ≡ F.write_faults files.old }
{
    let mut gathered = Gathered {
        sources: List::new(alloc),
        built: List::new(alloc),
    };
    for unit in 0..project.unit_count() {
        match add_unit(alloc, project, unit, files, &mut gathered) {
            Ok(()) => {}
            Err(fault) => return Err(Stop { unit, fault }),
        }
    }
    Ok(gathered)
}
