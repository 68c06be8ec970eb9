//! A project: its repository and its units.

ghost use Rattle.std.specs.Prelude.{◌≡◌, ◌≤◌, ◌<◌, ◌&&◌, [], false, length, is_some, slice_get, Some, IfOk, IfErr, IfSome};
ghost use Rattle.std.specs.Option.{option_map_or};

use crate::act::Act;
use crate::kind::{Kind, fits};
use crate::line::{UnitLine, is_text};
use crate::numbers::Numbers;
use crate::reader::read_project;
use crate::reason::{ProjectError, ProjectReason};
use crate::repo_path::RepoPath;
use crate::unit::Declared;
use mapper_requests::Request;
use mm_outside::Memory;
use std::alloc::Global;
use std::marker::Model;

/// The most units of a project (this project's own limit).
pub(crate) const MOST_UNITS: u32 = 16384;

/// A project. Its units have idents that differ, and those that aren't plain have names that differ.
#[derive(Debug, Drop)]
pub struct Project {
    repo: RepoPath,
    units: Vec<Declared>,
    names: Numbers,
    idents: Numbers,
}

impl Model for Project {
    ghost use Rattle.unit_registry.specs.Projects.{ProjectView};
    ghost use Rattle.unit_registry.specs.Kept.{IsKept};

    ghost Value = { ProjectView };

    ghost view = { λ project. record { repo = project.repo; units = project.units.items } };

    ghost invariant = { λ project. IsKept project.units.items project.names project.idents };
}

impl Project {
    ghost use Rattle.mapper_requests.specs.Asked.{asked_by};
    ghost use Rattle.unit_registry.specs.Projects.{most_units, unit_count, name_of, ident_of, kind_of, is_built, is_header, is_plain, find_unit, find_ident, IdentsDiffer, NamesDiffer, NamesFit};
    ghost use Rattle.unit_registry.specs.Drafts.{unit_fault, with_unit, with_repo};
    ghost use Rattle.unit_registry.specs.Lines.{declared_by, longest_text};
    ghost use Rattle.unit_registry.specs.Readings.{Declares, TellsFault};
    ghost use Rattle.unit_registry.specs.Acts.{act, hello_of, unit_of};

    /// Reads a project file. `Text` is the first line at fault, counted from 1, where the file declares no project.
    /// `Memory` may come for any file. The file has at most 2,147,483,648 octets.
    pub fn read(alloc: Global, octets: &[u8]) -> Result<Project, ProjectError>
        requires { length octets.now ≤ 2147483648 }
        ensures declared { IfOk result (λ project. Declares octets.now project) }
        ensures fault { IfErr result (λ error. TellsFault octets.now error) }
    {
        read_project(alloc, octets)
    }

    /// The number of units.
    pub fn unit_count(&self) -> u32
        ensures count { result ≡ unit_count self.now }
        ensures bound { result ≤ most_units }
    {
        self.units.len() as u32
    }

    /// The path of the folder of compiled interfaces, of at most 512 octets.
    pub fn workspace_repo(&self) -> &[u8]
        ensures repo { result.now ≡ self.now.repo }
        ensures short { length result.now ≤ longest_text }
    {
        self.repo.octets()
    }

    /// The name of a unit, empty for a plain one.
    pub fn name(&self, unit: u32) -> &[u8]
        requires { unit < unit_count self.now }
        ensures { result.now ≡ name_of self.now unit }
    {
        self.units[unit as usize].name.octets()
    }

    /// The ident of a unit, of at most 512 octets: the word by which its compiler says who it is.
    pub fn ident(&self, unit: u32) -> &[u8]
        requires { unit < unit_count self.now }
        ensures ident { result.now ≡ ident_of self.now unit }
        ensures short { length result.now ≤ longest_text }
    {
        self.entry(unit).ident.octets()
    }

    /// A unit.
    fn entry(&self, unit: u32) -> &Declared
        requires { unit < unit_count self.now }
        ensures entry { slice_get self.now.units unit ≡ Some result.now }
        ensures short { length result.now.ident ≤ longest_text }
    {
        &self.units[unit as usize]
    }

    /// The kind of a unit.
    pub fn kind(&self, unit: u32) -> Kind
        requires { unit < unit_count self.now }
        ensures { result ≡ kind_of self.now unit }
    {
        self.units[unit as usize].kind
    }

    /// Whether the interface of a unit was built before.
    pub fn is_built(&self, unit: u32) -> bool
        requires { unit < unit_count self.now }
        ensures { result ≡ is_built self.now unit }
    {
        self.units[unit as usize].built
    }

    /// The unit that has the name. An empty name is none.
    pub fn find_unit(&self, name: &[u8]) -> Option<u32>
        ensures unit { result ≡ find_unit self.now name.now }
        ensures bound { IfSome result (λ unit. unit < unit_count self.now) }
        ensures named { IfSome result (λ unit. is_plain self.now unit ≡ false) }
    {
        self.names.find(name)
    }

    /// The unit that has the ident. An empty ident is none.
    pub fn find_ident(&self, ident: &[u8]) -> Option<u32>
        ensures unit { result ≡ find_ident self.now ident.now }
        ensures bound { IfSome result (λ unit. unit < unit_count self.now) }
    {
        self.idents.find(ident)
    }

    /// The act that a request is. `stored` is whether an item was handed in with it, and reaches only a report that
    /// a declared unit is compiled.
    pub fn act_of(&self, request: &Request<'_>, stored: bool) -> Act
        ensures act { result ≡ act self.now (asked_by request.now) stored }
        ensures bound { IfSome (unit_of result) (λ unit. unit < unit_count self.now) }
        ensures named { hello_of result ≡ None → IfSome (unit_of result) (λ unit. is_plain self.now unit ≡ false) }
    {
        match request {
            Request::Hello { version, ident, .. } => Act::Hello {
                version: *version,
                unit: self.find_ident(ident),
            },
            Request::Repo => Act::Repo,
            Request::Export { name, .. } => Act::Export {
                unit: self.find_unit(name),
            },
            Request::Import { name, flags } => Act::Import {
                unit: self.find_unit(name),
                name_only: flags % 2 == 1,
            },
            Request::Compiled { name, .. } => self.compiled(name, stored),
            Request::Translate { name, .. } => Act::Translate {
                header: self.is_header(name),
            },
            Request::Bad { why } => Act::Bad { why: *why },
        }
    }

    /// The report that the unit of this name is compiled.
    fn compiled(&self, name: &[u8], stored: bool) -> Act
        ensures act { result ≡ Act.Compiled (find_unit self.now name.now) (stored && is_some (find_unit self.now name.now)) }
        ensures bound { IfSome (unit_of result) (λ unit. unit < unit_count self.now) }
        ensures named { IfSome (unit_of result) (λ unit. is_plain self.now unit ≡ false) }
    {
        let unit = self.find_unit(name);
        Act::Compiled {
            unit,
            stored: stored && unit.is_some(),
        }
    }

    /// Whether the name is that of a header unit.
    fn is_header(&self, name: &[u8]) -> bool
        ensures { result ≡ option_map_or (is_header self.now) (find_unit self.now name.now) false }
    {
        match self.find_unit(name) {
            Some(unit) => self.kind(unit) == Kind::Header,
            None => false,
        }
    }

    /// The idents and the names of units differ, and each name is one of its unit's kind.
    pub fn units_differ(&self)
        ensures idents { IdentsDiffer self.now }
        ensures names { NamesDiffer self.now }
        ensures kinds { NamesFit self.now }
    {
        let _kept = &self.units;
    }

    /// No repository and no units. It takes no memory.
    pub(crate) fn empty(alloc: Global) -> Project
        ensures { result ≡ record { repo = []; units = [] } }
    {
        Project {
            repo: RepoPath::empty(alloc),
            units: Vec::new(alloc),
            names: Numbers::new(alloc),
            idents: Numbers::new(alloc),
        }
    }

    /// The project with this repository.
    pub(crate) fn with_repo(self, repo: RepoPath) -> Project
        ensures { result ≡ with_repo self repo }
    {
        Project {
            repo,
            units: self.units,
            names: self.names,
            idents: self.idents,
        }
    }

    /// Why the unit of a line can't follow the units of the project, if it can't.
    pub(crate) fn unit_fault(&self, line: &UnitLine<'_>) -> Option<ProjectReason>
        ensures { result ≡ unit_fault self.now.units (declared_by line.now) }
    {
        if !is_text(line.ident) {
            Some(ProjectReason::BadText)
        } else if !fits(line.kind, line.name) {
            Some(ProjectReason::BadName)
        } else if self.names.find(line.name).is_some() {
            Some(ProjectReason::TwiceName)
        } else if self.idents.find(line.ident).is_some() {
            Some(ProjectReason::TwiceIdent)
        } else if self.unit_count() >= MOST_UNITS {
            Some(ProjectReason::TooMany)
        } else {
            None
        }
    }

    /// The project with the unit of a line that can follow its units.
    pub(crate) fn with_unit(self, alloc: Global, line: &UnitLine<'_>) -> Result<Project, Memory>
        requires { unit_fault self.units (declared_by line.now) ≡ None }
        ensures { IfOk result (λ project. project ≡ with_unit self (declared_by line.now)) }
    {
        let Project {
            repo,
            mut units,
            mut names,
            mut idents,
        } = self;
        let number = units.len() as u32;
        names.add(alloc, line.name, number)?;
        idents.add(alloc, line.ident, number)?;
        units.push(line.declared(alloc)?)?;
        Ok(Project {
            repo,
            units,
            names,
            idents,
        })
    }
}
