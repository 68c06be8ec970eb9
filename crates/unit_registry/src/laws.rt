//! Laws of projects, as the contracts of functions that do nothing.

ghost use Rattle.std.specs.Prelude.{◌≡◌, ◌≢◌, ◌<◌, List, [], ℕ, Some, None, length};
ghost use Rattle.unit_registry.specs.declared.reason.ProjectReason.{ProjectReason};
ghost use Rattle.unit_registry.specs.Projects.{ProjectView, unit_count, name_of, ident_of, find_unit, find_ident, IdentsDiffer, NamesDiffer, NamesFit};
ghost use Rattle.unit_registry.specs.Readings.{Declares, IsFault, ReachesEnd};

/// A text declares one project at most, has one first fault at most, and never both.
pub fn one_reading()
    ensures project { (text : List ℕ) (project other : ProjectView)
        → Declares text project → Declares text other → project ≡ other }
    ensures line { (text : List ℕ) (line other : ℕ) (reason why : ProjectReason)
        → IsFault text line reason → IsFault text other why → line ≡ other }
    ensures reason { (text : List ℕ) (line other : ℕ) (reason why : ProjectReason)
        → IsFault text line reason → IsFault text other why → reason ≡ why }
    ensures apart { (text : List ℕ) (project : ProjectView) (line : ℕ) (reason : ProjectReason)
        → Declares text project → IsFault text line reason → ⊥ }
{}

/// The unit that is found by a name is one of the project's and has the name. Where none is found, no unit has the
/// name, unless it is empty: an empty name is never found.
pub fn found_by_name()
    ensures unit { (project : ProjectView) (name : List ℕ) (unit : ℕ)
        → find_unit project name ≡ Some unit → unit < unit_count project }
    ensures name { (project : ProjectView) (name : List ℕ) (unit : ℕ)
        → find_unit project name ≡ Some unit → name_of project unit ≡ name }
    ensures none { (project : ProjectView) (name : List ℕ)
        → 0 < length name → find_unit project name ≡ None
        → (unit : ℕ) → unit < unit_count project → name_of project unit ≢ name }
    ensures empty { (project : ProjectView) → find_unit project [] ≡ None }
{}

/// The unit that is found by an ident is one of the project's and has the ident. Where none is found, no unit has the
/// ident, unless it is empty: an empty ident is never found.
pub fn found_by_ident()
    ensures unit { (project : ProjectView) (ident : List ℕ) (unit : ℕ)
        → find_ident project ident ≡ Some unit → unit < unit_count project }
    ensures ident { (project : ProjectView) (ident : List ℕ) (unit : ℕ)
        → find_ident project ident ≡ Some unit → ident_of project unit ≡ ident }
    ensures none { (project : ProjectView) (ident : List ℕ)
        → 0 < length ident → find_ident project ident ≡ None
        → (unit : ℕ) → unit < unit_count project → ident_of project unit ≢ ident }
    ensures empty { (project : ProjectView) → find_ident project [] ≡ None }
{}

/// A project that a text declares has idents that differ and names that differ, and each name is one of its unit's
/// kind. `Project::units_differ` says so of each value.
pub fn declared_units_differ()
    ensures idents { (text : List ℕ) (project : ProjectView) → Declares text project → IdentsDiffer project }
    ensures names { (text : List ℕ) (project : ProjectView) → Declares text project → NamesDiffer project }
    ensures kinds { (text : List ℕ) (project : ProjectView) → Declares text project → NamesFit project }
{}

/// A text declares a project exactly where its lines, taken one by one, reach the end of that project.
pub fn declared_line_by_line()
    ensures reached { (text : List ℕ) (project : ProjectView)
        → Declares text project → ReachesEnd text project }
    ensures declared { (text : List ℕ) (project : ProjectView)
        → ReachesEnd text project → Declares text project }
{}
