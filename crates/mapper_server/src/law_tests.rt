//! What the laws of replies and fates come to. Each contract here follows from the laws that its function calls.

ghost use Rattle.std.specs.Prelude.{◌≡◌, ◌++◌, ℕ, List, slice_get, Some, false};
ghost use Rattle.unit_registry.specs.declared.act.Act.TheVariants.{Import};
ghost use Rattle.mapper_replies.specs.declared.refusal.Refusal.TheVariants.{UnitFailed};
ghost use Rattle.unit_registry.specs.Projects.{ProjectView};
ghost use Rattle.histories.specs.declared.entry.Entry.{Entry};
ghost use Rattle.histories.specs.declared.answer.Answer.TheVariants.{Path, Refused};
ghost use Rattle.histories.specs.declared.standing.Fate.TheVariants.{Compiled};
ghost use Rattle.histories.specs.Noted.{fate};
ghost use Rattle.histories.specs.Histories.{noted_of, reply, IsLegal};

use histories::{fates_stay, legal_entries, replies_tell_fates};

/// Two imports of one unit, neither for the name alone, aren't answered by a path and that the unit has failed.
fn imports_are_answered_alike()
    ensures { (project : ProjectView) (workers limit : ℕ) (history : List Entry)
        → IsLegal project workers limit history → (unit path : ℕ) (place : ℕ) (entry : Entry)
        → slice_get history place ≡ Some entry → entry.act ≡ Import (Some unit) false
        → reply project workers history place ≡ Some (Path path)
        → (other : ℕ) (second : Entry)
        → slice_get history other ≡ Some second → second.act ≡ Import (Some unit) false
        → reply project workers history other ≡ Some (Refused UnitFailed) → ⊥ }
{
    replies_tell_fates();
}

/// The unit of a path that answers an import, not for the name alone, is compiled, and stays so however the history
/// goes on.
fn granted_units_stay_compiled()
    ensures { (project : ProjectView) (workers : ℕ) (history more : List Entry) (place : ℕ) (entry : Entry)
        (unit path : ℕ)
        → slice_get history place ≡ Some entry → entry.act ≡ Import (Some unit) false
        → reply project workers history place ≡ Some (Path path)
        → fate project (noted_of project workers (history ++ more)) path ≡ Some Compiled }
{
    replies_tell_fates();
    fates_stay();
}

/// Once an import was refused since its unit has failed, no import of that unit, but for its name alone, is answered by
/// a path as a legal history goes on.
fn refused_units_stay_refused()
    ensures { (project : ProjectView) (workers limit : ℕ) (history more : List Entry)
        → IsLegal project workers limit (history ++ more) → (unit : ℕ) (place : ℕ) (entry : Entry)
        → slice_get history place ≡ Some entry → entry.act ≡ Import (Some unit) false
        → reply project workers history place ≡ Some (Refused UnitFailed)
        → (later path : ℕ) (second : Entry)
        → slice_get (history ++ more) later ≡ Some second → second.act ≡ Import (Some unit) false
        → reply project workers (history ++ more) later ≡ Some (Path path) → ⊥ }
{
    legal_entries();
    replies_tell_fates();
    fates_stay();
}

#[test]
fn laws_of_replies_and_fates_are_used() {
    imports_are_answered_alike();
    granted_units_stay_compiled();
    refused_units_stay_refused();
}
