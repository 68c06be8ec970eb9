//! Laws of sources, of the text of an interface and of listings, as the contracts of functions that do nothing.

ghost use Rattle.std.specs.Prelude.{◌≡◌, ℕ, List, None, option_and_then};
ghost use Rattle.std.specs.List.{Contains};
ghost use Rattle.module_units.specs.Reading.{SourceReading};
ghost use Rattle.unit_registry.specs.Projects.{ProjectView};
ghost use Rattle.export_lists.specs.Lists.{Cmi};
ghost use Rattle.export_lists.specs.Sources.{Source};
ghost use Rattle.export_lists.specs.CmiTexts.{cmi_text, IsGoodCmi};
ghost use Rattle.export_lists.specs.CmiFaults.{IsCmiText, IsFaultyLine};
ghost use Rattle.export_lists.specs.Outcomes.{Origin, Outcome, cmi_in, outcome};
ghost use Rattle.export_lists.specs.Rings.{LeadRound};
ghost use Rattle.export_lists.specs.Listings.{IsListing};

/// A source has one reading in a project: one unit, or else one fault.
pub fn one_source()
    ensures { (project : ProjectView) (number : ℕ) (text : List ℕ) (reading other : SourceReading)
        → Source project number text reading → Source project number text other → reading ≡ other }
{}

/// A text is that of at most one interface, has at most one first line at fault, and never both.
pub fn one_cmi_reading()
    ensures cmi { (text : List ℕ) (cmi other : Cmi)
        → IsCmiText text cmi → IsCmiText text other → cmi ≡ other }
    ensures line { (text : List ℕ) (line other : ℕ)
        → IsFaultyLine text line → IsFaultyLine text other → line ≡ other }
    ensures either { (text : List ℕ) (cmi : Cmi) (line : ℕ)
        → IsCmiText text cmi → IsFaultyLine text line → ⊥ }
{}

/// What is written for an interface that may be read is read back as that interface: its text is that of no
/// other, and no line of it is at fault.
pub fn written_cmi_is_read()
    ensures same { (cmi other : Cmi) → IsGoodCmi cmi → IsCmiText (cmi_text cmi) other → other ≡ cmi }
    ensures sound { (cmi : Cmi) (line : ℕ) → IsGoodCmi cmi → IsFaultyLine (cmi_text cmi) line → ⊥ }
{}

/// A project with these sources, and these interfaces of the units that were built before, has one
/// listing.
pub fn one_listing()
    ensures { (project : ProjectView) (sources : List (List ℕ)) (built : List Cmi) (outcomes others : List Outcome)
        → IsListing project sources built outcomes → IsListing project sources built others → outcomes ≡ others }
{}

/// Units whose imports lead round in a ring, each of which imports one of them, have no interface.
pub fn rings_have_no_interface()
    ensures { (project : ProjectView) (origins : List Origin) (units : List ℕ) (unit : ℕ)
        → LeadRound project origins units → Contains units unit → option_and_then cmi_in (outcome project origins unit) ≡ None }
{}
