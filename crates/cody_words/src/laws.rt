//! Laws of lines and words, as the contracts of functions that do nothing.

ghost use Rattle.std.specs.Prelude.{◌≡◌, ◌≢◌, ◌+◌, ◌*◌, ◌≤◌, ◌++◌, ◌∷◌, List, ℕ, Bool, [], length};
ghost use Rattle.std.specs.List.{AllByRecursion};
ghost use Rattle.cody_words.specs.Octets.{newline};
ghost use Rattle.cody_words.specs.Meanings.{meaning, is_marked};
ghost use Rattle.cody_words.specs.Spelling.{Spells};
ghost use Rattle.cody_words.specs.Lines.{Meaning, Words, Says, longest_line};
ghost use Rattle.cody_words.specs.Canonical as canonical;

/// A line says one thing at most, and either has the mark or not.
pub fn one_meaning()
    ensures { (line : List ℕ) (meaning other : Meaning) (more again : Bool)
        → Says line meaning more → Says line other again
        → (meaning ≡ other) × (more ≡ again) }
{}

/// A line says something. What it is, and whether the line has the mark, two functions compute.
pub fn line_says()
    ensures { (line : List ℕ) → Says line (meaning line) (is_marked line) }
{}

/// A raw word spells one word at most.
pub fn one_word()
    ensures { (raw word other : List ℕ) → Spells raw word → Spells raw other → word ≡ other }
{}

/// The canonical spelling spells its word.
pub fn canonical_spelling()
    ensures { (word : List ℕ) → Spells (canonical.quote word) word }
{}

/// The round trip: a canonical line that isn't too long says its words, and has the mark it was given.
pub fn canonical_text()
    ensures { (words : List (List ℕ)) (more : Bool)
        → words ≢ [] → length (canonical.canonical_text words more) ≤ longest_line
        → Says (canonical.canonical_text words more) (Words words) more }
{}

/// A canonical line is its text and a NEWLINE, and the text has none.
pub fn no_newline_within()
    ensures text { (words : List (List ℕ)) (more : Bool)
        → AllByRecursion (λ c. c ≢ newline) (canonical.canonical_text words more) }
    ensures line { (words : List (List ℕ)) (more : Bool)
        → canonical.canonical_line words more ≡ canonical.canonical_text words more ++ newline ∷ [] }
{}

/// A line that says words isn't too long, and its length bounds the room that its words need where
/// they are written.
pub fn words_fit()
    ensures short { (line : List ℕ) (words : List (List ℕ)) (more : Bool)
        → Says line (Words words) more → length line ≤ longest_line }
    ensures room { (line : List ℕ) (words : List (List ℕ)) (more : Bool)
        → Says line (Words words) more → canonical.line_room words ≤ 6 * length line + 3 }
{}
