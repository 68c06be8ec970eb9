//! Laws of lines, blocks and limits, as the contracts of functions that do nothing.

ghost use Rattle.std.specs.Prelude.{◌≡◌, ◌≢◌, ◌≤◌, ◌<◌, ◌++◌, ◌∷◌, [], All, List, ℕ, true, false, length, take};
ghost use Rattle.std.specs.List.{AllByRecursion, flat_map};
ghost use Rattle.cody_words.specs.Octets.{newline};
ghost use Rattle.cody_words.specs.Meanings.{is_marked};
ghost use Rattle.cody_batches.specs.Blocks.{blocks, begun_block, begun_line, by_newline, counted_lines, ended, has_long_block, is_blank, is_newline, lines, most_lines, most_octets, taken, GoesOn, IsBlock, PassesLimits};
ghost use Rattle.cody_batches.specs.Cutting.{IsCut};

/// A cut list is its pieces and its rest, each piece ends in an item of the kind, and no other item is of it.
pub fn cut_list()
    ensures { (octets : List ℕ) → IsCut is_newline octets (by_newline octets) }
{}

/// The octets are their lines, each with its NEWLINE, and the begun line. No line has a NEWLINE within.
pub fn line_list()
    ensures joined { (octets : List ℕ) → octets ≡ flat_map ended (lines octets) ++ begun_line octets }
    ensures lines { (octets : List ℕ)
        → AllByRecursion (AllByRecursion (λ octet. octet ≢ newline)) (lines octets) }
    ensures begun { (octets : List ℕ) → AllByRecursion (λ octet. octet ≢ newline) (begun_line octets) }
{}

/// The lines that count are those of the blocks and of the begun block, in order. A block goes on behind each of
/// its lines but the last, and ends with that. The begun block goes on behind each of its lines.
pub fn line_by_line()
    ensures joined { (octets : List ℕ)
        → counted_lines octets ≡ flat_map (λ (block : List (List ℕ)). block) (blocks octets) ++ begun_block octets }
    ensures blocks { (octets : List ℕ) → AllByRecursion IsBlock (blocks octets) }
    ensures begun { (octets : List ℕ) → AllByRecursion GoesOn (begun_block octets) }
{}

/// More octets change no block that is whole.
pub fn blocks_stay()
    ensures { (octets more : List ℕ)
        → (others : List (List (List ℕ))) × (blocks (octets ++ more) ≡ blocks octets ++ others) }
{}

/// Octets within a line change that line alone.
pub fn run_within()
    ensures blocks { (fed run : List ℕ) → All (λ octet. octet ≢ newline) run → blocks (fed ++ run) ≡ blocks fed }
    ensures block { (fed run : List ℕ) → All (λ octet. octet ≢ newline) run
        → begun_block (fed ++ run) ≡ begun_block fed }
    ensures line { (fed run : List ℕ) → All (λ octet. octet ≢ newline) run
        → begun_line (fed ++ run) ≡ begun_line fed ++ run }
    ensures long { (fed run : List ℕ) → All (λ octet. octet ≢ newline) run
        → has_long_block (fed ++ run) ≡ has_long_block fed }
{}

/// A blank line changes no block.
pub fn blank_line_ends()
    ensures blocks { (fed : List ℕ) → is_blank (begun_line fed) ≡ true
        → blocks (fed ++ newline ∷ []) ≡ blocks fed }
    ensures block { (fed : List ℕ) → is_blank (begun_line fed) ≡ true
        → begun_block (fed ++ newline ∷ []) ≡ begun_block fed }
    ensures line { (fed : List ℕ) → begun_line (fed ++ newline ∷ []) ≡ [] }
    ensures long { (fed : List ℕ) → is_blank (begun_line fed) ≡ true
        → has_long_block (fed ++ newline ∷ []) ≡ has_long_block fed }
{}

/// A line that isn't blank joins the begun block where it has the mark, and ends it where it has none.
pub fn line_ends()
    ensures joins_blocks { (fed : List ℕ) → is_blank (begun_line fed) ≡ false → is_marked (begun_line fed) ≡ true
        → blocks (fed ++ newline ∷ []) ≡ blocks fed }
    ensures joins_block { (fed : List ℕ) → is_blank (begun_line fed) ≡ false → is_marked (begun_line fed) ≡ true
        → begun_block (fed ++ newline ∷ []) ≡ begun_block fed ++ begun_line fed ∷ [] }
    ensures ends_blocks { (fed : List ℕ) → is_blank (begun_line fed) ≡ false → is_marked (begun_line fed) ≡ false
        → blocks (fed ++ newline ∷ []) ≡ blocks fed ++ (begun_block fed ++ begun_line fed ∷ []) ∷ [] }
    ensures ends_block { (fed : List ℕ) → is_blank (begun_line fed) ≡ false → is_marked (begun_line fed) ≡ false
        → begun_block (fed ++ newline ∷ []) ≡ [] }
    ensures line { (fed : List ℕ) → begun_line (fed ++ newline ∷ []) ≡ [] }
{}

/// A block becomes too long exactly at the NEWLINE of its line 1,025, blank lines left out.
pub fn long_begins()
    ensures there { (fed : List ℕ) (octet : ℕ) → has_long_block fed ≡ false
        → has_long_block (fed ++ octet ∷ []) ≡ true
        → (octet ≡ newline) × (is_blank (begun_line fed) ≡ false) × (length (begun_block fed) ≡ most_lines) }
    ensures always { (fed : List ℕ) → is_blank (begun_line fed) ≡ false → length (begun_block fed) ≡ most_lines
        → has_long_block (fed ++ newline ∷ []) ≡ true }
{}

/// Octets without a block that is too long begin with none, and with one they keep it.
pub fn long_stays()
    ensures stays { (octets more : List ℕ) → has_long_block octets ≡ true
        → has_long_block (octets ++ more) ≡ true }
    ensures begins { (octets more : List ℕ) → has_long_block (octets ++ more) ≡ false
        → has_long_block octets ≡ false }
{}

/// Where no block is too long, none has more lines than it may have, nor has the begun one.
pub fn few_lines()
    ensures blocks { (octets : List ℕ) → has_long_block octets ≡ false
        → AllByRecursion (λ (block : List (List ℕ)). length block ≤ most_lines) (blocks octets) }
    ensures begun { (octets : List ℕ) → has_long_block octets ≡ false → length (begun_block octets) ≤ most_lines }
{}

/// Within the limits all blocks are taken.
pub fn taken_whole()
    ensures { (octets : List ℕ) → length octets ≤ most_octets → has_long_block octets ≡ false
        → taken octets ≡ blocks octets }
{}

/// More octets change no block that is taken.
pub fn taken_grows()
    ensures { (octets more : List ℕ)
        → (others : List (List (List ℕ))) × (taken (octets ++ more) ≡ taken octets ++ others) }
{}

/// Behind the most octets nothing more is taken, and no block becomes too long.
pub fn taken_at_octets_limit()
    ensures taken { (octets more : List ℕ) → length octets ≡ most_octets → has_long_block octets ≡ false
        → taken (octets ++ more) ≡ blocks octets }
    ensures fits { (octets more : List ℕ) → length octets ≡ most_octets → has_long_block octets ≡ false
        → has_long_block (take most_octets (octets ++ more)) ≡ false }
    ensures passes { (octets more : List ℕ) (octet : ℕ) → length octets ≡ most_octets
        → PassesLimits (octets ++ octet ∷ more) }
{}

/// Behind a block that is too long nothing more is taken, nor is that block.
pub fn taken_at_lines_limit()
    ensures taken { (octets more : List ℕ) → length octets < most_octets → has_long_block octets ≡ false
        → has_long_block (octets ++ newline ∷ []) ≡ true
        → taken (octets ++ newline ∷ more) ≡ blocks octets }
    ensures long { (octets more : List ℕ) → length octets < most_octets
        → has_long_block (octets ++ newline ∷ []) ≡ true
        → has_long_block (take most_octets (octets ++ newline ∷ more)) ≡ true }
{}

/// The limits aren't passed exactly where there are few octets and no block is too long.
pub fn within_limits()
    ensures within { (octets : List ℕ) → length octets ≤ most_octets → has_long_block octets ≡ false
        → ¬ PassesLimits octets }
    ensures octets { (octets : List ℕ) → ¬ PassesLimits octets → length octets ≤ most_octets }
    ensures lines { (octets : List ℕ) → ¬ PassesLimits octets → has_long_block octets ≡ false }
{}

/// Limits that are passed stay so, whatever comes, and nothing more is taken.
pub fn limits_stay()
    ensures passed { (octets more : List ℕ) → PassesLimits octets → PassesLimits (octets ++ more) }
    ensures taken { (octets more : List ℕ) → PassesLimits octets → taken (octets ++ more) ≡ taken octets }
{}
