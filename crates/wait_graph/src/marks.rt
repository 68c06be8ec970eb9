//! Marks of units, which spread along pairs.
ghost use Rattle.std.specs.Prelude.{◌≡◌, ◌<◌, ◌↔◌, ℕ, true, false, length, IsTrue};
ghost use Rattle.wait_graph.specs.Walks.{Leads};
ghost use Rattle.wait_graph.specs.Marks.{HasMark, AreLedFrom, AreWithin, IsClosed, mark_count};

/// One round: the second unit of each pair whose first has a mark gets one. It tells whether a
/// mark was made.
fn spread(pairs: &[(u32, u32)], marks: &mut [bool]) -> bool
    requires { AreWithin pairs.now (length marks.old) }
    ensures kept { (unit : ℕ) → HasMark marks.old unit → HasMark marks.new unit }
    ensures led { (from : ℕ)
        → AreLedFrom pairs.now from marks.old → AreLedFrom pairs.now from marks.new }
    ensures closed { result ≡ false → IsClosed pairs.now marks.new }
    ensures more { result ≡ true → mark_count marks.old < mark_count marks.new }
{
    let mut made = false;
    for &(first, second) in pairs {
        if marks[first as usize] && !marks[second as usize] {
            marks[second as usize] = true;
            made = true;
        }
    }
    made
}

/// Takes all marks away.
fn clear(marks: &mut [bool])
    ensures { (unit : ℕ) → ¬ HasMark marks.new unit }
{
    for mark in marks.iter_mut() {
        *mark = false;
    }
}

/// Marks the units to which a walk leads, and no other.
fn mark_from(pairs: &[(u32, u32)], marks: &mut [bool], from: usize)
    requires within { AreWithin pairs.now (length marks.old) }
    requires unit { from < length marks.old }
    ensures led { AreLedFrom pairs.now from marks.new }
    ensures all { (unit : ℕ) → Leads pairs.now from unit → HasMark marks.new unit }
{
    clear(marks);
    marks[from] = true;
    while spread(pairs, marks) {}
}

/// Whether a walk leads there. Marks that stood before are lost.
pub(crate) fn leads(pairs: &[(u32, u32)], marks: &mut [bool], from: usize, to: usize) -> bool
    requires within { AreWithin pairs.now (length marks.old) }
    requires from { from < length marks.old }
    requires to { to < length marks.old }
    ensures { IsTrue result ↔ Leads pairs.now from to }
{
    mark_from(pairs, marks, from);
    marks[to]
}
