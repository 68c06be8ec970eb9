//! The scan of a line's body, octet by octet.

ghost use Rattle.std.specs.Prelude.{◌≡◌, ◌+◌, ◌<◌, ◌≤◌, IfOk, true, false, length, take, position};
ghost use Rattle.std.specs.List.{AllByRecursion, fold, position_or_len};
ghost use Rattle.cody_words.specs.Lines.{longest_line};
ghost use Rattle.cody_words.specs.Reading.{told, more_of};
ghost use Rattle.cody_words.specs.Scan.{start, step, is_between, is_special, run_len, takes_run, verdict};
ghost use Rattle.cody_words.specs.declared.mode.Mode.TheVariants.{Between, Outside};

use crate::mode::Mode;
use crate::octets::is_special;
use crate::reader::Reading;
use crate::reason::Reason;
use crate::words::Words;
use mm_outside::Memory;
use std::alloc::Global;
use std::marker::Model;

/// The scan of one body, octet by octet, for a reader that keeps no line. A body is a line without
/// its mark.
#[derive(Debug, Drop)]
pub struct Scanner {
    words: Words,
    mode: Mode,
    at: u32,
}

impl Model for Scanner {
    ghost use Rattle.std.specs.Prelude.{◌≤◌};
    ghost use Rattle.cody_words.specs.Lines.{longest_line};
    ghost use Rattle.cody_words.specs.Scan.{Scan};
    ghost use Rattle.cody_words.specs.Room.{IsRoomy};

    ghost Value = { Scan };

    ghost view = { λ s. record { words = s.words; mode = s.mode; at = s.at } };

    ghost invariant = { λ s. IsRoomy s.words s.mode s.at × (s.at ≤ longest_line) };
}

impl Scanner {
    /// A scan of no octet. It takes all its memory here.
    pub fn new(alloc: Global) -> Result<Scanner, Memory>
        ensures { IfOk result (λ scanner. scanner ≡ start) }
    {
        let words = Words::new(alloc)?;
        Ok(Scanner {
            words,
            mode: Mode::Between,
            at: 0,
        })
    }

    /// Begins a new body.
    pub fn clear(&mut self)
        ensures { self.new ≡ start }
    {
        self.words.clear();
        self.mode = Mode::Between;
        self.at = 0;
    }

    /// The number of octets so far.
    pub fn at(&self) -> u32
        ensures at { result ≡ self.now.at }
        ensures bound { result ≤ longest_line }
    {
        self.at
    }

    /// Scans one octet more. A body has no more octets than the longest line.
    pub fn push(&mut self, octet: u8)
        requires { self.old.at < longest_line }
        ensures { self.new ≡ step self.old octet }
    {
        self.mode = self.mode.after(octet, self.at, &mut self.words);
        self.at += 1;
    }

    /// Scans more octets, as `push` does each of them.
    pub fn push_run(&mut self, octets: &[u8])
        requires { self.old.at + length octets.now ≤ longest_line }
        ensures { self.new ≡ fold step self.old octets.now }
    {
        let mut rest = octets;
        while !rest.is_empty() {
            let count = self.push_some(rest);
            let (_, behind) = rest.split_at(count);
            rest = behind;
        }
    }

    /// Scans some of the octets, and returns how many: outside quotes all up to the next special
    /// one where they go on with a word or begin one, and else the first alone.
    fn push_some(&mut self, octets: &[u8]) -> usize
        requires some { 0 < length octets.now }
        requires room { self.old.at + length octets.now ≤ longest_line }
        ensures scan { self.new ≡ fold step self.old (take result octets.now) }
        ensures some { 0 < result }
        ensures within { result ≤ length octets.now }
    {
        let count = self.run_len(octets);
        if count == 0 {
            self.push(octets[0]);
            return 1;
        }
        let (run, _) = octets.split_at(count);
        self.push_bare(run);
        count
    }

    /// How many of the octets may be appended to the last word at once, or begin one.
    fn run_len(&self, octets: &[u8]) -> usize
        requires { 0 < length octets.now }
        ensures { result ≡ run_len self.now.mode octets.now }
    {
        match self.mode {
            Mode::Outside => bare_len(octets),
            Mode::Between if octets[0] != b';' => bare_len(octets),
            _ => 0,
        }
    }

    /// Scans octets that stand for themselves, in a word or as the first of one.
    fn push_bare(&mut self, run: &[u8])
        requires room { self.old.at + length run.now ≤ longest_line }
        requires run { takes_run self.old.mode run.now ≡ true }
        requires bare { AllByRecursion (λ octet. is_special octet ≡ false) run.now }
        ensures { self.new ≡ fold step self.old run.now }
    {
        if self.is_between() {
            self.begin(run);
        } else {
            self.extend(run);
        }
    }

    /// Whether no word is begun.
    fn is_between(&self) -> bool
        ensures { result ≡ is_between self.now.mode }
    {
        matches!(self.mode, Mode::Between)
    }

    /// Begins a word by octets that stand for themselves.
    fn begin(&mut self, run: &[u8])
        requires room { self.old.at + length run.now ≤ longest_line }
        requires run { self.old.mode ≡ Between }
        requires first { takes_run Between run.now ≡ true }
        requires bare { AllByRecursion (λ octet. is_special octet ≡ false) run.now }
        ensures { self.new ≡ fold step self.old run.now }
    {
        self.words.begin();
        self.words.extend(run);
        self.mode = Mode::Outside;
        self.at += run.len() as u32;
    }

    /// Appends octets to the last word that stand for themselves.
    fn extend(&mut self, run: &[u8])
        requires room { self.old.at + length run.now ≤ longest_line }
        requires run { self.old.mode ≡ Outside }
        requires bare { AllByRecursion (λ octet. is_special octet ≡ false) run.now }
        ensures { self.new ≡ fold step self.old run.now }
    {
        self.words.extend(run);
        self.at += run.len() as u32;
    }

    /// The words so far. They are those of the body where `end` answers `Words`.
    pub fn words(&self) -> &Words
        ensures { result.now ≡ self.now.words }
    {
        &self.words
    }

    /// The words so far, without the scan.
    pub(crate) fn into_words(self) -> Words
        ensures { result ≡ self.words }
    {
        self.words
    }

    /// What the body says if it ends here. `more` is whether its line has the mark.
    pub fn end(&self, more: bool) -> Reading
        ensures meaning { told self.now.words result ≡ verdict self.now }
        ensures mark { more_of result ≡ more }
    {
        let (at, reason) = match self.mode {
            Mode::Between | Mode::Outside if self.words.is_empty() => {
                return Reading::Blank { more };
            }
            Mode::Between | Mode::Outside => return Reading::Words { more },
            Mode::Semicolon => (self.at - 1, Reason::StraySemicolon),
            Mode::Escape => (self.at - 1, Reason::UnknownEscape),
            Mode::Inside | Mode::Digit(_) => (self.at, Reason::UnclosedQuote),
            Mode::Refused { at, reason } => (at, reason),
        };
        Reading::Malformed { at, reason, more }
    }
}

/// How many octets, from the first on, stand for themselves outside quotes.
fn bare_len(octets: &[u8]) -> usize
    ensures { result ≡ position_or_len is_special octets.now }
{
    match place_of_special(octets) {
        Some(place) => place,
        None => octets.len(),
    }
}

/// The place of the first octet that doesn't stand for itself outside quotes.
fn place_of_special(octets: &[u8]) -> Option<usize>
    ensures { result ≡ position is_special octets.now }
{
    octets.iter().position(|octet| is_special(*octet))
}
