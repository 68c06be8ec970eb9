//! The intake of a connection's octets: lines and blocks, octet by octet.
//!
//! Nothing is kept of a line but its words so far, where its scan stands, and its last two octets, which may turn
//! out to be the mark. Nothing is kept of a block but the number of its lines.

ghost use Rattle.std.specs.Prelude.{◌≢◌, All, ◌≡◌, ◌+◌, ◌↔◌, ◌∷◌, [], ◌++◌, ◌<◌, ◌≤◌, List, ℕ, length, false, nat_le, IsTrue, IfOk};
ghost use Rattle.std.specs.List.{fold};
ghost use Rattle.cody_words.specs.Octets.{newline};
ghost use Rattle.cody_words.specs.Lines.{longest_line};
ghost use Rattle.cody_words.specs.Scan.{step as scan_step};
ghost use Rattle.cody_batches.specs.Blocks.{held, has_long_block, most_lines};
ghost use Rattle.cody_batches.specs.Feeding.{Answers, StandsAfter, words_of};
ghost use Rattle.cody_batches.specs.Working.{begun_scan, line_len, kept, line_ended, most_scanned, ReadsKept, ReadsTail, tail_octets, tail_marked, counted, step_of};

use cody_words::{LONGEST_LINE, Reading, Reason, Scanner, Words, is_white};
use mm_outside::Memory;
use std::alloc::Global;
use std::marker::Model;

/// The most lines of a block, blank ones not counted: this project's own limit.
pub const MOST_LINES: u32 = 1024;

/// The most octets of a line that are scanned while its last two wait.
const MOST_SCANNED: u32 = 8190;

/// What an octet brings.
#[derive(Clone, Copy, Debug, PartialEq, Eq)]
pub enum Step {
    /// No line that isn't blank ends here.
    More,
    /// A line of words ends here. `last` says that its block ends with it: the line hasn't the mark.
    Message { last: bool },
    /// A malformed line ends here. `at` is the place of its first offence, an index into the line.
    Malformed { at: u32, reason: Reason, last: bool },
    /// The block has more than `MOST_LINES` lines. Every later octet brings this too.
    BatchTooLong,
}

/// The last octets of the begun line, which aren't scanned yet: two, or all of it.
#[derive(Clone, Copy, Debug)]
enum Tail {
    Nothing,
    One(u8),
    Two(u8, u8),
}

impl Tail {
    /// Whether a line that ends so has the mark.
    fn is_marked(self) -> bool
        ensures { result ≡ tail_marked (tail_octets self) }
    {
        match self {
            Tail::Nothing => false,
            Tail::One(octet) => octet == b';',
            Tail::Two(before, last) => is_white(before) && last == b';',
        }
    }
}

/// The intake of one connection's octets.
///
/// Contracts say of it after which octets it stands, by `StandsAfter`: those fed since it was new or was reset.
/// What it keeps is no part of that, and no contract names it.
#[derive(Debug, Drop)]
pub struct Intake {
    /// The words of the begun line so far, but for its tail. Behind a line's end those of that line.
    scanner: Scanner,
    /// The last octets of the begun line.
    tail: Tail,
    /// Whether the begun line is too long already.
    too_long: bool,
    /// The whole lines of the begun block.
    lines: u32,
    /// Whether a block was too long.
    over: bool,
}

impl Model for Intake {
    ghost use Rattle.std.specs.Prelude.{◌≤◌, ◌<◌, length};
    ghost use Rattle.cody_batches.specs.Blocks.{most_lines};
    ghost use Rattle.cody_batches.specs.Feeding.{Standing};
    ghost use Rattle.cody_batches.specs.Working.{tail_octets, most_scanned};

    ghost Value = { Standing };

    ghost view = { λ i. record { scan = i.scanner; tail = tail_octets i.tail; too_long = i.too_long; lines = i.lines; over = i.over } };

    ghost invariant = { λ i. (i.lines ≤ most_lines) × (0 < length (tail_octets i.tail) → i.scanner.at ≤ most_scanned) };
}

impl Intake {
    /// An intake that nothing was fed to. It takes all its memory here.
    ///
    /// # Errors
    ///
    /// `Memory` where there is none.
    pub fn new(alloc: Global) -> Result<Intake, Memory>
        ensures { IfOk result (λ intake. StandsAfter intake []) }
    {
        let scanner = Scanner::new(alloc)?;
        Ok(Intake {
            scanner,
            tail: Tail::Nothing,
            too_long: false,
            lines: 0,
            over: false,
        })
    }

    /// Begins anew, as if nothing was fed.
    pub fn reset(&mut self)
        ensures { StandsAfter self.new [] }
    {
        self.tail = Tail::Nothing;
        self.too_long = false;
        self.lines = 0;
        self.over = false;
    }

    /// Takes one octet, and says what it brings: a line's answer at its NEWLINE, `More` at every other octet and at
    /// the NEWLINE of a blank line. `BatchTooLong` comes exactly at the octet that ends line 1,025 of a block, and
    /// at every octet behind that until `reset`.
    pub fn feed(&mut self, octet: u8) -> Step
        ensures stands { (fed : List ℕ) → StandsAfter self.old fed → StandsAfter self.new (fed ++ octet ∷ []) }
        ensures answers { (fed : List ℕ) → StandsAfter self.old fed → Answers fed octet result self.new }
    {
        if self.over {
            return Step::BatchTooLong;
        }
        if octet != b'\n' {
            self.keep(octet);
            return Step::More;
        }
        let reading = self.end_line();
        self.count(reading)
    }

    /// Takes a run of octets within a line, as `feed` takes each, and drops their answers: `More`, or `BatchTooLong`
    /// behind a block that is too long. So a NEWLINE that is fed next is answered as if each octet had been fed,
    /// since its answer depends on the octets alone.
    pub fn feed_run(&mut self, octets: &[u8])
        requires { All (λ octet. octet ≢ newline) octets.now }
        ensures { (fed : List ℕ) → StandsAfter self.old fed → StandsAfter self.new (fed ++ octets.now) }
    {
        if self.over {
            return;
        }
        self.keep_run(octets);
    }

    /// The words of the line that ended last, where the last octet brought `Message`. They stand until the next
    /// octet of a line is fed. At any other time these are some words, of no meaning.
    pub fn words(&self) -> &Words
        ensures { result.now ≡ words_of self.now }
    {
        self.scanner.words()
    }

    /// The lines of the block that is begun, blank ones left out, and an unfinished line counted as a line, even
    /// one that is white space so far. Behind a block that is too long the number has no meaning.
    pub fn lines_held(&self) -> u32
        ensures held { (fed : List ℕ) → StandsAfter self.now fed → has_long_block fed ≡ false → result ≡ held fed }
        ensures bound { result ≤ most_lines + 1 }
    {
        let unfinished = !matches!(self.tail, Tail::Nothing);
        self.lines + u32::from(unfinished)
    }

    /// Whether no line is held: the octets so far end with a block, or are none, blank lines left out.
    pub fn at_boundary(&self) -> bool
        ensures { (fed : List ℕ) → StandsAfter self.now fed → has_long_block fed ≡ false → IsTrue result ↔ (held fed ≡ 0) }
    {
        self.lines_held() == 0
    }

    /// Keeps more octets of the line. Where they don't make it too long, all but the last two are scanned as a run.
    fn keep_run(&mut self, octets: &[u8])
        ensures { self.new ≡ fold kept self.old octets.now }
    {
        match octets {
            [front @ .., before, last] if self.has_room(front) => {
                scan_tail(&mut self.scanner, self.tail);
                self.scanner.push_run(front);
                self.tail = Tail::Two(*before, *last);
            }
            _ => self.keep_each(octets),
        }
    }

    /// Whether the tail and these octets behind it may be scanned.
    fn has_room(&self, octets: &[u8]) -> bool
        ensures { result ≡ nat_le (line_len self.now + length octets.now) most_scanned }
    {
        self.line_len() as usize + octets.len() <= MOST_SCANNED as usize
    }

    /// The octets of the begun line, but for those that came when it was too long.
    fn line_len(&self) -> u32
        ensures len { result ≡ line_len self.now }
        ensures bound { result ≤ longest_line + 2 }
    {
        match self.tail {
            Tail::Nothing => 0,
            Tail::One(_) => self.scanner.at() + 1,
            Tail::Two(_, _) => self.scanner.at() + 2,
        }
    }

    /// Keeps more octets of the line, one by one.
    fn keep_each(&mut self, octets: &[u8])
        ensures { self.new ≡ fold kept self.old octets.now }
    {
        for octet in octets {
            self.keep(*octet);
        }
    }

    /// Keeps one more octet of the line.
    fn keep(&mut self, octet: u8)
        ensures { self.new ≡ kept self.old octet }
    {
        match self.tail {
            Tail::Nothing => {
                self.scanner.clear();
                self.tail = Tail::One(octet);
            }
            Tail::One(before) => self.tail = Tail::Two(before, octet),
            Tail::Two(first, before) => {
                if self.scanner.at() < MOST_SCANNED {
                    self.scanner.push(first);
                } else {
                    self.too_long = true;
                }
                self.tail = Tail::Two(before, octet);
            }
        }
    }

    /// Reads the line that was kept, and begins a new one.
    fn end_line(&mut self) -> Reading
        ensures stands { self.new ≡ line_ended self.old self.new.scan }
        ensures reading { ReadsKept self.old (words_of self.new) result }
    {
        let tail = self.tail;
        let too_long = self.too_long;
        self.tail = Tail::Nothing;
        self.too_long = false;
        if too_long {
            return Reading::Malformed {
                at: LONGEST_LINE as u32,
                reason: Reason::LineTooLong,
                more: tail.is_marked(),
            };
        }
        read_tail(&mut self.scanner, tail)
    }

    /// Counts a line of the block, unless it is blank.
    fn count(&mut self, reading: Reading) -> Step
        ensures stands { self.new ≡ counted self.old reading }
        ensures step { result ≡ step_of self.old reading }
    {
        let (more, step) = match reading {
            Reading::Blank { .. } => return Step::More,
            Reading::Words { more } => (more, Step::Message { last: !more }),
            Reading::Malformed { at, reason, more } => (
                more,
                Step::Malformed {
                    at,
                    reason,
                    last: !more,
                },
            ),
        };
        if self.lines == MOST_LINES {
            self.over = true;
            return Step::BatchTooLong;
        }
        self.lines = if more { self.lines + 1 } else { 0 };
        step
    }
}

/// Scans the last octets of a begun line. Where there is none, a line begins.
fn scan_tail(scanner: &mut Scanner, tail: Tail)
    requires { (begun_scan scanner.old (tail_octets tail)).at + length (tail_octets tail) ≤ longest_line }
    ensures { scanner.new ≡ fold scan_step (begun_scan scanner.old (tail_octets tail)) (tail_octets tail) }
{
    match tail {
        Tail::Nothing => scanner.clear(),
        Tail::One(last) => scanner.push(last),
        Tail::Two(before, last) => {
            scanner.push(before);
            scanner.push(last);
        }
    }
}

/// What a line says that was scanned but for these last octets.
fn read_tail(scanner: &mut Scanner, tail: Tail) -> Reading
    requires { 0 < length (tail_octets tail) → scanner.old.at ≤ most_scanned }
    ensures { ReadsTail scanner.old (tail_octets tail) scanner.new.words result }
{
    match tail {
        Tail::Nothing => Reading::Blank { more: false },
        Tail::One(b';') => scanner.end(true),
        Tail::One(octet) => {
            scanner.push(octet);
            scanner.end(false)
        }
        Tail::Two(before, b';') if is_white(before) => scanner.end(true),
        Tail::Two(before, last) => {
            scanner.push(before);
            scanner.push(last);
            scanner.end(false)
        }
    }
}
