//! The book: a history, and the items that are kept beside it.

ghost use Rattle.std.specs.Prelude.{◌≡◌, ℕ, ◌<◌, ◌≤◌, ◌+◌, ◌&&◌, true, None, [], length, is_some, Option, IfOk, IfErr, IfSome, IsTrue, IsFalse, if◌then◌else◌};
ghost use Rattle.unit_registry.specs.declared.act.Act.TheVariants.{Open, Done};
ghost use Rattle.unit_registry.specs.Acts.{names};
ghost use Rattle.unit_registry.specs.Projects.{unit_count, is_built};
ghost use Rattle.histories.specs.Entries.{has_its_unit, no_connection, HasNumbers, IsTraceEntry};
ghost use Rattle.histories.specs.Answered.{stored_unit};
ghost use Rattle.histories.specs.Histories.{is_out_of_range, with_said};
ghost use Rattle.histories.specs.Counts.{Asks, effect_of};
ghost use Rattle.registry_core.specs.Ledgers.{IsLedger, Passes, Appends, IsFull, HasRoom, entry, leaving, said_to, is_open_in, opened_in, open_in, done_in, reply_at, answered_last, waiting_in, most_workers, most_entries};
ghost use Rattle.registry_core.specs.Shelves.{ComesWith, kept_after, is_done_answer};
ghost use Rattle.registry_core.specs.Books.{KeepsItems};

use crate::ledger::{Ledger, going_act};
use crate::shelf::Shelf;
use crate::{Answer, Entry, Full, Leaving};
use mm_outside::Memory;
use std::alloc::Global;
use std::marker::Model;
use unit_registry::{Act, Project};

/// The most workers of a book (this project's own limit).
pub const MOST_WORKERS: u32 = 16384;

/// The most entries of a book, its ends counted (this project's own limit).
pub const MOST_ENTRIES: u32 = 67_108_864;

/// What came of an entry.
#[derive(Clone, Copy, Debug, PartialEq, Eq)]
pub struct Entered {
    /// Its place in the history, from 0.
    pub place: u32,
    /// The reply to it, if it came with it.
    pub reply: Option<Answer>,
}

/// A history and a shelf. Each call enters its entry and nothing else, and all memory is taken when the book is made.
#[derive(Drop)]
pub struct Book<S: Shelf> {
    ledger: Ledger,
    shelf: S,
    alloc: Global,
}

impl<S: Shelf> Model for Book<S> {
    ghost use Rattle.std.specs.Prelude.{is_some};
    ghost use Rattle.registry_core.specs.Books.{BookView, KeepsItems};

    ghost Value = { BookView S };

    ghost view = { λ book. record { ledger = book.ledger; shelf = book.shelf } };

    ghost invariant = { λ book. KeepsItems book.ledger (S.units book.shelf) (λ unit. is_some (S.kept book.shelf unit)) };
}

impl<S: Shelf> Book<S> {
    /// A book with no entries, for so many workers, with room for so many entries and ends. All memory is taken here.
    pub fn new(
        alloc: Global,
        project: &Project,
        workers: u32,
        entries: u32,
        shelf: S,
    ) -> Result<Book<S>, Memory>
    where
        S: Drop,
        requires some { 1 ≤ workers }
        requires workers { workers ≤ most_workers }
        requires ends { workers ≤ entries }
        requires entries { entries ≤ most_entries }
        requires units { unit_count project.now ≤ S.units shelf }
        requires built { (unit : ℕ) → IsTrue (is_some (S.kept shelf unit)) → IsTrue (is_built project.now unit) }
        ensures { IfOk result (λ book. book ≡ record { ledger = record { project = project.now; workers = workers; limit = entries; entries = [] }; shelf = shelf }) }
    {
        let ledger = Ledger::new(alloc, project, workers, entries)?;
        Ok(Book {
            ledger,
            shelf,
            alloc,
        })
    }

    /// The history is legal, and the shelf keeps items of units that were built or reported, and one of each that is
    /// stored.
    pub fn is_legal(&self)
        ensures legal { IsLedger self.now.ledger }
        ensures items { KeepsItems self.now.ledger (S.units self.now.shelf) (λ unit. is_some (S.kept self.now.shelf unit)) }
    {
        self.ledger.is_legal();
    }

    /// Enters an entry that passes the checks. The item of a Compiled that is accepted is kept, and every other one is
    /// dropped. It takes no memory.
    pub fn enter(&mut self, newest: Entry, item: Option<S::Item>) -> Entered
    where
        S::Item: Drop,
        requires passes { Passes self.old.ledger newest }
        requires whole { IsTraceEntry newest }
        requires item { ComesWith (S.fits (S.held self.old.shelf)) (stored_unit newest.act) item }
        ensures place { result.place ≡ length self.old.ledger.entries }
        ensures reply { result.reply ≡ reply_at self.new.ledger result.place }
        ensures entered { Appends self.old.ledger newest self.new.ledger }
        ensures kept { (unit : ℕ) → S.kept self.new.shelf unit ≡ kept_after (S.kept self.old.shelf) (with_said newest (said_to self.old.ledger newest.conn newest.act)) item unit }
        ensures shelf { stored_unit newest.act ≡ None → self.new.shelf ≡ self.old.shelf }
        ensures held { S.held self.new.shelf ≡ S.held self.old.shelf }
        ensures units { S.units self.new.shelf ≡ S.units self.old.shelf }
    {
        self.ledger.is_legal();
        let place = self.ledger.enter(newest.conn, newest.act);
        let reply = self.ledger.look(place);
        let accepted = is_done_answer(reply);
        keep(&mut self.shelf, newest.act, item, accepted);
        Entered { place, reply }
    }

    /// The places of the imports that got their replies with the last entry, the oldest first.
    pub fn answered(&self) -> &[u32]
        ensures { result.now ≡ answered_last self.now.ledger }
    {
        self.ledger.answered()
    }

    /// How many imports of open connections wait.
    pub fn waiting_count(&self) -> u32
        ensures { result ≡ waiting_in self.now.ledger }
    {
        self.ledger.waiting_count()
    }

    /// Opens the next connection. `Full` comes exactly where there is no room for it and its end.
    pub fn open(&mut self) -> Result<u32, Full>
    where
        S::Item: Drop,
        requires { open_in self.old.ledger + done_in self.old.ledger < self.old.ledger.workers }
        ensures opened { IfOk result (λ conn. conn ≡ opened_in self.old.ledger) }
        ensures entered { IfOk result (λ conn. Appends self.old.ledger (entry conn Open) self.new.ledger) }
        ensures roomy { IfOk result (λ conn. HasRoom self.old.ledger 1) }
        ensures same { IfErr result (λ full. self.new ≡ self.old) }
        ensures full { IfErr result (λ full. IsFull self.old.ledger 1 full) }
        ensures shelf { self.new.shelf ≡ self.old.shelf }
    {
        let taken = self.ledger.room_taken();
        if taken.entries + taken.reserved + 1 >= self.ledger.limit() {
            return Err(taken);
        }
        let conn = self.ledger.next_conn();
        let act = Act::Open;
        self.is_legal();
        self.enter(Entry { conn, act }, None);
        Ok(conn)
    }

    /// Enters a request or a pause of an open connection, and answers its place. The item of a Compiled that is accepted
    /// is kept, and every other one is dropped. `Full` comes exactly where there is no room for the entry.
    pub fn ask(&mut self, conn: u32, act: Act, item: Option<S::Item>) -> Result<u32, Full>
    where
        S::Item: Drop,
        requires there { IsTrue (is_open_in self.old.ledger conn) }
        requires act { effect_of act ≡ Asks }
        requires unit { IsFalse (is_out_of_range self.old.ledger.project act) }
        requires whole { IsTrue (has_its_unit act) }
        requires item { ComesWith (S.fits (S.held self.old.shelf)) (stored_unit act) item }
        ensures place { IfOk result (λ place. place ≡ length self.old.ledger.entries) }
        ensures entered { IfOk result (λ place. Appends self.old.ledger (entry conn act) self.new.ledger) }
        ensures roomy { IfOk result (λ place. HasRoom self.old.ledger 0) }
        ensures kept { IfOk result (λ place. (unit : ℕ) → S.kept self.new.shelf unit ≡ kept_after (S.kept self.old.shelf) (with_said (entry conn act) (said_to self.old.ledger conn act)) item unit) }
        ensures same { IfErr result (λ full. self.new ≡ self.old) }
        ensures full { IfErr result (λ full. IsFull self.old.ledger 0 full) }
        ensures held { S.held self.new.shelf ≡ S.held self.old.shelf }
        ensures units { S.units self.new.shelf ≡ S.units self.old.shelf }
    {
        let taken = self.ledger.room_taken();
        if taken.entries + taken.reserved >= self.ledger.limit() {
            return Err(taken);
        }
        self.is_legal();
        is_of_numbers(act);
        Ok(self.enter(Entry { conn, act }, item).place)
    }

    /// The reply to the request at the place, if it has come.
    pub fn look(&self, place: u32) -> Option<Answer>
        ensures { result ≡ reply_at self.now.ledger place }
    {
        self.ledger.look(place)
    }

    /// The connection goes. It is never refused.
    pub fn leave(&mut self, conn: u32, how: Leaving)
    where
        S::Item: Drop,
        requires { IsTrue (is_open_in self.old.ledger conn) }
        ensures left { Appends self.old.ledger (entry conn (leaving how)) self.new.ledger }
        ensures shelf { self.new.shelf ≡ self.old.shelf }
    {
        let act = going_act(how);
        self.is_legal();
        self.enter(Entry { conn, act }, None);
    }

    /// A worker is done. It is never refused.
    pub fn done(&mut self)
    where
        S::Item: Drop,
        requires { open_in self.old.ledger + done_in self.old.ledger < self.old.ledger.workers }
        ensures done { Appends self.old.ledger (entry no_connection Done) self.new.ledger }
        ensures shelf { self.new.shelf ≡ self.old.shelf }
    {
        let (conn, act) = (u32::MAX, Act::Done);
        self.is_legal();
        self.enter(Entry { conn, act }, None);
    }

    /// The allocator of which it was made.
    pub(crate) fn alloc(&self) -> Global {
        self.alloc
    }

    /// A copy of the item that is kept for the unit, if one is. `Memory` may come for any unit.
    pub fn fetch(&self, alloc: Global, unit: u32) -> Result<Option<S::Item>, Memory>
        requires { unit < unit_count self.now.ledger.project }
        ensures kept { IfOk result (λ item. item ≡ S.kept self.now.shelf unit) }
        ensures fits { IfOk result (λ item. IfSome item (λ item. S.fits (S.held self.now.shelf) unit item)) }
    {
        self.shelf.copy(alloc, unit)
    }

    /// The entries.
    pub fn entries(&self) -> &[Entry]
        ensures { result.now ≡ self.now.ledger.entries }
    {
        self.ledger.entries()
    }

    /// Whether the connection is open.
    pub fn is_open(&self, conn: u32) -> bool
        ensures { result ≡ is_open_in self.now.ledger conn }
    {
        self.ledger.is_open(conn)
    }

    /// How many connections are open.
    pub fn open_count(&self) -> u32
        ensures { result ≡ open_in self.now.ledger }
    {
        self.ledger.open_count()
    }

    /// How many workers are done.
    pub fn done_count(&self) -> u32
        ensures { result ≡ done_in self.now.ledger }
    {
        self.ledger.done_count()
    }
}

/// Keeps the item of a Compiled that was accepted.
fn keep<S: Shelf>(shelf: &mut S, act: Act, item: Option<S::Item>, accepted: bool)
where
    S::Item: Drop,
    requires unit { IfSome (stored_unit act) (λ unit. unit < S.units shelf.old) }
    requires item { ComesWith (S.fits (S.held shelf.old)) (stored_unit act) item }
    requires free { IsTrue accepted → IfSome (stored_unit act) (λ unit. S.kept shelf.old unit ≡ None) }
    ensures kept { (unit : ℕ) → S.kept shelf.new unit ≡ (if accepted && names (stored_unit act) unit then item else S.kept shelf.old unit) }
    ensures same { stored_unit act ≡ None → shelf.new ≡ shelf.old }
    ensures held { S.held shelf.new ≡ S.held shelf.old }
    ensures units { S.units shelf.new ≡ S.units shelf.old }
{
    if let Some(unit) = stored_unit(act)
        && let Some(item) = item
        && accepted
    {
        shelf.put(unit, item);
    }
}

/// The unit of a Compiled that comes with an item.
fn stored_unit(act: Act) -> Option<u32>
    ensures { result ≡ stored_unit act }
{
    match act {
        Act::Compiled { unit, stored: true } => unit,
        _ => None,
    }
}

/// Whether it is the answer to a Compiled that is accepted.
fn is_done_answer(answer: Option<Answer>) -> bool
    ensures { result ≡ is_done_answer answer }
{
    matches!(answer, Some(Answer::Done))
}

/// The version and the unit of an act are numbers.
fn is_of_numbers(act: Act)
    ensures { HasNumbers act }
{
    let _ = act;
}
