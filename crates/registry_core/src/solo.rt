//! A desk that has a whole book.

ghost use Rattle.std.specs.Prelude.{◌≡◌, ◌≤◌, true, false, Option, IfOk, IfErr, IsOk, IsTrue, IsFalse, Contains};
ghost use Rattle.histories.specs.Entries.{has_its_unit};
ghost use Rattle.histories.specs.Answered.{stored_unit};
ghost use Rattle.histories.specs.Histories.{is_out_of_range};
ghost use Rattle.histories.specs.Counts.{Asks, effect_of};
ghost use Rattle.registry_core.specs.Ledgers.{IsFull, entry, is_open_in};
ghost use Rattle.registry_core.specs.Shelves.{ComesWith};
ghost use Rattle.registry_core.specs.Desks.{Adds, Looks, IsSound, TakesNoTurn};
ghost use Rattle.registry_core.specs.Alone.{told_alone};

use crate::book::Book;
use crate::desk::Desk;
use crate::shelf::Shelf;
use crate::{Answer, Full, Leaving};
use mm_outside::Memory;
use std::marker::Model;
use std::snapshot::Snapshot;
use unit_registry::Act;

/// The desk of whoever has a book alone. All places and connections are its own, its run is that of all workers, and it
/// isn't metered.
#[derive(Drop)]
pub struct SoloDesk<S: Shelf> {
    opening: Snapshot<Book<S>>,
    book: Book<S>,
}

impl<S: Shelf> Model for SoloDesk<S> {
    ghost use Rattle.std.specs.Prelude.{is_some};
    ghost use Rattle.registry_core.specs.Alone.{Alone, KeepsOn};

    ghost Value = { Alone S };

    ghost view = { λ desk. record { opening = desk.opening.value; book = desk.book } };

    ghost invariant = { λ desk. KeepsOn desk.book.ledger (λ unit. is_some (S.kept desk.opening.value.shelf unit)) (λ unit. is_some (S.kept desk.book.shelf unit)) };
}

impl<S: Shelf> SoloDesk<S> {
    /// The desk that has the book.
    pub fn new(book: Book<S>) -> SoloDesk<S>
        ensures opening { result.opening ≡ book }
        ensures book { result.book ≡ book }
        ensures sound { IsSound (told_alone S.kept S.held result) }
    {
        book.is_legal();
        let opening = Snapshot::of(&book);
        SoloDesk { opening, book }
    }

    /// The book after the desk's history.
    pub fn into_book(self) -> Book<S>
        ensures { result ≡ self.book }
    {
        self.book
    }
}

#[tactic(auto, using(crate::proofs::Alone::roomy))]
impl<S: Shelf> Desk for SoloDesk<S>
where
    S::Item: Drop,
{
    ghost use Rattle.registry_core.specs.Alone.{told_alone};

    type Item = S::Item;

    type Held = S::Held;

    ghost fits = { S.fits };

    ghost tells = { told_alone S.kept S.held };

    ghost holds = { λ desk. false };

    fn hold(&mut self) {}

    fn release(&mut self) {}

    fn open(&mut self) -> Result<u32, Full> {
        let opened = self.book.open();
        self.book.is_legal();
        opened
    }

    fn ask(&mut self, conn: u32, act: Act, item: Option<S::Item>) -> Result<u32, Full>
        requires own { Contains (told_alone S.kept S.held self.old).connections conn }
        requires there { IsTrue (is_open_in self.old.book.ledger conn) }
        requires act { effect_of act ≡ Asks }
        requires unit { IsFalse (is_out_of_range self.old.book.ledger.project act) }
        requires whole { IsTrue (has_its_unit act) }
        requires item { ComesWith (S.fits (S.held self.old.book.shelf)) (stored_unit act) item }
        requires room { IsTrue (told_alone S.kept S.held self.old).metered → 1 ≤ (told_alone S.kept S.held self.old).room }
        ensures asked { IfOk result (λ place. Adds (told_alone S.kept S.held self.old) (entry conn act) place (told_alone S.kept S.held self.new)) }
        ensures looked { IfErr result (λ full. Looks (told_alone S.kept S.held self.old) (told_alone S.kept S.held self.new)) }
        ensures full { IfErr result (λ full. IsFull self.new.book.ledger 0 full) }
        ensures roomy { 1 ≤ (told_alone S.kept S.held self.old).room → IsOk result }
        ensures sound { IsSound (told_alone S.kept S.held self.new) }
        ensures turn { TakesNoTurn false false }
    {
        let asked = self.book.ask(conn, act, item);
        self.book.is_legal();
        asked
    }

    fn look(&mut self, place: u32) -> Option<Answer> {
        self.book.is_legal();
        self.book.look(place)
    }

    fn leave(&mut self, conn: u32, how: Leaving) {
        self.book.leave(conn, how);
        self.book.is_legal();
    }

    fn done(&mut self) {
        self.book.done();
        self.book.is_legal();
    }

    fn fetch(&mut self, unit: u32) -> Result<Option<S::Item>, Memory> {
        self.book.is_legal();
        self.book.fetch(self.book.alloc(), unit)
    }
}
