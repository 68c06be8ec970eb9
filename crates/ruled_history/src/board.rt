//! The table that all seats share: its words, its slot, what a seat knows and the rule.
//! Word 0 counts the tickets drawn, word 1 the tickets served, and word 2 the entries. The slot has the book.

ghost use Rattle.std.specs.Prelude.{◌≡◌, ◌<◌, List, ⊤};
ghost use Rattle.histories.specs.declared.entry.Entry.{Entry};
ghost use Rattle.registry_core.specs.Books.{BookView};

use atomic_table::{Join, Play, Split, Table, TableRule};
use histories::Entry;
use registry_core::{Book, Shelf};
use std::alloc::Global;
use std::collections::LinkedList;
use std::marker::{Brand, PhantomData};
use std::snapshot::Snapshot;

/// Whether a seat has a ticket. No value of it is made.
pub enum Stage {
    /// It has none.
    Idle,
    /// It waits with this ticket.
    Waits(u64),
    /// Its turn has come with this ticket, and it has the slot.
    Serves(u64),
}

/// What a seat knows. No value of it is made.
pub struct View {
    /// The history that it has seen.
    pub seen: LinkedList<Entry>,
    /// Of a joined seat, the shorter of the two histories that were seen before the join.
    pub heard: LinkedList<Entry>,
    /// The places of the entries that were made under its run.
    pub places: LinkedList<u32>,
    /// The first of its run of worker numbers.
    pub first: u32,
    /// How many worker numbers its run has.
    pub share: u32,
    /// The connections that it opened or was given.
    pub connections: LinkedList<u32>,
    /// How many of these are open.
    pub opened: u32,
    /// How many workers it has ended.
    pub dones: u32,
    /// How many entries are kept for it.
    pub room: u32,
    /// Whether it has a ticket.
    pub stage: Stage,
}

/// What the table is about: the book as it was handed in, and whether each seat has a room of its own.
#[derive(Drop)]
pub(crate) struct About<S: Shelf> {
    pub(crate) opening: Snapshot<Book<S>>,
    pub(crate) metered: bool,
}

pub(crate) struct Law;

impl<S: Shelf> TableRule<Option<Book<S>>, View, About<S>> for Law {
    ghost use Rattle.ruled_history.specs.Rule.{Ruled};
    ghost use Rattle.ruled_history.specs.Seats.{StandsAfter, first_room};
    ghost use Rattle.ruled_history.specs.Views.{first_view};

    ghost holds = { λ key. Ruled (StandsAfter S.kept S.held key.opening.value) key.metered key.opening.value.ledger };

    ghost first = { λ key. first_view key.opening.value.ledger.workers (first_room key.metered key.opening.value) };
}

/// The table, of three words and a slot, and the allocator for copies of items.
#[derive(Drop)]
pub(crate) struct Board<S: Shelf> {
    pub(crate) alloc: Global,
    pub(crate) table: Table<Option<Book<S>>, View, About<S>, Law, Global>,
    ghost sized: { (table.shared.table_id.words ≡ 3) × (table.shared.table_id.slots ≡ 1) },
    ghost some_worker: { 0 < table.shared.key.opening.value.ledger.workers },
}

pub(crate) type Place<S> = atomic_table::Seat<Option<Book<S>>, View>;

/// What a step tells of the book in hand and of the seat whose turn it is. Each such step picks it.
pub(crate) trait Telling<S> {
    ghost use Rattle.ruled_history.specs.declared.board.View.{View};

    ghost tells: { BookView S → List Entry → View → Type 0 };
}

impl<S> Telling<S> for Brand {
    ghost tells = { λ book before view. ⊤ };
}

/// What a seat learns of its view. Each call picks it.
pub(crate) trait Learning {
    ghost use Rattle.ruled_history.specs.declared.board.View.{View};

    ghost learns: { View → Type 0 };
}

impl Learning for Brand {
    ghost learns = { λ view. ⊤ };
}

/// A step that changes nothing.
pub(crate) struct Learn<J> {
    learning: PhantomData<J>,
}

impl<S: Shelf, J: Learning> Play<Option<Book<S>>, View> for Learn<J> {
    ghost use Rattle.ruled_history.specs.Steps.{learnt};

    ghost then = { learnt J.learns };
}

/// A step that draws a ticket.
pub(crate) struct Draw;

impl<S: Shelf> Play<Option<Book<S>>, View> for Draw {
    ghost use Rattle.ruled_history.specs.Steps.{drew};

    ghost then = { drew };
}

/// A step that looks at serving, and takes the slot where the turn has come.
pub(crate) struct Look<J> {
    telling: PhantomData<J>,
}

impl<S: Shelf, J: Telling<S>> Play<Option<Book<S>>, View> for Look<J> {
    ghost use Rattle.ruled_history.specs.Steps.{looked};

    ghost then = { looked J.tells };
}

/// A step that records the last entry of the book in hand.
pub(crate) struct Record<J> {
    telling: PhantomData<J>,
}

impl<S: Shelf, J: Telling<S>> Play<Option<Book<S>>, View> for Record<J> {
    ghost use Rattle.ruled_history.specs.Steps.{recorded};

    ghost then = { recorded (λ book. book.ledger.entries) J.tells };
}

/// A step that passes the turn, with the slot.
pub(crate) struct Pass;

impl<S: Shelf> Play<Option<Book<S>>, View> for Pass {
    ghost use Rattle.ruled_history.specs.Steps.{passed};

    ghost then = { passed };
}

/// How many worker numbers are cut off, and which room goes with them. Each split picks it.
pub(crate) trait Cutting {
    ghost use Rattle.std.specs.Prelude.{ℕ};

    ghost share: { ℕ };

    ghost room: { ℕ };
}

impl Cutting for Brand {
    ghost share = { 0 };

    ghost room = { 0 };
}

/// A step that splits a seat.
pub(crate) struct Cut<J> {
    cutting: PhantomData<J>,
}

impl<J: Cutting> Split<View> for Cut<J> {
    ghost use Rattle.ruled_history.specs.Views.{rest_of, cut_off};

    ghost left = { rest_of J.share J.room };

    ghost right = { cut_off J.share J.room };
}

/// A step that joins two seats.
pub(crate) struct Glue;

impl Join<View> for Glue {
    ghost use Rattle.ruled_history.specs.Views.{joined, spent};

    ghost both = { joined };

    ghost spent = { spent };
}
