//! The registry, and its seats.

ghost use Rattle.std.specs.Prelude.{◌≡◌, ◌+◌, ◌<◌, ◌≤◌, [], ◌∷◌, IfOk, length};
ghost use Rattle.registry_core.specs.Ledgers.{open_in, done_in};
ghost use Rattle.ruled_history.specs.declared.board.Stage.TheVariants.{Idle};
ghost use Rattle.ruled_history.specs.declared.board.View.{View};
ghost use Rattle.ruled_history.specs.Runs.{AreAllPlaces};
ghost use Rattle.ruled_history.specs.Seats.{StandsAfter, Sitting, first_room};
ghost use Rattle.ruled_history.specs.Views.{first_view, rest_of, cut_off, joined, Knows, IsBare, Keeps};

use crate::board::{About, Board, Cut, Cutting, Glue, Learn, Learning, Place, View};
use atomic_table::{Badge, Table};
use mm_outside::Memory;
use registry_core::{Book, Shelf};
use std::alloc::Global;
use std::marker::{Brand, Model};
use std::snapshot::Snapshot;

/// A book that seats share. Between any two steps of its seats the rule of `specs/Rule.antt` holds.
#[derive(Drop)]
pub struct Registry<S: Shelf> {
    pub(crate) board: Board<S>,
}

impl<S: Shelf> Model for Registry<S> {
    ghost use Rattle.ruled_history.specs.Seats.{Shared};

    ghost Value = { Shared S };

    ghost view = { λ registry. record { name = registry.board.table.shared.table_id; opening = registry.board.table.shared.key.opening.value; metered = registry.board.table.shared.key.metered } };
}

/// A run of worker numbers of a registry, and what is known there of the history. It has no bytes.
#[derive(Drop)]
pub struct Seat {
    pub(crate) badge: Badge<View>,
}

impl Model for Seat {
    ghost use Rattle.std.specs.Prelude.{◌≡◌, ◌<◌, [], ◌∷◌};
    ghost use Rattle.ruled_history.specs.declared.board.Stage.TheVariants.{Idle};
    ghost use Rattle.ruled_history.specs.Seats.{Sitting, one_of};

    ghost Value = { Sitting };

    ghost view = { λ seat. record { registry = seat.badge.table_id; knows = one_of seat.badge.views } };

    ghost invariant = { λ seat. (seat.badge.views ≡ one_of seat.badge.views ∷ []) × ((one_of seat.badge.views).stage ≡ Idle) × (0 < (one_of seat.badge.views).share) };
}

impl<S: Shelf + Drop> Registry<S> {
    /// A registry of a book without entries, and its first seat, whose run is that of all workers. In a metered
    /// registry an Open needs two of its seat's room, one of them for the connection's end, and a request or a pause
    /// one. The first seat has room for all entries but the Dones, where it is metered, and else none.
    pub fn new(alloc: Global, book: Book<S>, metered: bool) -> Result<(Registry<S>, Seat), Memory>
        requires empty { book.ledger.entries ≡ [] }
        ensures opening { IfOk result (λ made. made.0.opening ≡ book) }
        ensures metered { IfOk result (λ made. made.0.metered ≡ metered) }
        ensures seat { IfOk result (λ made. made.1.registry ≡ made.0.name) }
        ensures knows { IfOk result (λ made. made.1.knows ≡ first_view book.ledger.workers (first_room metered book)) }
    {
        book.is_legal();
        let about = About {
            opening: Snapshot::of(&book),
            metered,
        };
        let Ok(mut slots) = Vec::with_capacity(alloc, 1) else {
            return Err(Memory);
        };
        slots.push_reserved(Some(book));
        let Ok((table, place)) = Table::new(alloc, &[0, 0, 0], slots, &about) else {
            return Err(Memory);
        };
        let seat = Seat {
            badge: place.into_badge(),
        };
        let board = Board { alloc, table };
        Ok((Registry { board }, seat))
    }

    /// Splits a seat that has no entry. The second seat has the last worker numbers of the run, so many as its share,
    /// and that room; the first has the rest. Both have seen what the seat had seen, and neither has an entry or a
    /// connection.
    pub fn split(&self, seat: Seat, share: u32, room: u32) -> (Seat, Seat)
        requires seat { seat.registry ≡ self.now.name }
        requires some { 1 ≤ share }
        requires share { share < seat.knows.share }
        requires room { room ≤ seat.knows.room }
        requires bare { seat.knows.places ≡ [] }
        ensures first { result.0 ≡ record { registry = seat.registry; knows = rest_of share room seat.knows } }
        ensures second { result.1 ≡ record { registry = seat.registry; knows = cut_off share room seat.knows } }
        ensures bare { IsBare result.0.knows × IsBare result.1.knows }
    {
        let Seat { badge } = seat;
        let mut place = badge.into_seat();
        learn::<Brand, S>(&self.board, &mut place);
        let other = cut::<Brand, S>(&self.board, &mut place, share, room);
        (
            Seat {
                badge: place.into_badge(),
            },
            Seat {
                badge: other.into_badge(),
            },
        )
    }

    /// Joins two seats of which the run of the second follows that of the first. The seat has both runs as one, both
    /// rooms, both lists of places and of connections, and has seen the longer history. In that, the entries of each
    /// seat's connections stand at its own places alone.
    pub fn join(&self, left: Seat, right: Seat) -> Seat
        requires left { left.registry ≡ self.now.name }
        requires right { right.registry ≡ self.now.name }
        requires next { right.knows.first ≡ left.knows.first + left.knows.share }
        ensures both { result ≡ record { registry = left.registry; knows = joined left.knows right.knows } }
        ensures left { Keeps left.knows result.knows }
        ensures right { Keeps right.knows result.knows }
        ensures knows { Knows self.now.opening.ledger result.knows }
    {
        let Seat { badge: left } = left;
        let Seat { badge: right } = right;
        let mut place = left.into_seat();
        learn::<Brand, S>(&self.board, &mut place);
        let mut other = right.into_seat();
        learn::<Brand, S>(&self.board, &mut other);
        self.board.table.shared.join_seat::<Glue>(&mut place, other);
        learn::<Brand, S>(&self.board, &mut place);
        Seat {
            badge: place.into_badge(),
        }
    }

    /// The book, once a seat has the run of all workers, and so is the only one. What the seat knows is sound. The
    /// book's entries are all that the seat had seen, and the seat's places are those of all of them; so many of its
    /// connections are open and so many workers are done as the seat tells. It is the book that the registry was made
    /// of, after these entries.
    pub fn close(self, seat: Seat) -> Book<S>
        requires seat { seat.registry ≡ self.name }
        requires share { seat.knows.share ≡ self.opening.ledger.workers }
        ensures seen { result.ledger.entries ≡ seat.knows.seen }
        ensures places { AreAllPlaces seat.knows.places (length result.ledger.entries) }
        ensures opened { open_in result.ledger ≡ seat.knows.opened }
        ensures dones { done_in result.ledger ≡ seat.knows.dones }
        ensures knows { Knows self.opening.ledger seat.knows }
        ensures book { StandsAfter S.kept S.held self.opening result result.ledger.entries }
    {
        let Seat { badge } = seat;
        let Registry { board } = self;
        let Board { alloc: _, table } = board;
        let mut closed = table.close_with(badge.into_seat());
        let slot = closed.take(0);
        closed.free();
        let Some(book) = slot else { unreachable!() };
        book
    }
}

/// What holds of the seat's view.
pub(crate) fn learn<J: Learning, S: Shelf>(board: &Board<S>, place: &mut Place<S>)
    requires seat { place.old.table_id ≡ board.now.table.shared.table_id }
    requires learning { (view : View) → Knows board.now.table.shared.key.opening.value.ledger view → J.learns view }
    ensures same { (place.new.table_id ≡ place.old.table_id) × (place.new.id ≡ place.old.id) × (place.new.me ≡ place.old.me) }
    ensures learns { J.learns place.new.me.0 }
{
    board.table.shared.load::<Learn<J>>(place, 0);
}

/// The seat's run without its last worker numbers, and a seat with those.
fn cut<J: Cutting, S: Shelf>(
    board: &Board<S>,
    place: &mut Place<S>,
    share: u32,
    room: u32,
) -> Place<S>
    requires seat { place.old.table_id ≡ board.now.table.shared.table_id }
    requires idle { (place.old.me.1 ≡ []) × (place.old.me.0.stage ≡ Idle) }
    requires share { (J.share ≡ share) × (1 ≤ share) × (share < place.old.me.0.share) }
    requires room { (J.room ≡ room) × (room ≤ place.old.me.0.room) }
    requires bare { place.old.me.0.places ≡ [] }
    ensures same { (place.new.table_id ≡ place.old.table_id) × (place.new.id ≡ place.old.id) × (result.table_id ≡ place.old.table_id) }
    ensures first { place.new.me ≡ (rest_of share room place.old.me.0, []) }
    ensures second { result.me ≡ (cut_off share room place.old.me.0, []) }
{
    board.table.shared.split_seat::<Cut<J>>(place)
}
