//! The worked examples, with memory enough.

use crate::holding::waits_its_turn;
use crate::ringing::{fetches, hears, rings, rings_after, stays_unanswered, wakes};
use crate::rooms::{fills_up, visits_twice};
use crate::two_seats::two_seats;
use crate::two_threads::{Told, TwoThreads, two_threads};
use registry_core::{Answer, Entry};
use std::test::Fail;
use unit_registry::Act;

/// An entry.
fn of(conn: u32, act: Act) -> Entry {
    Entry { conn, act }
}

/// The entries of both seats.
fn seven_entries() -> [Entry; 7] {
    [
        of(0, Act::Open),
        of(
            0,
            Act::Hello {
                version: 1,
                unit: Some(0),
            },
        ),
        of(0, Act::Export { unit: Some(0) }),
        of(
            0,
            Act::Compiled {
                unit: Some(0),
                stored: false,
            },
        ),
        of(1, Act::Open),
        of(
            1,
            Act::Hello {
                version: 1,
                unit: None,
            },
        ),
        of(
            1,
            Act::Import {
                unit: Some(0),
                name_only: false,
            },
        ),
    ]
}

#[test]
fn two_seats_make_seven_entries(rt: HostRuntime) -> Result<(), Fail> {
    let run = two_seats(&rt, rt.alloc()).ok_or("the places are as expected")?;
    let told = &run.reported;
    assert!(rt; [told.hello, told.exported, told.compiled] == [1, 2, 3]);
    assert!(rt; run.reported.answer == Some(Answer::Done));
    assert!(rt; [run.imported.hello, run.imported.imported] == [5, 6]);
    assert!(rt; run.imported.answer == Some(Answer::Path(0)));
    assert!(rt; run.book.entries() == seven_entries().as_slice());
    Ok(())
}

/// Whether the entries have, at each of these places, a request of the connection, and the places rise.
fn has_asked(entries: &[Entry], told: &Told) -> bool {
    let mut before = 0;
    let mut right = true;
    for place in told.places.iter() {
        if *place <= before || entries.get(*place as usize) != Some(&of(told.conn, Act::Repo)) {
            right = false;
        }
        before = *place;
    }
    right
}

/// How many entries are of the connection.
fn count_of(entries: &[Entry], conn: u32) -> usize {
    entries.iter().filter(|entry| entry.conn == conn).count()
}

/// Whether the entries are those of two connections, with 100 requests each.
fn are_204_entries(run: &TwoThreads) -> bool {
    let entries = run.book.entries();
    let mut right = entries.len() == 204 && run.one.conn != run.two.conn;
    for told in [&run.one, &run.two] {
        if told.places.len() != 100 || count_of(entries, told.conn) != 102 {
            right = false;
        }
        if !has_asked(entries, told) {
            right = false;
        }
    }
    right
}

#[test]
fn two_threads_make_204_entries(rt: HostRuntime) -> Result<(), Fail> {
    let run = two_threads(&rt, rt.alloc(), 100, false).ok_or("there is memory and room")?;
    assert!(rt; are_204_entries(&run));
    Ok(())
}

/// Whether the places follow each other.
fn are_next(places: &[u32]) -> bool {
    let mut expected = places.first().copied();
    for place in places {
        if expected != Some(*place) {
            return false;
        }
        expected = place.checked_add(1);
    }
    true
}

#[test]
fn two_threads_keep_their_turns(rt: HostRuntime) -> Result<(), Fail> {
    let run = two_threads(&rt, rt.alloc(), 100, true).ok_or("there is memory and room")?;
    assert!(rt; are_204_entries(&run));
    assert!(rt; are_next(run.one.places.as_slice()));
    assert!(rt; are_next(run.two.places.as_slice()));
    Ok(())
}

#[test]
fn a_call_waits_for_a_turn_that_is_kept(rt: HostRuntime) {
    assert!(rt; waits_its_turn(&rt, rt.alloc()));
}

#[test]
fn kept_items_are_fetched(rt: HostRuntime) {
    assert!(rt; fetches(&rt, rt.alloc()));
}

#[test]
fn an_entry_that_answers_no_import_leaves_the_bell(rt: HostRuntime) {
    assert!(rt; rings(&rt, rt.alloc()) == Some(0));
}

#[test]
fn a_wait_ends_with_a_ring_and_not_before(rt: HostRuntime) {
    assert!(rt; wakes(&rt) == 1);
}

#[test]
fn a_look_sees_what_others_entered_and_the_bell_tells_it(rt: HostRuntime) {
    assert!(rt; hears(&rt, rt.alloc()) == Some([0, 1, 1]));
}

#[test]
fn a_kept_turn_rings_once_it_is_passed(rt: HostRuntime) {
    assert!(rt; rings_after(&rt, rt.alloc()) == Some([0, 1]));
}

#[test]
fn a_look_waits_for_no_reply(rt: HostRuntime) {
    assert!(rt; stays_unanswered(&rt, rt.alloc()));
}

#[test]
fn seats_with_rooms_are_never_refused(rt: HostRuntime) {
    assert!(rt; visits_twice(&rt, rt.alloc()).is_some());
}

#[test]
fn a_full_history_refuses_with_its_numbers(rt: HostRuntime) {
    assert!(rt; fills_up(&rt, rt.alloc()));
}
