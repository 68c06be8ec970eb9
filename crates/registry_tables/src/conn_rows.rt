//! What the entries say of each connection, in rows.

ghost use Rattle.std.specs.Prelude.{◌≡◌, ◌<◌, ◌≤◌, ◌∷◌, IfOk, List, length, get_or, set, replicate, vec_capacity};
ghost use Rattle.histories.specs.declared.answered.Answered.{Answered};
ghost use Rattle.registry_tables.specs.Tabled.{ConnRows, conn_row_after, empty_row, padded};

use crate::acts;
use histories::{Answered, Who};
use mm_outside::Memory;
use std::alloc::Global;
use std::marker::Model;

/// What the entries say of a connection.
#[derive(Clone, Copy, Drop)]
pub struct ConnRow {
    pub who: Who,
    pub paused: bool,
    pub gone: bool,
}

/// The row of a connection of which no entry says anything.
const EMPTY: ConnRow = ConnRow {
    who: Who::Nobody,
    paused: false,
    gone: false,
};

/// The rows of so many connections. Only the first of them are written, up to the last connection of which an entry
/// says something. All its memory is taken when it is made.
#[derive(Drop)]
pub(crate) struct ConnTable {
    rows: Vec<ConnRow>,
    room: u32,
}

impl Model for ConnTable {
    ghost use Rattle.std.specs.Prelude.{◌≤◌, List, length, vec_capacity};
    ghost use Rattle.registry_tables.specs.declared.conn_rows.ConnRow.{ConnRow};
    ghost use Rattle.registry_tables.specs.Tabled.{padded};

    ghost Value = { List ConnRow };

    ghost view = { λ table. padded table.rows.items table.room };

    ghost invariant = { λ table. (length table.rows.items ≤ table.room) × (table.room ≤ vec_capacity table.rows) };
}

impl ConnTable {
    /// Empty rows, for so many connections. All memory is taken here.
    pub(crate) fn new(alloc: Global, room: u32) -> Result<ConnTable, Memory>
        ensures { IfOk result (λ table. table ≡ replicate room empty_row) }
    {
        let rows = Vec::with_capacity(alloc, room as usize)?;
        Ok(ConnTable { rows, room })
    }

    /// The row of a connection.
    pub(crate) fn row(&self, conn: u32) -> ConnRow
        requires { conn < length self.now }
        ensures { result ≡ get_or self.now conn empty_row }
    {
        row_at(&self.rows, conn)
    }

    /// One more entry. A Done is of no connection.
    pub(crate) fn note(&mut self, newest: Answered)
        ensures rows { (answered : List Answered) → ConnRows self.old answered → ConnRows self.new (newest ∷ answered) }
        ensures len { length self.new ≡ length self.old }
    {
        if newest.conn >= self.room {
            return;
        }
        write_up_to(&mut self.rows, newest.conn, self.room);
        note_in_rows(&mut self.rows, newest);
    }
}

/// The row of a connection, which is empty where it isn't written.
fn row_at(rows: &[ConnRow], conn: u32) -> ConnRow
    ensures { result ≡ get_or rows.now conn empty_row }
{
    if (conn as usize) < rows.len() {
        rows[conn as usize]
    } else {
        EMPTY
    }
}

/// Writes the rows that aren't written, up to that of the connection.
fn write_up_to(rows: &mut Vec<ConnRow>, conn: u32, room: u32)
    requires conn { conn < room }
    requires few { length rows.old.items ≤ room }
    requires capacity { room ≤ vec_capacity rows.old }
    ensures written { conn < length rows.new.items }
    ensures few { length rows.new.items ≤ room }
    ensures same { padded rows.new.items room ≡ padded rows.old.items room }
    ensures capacity { vec_capacity rows.new ≡ vec_capacity rows.old }
{
    while rows.len() <= conn as usize {
        rows.push_reserved(EMPTY);
    }
}

/// Notes an entry in the row of its connection.
fn note_in_rows(rows: &mut Vec<ConnRow>, newest: Answered)
    requires { newest.conn < length rows.old.items }
    ensures rows { rows.new.items ≡ set rows.old.items newest.conn (conn_row_after (get_or rows.old.items newest.conn empty_row) newest) }
    ensures capacity { vec_capacity rows.new ≡ vec_capacity rows.old }
{
    note_conn(&mut rows[newest.conn as usize], newest);
}

fn note_conn(row: &mut ConnRow, newest: Answered)
    ensures { row.new ≡ conn_row_after row.old newest }
{
    match acts::accepted_hello(newest) {
        Some(Some(unit)) => row.who = Who::Holder(unit),
        Some(None) => row.who = Who::Guest,
        None => {}
    }
    row.paused = acts::is_pause(newest.act);
    row.gone = acts::goes(newest.act) || row.gone;
}
