//! What the answered entries say of each unit and of each connection, in tables.
ghost use Rattle.histories.specs.Answered.{open_count};
ghost use Rattle.unit_registry.specs.Projects.{unit_count};
ghost use Rattle.std.specs.Prelude.{◌≡◌, ◌<◌, ◌≤◌, ◌+◌, ◌^◌, ◌∷◌, [], true, false, IfOk, IfSome, List, length, get_or, reverse, filter, nat_lt, ◌&&◌, ◌||◌, ℕ, is_none, All, not, ◌==◌, vec_capacity};
ghost use Rattle.std.specs.Option.{option_map_or};
ghost use Rattle.std.specs.List.{list_any};
ghost use Rattle.histories.specs.Answered.{is_open, accepted_hello, holder, who, is_exported, is_reported, is_paused, has_gone, open_connections, opened_count, done_count};
ghost use Rattle.histories.specs.declared.answered.Answered.{Answered};
ghost use Rattle.histories.specs.declared.standing.Who.TheVariants.{Holder};
ghost use Rattle.unit_registry.specs.Acts.{unit_of, is_open_act, is_done};
ghost use Rattle.unit_registry.specs.Projects.{is_built};
ghost use Rattle.histories.specs.Answered.{is_accepted};
ghost use Rattle.registry_tables.specs.Tabled.{Tabled, fate_in, is_free_in, UnitRows, unit_row_after};

use crate::acts;
use crate::conn_rows::ConnTable;
use histories::{Answered, Fate, Who};
use mm_outside::Memory;
use std::alloc::Global;
use std::marker::Model;
use std::snapshot::Snapshot;
use unit_registry::Project;

/// What the entries say of a unit.
#[derive(Clone, Copy, Drop)]
pub struct UnitRow {
    pub holder: Option<u32>,
    pub exported: bool,
    pub reported: bool,
}

/// What the entries say of each unit and of each connection. All its memory is taken when it is made.
#[derive(Drop)]
pub struct Tables {
    project: Snapshot<Project>,
    built: Vec<bool>,
    given: Vec<bool>,
    units: Vec<UnitRow>,
    conns: ConnTable,
    open: Vec<u32>,
    answered: Vec<Answered>,
    opened: u32,
    done: u32,
}

impl Model for Tables {
    ghost use Rattle.std.specs.Prelude.{length, reverse, vec_capacity};
    ghost use Rattle.registry_tables.specs.Tabled.{Tabled, IsTabled};

    ghost Value = { Tabled };

    ghost view = { λ tables. record { project = tables.project.value; room = length tables.conns; seats = vec_capacity tables.open; places = vec_capacity tables.answered; given = tables.given.items; answered = reverse tables.answered.items } };

    ghost invariant = { λ tables. IsTabled tables.answered tables.units.items tables.conns tables.given.items tables.built.items tables.open tables.opened tables.done tables.project.value };
}

impl Tables {
    /// The tables of no entries, for so many connections in all and so many at a time, and for so many entries. All
    /// memory is taken here.
    pub fn new(
        alloc: Global,
        project: &Project,
        room: u32,
        seats: u32,
        places: u32,
    ) -> Result<Tables, Memory>
        ensures project { IfOk result (λ tables. tables.project ≡ project.now) }
        ensures room { IfOk result (λ tables. tables.room ≡ room) }
        ensures seats { IfOk result (λ tables. seats ≤ tables.seats) }
        ensures places { IfOk result (λ tables. places ≤ tables.places) }
        ensures answered { IfOk result (λ tables. tables.answered ≡ []) }
        ensures given { IfOk result (λ tables. (unit : ℕ) → get_or tables.given unit false ≡ false) }
    {
        let count = project.unit_count() as usize;
        let unit = UnitRow {
            holder: None,
            exported: false,
            reported: false,
        };
        Ok(Tables {
            project: Snapshot::of(project),
            built: built_marks(alloc, project)?,
            given: vec![in alloc; false; count]?,
            units: vec![in alloc; unit; count]?,
            conns: ConnTable::new(alloc, room)?,
            open: Vec::with_capacity(alloc, seats as usize)?,
            answered: Vec::with_capacity(alloc, places as usize)?,
            opened: 0,
            done: 0,
        })
    }

    /// The connection whose Hello took the unit, if one did.
    pub fn holder(&self, unit: u32) -> Option<u32>
        requires { unit < unit_count self.now.project }
        ensures { result ≡ holder self.now.answered unit }
    {
        self.units[unit as usize].holder
    }

    /// Whether an Export of the unit was accepted.
    pub fn is_exported(&self, unit: u32) -> bool
        requires { unit < unit_count self.now.project }
        ensures { result ≡ is_exported self.now.answered unit }
    {
        self.units[unit as usize].exported
    }

    /// Whether a Compiled of the unit was accepted.
    pub fn is_reported(&self, unit: u32) -> bool
        requires { unit < unit_count self.now.project }
        ensures { result ≡ is_reported self.now.answered unit }
    {
        self.units[unit as usize].reported
    }

    /// Who the connection is, by its Hello that was accepted.
    pub fn who(&self, conn: u32) -> Who
        requires { conn < self.now.room }
        ensures who { result ≡ who self.now.answered conn }
        ensures within { (unit : ℕ) → result ≡ Holder unit → unit < unit_count self.now.project }
    {
        self.conns.row(conn).who
    }

    /// Whether the connection's last act is a Pause.
    pub(crate) fn is_paused(&self, conn: u32) -> bool
        requires { conn < self.now.room }
        ensures { result ≡ is_paused self.now.answered conn }
    {
        self.conns.row(conn).paused
    }

    /// Whether the connection has left or was lost.
    pub(crate) fn has_gone(&self, conn: u32) -> bool
        requires { conn < self.now.room }
        ensures { result ≡ has_gone self.now.answered conn }
    {
        self.conns.row(conn).gone
    }

    /// The connections that are open.
    pub(crate) fn open(&self) -> &[u32]
        ensures open { reverse result.now ≡ open_connections self.now.answered }
        ensures within { All (λ conn. conn < self.now.room) result.now }
    {
        self.open.as_slice()
    }

    /// Whether the connection is open.
    pub fn is_open(&self, conn: u32) -> bool
        ensures { result ≡ is_open self.now.answered conn }
    {
        is_listed(&self.open, conn)
    }

    /// How many connections are open.
    pub fn open_count(&self) -> u32
        ensures count { result ≡ length (open_connections self.now.answered) }
        ensures few { result < 2 ^ 31 }
    {
        self.open.len() as u32
    }

    /// How many connections were opened.
    pub fn opened_count(&self) -> u32
        ensures count { result ≡ opened_count self.now.answered }
        ensures few { result < 2 ^ 31 }
    {
        self.opened
    }

    /// How many workers are done.
    pub fn done_count(&self) -> u32
        ensures count { result ≡ done_count self.now.answered }
        ensures few { result < 2 ^ 31 }
    {
        self.done
    }

    /// Whether the unit was built before.
    pub fn is_built(&self, unit: u32) -> bool
        requires { unit < unit_count self.now.project }
        ensures { result ≡ is_built self.now.project unit }
    {
        self.built[unit as usize]
    }

    /// Whether the unit was given up.
    pub fn is_given_up(&self, unit: u32) -> bool
        requires { unit < unit_count self.now.project }
        ensures { result ≡ get_or self.now.given unit false }
    {
        self.given[unit as usize]
    }

    /// How the unit has ended.
    pub fn fate(&self, unit: u32) -> Option<Fate>
        requires { unit < unit_count self.now.project }
        ensures { result ≡ fate_in self.now unit }
    {
        if self.built[unit as usize] || self.is_reported(unit) {
            return Some(Fate::Compiled);
        }
        if self.given[unit as usize] || self.holder_has_gone(unit) {
            return Some(Fate::Failed);
        }
        None
    }

    /// Whether it is one of the project's units, and has ended.
    pub(crate) fn has_ended(&self, unit: u32) -> bool
        ensures { result ≡ (nat_lt unit (unit_count self.now.project) && not (is_none (fate_in self.now unit))) }
    {
        (unit as usize) < self.built.len() && self.fate(unit).is_some()
    }

    fn holder_has_gone(&self, unit: u32) -> bool
        requires { unit < unit_count self.now.project }
        ensures { result ≡ option_map_or (has_gone self.now.answered) (holder self.now.answered unit) false }
    {
        match self.holder(unit) {
            Some(conn) => self.conns.row(conn).gone,
            None => false,
        }
    }

    /// Whether the unit has not ended and no connection holds it, but for one that was given up.
    pub(crate) fn is_free(&self, unit: u32) -> bool
        requires { unit < unit_count self.now.project }
        ensures { result ≡ is_free_in self.now unit }
    {
        self.holder(unit).is_none() && !(self.built[unit as usize] || self.is_reported(unit))
    }

    /// The unit is given up.
    pub(crate) fn give_up(&mut self, unit: u32)
        requires { unit < unit_count self.old.project }
        ensures same { self.new ≡ record self.old { given = self.new.given } }
        ensures given { (other : ℕ) → get_or self.new.given other false ≡ (get_or self.old.given other false || unit == other) }
    {
        self.given[unit as usize] = true;
    }

    /// One more entry.
    pub fn push(&mut self, newest: Answered)
        requires places { length self.old.answered < self.old.places }
        requires small { length self.old.answered + 1 < 2 ^ 31 }
        requires seats { is_open_act newest.act ≡ true → open_count self.old.answered < self.old.seats }
        requires conn { is_done newest.act ≡ false → newest.conn < self.old.room }
        requires unit { IfSome (unit_of newest.act) (λ unit. unit < unit_count self.old.project) }
        requires fresh { is_open_act newest.act ≡ true → has_gone self.old.answered newest.conn ≡ false }
        ensures { self.new ≡ record self.old { answered = newest ∷ self.old.answered } }
    {
        self.conns.note(newest);
        note_in_units(&mut self.units, newest);
        note_open(&mut self.open, newest);
        self.opened = opened_after(self.opened, newest);
        self.done = done_after(self.done, newest);
        self.answered.push_reserved(newest);
    }
}

/// Whether the number is one of these.
fn is_listed(numbers: &[u32], number: u32) -> bool
    ensures { result ≡ list_any (λ other. other == number) numbers.now }
{
    numbers.iter().any(|other| *other == number)
}

/// Which units were built before.
fn built_marks(alloc: Global, project: &Project) -> Result<Vec<bool>, Memory>
    ensures len { IfOk result (λ marks. length marks.items ≡ unit_count project.now) }
    ensures built { IfOk result (λ marks. (unit : ℕ) → get_or marks.items unit false ≡ is_built project.now unit) }
{
    let count = project.unit_count();
    let mut marks = vec![in alloc; false; count as usize]?;
    for unit in 0..count {
        marks[unit as usize] = project.is_built(unit);
    }
    Ok(marks)
}

fn note_unit(row: &mut UnitRow, unit: u32, newest: Answered)
    ensures { row.new ≡ unit_row_after row.old unit newest }
{
    if acts::takes(unit, newest) {
        row.holder = Some(newest.conn);
    }
    if acts::is_accepted(newest.said) {
        row.exported = acts::is_export_of(unit, newest.act) || row.exported;
        row.reported = acts::is_compiled_of(unit, newest.act) || row.reported;
    }
}

#[tactic(auto, using(crate::proofs::Tabling::units_named, crate::proofs::Tabling::units_unnamed))]
fn note_in_units(units: &mut Vec<UnitRow>, newest: Answered)
    requires { IfSome (unit_of newest.act) (λ unit. unit < length units.old.items) }
    ensures rows { (answered : List Answered) → UnitRows units.old.items answered → UnitRows units.new.items (newest ∷ answered) }
    ensures len { length units.new.items ≡ length units.old.items }
{
    if let Some(unit) = acts::unit_of(newest.act) {
        note_unit(&mut units[unit as usize], unit, newest);
    }
}

fn note_open(live: &mut Vec<u32>, newest: Answered)
    requires { is_open_act newest.act ≡ true → length live.old.items < vec_capacity live.old }
    ensures open { (answered : List Answered) → reverse live.old.items ≡ open_connections answered → (is_open_act newest.act ≡ true → has_gone answered newest.conn ≡ false) → reverse live.new.items ≡ open_connections (newest ∷ answered) }
    ensures within { (room : ℕ) → (is_open_act newest.act ≡ true → newest.conn < room) → All (λ conn. conn < room) live.old.items → All (λ conn. conn < room) live.new.items }
    ensures len { length live.new.items ≤ length live.old.items + 1 }
    ensures capacity { vec_capacity live.new ≡ vec_capacity live.old }
{
    if acts::is_open_act(newest.act) {
        live.push_reserved(newest.conn);
    } else if acts::goes(newest.act) {
        remove(live, newest.conn);
    }
}

fn remove(live: &mut Vec<u32>, conn: u32)
    ensures kept { live.new.items ≡ filter (λ other. not (other == conn)) live.old.items }
    ensures len { length live.new.items ≤ length live.old.items }
    ensures capacity { vec_capacity live.new ≡ vec_capacity live.old }
{
    live.retain(|other| *other != conn);
}

#[tactic(auto, using(crate::proofs::Openings::opened_more))]
fn opened_after(opened: u32, newest: Answered) -> u32
    requires { opened < 2 ^ 31 }
    ensures opened { (answered : List Answered) → opened ≡ opened_count answered → result ≡ opened_count (newest ∷ answered) }
    ensures few { result ≤ opened + 1 }
{
    if acts::is_open_act(newest.act) {
        opened + 1
    } else {
        opened
    }
}

#[tactic(auto, using(crate::proofs::Openings::done_more))]
fn done_after(done: u32, newest: Answered) -> u32
    requires { done < 2 ^ 31 }
    ensures done { (answered : List Answered) → done ≡ done_count answered → result ≡ done_count (newest ∷ answered) }
    ensures few { result ≤ done + 1 }
{
    if acts::is_done(newest.act) {
        done + 1
    } else {
        done
    }
}
