//! The imports that wait, the replies of all places, and the graph of who waits for whom.
ghost use Rattle.unit_registry.specs.Projects.{unit_count};
ghost use Rattle.std.specs.Prelude.{◌≡◌, ℕ, ◌<◌, ◌≤◌, ◌↔◌, ◌++◌, ◌∷◌, ◌^◌, ◌==◌, ◌&&◌, not, [], true, false, None, Some, IfOk, IfSome, IsTrue, List, length, get_or, reverse, filter, map, Option, is_none, vec_len, vec_capacity};
ghost use Rattle.histories.specs.declared.answer.Answer.{Answer};
ghost use Rattle.histories.specs.declared.answer.Said.TheVariants as said;
ghost use Rattle.histories.specs.Members.{In};
ghost use Rattle.histories.specs.Noted.{answer_by, answer_in};
ghost use Rattle.unit_registry.specs.Acts.{goes, is_done};
ghost use Rattle.histories.specs.Answered.{who};
ghost use Rattle.wait_graph.specs.Walks.{Leads};
ghost use Rattle.registry_tables.specs.declared.imports.Waiting.{Waiting};
ghost use Rattle.registry_tables.specs.Imported.{Imported, AllWithin, IsTied, pairs_in, Settles, is_ended_in, ended_places, count_of, without, held, newest_waiting, WaitsWell, ClosesNone};
ghost use Rattle.std.specs.List.{list_any};
ghost use Rattle.registry_tables.specs.Tabled.{fate_in};

use crate::tables::Tables;
use crate::{acts, wait_counts};
use histories::{Answer, Answered, Fate, Said, Who};
use mapper_replies::Refusal;
use mm_outside::Memory;
use std::alloc::Global;
use std::marker::Model;
use wait_graph::Waits;

/// An import that waits, and the unit that its connection holds.
#[derive(Clone, Copy, Debug, PartialEq, Eq)]
pub struct Waiting {
    /// Its place in the history.
    pub place: u32,
    /// Its connection.
    pub conn: u32,
    /// The unit that it waits for.
    pub unit: u32,
    /// The unit that its connection holds, if it holds one.
    pub holder: Option<u32>,
}

/// The imports that wait, the replies of all places, and the graph of who waits for whom. All its memory is taken when
/// it is made.
#[derive(Drop)]
pub struct Imports {
    waiting: Vec<Waiting>,
    replies: Vec<Option<Answer>>,
    answered: Vec<u32>,
    counts: Vec<u32>,
    conns: u32,
    graph: Waits,
}

impl Model for Imports {
    ghost use Rattle.std.specs.Prelude.{reverse};
    ghost use Rattle.registry_tables.specs.Imported.{Imported, IsImported};

    ghost Value = { Imported };

    ghost view = { λ imports. record { units = imports.graph.units; conns = imports.conns; room = imports.graph.edges; waiting = reverse imports.waiting.items; replies = imports.replies.items; answered = imports.answered.items } };

    ghost invariant = { λ imports. IsImported imports.waiting imports.replies imports.answered imports.counts imports.conns imports.graph };
}

impl Imports {
    /// No imports and no places, with room for so many units, connections and places. All memory is taken here.
    pub fn new(alloc: Global, units: u32, conns: u32, room: u32) -> Result<Imports, Memory>
        ensures { IfOk result (λ imports. imports ≡ record { units = units; conns = conns; room = room; waiting = []; replies = []; answered = [] }) }
    {
        Ok(Imports {
            waiting: Vec::with_capacity(alloc, room as usize)?,
            replies: Vec::with_capacity(alloc, room as usize)?,
            answered: Vec::with_capacity(alloc, room as usize)?,
            counts: Vec::with_capacity(alloc, conns as usize)?,
            conns,
            graph: Waits::new(alloc, units, room)?,
        })
    }

    /// The reply at the place, where it has come.
    pub fn reply(&self, place: u32) -> Option<Answer>
        requires { place < length self.now.replies }
        ensures { result ≡ get_or self.now.replies place None }
    {
        self.replies[place as usize]
    }

    /// The places of the imports that got their replies when they were settled last, the oldest first.
    pub fn answered(&self) -> &[u32]
        ensures { result.now ≡ self.now.answered }
    {
        self.answered.as_slice()
    }

    /// How many imports wait.
    pub fn waiting_count(&self) -> u32
        requires { length self.now.waiting < 2 ^ 31 }
        ensures { result ≡ length self.now.waiting }
    {
        self.waiting.len() as u32
    }

    /// The imports that wait, the oldest first.
    pub fn waiting(&self) -> &[Waiting]
        ensures { reverse result.now ≡ self.now.waiting }
    {
        self.waiting.as_slice()
    }

    /// Whether an import of the connection waits.
    pub(crate) fn waits(&self, conn: u32) -> bool
        ensures { result ≡ list_any (λ waiter. waiter.conn == conn) self.now.waiting }
    {
        wait_counts::count_at(&self.counts, conn) != 0
    }

    /// Whether a walk leads from one unit to the other along the waits.
    pub fn reaches(&mut self, from: u32, to: u32) -> bool
        ensures walk { IsTrue result ↔ Leads (pairs_in (reverse self.old.waiting)) from to }
        ensures same { self.new ≡ self.old }
    {
        self.graph.reaches(from, to)
    }

    /// One more place, and its reply if it has one at once.
    fn push_reply(&mut self, reply: Option<Answer>)
        requires { length self.old.replies < self.old.room }
        ensures { self.new ≡ record self.old { replies = self.old.replies ++ reply ∷ [] } }
    {
        self.replies.push_reserved(reply);
    }

    /// One more import that waits.
    fn push_waiting(&mut self, waiter: Waiting)
        requires room { length self.old.waiting < self.old.room }
        requires small { self.old.room < 2 ^ 31 }
        requires conn { waiter.conn < self.old.conns }
        requires unit { waiter.unit < self.old.units }
        requires holder { IfSome waiter.holder (λ held. held < self.old.units) }
        requires no_circle { ClosesNone (reverse self.old.waiting) waiter.holder waiter.unit }
        ensures { self.new ≡ record self.old { waiting = waiter ∷ self.old.waiting } }
    {
        add_pair(&mut self.graph, waiter);
        wait_counts::raise(&mut self.counts, waiter.conn);
        self.waiting.push_reserved(waiter);
    }

    /// The imports whose unit has ended get their reply, and wait no more. Where no unit can have ended since the last
    /// time, none of them is looked at.
    pub fn settle(&mut self, tables: &Tables, ends: bool)
        requires within { AllWithin self.old.waiting (unit_count tables.now.project) (length self.old.replies) }
        requires idle { ends ≡ false → (waiter : Waiting) → In waiter self.old.waiting → is_none (fate_in tables.now waiter.unit) ≡ true }
        ensures waiting { self.new.waiting ≡ filter (λ waiter. is_none (fate_in tables.now waiter.unit)) self.old.waiting }
        ensures replies { (reply : ℕ → Option Answer) → Settles tables.now self.old.waiting self.old.replies reply → (place : ℕ) → place < length self.old.replies → get_or self.new.replies place None ≡ reply place }
        ensures answered { self.new.answered ≡ ended_places tables.now self.old.waiting }
        ensures conns { self.new.conns ≡ self.old.conns }
        ensures kept { (self.new.units ≡ self.old.units) × (self.new.room ≡ self.old.room) × (length self.new.replies ≡ length self.old.replies) }
    {
        if ends {
            self.settle_all(tables);
        } else {
            self.answers_none();
        }
    }

    fn answers_none(&mut self)
        ensures { self.new ≡ record self.old { answered = [] } }
    {
        self.answered.clear();
    }

    /// The same, where each of them is looked at.
    fn settle_all(&mut self, tables: &Tables)
        requires { AllWithin self.old.waiting (unit_count tables.now.project) (length self.old.replies) }
        ensures waiting { self.new.waiting ≡ filter (λ waiter. is_none (fate_in tables.now waiter.unit)) self.old.waiting }
        ensures replies { (reply : ℕ → Option Answer) → Settles tables.now self.old.waiting self.old.replies reply → (place : ℕ) → place < length self.old.replies → get_or self.new.replies place None ≡ reply place }
        ensures answered { self.new.answered ≡ ended_places tables.now self.old.waiting }
        ensures conns { self.new.conns ≡ self.old.conns }
        ensures kept { (self.new.units ≡ self.old.units) × (self.new.room ≡ self.old.room) × (length self.new.replies ≡ length self.old.replies) }
    {
        list_ended(&self.waiting, tables, &mut self.answered);
        answer_ended(&self.waiting, tables, &mut self.replies);
        settle_ended(&self.waiting, tables, &mut self.graph);
        lower_ended(&self.waiting, tables, &mut self.counts);
        drop_ended(&mut self.waiting, tables);
    }

    /// One more entry: its reply if it has one at once, and its import if it waits.
    pub fn note(&mut self, tables: &Tables, place: u32, newest: Answered)
        requires rooms { (length self.old.replies < self.old.room) × (length self.old.waiting < self.old.room) }
        requires small { self.old.room < 2 ^ 31 }
        requires conns { self.old.conns ≡ tables.now.room }
        requires conn { is_done newest.act ≡ false → newest.conn < tables.now.room }
        requires waits { WaitsWell newest.said newest.act self.old.units }
        requires units { self.old.units ≡ unit_count tables.now.project }
        requires no_circle { (unit : ℕ) → newest.said ≡ said.Waits unit → ClosesNone (reverse self.old.waiting) (held (who tables.now.answered newest.conn)) unit }
        ensures { self.new ≡ record self.old { waiting = newest_waiting newest.said place newest.conn (held (who tables.now.answered newest.conn)) self.old.waiting; replies = self.old.replies ++ answer_in newest.said ∷ [] } }
    {
        self.push_reply(answer_in(newest.said));
        if let Said::Waits(unit) = newest.said {
            let holder = held(tables.who(newest.conn));
            self.push_waiting(Waiting {
                place,
                conn: newest.conn,
                unit,
                holder,
            });
        }
    }

    /// After one more entry: the imports of a connection that goes wait no more.
    pub fn leave(&mut self, tables: &Tables, newest: Answered)
        requires conn { is_done newest.act ≡ false → newest.conn < tables.now.room }
        requires tied { (waiter : Waiting) → In waiter self.old.waiting → IsTied newest.conn (held (who tables.now.answered newest.conn)) waiter }
        ensures { self.new ≡ record self.old { waiting = filter (λ waiter. not (goes newest.act && waiter.conn == newest.conn)) self.old.waiting } }
    {
        if acts::goes(newest.act) {
            self.drop_conn(newest.conn, held(tables.who(newest.conn)));
        }
    }

    /// The imports of the connection wait no more.
    fn drop_conn(&mut self, conn: u32, holder: Option<u32>)
        requires { (waiter : Waiting) → In waiter self.old.waiting → IsTied conn holder waiter }
        ensures { self.new ≡ record self.old { waiting = filter (λ waiter. not (waiter.conn == conn)) self.old.waiting } }
    {
        drop_pairs(&mut self.graph, holder);
        drop_of(&mut self.waiting, conn);
        wait_counts::clear(&mut self.counts, conn);
    }
}

/// The pair of the import, where its connection holds a unit.
fn add_pair(graph: &mut Waits, waiter: Waiting)
    requires room { length graph.old.pairs < graph.old.edges }
    requires unit { waiter.unit < graph.old.units }
    requires holder { IfSome waiter.holder (λ held. held < graph.old.units) }
    requires no_circle { IfSome waiter.holder (λ held. ¬ Leads graph.old.pairs waiter.unit held) }
    ensures { graph.new ≡ record graph.old { pairs = graph.old.pairs ++ pairs_in (waiter ∷ []) } }
{
    if let Some(holder) = waiter.holder {
        graph.add(holder, waiter.unit);
    }
}

fn drop_pairs(graph: &mut Waits, holder: Option<u32>)
    ensures { graph.new ≡ record graph.old { pairs = without holder graph.old.pairs } }
{
    if let Some(unit) = holder {
        graph.drop_from(unit);
    }
}

fn drop_of(waiting: &mut Vec<Waiting>, conn: u32)
    ensures kept { waiting.new.items ≡ filter (λ waiter. not (waiter.conn == conn)) waiting.old.items }
    ensures few { length waiting.new.items ≤ length waiting.old.items }
    ensures capacity { vec_capacity waiting.new ≡ vec_capacity waiting.old }
{
    waiting.retain(|waiter| waiter.conn != conn);
}

/// Removes the imports whose unit has ended.
fn drop_ended(waiting: &mut Vec<Waiting>, tables: &Tables)
    requires { (waiter : Waiting) → In waiter waiting.old.items → waiter.unit < unit_count tables.now.project }
    ensures kept { waiting.new.items ≡ filter (λ waiter. is_none (fate_in tables.now waiter.unit)) waiting.old.items }
    ensures few { length waiting.new.items ≤ length waiting.old.items }
    ensures capacity { vec_capacity waiting.new ≡ vec_capacity waiting.old }
{
    waiting.retain(|waiter| !tables.has_ended(waiter.unit));
}

/// Removes the pairs to the units that have ended.
fn settle_ended(waiting: &[Waiting], tables: &Tables, graph: &mut Waits)
    requires { (waiter : Waiting) → In waiter waiting.now → waiter.unit < unit_count tables.now.project }
    ensures { graph.new ≡ record graph.old { pairs = filter (λ pair. not (is_ended_in tables.now (reverse waiting.now) pair.1)) graph.old.pairs } }
{
    for waiter in waiting {
        settle_unit(waiter.unit, tables, graph);
    }
}

/// Removes the pairs to the unit, where it has ended.
fn settle_unit(unit: u32, tables: &Tables, graph: &mut Waits)
    requires { unit < unit_count tables.now.project }
    ensures ended { is_none (fate_in tables.now unit) ≡ false → graph.new ≡ record graph.old { pairs = filter (λ pair. not (pair.1 == unit)) graph.old.pairs } }
    ensures open { is_none (fate_in tables.now unit) ≡ true → graph.new ≡ graph.old }
{
    if tables.fate(unit).is_some() {
        graph.settle(unit);
    }
}

/// Takes the imports whose unit has ended off the numbers of those that wait.
fn lower_ended(waiting: &[Waiting], tables: &Tables, counts: &mut Vec<u32>)
    requires units { (waiter : Waiting) → In waiter waiting.now → waiter.unit < unit_count tables.now.project }
    requires counted { (conn : ℕ) → get_or counts.old.items conn 0 ≡ count_of waiting.now conn }
    ensures counted { (conn : ℕ) → get_or counts.new.items conn 0 ≡ count_of (filter (λ waiter. is_none (fate_in tables.now waiter.unit)) waiting.now) conn }
    ensures capacity { vec_capacity counts.new ≡ vec_capacity counts.old }
{
    for waiter in waiting {
        if tables.fate(waiter.unit).is_some() {
            wait_counts::lower(counts, waiter.conn);
        }
    }
}

/// Lists the places of the imports whose unit has ended.
fn list_ended(waiting: &[Waiting], tables: &Tables, places: &mut Vec<u32>)
    requires units { (waiter : Waiting) → In waiter waiting.now → waiter.unit < unit_count tables.now.project }
    requires room { length waiting.now ≤ vec_capacity places.old }
    ensures places { places.new.items ≡ map (λ waiter. waiter.place) (filter (λ waiter. not (is_none (fate_in tables.now waiter.unit))) waiting.now) }
    ensures capacity { vec_capacity places.new ≡ vec_capacity places.old }
{
    places.clear();
    for waiter in waiting {
        if tables.fate(waiter.unit).is_some() {
            places.push_reserved(waiter.place);
        }
    }
}

/// Writes the replies of the imports whose unit has ended.
fn answer_ended(waiting: &[Waiting], tables: &Tables, replies: &mut Vec<Option<Answer>>)
    requires { AllWithin waiting.now (unit_count tables.now.project) (length replies.old.items) }
    ensures replies { (reply : ℕ → Option Answer) → Settles tables.now (reverse waiting.now) replies.old.items reply → (place : ℕ) → place < length replies.old.items → get_or replies.new.items place None ≡ reply place }
    ensures len { length replies.new.items ≡ length replies.old.items }
    ensures capacity { vec_capacity replies.new ≡ vec_capacity replies.old }
{
    for waiter in waiting {
        if let Some(fate) = tables.fate(waiter.unit) {
            replies[waiter.place as usize] = Some(answer_by(fate, waiter.unit));
        }
    }
}

fn answer_by(fate: Fate, unit: u32) -> Answer
    ensures { result ≡ answer_by fate unit }
{
    match fate {
        Fate::Compiled => Answer::Path(unit),
        Fate::Failed => Answer::Refused(Refusal::UnitFailed),
    }
}

/// The unit that a connection holds.
fn held(who: Who) -> Option<u32>
    ensures { result ≡ held who }
{
    match who {
        Who::Holder(unit) => Some(unit),
        _ => None,
    }
}

fn answer_in(said: Said) -> Option<Answer>
    ensures { result ≡ answer_in said }
{
    match said {
        Said::Reply(answer) => Some(answer),
        _ => None,
    }
}
