//! The history of a registry, with its tables, its waiting imports and its replies.

ghost use Rattle.std.specs.Prelude.{◌≡◌, ◌<◌, ◌≤◌, ◌+◌, ◌^◌, ℕ, IfOk, IfErr, [], None, true, false, length, IfSome, IsTrue, IsFalse};
ghost use Rattle.unit_registry.specs.declared.act.Act.TheVariants.{Open, Done};
ghost use Rattle.unit_registry.specs.Acts.{unit_of, is_done};
ghost use Rattle.unit_registry.specs.Projects.{unit_count};
ghost use Rattle.histories.specs.Entries.{has_its_unit, no_connection, IsTraceEntry, HasNumbers};
ghost use Rattle.histories.specs.Noted.{fate};
ghost use Rattle.histories.specs.Histories.{is_out_of_range};
ghost use Rattle.histories.specs.Counts.{Asks, effect_of};
ghost use Rattle.histories.specs.Answers.{at_once, closes_cycle, is_connected, is_taken, refused, refusal_of, to_hello, to_export, to_compiled, to_import};
ghost use Rattle.registry_core.specs.Ledgers.{LedgerView, IsLedger, Passes, Appends, IsFull, HasRoom, entry, leaving, noted_in, said_in, said_to, is_open_in, opened_in, open_in, done_in, reserved_in, reply_at, answered_last, waiting_in};
ghost use Rattle.registry_core.specs.Standing.{asks_connected};

use crate::{Full, Leaving};
use histories::{Answer, Answered, Entry, Fate, Said, Who};
use mapper_replies::Refusal;
use mapper_requests::Bad;
use mm_outside::Memory;
use registry_tables::{Imports, Tables, may_end, settle_stall};
use std::alloc::Global;
use std::marker::Model;
use unit_registry::{Act, Project};

/// A history, with what is kept beside it to answer from: tables by unit and by connection, the imports that wait, and
/// the replies. No entry is read again. All its memory is taken when it is made.
#[derive(Drop)]
pub(crate) struct Ledger {
    tables: Tables,
    imports: Imports,
    entries: Vec<Entry>,
    workers: u32,
    limit: u32,
}

impl Model for Ledger {
    ghost use Rattle.histories.specs.Histories.{noted_of};
    ghost use Rattle.registry_core.specs.Ledgers.{LedgerView};
    ghost use Rattle.registry_core.specs.Standing.{Stands};

    ghost Value = { LedgerView };

    ghost view = { λ ledger. record { project = ledger.tables.project; workers = ledger.workers; limit = ledger.limit; entries = ledger.entries.items } };

    ghost invariant = { λ ledger. Stands ledger.tables ledger.imports ledger.entries ledger.workers ledger.limit (noted_of ledger.tables.project ledger.workers ledger.entries.items) };
}

impl Ledger {
    /// The ledger of an empty history. All memory is taken here.
    pub(crate) fn new(
        alloc: Global,
        project: &Project,
        workers: u32,
        limit: u32,
    ) -> Result<Ledger, Memory>
        requires some { 1 ≤ workers }
        requires few { workers ≤ limit }
        requires small { limit < 2 ^ 31 }
        ensures { IfOk result (λ ledger. ledger ≡ record { project = project.now; workers = workers; limit = limit; entries = [] }) }
    {
        let tables = Tables::new(alloc, project, limit / 2, workers, limit)?;
        let imports = Imports::new(alloc, project.unit_count(), limit / 2, limit)?;
        let entries = Vec::with_capacity(alloc, limit as usize)?;
        Ok(Ledger {
            tables,
            imports,
            entries,
            workers,
            limit,
        })
    }

    /// The history is legal, for its project, its workers and its limit.
    pub(crate) fn is_legal(&self)
        ensures { IsLedger self.now }
    {
        let _ = &self.limit;
    }

    /// The reply to the request at the place, if it has come.
    pub(crate) fn look(&self, place: u32) -> Option<Answer>
        ensures { result ≡ reply_at self.now place }
    {
        if place as usize >= self.entries.len() {
            return None;
        }
        self.imports.reply(place)
    }

    /// The places of the imports that got their replies with the last entry, the oldest first.
    pub(crate) fn answered(&self) -> &[u32]
        ensures { result.now ≡ answered_last self.now }
    {
        self.imports.answered()
    }

    /// How many imports wait.
    pub(crate) fn waiting_count(&self) -> u32
        ensures { result ≡ waiting_in self.now }
    {
        self.imports.waiting_count()
    }

    /// The entries.
    pub(crate) fn entries(&self) -> &[Entry]
        ensures { result.now ≡ self.now.entries }
    {
        self.entries.as_slice()
    }

    /// Whether the connection is open.
    pub(crate) fn is_open(&self, conn: u32) -> bool
        ensures { result ≡ is_open_in self.now conn }
    {
        self.tables.is_open(conn)
    }

    /// How many connections are open.
    pub(crate) fn open_count(&self) -> u32
        ensures { result ≡ open_in self.now }
    {
        self.tables.open_count()
    }

    /// How many workers are done.
    pub(crate) fn done_count(&self) -> u32
        ensures { result ≡ done_in self.now }
    {
        self.tables.done_count()
    }

    /// The length of the history, and the ends that are still to come.
    pub(crate) fn room_taken(&self) -> Full
        ensures entries { result.entries ≡ length self.now.entries }
        ensures reserved { result.reserved ≡ reserved_in self.now }
        ensures fits { result.entries + result.reserved ≤ self.now.limit }
        ensures small { self.now.limit < 2 ^ 31 }
    {
        Full {
            entries: self.entries.len() as u32,
            reserved: self.tables.open_count() + (self.workers - self.tables.done_count()),
        }
    }

    /// The most entries, the ends counted.
    pub(crate) fn limit(&self) -> u32
        ensures { result ≡ self.now.limit }
    {
        self.limit
    }

    /// The number of the connection that opens next.
    pub(crate) fn next_conn(&self) -> u32
        ensures { result ≡ opened_in self.now }
    {
        self.tables.opened_count()
    }

    fn fate(&self, unit: u32) -> Option<Fate>
        requires { unit < unit_count self.now.project }
        ensures { result ≡ fate self.now.project (noted_in self.now) unit }
    {
        self.tables.fate(unit)
    }

    fn is_connected(&self, conn: u32) -> bool
        requires { conn + conn + 1 < self.now.limit }
        ensures { result ≡ is_connected (said_in self.now) conn }
    {
        self.tables.who(conn) != Who::Nobody
    }

    /// Whether no Hello can take the unit any more.
    fn is_taken(&self, unit: u32) -> bool
        requires { unit < unit_count self.now.project }
        ensures { result ≡ is_taken self.now.project (noted_in self.now) unit }
    {
        self.tables.is_built(unit)
            || self.tables.is_given_up(unit)
            || self.tables.holder(unit).is_some()
    }

    fn answer_hello(&self, conn: u32, version: u32, unit: Option<u32>) -> Said
        requires conn { conn + conn + 1 < self.now.limit }
        requires unit { IfSome unit (λ unit. unit < unit_count self.now.project) }
        ensures { result ≡ to_hello self.now.project (noted_in self.now) conn version unit }
    {
        if self.is_connected(conn) {
            return refused(Refusal::AlreadyConnected);
        }
        if version != 1 {
            return refused(Refusal::Version);
        }
        if let Some(unit) = unit
            && self.is_taken(unit)
        {
            return refused(Refusal::UnitTaken);
        }
        Said::Reply(Answer::Hello)
    }

    fn answer_export(&self, conn: u32, unit: Option<u32>) -> Said
        requires conn { conn + conn + 1 < self.now.limit }
        requires unit { IfSome unit (λ unit. unit < unit_count self.now.project) }
        ensures { result ≡ to_export (said_in self.now) conn unit }
    {
        let Some(unit) = unit else {
            return refused(Refusal::UnknownUnit);
        };
        if self.tables.who(conn) != Who::Holder(unit) {
            return refused(Refusal::NotYourUnit);
        }
        if self.tables.is_exported(unit) {
            return refused(Refusal::AlreadyExported);
        }
        Said::Reply(Answer::Path(unit))
    }

    fn answer_compiled(&self, conn: u32, unit: Option<u32>) -> Said
        requires conn { conn + conn + 1 < self.now.limit }
        requires unit { IfSome unit (λ unit. unit < unit_count self.now.project) }
        ensures { result ≡ to_compiled (said_in self.now) conn unit }
    {
        let Some(unit) = unit else {
            return refused(Refusal::UnknownUnit);
        };
        if self.tables.who(conn) != Who::Holder(unit) {
            return refused(Refusal::NotYourUnit);
        }
        if self.tables.is_reported(unit) {
            return refused(Refusal::AlreadyCompiled);
        }
        if !self.tables.is_exported(unit) {
            return refused(Refusal::NotExported);
        }
        Said::Reply(Answer::Done)
    }

    /// Whether the connection holds a unit to which a walk leads from this one.
    fn closes_cycle(&mut self, conn: u32, unit: u32) -> bool
        requires conn { conn + conn + 1 < self.old.limit }
        ensures circle { result ≡ closes_cycle self.old.project (noted_in self.old) conn unit }
        ensures same { self.new ≡ self.old }
    {
        match self.tables.who(conn) {
            Who::Holder(held) => self.imports.reaches(unit, held),
            _ => false,
        }
    }

    fn answer_import(&mut self, conn: u32, unit: Option<u32>, name_only: bool) -> Said
        requires conn { conn + conn + 1 < self.old.limit }
        requires unit { IfSome unit (λ unit. unit < unit_count self.old.project) }
        ensures said { result ≡ to_import self.old.project (noted_in self.old) conn unit name_only }
        ensures same { self.new ≡ self.old }
    {
        let Some(unit) = unit else {
            return refused(Refusal::UnknownUnit);
        };
        if name_only {
            return Said::Reply(Answer::Path(unit));
        }
        match self.fate(unit) {
            Some(Fate::Compiled) => Said::Reply(Answer::Path(unit)),
            Some(Fate::Failed) => refused(Refusal::UnitFailed),
            None if self.closes_cycle(conn, unit) => refused(Refusal::ImportCycle),
            None => Said::Waits(unit),
        }
    }

    /// What is said to a request of a connected connection.
    fn answer_connected(&mut self, conn: u32, act: Act) -> Said
        requires conn { conn + conn + 1 < self.old.limit }
        requires unit { IfSome (unit_of act) (λ unit. unit < unit_count self.old.project) }
        requires connected { is_connected (said_in self.old) conn ≡ true }
        ensures said { asks_connected act ≡ true → result ≡ said_to self.old conn act }
        ensures same { self.new ≡ self.old }
    {
        match act {
            Act::Repo => Said::Reply(Answer::Repo),
            Act::Export { unit } => self.answer_export(conn, unit),
            Act::Import { unit, name_only } => self.answer_import(conn, unit, name_only),
            Act::Compiled { unit, stored: _ } => self.answer_compiled(conn, unit),
            Act::Translate { header } => Said::Reply(Answer::Bool(header)),
            _ => Said::Nothing,
        }
    }

    /// What is said at once.
    fn at_once(&mut self, conn: u32, act: Act) -> Said
        requires conn { is_done act ≡ false → conn + conn + 1 < self.old.limit }
        requires unit { IfSome (unit_of act) (λ unit. unit < unit_count self.old.project) }
        ensures said { result ≡ said_to self.old conn act }
        ensures same { self.new ≡ self.old }
    {
        match act {
            Act::Hello { version, unit } => self.answer_hello(conn, version, unit),
            Act::Bad { why } => refused(refusal_of(why)),
            Act::Open | Act::Pause | Act::Left | Act::Lost | Act::Done => Said::Nothing,
            _ if !self.is_connected(conn) => refused(Refusal::NotConnected),
            _ => self.answer_connected(conn, act),
        }
    }

    /// One more entry, which passes the checks. Answers its place.
    pub(crate) fn enter(&mut self, conn: u32, act: Act) -> u32
        requires legal { IsLedger self.old }
        requires passes { Passes self.old (entry conn act) }
        requires whole { IsTraceEntry (entry conn act) }
        ensures place { result ≡ length self.old.entries }
        ensures entered { Appends self.old (entry conn act) self.new }
    {
        let said = self.at_once(conn, act);
        let newest = Answered { conn, act, said };
        let place = self.entries.len() as u32;
        self.tables.push(newest);
        self.imports.note(&self.tables, place, newest);
        let ends = may_end(newest, false);
        let stalled = settle_stall(&self.imports, &mut self.tables, self.workers, ends);
        self.imports.settle(&self.tables, may_end(newest, stalled));
        self.imports.leave(&self.tables, newest);
        self.entries.push_reserved(Entry { conn, act });
        place
    }
}

fn refused(refusal: Refusal) -> Said
    ensures { result ≡ refused refusal }
{
    Said::Reply(Answer::Refused(refusal))
}

/// The act by which a connection goes.
pub fn going_act(how: Leaving) -> Act
    ensures { result ≡ leaving how }
{
    match how {
        Leaving::Left => Act::Left,
        Leaving::Lost => Act::Lost,
    }
}

fn refusal_of(why: Bad) -> Refusal
    ensures { result ≡ refusal_of why }
{
    match why {
        Bad::UnknownVerb => Refusal::UnknownRequest,
        Bad::WrongWords => Refusal::WrongWords,
        Bad::BadNumber => Refusal::BadNumber,
    }
}
