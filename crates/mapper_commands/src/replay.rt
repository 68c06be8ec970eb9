//! Replaying a trace: its entries, and the replies that come with each.

ghost use Rattle.std.specs.Prelude.{◌≡◌, ◌≢◌, ◌≤◌, [], length, min, IfOk, OnErr};
ghost use Rattle.mm_outside.specs.Causes.{HasCause, Rose};
ghost use Rattle.mm_outside.specs.Sending.{AppendsAll};
ghost use Rattle.mm_outside.specs.Told.{Told};
ghost use Rattle.histories.specs.Answered.{stored_unit};
ghost use Rattle.histories.specs.Entries.{IsTraceEntry};
ghost use Rattle.histories.specs.Histories.{IsFirstFault, IsLegal};
ghost use Rattle.registry_core.specs.Ledgers.{Appends, Passes, answered_last, open_in, waiting_in};
ghost use Rattle.registry_core.specs.Shelves.{ComesWith};
ghost use Rattle.mapper_commands.specs.Endings.{Ends, Issues, output_of};
ghost use Rattle.mapper_commands.specs.Reports.{ReportsSo};
ghost use Rattle.mapper_commands.specs.Paging.{Puts};
ghost use Rattle.mapper_commands.specs.Plays.{enough_for, played, replies_text, reply_text};
ghost use Rattle.mapper_commands.specs.Replays.{end_line, entries_text, entry_text, replay_report, replay_text, whole_report};
ghost use Rattle.mapper_commands.specs.TraceFiles.{HasForm};

use crate::check::{REPORT_ROOM, issue_illegal};
use crate::held::Held;
use crate::sources::read_sources;
use crate::telling::{tell, tell_memory};
use cody_words::LineBuf;
use connection_replies::ReplyBuf;
use histories::{Answer, Entry};
use mm_outside::{Failed, Files, Memory, Sink};
use registry_core::{Book, NoShelf};
use std::alloc::Global;
use trace_text::{CheckError, IllegalReason, Trace, check_legal};
use unit_registry::{Act, Project};

/// The text that goes out, and the room for the line of a reply.
#[derive(Drop)]
struct Page {
    held: Held,
    reply: ReplyBuf,
}

/// Plays a trace: enters its entries, and puts their lines.
#[derive(Drop)]
struct Player {
    book: Book<NoShelf>,
    page: Page,
}

impl Page {
    /// Nothing is held. All memory is taken here.
    fn new(alloc: Global) -> Result<Page, Memory>
        ensures { IfOk result (λ page. page.held.octets ≡ []) }
    {
        let held = Held::new(alloc)?;
        let reply = ReplyBuf::new(alloc, 1)?;
        Ok(Page { held, reply })
    }

    /// Puts the line of the reply to the request at a place, if it has come.
    fn put_reply<K: Sink>(
        &mut self,
        project: &Project,
        place: u32,
        answer: Option<Answer>,
        out: &mut K,
    ) -> Result<(), Failed>
        ensures text { Puts result (reply_text project.now place answer) self.old.held.octets self.new.held.octets (K.written out.old) (K.written out.new) }
        ensures cause { HasCause (K.faults out.old) (K.faults out.new) result }
    {
        match answer {
            Some(answer) => self
                .held
                .put_reply(project, place, answer, &mut self.reply, out),
            None => Ok(()),
        }
    }

    /// Puts the lines of the replies that came with the last entry to imports before it.
    fn put_answered<K: Sink>(
        &mut self,
        project: &Project,
        book: &Book<NoShelf>,
        out: &mut K,
    ) -> Result<(), Failed>
        ensures text { Puts result (replies_text project.now book.now.ledger (answered_last book.now.ledger)) self.old.held.octets self.new.held.octets (K.written out.old) (K.written out.new) }
        ensures cause { HasCause (K.faults out.old) (K.faults out.new) result }
    {
        for place in book.answered() {
            match self.put_reply(project, *place, book.look(*place), out) {
                Ok(()) => {}
                Err(Failed) => return Err(Failed),
            }
        }
        Ok(())
    }
}

impl Player {
    /// Has entered nothing yet, and has room for a legal trace. All memory is taken here.
    fn new(alloc: Global, project: &Project, trace: &Trace) -> Result<Player, Memory>
        requires form { HasForm trace.now }
        requires legal { IsLegal project.now trace.now.workers trace.now.limit trace.now.entries }
        ensures start { IfOk result (λ player. player.book.ledger ≡ played project.now trace.now 0) }
        ensures empty { IfOk result (λ player. player.page.held.octets ≡ []) }
    {
        let page = Page::new(alloc)?;
        let book = book_for(alloc, project, trace)?;
        Ok(Player { book, page })
    }

    /// Enters an entry that passes the checks, and puts its lines: what it is, the replies that came with it to imports
    /// before it, and its own.
    fn play<K: Sink>(&mut self, project: &Project, entry: Entry, out: &mut K) -> Result<(), Failed>
        requires project { self.old.book.ledger.project ≡ project.now }
        requires entry { IsTraceEntry entry }
        requires passes { Passes self.old.book.ledger entry }
        ensures text { Puts result (entry_text project.now self.old.book.ledger.workers self.old.book.ledger.entries entry) self.old.page.held.octets self.new.page.held.octets (K.written out.old) (K.written out.new) }
        ensures entered { Appends self.old.book.ledger entry self.new.book.ledger }
        ensures cause { HasCause (K.faults out.old) (K.faults out.new) result }
    {
        let entered = self.book.enter(entry, item_of(entry.act));
        if let Err(Failed) = self.page.held.put_entry(entered.place, &entry, out) {
            return Err(Failed);
        }
        if let Err(Failed) = self.page.put_answered(project, &self.book, out) {
            return Err(Failed);
        }
        self.page
            .put_reply(project, entered.place, entered.reply, out)
    }

    /// Enters the entries of a legal trace, and puts their lines.
    fn play_entries<K: Sink>(
        &mut self,
        project: &Project,
        trace: &Trace,
        out: &mut K,
    ) -> Result<(), Failed>
        requires form { HasForm trace.now }
        requires legal { IsLegal project.now trace.now.workers trace.now.limit trace.now.entries }
        requires start { self.old.book.ledger ≡ played project.now trace.now 0 }
        ensures text { Puts result (entries_text project.now trace.now.workers [] trace.now.entries) self.old.page.held.octets self.new.page.held.octets (K.written out.old) (K.written out.new) }
        ensures played { IfOk result (λ _. self.new.book.ledger ≡ played project.now trace.now (length trace.now.entries)) }
        ensures cause { HasCause (K.faults out.old) (K.faults out.new) result }
    {
        for place in 0..trace.entries.len() {
            let entry = trace.entries.get(place);
            match self.play(project, *entry, out) {
                Ok(()) => {}
                Err(Failed) => return Err(Failed),
            }
        }
        Ok(())
    }

    /// Puts the last line, and writes what is held.
    fn put_last<K: Sink>(&mut self, out: &mut K) -> Result<(), Failed>
        ensures text { Puts result (end_line (open_in self.old.book.ledger) (waiting_in self.old.book.ledger)) self.old.page.held.octets self.new.page.held.octets (K.written out.old) (K.written out.new) }
        ensures empty { IfOk result (λ _. self.new.page.held.octets ≡ []) }
        ensures cause { HasCause (K.faults out.old) (K.faults out.new) result }
    {
        let opened = self.book.open_count();
        let waiting = self.book.waiting_count();
        match self.page.held.put_end(opened, waiting, out) {
            Ok(()) => self.page.held.flush(out),
            Err(Failed) => Err(Failed),
        }
    }

    /// Enters the entries of a legal trace, and writes their lines and the last one.
    fn play_trace<K: Sink>(
        &mut self,
        project: &Project,
        trace: &Trace,
        out: &mut K,
    ) -> Result<(), Failed>
        requires form { HasForm trace.now }
        requires legal { IsLegal project.now trace.now.workers trace.now.limit trace.now.entries }
        requires start { self.old.book.ledger ≡ played project.now trace.now 0 }
        requires empty { self.old.page.held.octets ≡ [] }
        ensures text { Told (AppendsAll result (replay_text project.now trace.now)) (K.written out.old) (K.written out.new) }
        ensures cause { HasCause (K.faults out.old) (K.faults out.new) result }
    {
        match self.play_entries(project, trace, out) {
            Ok(()) => self.put_last(out),
            Err(Failed) => Err(Failed),
        }
    }
}

/// The item with which the act comes.
fn item_of(act: Act) -> Option<()>
    ensures { ComesWith (λ unit item. Unit {0}) (stored_unit act) result }
{
    match act {
        Act::Compiled {
            unit: Some(_),
            stored: true,
        } => Some(()),
        _ => None,
    }
}

/// An empty book in which a legal trace has room.
fn book_for(alloc: Global, project: &Project, trace: &Trace) -> Result<Book<NoShelf>, Memory>
    requires form { HasForm trace.now }
    requires legal { IsLegal project.now trace.now.workers trace.now.limit trace.now.entries }
    ensures { IfOk result (λ book. book.ledger ≡ played project.now trace.now 0) }
{
    project.unit_count();
    let limit = enough_for(trace.entries.len(), trace.workers, trace.limit);
    Book::new(alloc, project, trace.workers, limit, NoShelf::new())
}

/// A limit that is enough for so many entries and the ends that they leave, and no more than the limit.
fn enough_for(count: u32, workers: u32, limit: u32) -> u32
    requires count { count ≤ 67108864 }
    requires workers { workers ≤ 16384 }
    ensures { result ≡ enough_for count workers limit }
{
    limit.min(count + count + workers)
}

/// Prints a replay of a legal trace, and answers the status. It takes memory only before it prints.
fn issue_replay<K: Sink>(
    alloc: Global,
    project: &Project,
    trace: &Trace,
    out: &mut K,
) -> Result<u8, Memory>
    requires form { HasForm trace.now }
    requires legal { IsLegal project.now trace.now.workers trace.now.limit trace.now.entries }
    ensures issued { IfOk result (λ status. Issues (whole_report project.now trace.now) (output_of K.written K.faults out.old out.new) status) }
    ensures memory { OnErr result (out.new ≡ out.old) }
{
    let mut player = Player::new(alloc, project, trace)?;
    match player.play_trace(project, trace, out) {
        Ok(()) => Ok(0),
        Err(Failed) => Ok(5),
    }
}

/// Prints that a trace isn't legal at this place, for this reason, and answers the status.
fn issue_fault<K: Sink>(
    project: &Project,
    trace: &Trace,
    place: u32,
    reason: IllegalReason,
    line: &mut LineBuf,
    out: &mut K,
) -> u8
    requires fault { IsFirstFault project.now trace.now.workers trace.now.limit trace.now.entries place reason }
    requires room { 64 ≤ line.old.spare }
    requires empty { line.old.octets ≡ [] }
    ensures { Issues (replay_report project.now trace.now) (output_of K.written K.faults out.old out.new) result }
{
    issue_illegal(place, reason, line, out)
}

/// Prints what a replay of the trace reports, and answers the status. It takes memory only before it prints.
fn replay_trace<K: Sink>(
    alloc: Global,
    project: &Project,
    trace: &Trace,
    out: &mut K,
) -> Result<u8, Memory>
    requires { HasForm trace.now }
    ensures issued { IfOk result (λ status. Issues (replay_report project.now trace.now) (output_of K.written K.faults out.old out.new) status) }
    ensures memory { OnErr result (out.new ≡ out.old) }
{
    let mut line = LineBuf::new(alloc, REPORT_ROOM)?;
    match check_legal(alloc, project, trace) {
        Ok(()) => issue_replay(alloc, project, trace, out),
        Err(CheckError::Illegal { place, reason }) => {
            Ok(issue_fault(project, trace, place, reason, &mut line, out))
        }
        Err(CheckError::Memory) => Err(Memory),
    }
}

/// Reads the project file and then the file of the trace, prints what a replay of the trace reports or the message of
/// what went wrong, and answers the status: 0 the trace is legal, 1 it isn't, 3 it ran out of memory, 4 a file is absent
/// or a read failed, 5 a write failed, 6 a file is refused or too long. Its time is that of entering the entries in a
/// book and of its text, and its memory grows with what the trace needs.
pub fn run_replay<F: Files, K: Sink>(
    alloc: Global,
    project: &[u8],
    trace: &[u8],
    files: &mut F,
    out: &mut K,
) -> u8
    ensures run { Ends (ReportsSo (Rose (F.read_faults files.old) (F.read_faults files.new)) (F.content files.old) (F.content files.new) replay_report project.now trace.now)
        (output_of K.written K.faults out.old out.new) result }
    ensures unhidden { result ≢ 3 → result ≢ 4 → F.read_faults files.new ≡ F.read_faults files.old }
    ensures files { F.write_faults files.new ≡ F.write_faults files.old }
{
    match read_sources(alloc, project, trace, files) {
        Ok(sources) => match replay_trace(alloc, &sources.project, &sources.trace, out) {
            Ok(status) => status,
            Err(Memory) => tell_memory(out),
        },
        Err(ending) => tell(alloc, ending, out),
    }
}
