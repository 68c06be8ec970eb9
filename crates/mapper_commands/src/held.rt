//! Text on its way to a sink.

ghost use Rattle.std.specs.Prelude.{◌≡◌, ◌≤◌, ◌+◌, [], length, IfOk};
ghost use Rattle.mm_outside.specs.Causes.{HasCause};
ghost use Rattle.cody_words.specs.Buffers.{Appends};
ghost use Rattle.histories.specs.Entries.{IsEntry};
ghost use Rattle.mapper_commands.specs.Paging.{Puts, line_room};
ghost use Rattle.mapper_commands.specs.Replays.{found_at, found_text, placed_text, end_line, prefix_text};

use cody_words::{LineBuf, write_number};
use connection_replies::{LineReply, ReplyBuf};
use histories::{Answer, Entry};
use mm_outside::{Failed, Memory, Sink, print};
use std::alloc::Global;
use std::marker::Model;
use trace_text::write_entry;
use unit_registry::Project;

/// The octets that are held before they are written.
const PAGE: u32 = 65_536;

/// Room for a line of an entry.
const LINE_ROOM: u32 = 100;

/// Text that is held until there is enough of it to be written. Contracts see its octets and its spare room.
#[derive(Drop)]
pub struct Held {
    buffer: LineBuf,
}

impl Model for Held {
    ghost use Rattle.std.specs.Prelude.{◌≤◌, ◌+◌, length};
    ghost use Rattle.cody_words.specs.Buffers.{Buffer};
    ghost use Rattle.mapper_commands.specs.Paging.{line_room};

    ghost Value = { Buffer };

    ghost view = { λ held. held.buffer };

    ghost invariant = { λ held. line_room ≤ length held.buffer.octets + held.buffer.spare };
}

impl Held {
    /// Nothing is held. All memory is taken here.
    pub fn new(alloc: Global) -> Result<Held, Memory>
        ensures { IfOk result (λ held. held.octets ≡ []) }
    {
        Ok(Held {
            buffer: LineBuf::new(alloc, PAGE)?,
        })
    }

    /// Writes what is held, and holds nothing.
    pub fn flush<K: Sink>(&mut self, out: &mut K) -> Result<(), Failed>
        ensures text { Puts result [] self.old.octets self.new.octets (K.written out.old) (K.written out.new) }
        ensures empty { IfOk result (λ _. self.new.octets ≡ []) }
        ensures room { IfOk result (λ _. line_room ≤ self.new.spare) }
        ensures cause { HasCause (K.faults out.old) (K.faults out.new) result }
    {
        match print(out, self.buffer.octets()) {
            Ok(()) => {
                self.buffer.clear();
                Ok(())
            }
            Err(Failed) => Err(Failed),
        }
    }

    /// Writes what is held where there is no room for a further line.
    fn make_room<K: Sink>(&mut self, out: &mut K) -> Result<(), Failed>
        ensures text { Puts result [] self.old.octets self.new.octets (K.written out.old) (K.written out.new) }
        ensures room { IfOk result (λ _. line_room ≤ self.new.spare) }
        ensures cause { HasCause (K.faults out.old) (K.faults out.new) result }
    {
        if self.buffer.spare() >= LINE_ROOM {
            return Ok(());
        }
        self.flush(out)
    }

    /// Puts a text after what is held. That is written first where there is no room, and the text too where it is too
    /// long to be held.
    pub fn put<K: Sink>(&mut self, text: &[u8], out: &mut K) -> Result<(), Failed>
        ensures text { Puts result text.now self.old.octets self.new.octets (K.written out.old) (K.written out.new) }
        ensures cause { HasCause (K.faults out.old) (K.faults out.new) result }
    {
        if text.len() <= self.buffer.spare() as usize {
            self.buffer.extend(text);
            return Ok(());
        }
        match self.flush(out) {
            Ok(()) => self.put_anew(text, out),
            Err(Failed) => Err(Failed),
        }
    }

    /// Puts a text where nothing is held. It is written at once where it is too long to be held.
    fn put_anew<K: Sink>(&mut self, text: &[u8], out: &mut K) -> Result<(), Failed>
        requires { self.old.octets ≡ [] }
        ensures text { Puts result text.now self.old.octets self.new.octets (K.written out.old) (K.written out.new) }
        ensures cause { HasCause (K.faults out.old) (K.faults out.new) result }
    {
        if text.len() <= self.buffer.spare() as usize {
            self.buffer.extend(text);
            return Ok(());
        }
        print(out, text)
    }

    /// Appends the line of an entry, with its place.
    fn append_entry(&mut self, place: u32, entry: &Entry)
        requires entry { IsEntry entry.now }
        requires room { line_room ≤ self.old.spare }
        ensures { Appends self.old self.new (placed_text place entry.now) }
    {
        write_number(place, &mut self.buffer);
        self.buffer.extend(b": ");
        write_entry(entry, &mut self.buffer);
    }

    /// Appends the place of a reply, between spaces.
    fn append_place(&mut self, place: u32)
        requires { line_room ≤ self.old.spare }
        ensures { Appends self.old self.new (prefix_text place) }
    {
        self.buffer.extend(b"  ");
        write_number(place, &mut self.buffer);
        self.buffer.push(b' ');
    }

    /// Appends the last line of a replay.
    fn append_end(&mut self, opened: u32, waiting: u32)
        requires { line_room ≤ self.old.spare }
        ensures { Appends self.old self.new (end_line opened waiting) }
    {
        self.buffer.extend(b"open ");
        write_number(opened, &mut self.buffer);
        self.buffer.extend(b" waiting ");
        write_number(waiting, &mut self.buffer);
        self.buffer.push(b'\n');
    }

    /// Puts the line of an entry, with its place.
    pub fn put_entry<K: Sink>(
        &mut self,
        place: u32,
        entry: &Entry,
        out: &mut K,
    ) -> Result<(), Failed>
        requires { IsEntry entry.now }
        ensures text { Puts result (placed_text place entry.now) self.old.octets self.new.octets (K.written out.old) (K.written out.new) }
        ensures cause { HasCause (K.faults out.old) (K.faults out.new) result }
    {
        match self.make_room(out) {
            Ok(()) => {
                self.append_entry(place, entry);
                Ok(())
            }
            Err(Failed) => Err(Failed),
        }
    }

    /// Puts the place of a reply, between spaces.
    fn put_place<K: Sink>(&mut self, place: u32, out: &mut K) -> Result<(), Failed>
        ensures text { Puts result (prefix_text place) self.old.octets self.new.octets (K.written out.old) (K.written out.new) }
        ensures cause { HasCause (K.faults out.old) (K.faults out.new) result }
    {
        match self.make_room(out) {
            Ok(()) => {
                self.append_place(place);
                Ok(())
            }
            Err(Failed) => Err(Failed),
        }
    }

    /// Puts the last line of a replay.
    pub fn put_end<K: Sink>(&mut self, opened: u32, waiting: u32, out: &mut K) -> Result<(), Failed>
        ensures text { Puts result (end_line opened waiting) self.old.octets self.new.octets (K.written out.old) (K.written out.new) }
        ensures cause { HasCause (K.faults out.old) (K.faults out.new) result }
    {
        match self.make_room(out) {
            Ok(()) => {
                self.append_end(opened, waiting);
                Ok(())
            }
            Err(Failed) => Err(Failed),
        }
    }

    /// Puts the line of the reply to the request at a place.
    pub fn put_reply<K: Sink>(
        &mut self,
        project: &Project,
        place: u32,
        answer: Answer,
        reply: &mut ReplyBuf,
        out: &mut K,
    ) -> Result<(), Failed>
        ensures text { Puts result (found_text project.now (found_at place answer)) self.old.octets self.new.octets (K.written out.old) (K.written out.new) }
        ensures cause { HasCause (K.faults out.old) (K.faults out.new) result }
    {
        match self.put_place(place, out) {
            Ok(()) => {
                reply.clear();
                reply.write(project, LineReply::Answer(answer), false);
                self.put(reply.octets(), out)
            }
            Err(Failed) => Err(Failed),
        }
    }
}
