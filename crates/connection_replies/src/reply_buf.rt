//! A buffer of reply lines, and the way from it to a link.

ghost use Rattle.std.specs.Prelude.{◌≡◌, ◌≤◌, [], length, IfOk};
ghost use Rattle.mm_outside.specs.Told.{Told};
ghost use Rattle.mm_outside.specs.Causes.{HasCause};
ghost use Rattle.mm_outside.specs.Sending.{Sends};
ghost use Rattle.cody_words.specs.Buffers.{Appends};
ghost use Rattle.connection_replies.specs.ReplyLines.{line_room, reply_line, reply_lines};
ghost use Rattle.connection_replies.specs.Rooms.{HasSameRoom, HoldsLines, UsesRoom};

use crate::line_reply::LineReply;
use crate::writing::write_reply;
use cody_words::LineBuf;
use header_units::CMI_NAME_ROOM;
use mm_outside::{Failed, Link, Memory, send};
use std::alloc::Global;
use std::marker::Model;
use unit_registry::Project;

/// The room that a line is given: three times the octets of the longest path, 2,100, and 64 more.
const LINE_ROOM: u32 = 6364;

/// A buffer of reply lines. Contracts see its octets and its spare room.
#[derive(Debug, Drop)]
pub struct ReplyBuf {
    /// The lines.
    lines: LineBuf,
    /// The text of the reply that is being written.
    text: LineBuf,
}

impl Model for ReplyBuf {
    ghost use Rattle.std.specs.Prelude.{◌≤◌, ◌+◌, length};
    ghost use Rattle.cody_words.specs.Buffers.{Buffer};
    ghost use Rattle.connection_replies.specs.Rooms.{HoldsLines, text_room};

    ghost Value = { Buffer };

    ghost view = { λ b. b.lines };

    ghost invariant = { λ b. HoldsLines 1 b.lines
        × (text_room ≤ length b.text.octets + b.text.spare) };
}

impl ReplyBuf {
    /// An empty buffer with room for so many lines, 1 to 1,024, of 6,364 octets each: 6,516,736 octets for the longest
    /// block. It takes all its memory here.
    ///
    /// # Errors
    ///
    /// `Memory` where there is none.
    pub fn new(alloc: Global, lines: u32) -> Result<ReplyBuf, Memory>
        requires some { 1 ≤ lines }
        requires few { lines ≤ 1024 }
        ensures empty { IfOk result (λ buffer. buffer.octets ≡ []) }
        ensures room { IfOk result (λ buffer. HoldsLines lines buffer) }
    {
        Ok(ReplyBuf {
            lines: LineBuf::new(alloc, lines * LINE_ROOM)?,
            text: LineBuf::new(alloc, CMI_NAME_ROOM)?,
        })
    }

    /// Forgets the lines. There is room for one line at least.
    pub fn clear(&mut self)
        ensures empty { self.new.octets ≡ [] }
        ensures room { line_room ≤ self.new.spare }
        ensures same { HasSameRoom self.old self.new }
    {
        self.lines.clear();
    }

    /// The octets of the lines.
    pub fn octets(&self) -> &[u8]
        ensures { result.now ≡ self.now.octets }
    {
        self.lines.octets()
    }

    /// Appends the line in which a line is answered, with the mark where `more` of its block follows.
    pub fn write(&mut self, project: &Project, reply: LineReply, more: bool)
        requires { line_room ≤ self.old.spare }
        ensures line { Appends self.old self.new (reply_line project.now reply more) }
        ensures room { UsesRoom line_room self.old self.new }
    {
        write_reply(project, reply, more, &mut self.text, &mut self.lines);
    }

    /// Holds the lines in which a block is answered, and nothing else.
    fn hold(&mut self, project: &Project, replies: &[LineReply])
        requires { HoldsLines (length replies.now) self.old }
        ensures lines { self.new.octets ≡ reply_lines project.now replies.now }
        ensures same { HasSameRoom self.old self.new }
    {
        self.clear();
        for (k, reply) in replies.iter().enumerate() {
            self.write(project, *reply, k + 1 < replies.len());
        }
    }

    /// Writes the lines in which a block is answered to a link, by way of the buffer, in one piece: the link decides
    /// alone how many writes that takes. After `Failed` a proper prefix of them was written. What stood in the buffer
    /// before is forgotten.
    pub fn send<L: Link>(
        &mut self,
        project: &Project,
        replies: &[LineReply],
        link: &mut L,
    ) -> Result<(), Failed>
        requires { HoldsLines (length replies.now) self.old }
        ensures octets { Told (Sends result (reply_lines project.now replies.now))
            (L.octets link.old) (L.octets link.new) }
        ensures cause { HasCause (L.write_faults link.old) (L.write_faults link.new) result }
        ensures read_faults { L.read_faults link.new ≡ L.read_faults link.old }
        ensures same { HasSameRoom self.old self.new }
    {
        self.hold(project, replies);
        send(link, self.lines.octets())
    }
}
