//! How a run of the program ends: its status, and its message.

ghost use Rattle.std.specs.Prelude.{◌≡◌, ◌+◌, ◌≤◌, ◌++◌, length};
ghost use Rattle.cody_words.specs.Buffers.{Appends};
ghost use Rattle.cody_words.specs.Canonical.{quote, word_room};
ghost use Rattle.mapper_commands.specs.Endings.{conn_message, frame_room, refused_text, truncated_text};

use cody_words::{LineBuf, write_number, write_word};
use connection_core::ConnEnd;
use mapper_server::conn_status;

/// How a run of the program ends. Contracts see what `told_by` makes of it.
#[derive(Clone, Copy, Debug, PartialEq, Eq)]
pub enum Ending<'a> {
    /// The words are of no form.
    BadWords,
    /// Memory ran out before the link was touched.
    OutOfMemory,
    /// A file is absent, or reading it failed.
    CannotRead {
        /// The file's name.
        name: &'a [u8],
    },
    /// A file holds more octets than its kind may have.
    FileTooLong {
        /// The file's name.
        name: &'a [u8],
    },
    /// The text of a file is refused.
    Refused {
        /// The file's name.
        name: &'a [u8],
        /// The first line at fault, counted from 1.
        line: u32,
        /// Why the line is at fault, in plain words.
        reason: &'a [u8],
    },
    /// No hall was given at an address.
    CannotOpen {
        /// The address, as the words spell it.
        address: &'a [u8],
    },
    /// The link was served to this end.
    Served(ConnEnd),
}

impl Ending<'_> {
    ghost use Rattle.mapper_commands.specs.Endings.{message_of, message_room, status_of, told_by};

    /// The exit status, 0 where all was done.
    pub fn status(self) -> u8
        ensures { result ≡ status_of (told_by self.entry) }
    {
        match self {
            Ending::BadWords => 2,
            Ending::OutOfMemory => 3,
            Ending::CannotRead { .. } | Ending::CannotOpen { .. } => 4,
            Ending::FileTooLong { .. } | Ending::Refused { .. } => 6,
            Ending::Served(end) => conn_status(end),
        }
    }

    /// Appends the message, a line, or nothing where all was done.
    pub fn write_message(self, out: &mut LineBuf)
        requires { message_room (told_by self) ≤ out.old.spare }
        ensures { Appends out.old out.new (message_of (told_by self.entry)) }
    {
        match self {
            Ending::BadWords => out.extend(b"modmap: bad words\n"),
            Ending::OutOfMemory => out.extend(b"modmap: out of memory\n"),
            Ending::CannotRead { name } => write_named(b"modmap: cannot read ", name, b"\n", out),
            Ending::FileTooLong { name } => write_named(
                b"modmap: ",
                name,
                b": file too long\n",
                out,
            ),
            Ending::Refused { name, line, reason } => write_refused(name, line, reason, out),
            Ending::CannotOpen { address } => write_between(
                b"modmap: cannot open ",
                address,
                b"\n",
                out,
            ),
            Ending::Served(end) => write_conn_message(end, out),
        }
    }
}

/// Appends what is said of a connection's end.
fn write_conn_message(end: ConnEnd, out: &mut LineBuf)
    requires { frame_room ≤ out.old.spare }
    ensures { Appends out.old out.new (conn_message end) }
{
    match end {
        ConnEnd::Closed => out.extend(b""),
        ConnEnd::ReadFault => out.extend(b"modmap: link read failed\n"),
        ConnEnd::WriteFault => out.extend(b"modmap: write failed\n"),
        ConnEnd::Truncated { lines } => write_truncated(lines, out),
        ConnEnd::TooLong => out.extend(b"modmap: input too long\n"),
        ConnEnd::BatchTooLong => out.extend(b"modmap: block too long\n"),
        ConnEnd::HistoryFull { .. } => out.extend(b"modmap: history full\n"),
    }
}

/// Appends that the input ended while so many lines were held.
fn write_truncated(lines: u32, out: &mut LineBuf)
    requires { frame_room ≤ out.old.spare }
    ensures { Appends out.old out.new (truncated_text lines) }
{
    out.extend(b"modmap: input ended inside a block of ");
    write_number(lines, out);
    out.extend(b" lines\n");
}

/// Appends a name in canonical spelling between two texts.
fn write_named(before: &[u8], name: &[u8], after: &[u8], out: &mut LineBuf)
    requires { length before.now + word_room name.now + length after.now ≤ out.old.spare }
    ensures { Appends out.old out.new (before.now ++ quote name.now ++ after.now) }
{
    out.extend(before);
    write_word(name, out);
    out.extend(after);
}

/// Appends that a file's text is refused at a line.
fn write_refused(name: &[u8], line: u32, reason: &[u8], out: &mut LineBuf)
    requires { word_room name.now + length reason.now + frame_room ≤ out.old.spare }
    ensures { Appends out.old out.new (refused_text name.now line reason.now) }
{
    out.extend(b"modmap: ");
    write_word(name, out);
    out.push(b':');
    write_number(line, out);
    out.extend(b": ");
    out.extend(reason);
    out.extend(b"\n");
}

/// Appends a text between two others.
fn write_between(before: &[u8], text: &[u8], after: &[u8], out: &mut LineBuf)
    requires { length before.now + length text.now + length after.now ≤ out.old.spare }
    ensures { Appends out.old out.new (before.now ++ text.now ++ after.now) }
{
    out.extend(before);
    out.extend(text);
    out.extend(after);
}
