//! Writing a reply.

ghost use Rattle.std.specs.Prelude.{◌≡◌, ◌+◌, ◌≤◌};
ghost use Rattle.cody_words.specs.Buffers.{Appends};
ghost use Rattle.cody_words.specs.Canonical.{canonical_line};
ghost use Rattle.mapper_replies.specs.Values.{value_of, reply_room, Hello};
ghost use Rattle.mapper_replies.specs.Replies.{truth_word, reply_words};

use crate::reply::Reply;
use cody_words::{LineBuf, write_words};
use itoa::Buffer;

/// The word of a truth value.
fn truth_word(truth: bool) -> &'static [u8]
    ensures { result.now ≡ truth_word truth }
{
    if truth { b"TRUE" } else { b"FALSE" }
}

/// Appends the line of a greeting.
fn write_hello(builder: &[u8], flags: u32, more: bool, out: &mut LineBuf)
    requires { reply_room (Hello builder.now flags) ≤ out.old.spare }
    ensures text { Appends out.old out.new
        (canonical_line (reply_words (Hello builder.now flags)) more) }
    ensures room { out.old.spare ≤ out.new.spare + reply_room (Hello builder.now flags) }
{
    if flags == 0 {
        write_words(&[b"HELLO", b"1", builder], more, out);
        return;
    }
    let mut digits = Buffer::new();
    let number = digits.format(flags).as_bytes();
    write_words(&[b"HELLO", b"1", builder, number], more, out);
}

/// Appends the canonical line of a reply, with the mark where `more` of its block follows. Flags 0 are
/// left out. There has to be room for three times the octets of its texts, and 64.
pub fn write_into(reply: &Reply<'_>, more: bool, out: &mut LineBuf)
    requires { reply_room (value_of reply.now) ≤ out.old.spare }
    ensures text { Appends out.old out.new (canonical_line (reply_words (value_of reply.now)) more) }
    ensures room { out.old.spare ≤ out.new.spare + reply_room (value_of reply.now) }
{
    match *reply {
        Reply::Hello { builder, flags } => write_hello(builder, flags, more, out),
        Reply::Pathname(path) => write_words(&[b"PATHNAME", path], more, out),
        Reply::Done => write_words(&[b"OK"], more, out),
        Reply::Bool(truth) => write_words(&[b"BOOL", truth_word(truth)], more, out),
        Reply::Error(message) => write_words(&[b"ERROR", message], more, out),
    }
}
