//! Writing the line of a reply.

ghost use Rattle.std.specs.Prelude.{◌+◌, ◌≤◌, length};
ghost use Rattle.cody_words.specs.Buffers.{Appends};
ghost use Rattle.header_units.specs.CmiNames.{cmi_name};
ghost use Rattle.mapper_replies.specs.Values as value;
ghost use Rattle.unit_registry.specs.Projects.{name_of};
ghost use Rattle.connection_replies.specs.ReplyLines.{answer_value, line_room, malformed_text, refused_text, reply_line, value_line};
ghost use Rattle.connection_replies.specs.Rooms.{HasSameRoom, UsesRoom, text_room};

use crate::line_reply::LineReply;
use crate::texts::{put_cmi_name, put_malformed, put_refused};
use cody_words::{LineBuf, Reason};
use histories::Answer;
use mapper_replies::{Reply, write_into};
use unit_registry::Project;

/// The word for this server in its greeting.
const BUILDER: &[u8] = b"modmap";

/// Appends an error.
fn write_error(message: &[u8], more: bool, out: &mut LineBuf)
    requires short { length message.now ≤ text_room }
    requires room { line_room ≤ out.old.spare }
    ensures text { Appends out.old out.new (value_line (value.Error message.now) more) }
    ensures room { UsesRoom line_room out.old out.new }
{
    write_into(&Reply::Error(message), more, out);
}

/// Appends a path.
fn write_path(path: &[u8], more: bool, out: &mut LineBuf)
    requires short { length path.now ≤ text_room }
    requires room { line_room ≤ out.old.spare }
    ensures text { Appends out.old out.new (value_line (value.Pathname path.now) more) }
    ensures room { UsesRoom line_room out.old out.new }
{
    write_into(&Reply::Pathname(path), more, out);
}

/// Appends the path of a unit's compiled interface.
fn write_unit(project: &Project, unit: u32, more: bool, text: &mut LineBuf, out: &mut LineBuf)
    requires text { text_room ≤ length text.old.octets + text.old.spare }
    requires room { line_room ≤ out.old.spare }
    ensures text { Appends out.old out.new
        (value_line (value.Pathname (cmi_name (name_of project.now unit))) more) }
    ensures room { UsesRoom line_room out.old out.new }
    ensures same { HasSameRoom text.old text.new }
{
    put_cmi_name(project, unit, text);
    write_path(text.octets(), more, out);
}

/// Appends the refusal of a malformed line.
fn write_malformed(number: u32, reason: Reason, more: bool, text: &mut LineBuf, out: &mut LineBuf)
    requires text { text_room ≤ length text.old.octets + text.old.spare }
    requires room { line_room ≤ out.old.spare }
    ensures text { Appends out.old out.new
        (value_line (value.Error (malformed_text number reason)) more) }
    ensures room { UsesRoom line_room out.old out.new }
    ensures same { HasSameRoom text.old text.new }
{
    put_malformed(number, reason, text);
    write_error(text.octets(), more, out);
}

/// Appends the refusal of another line of a block whose first malformed line is `first`.
fn write_refused(first: u32, more: bool, text: &mut LineBuf, out: &mut LineBuf)
    requires text { text_room ≤ length text.old.octets + text.old.spare }
    requires room { line_room ≤ out.old.spare }
    ensures text { Appends out.old out.new (value_line (value.Error (refused_text first)) more) }
    ensures room { UsesRoom line_room out.old out.new }
    ensures same { HasSameRoom text.old text.new }
{
    put_refused(first, text);
    write_error(text.octets(), more, out);
}

/// Appends the line of an answer.
fn write_answer(
    project: &Project,
    answer: Answer,
    more: bool,
    text: &mut LineBuf,
    out: &mut LineBuf,
)
    requires text { text_room ≤ length text.old.octets + text.old.spare }
    requires room { line_room ≤ out.old.spare }
    ensures text { Appends out.old out.new (value_line (answer_value project.now answer) more) }
    ensures room { UsesRoom line_room out.old out.new }
    ensures same { HasSameRoom text.old text.new }
{
    match answer {
        Answer::Hello => write_into(
            &Reply::Hello {
                builder: BUILDER,
                flags: 0,
            },
            more,
            out,
        ),
        Answer::Repo => write_path(project.workspace_repo(), more, out),
        Answer::Path(unit) => write_unit(project, unit, more, text, out),
        Answer::Done => write_into(&Reply::Done, more, out),
        Answer::Bool(truth) => write_into(&Reply::Bool(truth), more, out),
        Answer::Refused(refusal) => write_error(refusal.text(), more, out),
    }
}

/// Appends the line in which a line is answered.
pub(crate) fn write_reply(
    project: &Project,
    reply: LineReply,
    more: bool,
    text: &mut LineBuf,
    out: &mut LineBuf,
)
    requires text { text_room ≤ length text.old.octets + text.old.spare }
    requires room { line_room ≤ out.old.spare }
    ensures text { Appends out.old out.new (reply_line project.now reply more) }
    ensures room { UsesRoom line_room out.old out.new }
    ensures same { HasSameRoom text.old text.new }
{
    match reply {
        LineReply::Answer(answer) => write_answer(project, answer, more, text, out),
        LineReply::Malformed { number, reason } => {
            write_malformed(number, reason, more, text, out);
        }
        LineReply::Refused { first } => write_refused(first, more, text, out),
    }
}
