//! Texts that are put together for a reply.

ghost use Rattle.std.specs.Prelude.{◌≡◌, ◌+◌, ◌≤◌, length};
ghost use Rattle.header_units.specs.CmiNames.{cmi_name};
ghost use Rattle.unit_registry.specs.Projects.{name_of};
ghost use Rattle.connection_replies.specs.ReplyLines.{malformed_text, refused_text};
ghost use Rattle.connection_replies.specs.Rooms.{HasSameRoom, text_room};

use cody_words::{LineBuf, Reason, write_number};
use header_units::{BadName, Name};
use unit_registry::Project;

/// The name of a unit: empty for a plain one, and where the project has no such unit.
fn unit_name(project: &Project, unit: u32) -> &[u8]
    ensures { result.now ≡ name_of project.now unit }
{
    if unit < project.unit_count() {
        project.name(unit)
    } else {
        b""
    }
}

/// Puts the CMI name of a unit.
pub(crate) fn put_cmi_name(project: &Project, unit: u32, text: &mut LineBuf)
    requires { text_room ≤ length text.old.octets + text.old.spare }
    ensures text { text.new.octets ≡ cmi_name (name_of project.now unit) }
    ensures short { length text.new.octets ≤ text_room }
    ensures room { HasSameRoom text.old text.new }
{
    text.clear();
    project.units_differ();
    match Name::read(unit_name(project, unit)) {
        Ok(name) => name.cmi_name_into(text),
        Err(BadName) => text.extend(b".gcm"),
    }
}

/// Puts what a malformed line is answered, by its number in its block.
pub(crate) fn put_malformed(number: u32, reason: Reason, text: &mut LineBuf)
    requires { text_room ≤ length text.old.octets + text.old.spare }
    ensures text { text.new.octets ≡ malformed_text number reason }
    ensures short { length text.new.octets ≤ text_room }
    ensures room { HasSameRoom text.old text.new }
{
    text.clear();
    text.extend(b"line ");
    write_number(number, text);
    text.extend(b": ");
    text.extend(reason.text());
}

/// Puts what every other line is answered in a block whose first malformed line is `first`.
pub(crate) fn put_refused(first: u32, text: &mut LineBuf)
    requires { text_room ≤ length text.old.octets + text.old.spare }
    ensures text { text.new.octets ≡ refused_text first }
    ensures short { length text.new.octets ≤ text_room }
    ensures room { HasSameRoom text.old text.new }
{
    text.clear();
    text.extend(b"batch refused: line ");
    write_number(first, text);
}
