//! Writing CMI names.

ghost use Rattle.std.specs.Prelude.{◌≡◌, ◌+◌, ◌*◌, ◌≤◌, ◌==◌, length, map};
ghost use Rattle.std.specs.List.{list_all};
ghost use Rattle.cody_words.specs.Buffers.{Appends};
ghost use Rattle.header_units.specs.Octets.{comma};
ghost use Rattle.header_units.specs.Names.{longest_name};
ghost use Rattle.header_units.specs.CmiNames.{cmi_component, cmi_path, cmi_octet, cmi_stem, cmi_stem_room, cmi_name, cmi_name_room};

use crate::grammar::cut_at;
use cody_words::LineBuf;

/// The room that a CMI name is given, in octets (this project's own). None takes more.
pub const CMI_NAME_ROOM: u32 = 2100;

/// Whether each octet is a comma.
fn have_commas(part: &[u8]) -> bool
    ensures { result ≡ list_all (λ octet. octet == comma) part.now }
{
    part.iter().all(|octet| *octet == b',')
}

/// Appends what stands for a component of a path: `,` for `.`, `,,` for `..`, three commas more for
/// commas or nothing, and each other component as it is.
fn write_component(part: &[u8], out: &mut LineBuf)
    requires { length part.now + 3 ≤ out.old.spare }
    ensures text { Appends out.old out.new (cmi_component part.now) }
    ensures room { out.old.spare ≤ out.new.spare + (length part.now + 3) }
{
    if have_commas(part) {
        out.extend(part);
        out.extend(b",,,");
    } else if part == b".".as_slice() {
        out.extend(b",");
    } else if part == b"..".as_slice() {
        out.extend(b",,");
    } else {
        out.extend(part);
    }
}

/// Appends a path with each of its components replaced.
fn write_path(path: &[u8], out: &mut LineBuf)
    requires { 4 * length path.now + 3 ≤ out.old.spare }
    ensures text { Appends out.old out.new (cmi_path path.now) }
    ensures room { out.old.spare ≤ out.new.spare + (4 * length path.now + 3) }
{
    let mut rest = path;
    while let Some((part, behind)) = cut_at(rest, b'/') {
        write_component(part, out);
        out.push(b'/');
        rest = behind;
    }
    write_component(rest, out);
}

/// Appends a module name with a dash for its colon.
fn write_module(name: &[u8], out: &mut LineBuf)
    requires { length name.now ≤ out.old.spare }
    ensures text { Appends out.old out.new (map cmi_octet name.now) }
{
    for octet in name {
        out.push(if *octet == b':' { b'-' } else { *octet });
    }
}

/// Appends the CMI name without its ending.
#[tactic(auto, unfolding(crate::specs::CmiNames::cmi_stem))]
fn write_stem(name: &[u8], out: &mut LineBuf)
    requires short { length name.now ≤ longest_name }
    requires room { cmi_stem_room ≤ out.old.spare }
    ensures text { Appends out.old out.new (cmi_stem name.now) }
    ensures room { out.old.spare ≤ out.new.spare + cmi_stem_room }
{
    if name.starts_with(b"./") {
        out.extend(b",/");
        write_path(&name[2..], out);
    } else if name.starts_with(b"/") {
        out.extend(b"+/");
        write_path(&name[1..], out);
    } else {
        write_module(name, out);
    }
}

/// Appends the CMI name of a name.
pub(crate) fn write_cmi_name(name: &[u8], out: &mut LineBuf)
    requires short { length name.now ≤ longest_name }
    requires room { cmi_name_room ≤ out.old.spare }
    ensures text { Appends out.old out.new (cmi_name name.now) }
    ensures room { out.old.spare ≤ out.new.spare + cmi_name_room }
{
    write_stem(name, out);
    out.extend(b".gcm");
}
