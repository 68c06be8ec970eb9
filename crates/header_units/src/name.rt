//! A name that was read, and its kind.

ghost use Rattle.std.specs.Prelude.{◌≡◌, ◌+◌, ◌≤◌, IfOk, OnErr, Some, None};
ghost use Rattle.cody_words.specs.Buffers.{Appends};
ghost use Rattle.header_units.specs.Names.{name_kind, module_of};
ghost use Rattle.header_units.specs.CmiNames.{cmi_name, cmi_name_room};

use crate::cmi_name::write_cmi_name;
use crate::grammar::{cut_at, name_kind};
use cody_words::LineBuf;

/// The octets are neither a module name nor a header name, by the rules of `Name::read`.
#[derive(Clone, Copy, Debug, PartialEq, Eq)]
pub struct BadName;

/// The kind of a name.
#[derive(Clone, Copy, Debug, PartialEq, Eq)]
pub enum NameKind {
    /// A module that is no partition: identifiers joined by dots.
    Primary,
    /// A partition of a module: the module's name, a colon, and identifiers joined by dots.
    Partition,
    /// A header unit: a path that begins with `./` or `/`.
    Header,
}

/// A name of a module or of a header unit, within the octets that it was read from.
#[derive(Clone, Copy, Debug)]
pub struct Name<'a> {
    octets: &'a [u8],
    kind: NameKind,
    ghost is_name: { name_kind octets.now ≡ Some kind },
}

impl<'a> Name<'a> {
    ghost use Rattle.header_units.specs.Readings.{octets_of, kind_of};

    /// The octets as a name, or `BadName` where they are neither a module name nor a header name.
    ///
    /// An identifier is `[A-Za-z_][A-Za-z0-9_]*` of at most 255 octets. A module name is identifiers
    /// joined by dots, or for a partition two such dotted names joined by a colon. Reserved words may
    /// stand in it. A header name is `./` or `/` and at least one octet more, without octets below
    /// 0x20 and without 0x7f. A name has at most 512 octets. The rules are this project's own.
    pub fn read(octets: &'a [u8]) -> Result<Name<'a>, BadName>
        ensures octets { IfOk result (λ name. octets_of name ≡ octets.now) }
        ensures kind { IfOk result (λ name. name_kind octets.now ≡ Some (kind_of name)) }
        ensures bad { OnErr result (name_kind octets.now ≡ None) }
    {
        match name_kind(octets) {
            Some(kind) => Ok(Name { octets, kind }),
            None => Err(BadName),
        }
    }

    /// The octets of the whole name.
    pub fn octets(&self) -> &'a [u8]
        ensures { result.now ≡ octets_of self.now }
    {
        self.octets
    }

    /// The kind of the name. Each name has one.
    pub fn kind(&self) -> NameKind
        ensures kind { result ≡ kind_of self.now }
        ensures name { name_kind (octets_of self.now) ≡ Some result }
    {
        self.kind
    }

    /// The name of the module: of a partition the part before the colon, and else the whole name.
    pub fn module(&self) -> &'a [u8]
        ensures { result.now ≡ module_of (kind_of self.now) (octets_of self.now) }
    {
        match cut_at(self.octets, b':') {
            Some((module, _)) if self.kind == NameKind::Partition => module,
            _ => self.octets,
        }
    }

    /// Appends the CMI name, which takes at most `CMI_NAME_ROOM` octets.
    ///
    /// It ends in `.gcm`. Before that a module name stands as it is, with `-` for its colon. A header
    /// name has `,/` for the root `./`, `+/` for the root `/`, and its path with each component between
    /// slashes replaced: `.` by `,`, `..` by `,,`, an empty one by `,,,`, one of commas alone by three
    /// commas more, and each other one by itself. `,/` and `,,` are libcody's, the rest is this
    /// project's own.
    pub fn cmi_name_into(&self, out: &mut LineBuf)
        requires { cmi_name_room ≤ out.old.spare }
        ensures text { Appends out.old out.new (cmi_name (octets_of self.now)) }
        ensures room { out.old.spare ≤ out.new.spare + cmi_name_room }
    {
        write_cmi_name(self.octets, out);
    }
}
