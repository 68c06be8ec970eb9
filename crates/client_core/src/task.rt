//! What a client is for, and what it asks.

ghost use Rattle.std.specs.Prelude.{◌≡◌, ◌+◌, ◌<◌, ◌≤◌, ◌++◌, length, map, slice_get, if◌then◌else◌, Some, IfOk, OnOk};
ghost use Rattle.cody_words.specs.Canonical.{canonical_line};
ghost use Rattle.mapper_requests.specs.Asked.{asked_by, IsGood};
ghost use Rattle.mapper_requests.specs.Writing.{request_words, text_octets};
ghost use Rattle.client_core.specs.Scripts.{block_text, import_request, imports_in, is_nameless, lines_in, reading_of, requests_in, unit_requests, CanBeRead};

use crate::script::Script;
use cody_words::LineBuf;
use mapper_requests::{Request, write_into};
use mm_outside::{Bytes, Memory, Text};
use std::alloc::Global;
use std::marker::Model;

/// Room for the line of any request: three times the most octets of its texts, and 64 more.
const LINE_ROOM: u32 = 1618;

/// What a client is for.
#[derive(Debug, Drop)]
pub(crate) struct Task {
    /// The word by which the client says who it is.
    ident: Text,
    /// The name of its unit. It is empty where the unit has none.
    name: Text,
    /// What its source is.
    script: Script,
}

impl Model for Task {
    ghost use Rattle.client_core.specs.Scripts.{TaskView, reading_of};
    ghost use Rattle.client_core.specs.Working.{IsSmall};

    ghost Value = { TaskView };

    ghost view = { λ t. record { ident = t.ident; name = t.name; reading = reading_of t.script } };

    ghost invariant = { λ t. IsSmall (record { ident = t.ident; name = t.name; reading = reading_of t.script }) };
}

impl Task {
    /// The task of a client.
    pub(crate) fn new(
        alloc: Global,
        ident: &[u8],
        name: &[u8],
        script: Script,
    ) -> Result<Task, Memory>
        requires ident { length ident.now ≤ 512 }
        requires name { length name.now ≤ 512 }
        requires readable { CanBeRead script }
        ensures { IfOk result (λ task. task ≡ record { ident = ident.now; name = name.now; reading = reading_of script }) }
    {
        Ok(Task {
            ident: Text::of(alloc, ident)?,
            name: Text::of(alloc, name)?,
            script,
        })
    }

    /// What the source is.
    pub(crate) fn script(&self) -> &Script
        ensures { reading_of result.now ≡ self.now.reading }
    {
        &self.script
    }

    /// The name of the unit.
    pub(crate) fn name(&self) -> &[u8]
        ensures { result.now ≡ self.now.name }
    {
        self.name.octets()
    }

    /// How many imports the unit has.
    pub(crate) fn import_count(&self) -> u32
        ensures count { result ≡ length (imports_in self.now.reading) }
        ensures few { result ≤ 1000 }
    {
        match &self.script {
            Script::Good(unit) => unit.imports.len(),
            Script::Broken { .. } => 0,
        }
    }

    /// How many requests ask where the unit's own interface goes.
    fn export_count(&self) -> u32
        ensures count { result + length (imports_in self.now.reading) ≡ length (unit_requests self.now.name self.now.reading) }
        ensures few { result ≤ 1 }
    {
        match &self.script {
            Script::Good(_) if !self.name.octets().is_empty() => 1,
            _ => 0,
        }
    }

    /// How many paths are granted before those of the imports.
    pub(crate) fn paths_before(&self) -> u32
        ensures count { result ≡ (if is_nameless self.now.name then 1 else 2) }
        ensures few { result + length (imports_in self.now.reading) ≤ 1002 }
    {
        if self.name.octets().is_empty() { 1 } else { 2 }
    }

    /// How many requests a block has.
    pub(crate) fn request_count(&self, second: bool) -> u32
        ensures count { result ≡ length (requests_in second self.now) }
        ensures few { result ≤ 1003 }
    {
        if second {
            1
        } else {
            2 + self.export_count() + self.import_count()
        }
    }

    /// How many lines of replies stand before those to a block.
    pub(crate) fn lines_before(&self, second: bool) -> u32
        ensures count { result ≡ lines_in second self.now }
        ensures few { result ≤ 1003 }
    {
        if second { self.request_count(false) } else { 0 }
    }

    /// The request at a place of a block, counted from 0.
    pub(crate) fn request(&self, second: bool, k: u32) -> Request<'_>
        requires { k < length (requests_in second self.now) }
        ensures request { slice_get (requests_in second self.now) k ≡ Some (asked_by result) }
        ensures good { IsGood (asked_by result) }
        ensures short { text_octets (asked_by result) ≤ 518 }
    {
        if second {
            return Request::Compiled {
                name: self.name.octets(),
                flags: 0,
            };
        }
        match k {
            0 => Request::Hello {
                version: 1,
                compiler: b"modmap",
                ident: self.ident.octets(),
            },
            1 => Request::Repo,
            _ => self.unit_request(k - 2),
        }
    }

    /// The request at a place of those for the source.
    fn unit_request(&self, k: u32) -> Request<'_>
        requires { k < length (unit_requests self.now.name self.now.reading) }
        ensures request { slice_get (unit_requests self.now.name self.now.reading) k ≡ Some (asked_by result) }
        ensures good { IsGood (asked_by result) }
        ensures short { text_octets (asked_by result) ≤ 518 }
    {
        let exports = self.export_count();
        if k < exports {
            return Request::Export {
                name: self.name.octets(),
                flags: 0,
            };
        }
        self.import_request(k - exports)
    }

    /// The request for the import of this number, counted from 0.
    fn import_request(&self, k: u32) -> Request<'_>
        requires { k < length (imports_in self.now.reading) }
        ensures request { slice_get (map import_request (imports_in self.now.reading)) k ≡ Some (asked_by result) }
        ensures good { IsGood (asked_by result) }
        ensures short { text_octets (asked_by result) ≤ 518 }
    {
        let Script::Good(unit) = &self.script else {
            unreachable!()
        };
        Request::Import {
            name: unit.imports.get(k).name.octets(),
            flags: 0,
        }
    }

    /// Appends a block: a line for each of its requests.
    pub(crate) fn write_block(
        &self,
        alloc: Global,
        second: bool,
        out: &mut Bytes,
    ) -> Result<(), Memory>
        ensures { OnOk result (out.new ≡ out.old ++ block_text (requests_in second self.now)) }
    {
        let mut line = LineBuf::new(alloc, LINE_ROOM)?;
        let count = self.request_count(second);
        for k in 0..count {
            write_line(&self.request(second, k), k + 1 < count, &mut line, out)?;
        }
        Ok(())
    }
}

/// Appends the line of a request. The buffer is for that line alone.
fn write_line(
    request: &Request<'_>,
    more: bool,
    line: &mut LineBuf,
    out: &mut Bytes,
) -> Result<(), Memory>
    requires good { IsGood (asked_by request.now) }
    requires short { text_octets (asked_by request.now) ≤ 518 }
    requires room { line.old.spare + length line.old.octets ≡ 1618 }
    ensures text { OnOk result (out.new ≡ out.old ++ canonical_line (request_words (asked_by request.now)) more) }
    ensures room { line.new.spare + length line.new.octets ≡ 1618 }
{
    line.clear();
    write_into(request, more, line);
    out.extend(line.octets())
}
