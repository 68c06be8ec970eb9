//! The one canonical line of a request.

ghost use Rattle.std.specs.Prelude.{◌≡◌, ◌+◌, ◌*◌, ◌++◌, ◌∷◌, [], ◌≤◌, length, codes, decimal};
ghost use Rattle.cody_words.specs.Octets.{newline, space};
ghost use Rattle.cody_words.specs.Buffers.{Appends};
ghost use Rattle.cody_words.specs.Canonical.{canonical_line, mark, quote, spaced, word_room};
ghost use Rattle.mapper_requests.specs.Asked.{asked_by, IsGood};
ghost use Rattle.mapper_requests.specs.Writing.{given_flags, given_text, request_room, request_words};
ghost use Rattle.mapper_requests.specs.Working.{behind, row_of};

use crate::request::Request;
use crate::verb::Verb;
use cody_words::{LineBuf, write_number, write_word};

/// Appends a space and the word.
fn write_next(word: &[u8], out: &mut LineBuf)
    requires { word_room word.now + 1 ≤ out.old.spare }
    ensures text { Appends out.old out.new (space ∷ quote word.now) }
    ensures room { out.old.spare ≤ out.new.spare + (word_room word.now + 1) }
{
    out.push(b' ');
    write_word(word, out);
}

/// Appends a space and the number.
fn write_next_number(number: u32, out: &mut LineBuf)
    requires { 11 ≤ out.old.spare }
    ensures text { Appends out.old out.new (space ∷ decimal number) }
    ensures room { out.old.spare ≤ out.new.spare + 11 }
{
    out.push(b' ');
    write_number(number, out);
}

/// Appends a space and the text, or nothing where the text is empty.
fn write_given_text(text: &[u8], out: &mut LineBuf)
    requires { word_room text.now + 1 ≤ out.old.spare }
    ensures text { Appends out.old out.new (behind (given_text text.now)) }
    ensures room { out.old.spare ≤ out.new.spare + (word_room text.now + 1) }
{
    if !text.is_empty() {
        write_next(text, out);
    }
}

/// Appends a space and the flags, or nothing where they are 0.
fn write_given_flags(flags: u32, out: &mut LineBuf)
    requires { 11 ≤ out.old.spare }
    ensures text { Appends out.old out.new (behind (given_flags flags)) }
    ensures room { out.old.spare ≤ out.new.spare + 11 }
{
    if flags != 0 {
        write_next_number(flags, out);
    }
}

/// Appends the words of `HELLO`.
fn write_hello(version: u32, compiler: &[u8], ident: &[u8], out: &mut LineBuf)
    requires { 3 * length compiler.now + 3 * length ident.now + 61 ≤ out.old.spare }
    ensures text { Appends out.old out.new
        (spaced (codes "HELLO" ∷ decimal version ∷ compiler.now ∷ given_text ident.now)) }
    ensures room { out.old.spare
        ≤ out.new.spare + (3 * length compiler.now + 3 * length ident.now + 61) }
{
    out.extend(Verb::Hello.text());
    write_next_number(version, out);
    write_next(compiler, out);
    write_given_text(ident, out);
}

/// Appends the words of a request with a name.
fn write_named(verb: Verb, name: &[u8], flags: u32, out: &mut LineBuf)
    requires { 3 * length name.now + 61 ≤ out.old.spare }
    ensures text { Appends out.old out.new
        (spaced ((row_of verb).verb ∷ name.now ∷ given_flags flags)) }
    ensures room { out.old.spare ≤ out.new.spare + (3 * length name.now + 61) }
{
    out.extend(verb.text());
    write_next(name, out);
    write_given_flags(flags, out);
}

/// Appends the words of a request.
#[tactic(auto, unfolding(crate::specs::Writing::request_words))]
fn write_request(request: &Request<'_>, out: &mut LineBuf)
    requires good { IsGood (asked_by request.now) }
    requires room { request_room (asked_by request.now) ≤ out.old.spare }
    ensures text { Appends out.old out.new (spaced (request_words (asked_by request.now))) }
    ensures room { out.old.spare + 3 ≤ out.new.spare + request_room (asked_by request.now) }
{
    match *request {
        Request::Hello {
            version,
            compiler,
            ident,
        } => write_hello(version, compiler, ident, out),
        Request::Repo => out.extend(Verb::Repo.text()),
        Request::Export { name, flags } => write_named(Verb::Export, name, flags, out),
        Request::Import { name, flags } => write_named(Verb::Import, name, flags, out),
        Request::Compiled { name, flags } => write_named(Verb::Compiled, name, flags, out),
        Request::Translate { name, flags } => write_named(Verb::Translate, name, flags, out),
        Request::Bad { .. } => unreachable!(),
    }
}

/// Appends the end of a line, with the mark where more follows.
fn write_end(more: bool, out: &mut LineBuf)
    requires { 3 ≤ out.old.spare }
    ensures text { Appends out.old out.new (mark more ++ newline ∷ []) }
    ensures room { out.old.spare ≤ out.new.spare + 3 }
{
    if more {
        out.extend(b" ;\n");
    } else {
        out.push(b'\n');
    }
}

/// Appends the canonical line of a request that isn't `Bad`: its words with single spaces, ` ;` where more of
/// the block follows, and NEWLINE. Flags 0 and an empty ident are left out, and numbers have no leading zeros.
/// It asks for room of three times the octets of the request's texts, and 64 more.
pub fn write_into(request: &Request<'_>, more: bool, out: &mut LineBuf)
    requires good { IsGood (asked_by request.now) }
    requires room { request_room (asked_by request.now) ≤ out.old.spare }
    ensures text { Appends out.old out.new
        (canonical_line (request_words (asked_by request.now)) more) }
    ensures room { out.old.spare ≤ out.new.spare + request_room (asked_by request.now) }
{
    write_request(request, out);
    write_end(more, out);
}
