//! How the lines of a block are answered.

ghost use Rattle.std.specs.Prelude.{◌≡◌, ◌+◌, ◌<◌, ◌≤◌, ◌++◌, List, length, position, vec_len, IfSome, Some, None, true, false, IsFalse};
ghost use Rattle.std.specs.Vec.{vec_capacity};
ghost use Rattle.registry_core.specs.Ledgers.{reply_at};
ghost use Rattle.registry_core.specs.Desks.{Looks, IsSound};
ghost use Rattle.connection_replies.specs.declared.line_reply.LineReply.{LineReply};
ghost use Rattle.connection_core.specs.Asking.{is_malformed, is_refused};
ghost use Rattle.connection_core.specs.Answers.{IsFirstMissing, first_malformed, refusal, refusals, replies_to};
ghost use Rattle.connection_core.specs.Replying.{looked};

use crate::asked::{Asked, is_malformed, is_refused};
use connection_replies::LineReply;
use registry_core::Desk;

/// The place of the first malformed line, counted from 0.
fn find_malformed(asked: &[Asked]) -> Option<usize>
    ensures place { result ≡ position is_malformed asked.now }
    ensures within { IfSome result (λ k. k < length asked.now) }
{
    asked.iter().position(is_malformed)
}

/// The number of the first malformed line, counted from 1.
fn first_malformed(asked: &[Asked]) -> u32
    requires { length asked.now ≤ 1024 }
    ensures { result ≡ first_malformed asked.now }
{
    find_malformed(asked).unwrap_or(0) as u32 + 1
}

/// How a line of a refused block is answered, by the number of the first malformed line and by its own.
fn refusal(first: u32, number: u32, line: Asked) -> LineReply
    ensures { result ≡ refusal first number line }
{
    match line {
        Asked::Act(_) => LineReply::Refused { first },
        Asked::Malformed(reason) => LineReply::Malformed { number, reason },
    }
}

/// Appends how the lines of a refused block are answered.
fn refuse_lines(asked: &[Asked], replies: &mut Vec<LineReply>)
    requires few { length asked.now ≤ 1024 }
    requires room { vec_len replies.old + length asked.now ≤ vec_capacity replies.old }
    ensures refused { replies.new.items ≡ replies.old.items ++ refusals asked.now }
    ensures count { length replies.new.items ≡ length replies.old.items + length asked.now }
    ensures capacity { vec_capacity replies.new ≡ vec_capacity replies.old }
{
    let first = first_malformed(asked);
    for (k, line) in asked.iter().enumerate() {
        replies.push_reserved(refusal(first, k as u32 + 1, *line));
    }
}

/// Appends the answers to the requests at these places, and answers the first place that has none yet.
fn look_at<D: Desk>(places: &[u32], desk: &mut D, replies: &mut Vec<LineReply>) -> Option<u32>
    requires sound { IsSound (D.tells desk.old) }
    requires room { vec_len replies.old + length places.now ≤ vec_capacity replies.old }
    ensures all { result ≡ None → (given : List LineReply)
        × (looked (reply_at (D.tells desk.new).seen) places.now ≡ Some given)
        × (replies.new.items ≡ replies.old.items ++ given) }
    ensures missing { IfSome result (λ place.
        IsFirstMissing (reply_at (D.tells desk.new).seen) places.now place) }
    ensures few { length replies.new.items ≤ length replies.old.items + length places.now }
    ensures looked { Looks (D.tells desk.old) (D.tells desk.new) }
    ensures sound { IsSound (D.tells desk.new) }
    ensures capacity { vec_capacity replies.new ≡ vec_capacity replies.old }
{
    for place in places {
        match desk.look(*place) {
            Some(answer) => replies.push_reserved(LineReply::Answer(answer)),
            None => return Some(*place),
        }
    }
    None
}

/// Looks at the replies to the requests at these places under one turn, which is given back.
fn look_at_once<D: Desk>(places: &[u32], desk: &mut D, replies: &mut Vec<LineReply>) -> Option<u32>
    requires sound { IsSound (D.tells desk.old) }
    requires room { vec_len replies.old + length places.now ≤ vec_capacity replies.old }
    ensures all { result ≡ None → (given : List LineReply)
        × (looked (reply_at (D.tells desk.new).seen) places.now ≡ Some given)
        × (replies.new.items ≡ replies.old.items ++ given) }
    ensures missing { IfSome result (λ place.
        IsFirstMissing (reply_at (D.tells desk.new).seen) places.now place) }
    ensures few { length replies.new.items ≤ length replies.old.items + length places.now }
    ensures looked { Looks (D.tells desk.old) (D.tells desk.new) }
    ensures turn { IsFalse (D.holds desk.new) }
    ensures sound { IsSound (D.tells desk.new) }
    ensures capacity { vec_capacity replies.new ≡ vec_capacity replies.old }
{
    desk.hold();
    let missing = look_at(places, desk, replies);
    desk.release();
    missing
}

/// Appends how the lines of a block are answered, and answers the first place of a request that has no reply yet. All
/// replies are looked at under one turn, which is given back.
pub(crate) fn gather<D: Desk>(
    asked: &[Asked],
    places: &[u32],
    desk: &mut D,
    replies: &mut Vec<LineReply>,
) -> Option<u32>
    requires sound { IsSound (D.tells desk.old) }
    requires few { length asked.now ≤ 1024 }
    requires as_many { is_refused asked.now ≡ false → length places.now ≡ length asked.now }
    requires room { vec_len replies.old + length asked.now ≤ vec_capacity replies.old }
    ensures all { result ≡ None → (given : List LineReply)
        × (replies_to (reply_at (D.tells desk.new).seen) asked.now places.now ≡ Some given)
        × (replies.new.items ≡ replies.old.items ++ given) }
    ensures missing { IfSome result (λ place.
        IsFirstMissing (reply_at (D.tells desk.new).seen) places.now place) }
    ensures few { length replies.new.items ≤ length replies.old.items + length asked.now }
    ensures looked { Looks (D.tells desk.old) (D.tells desk.new) }
    ensures refused { is_refused asked.now ≡ true → (desk.new ≡ desk.old) × (result ≡ None) }
    ensures turn { is_refused asked.now ≡ false → IsFalse (D.holds desk.new) }
    ensures sound { IsSound (D.tells desk.new) }
    ensures capacity { vec_capacity replies.new ≡ vec_capacity replies.old }
{
    if is_refused(asked) {
        refuse_lines(asked, replies);
        return None;
    }
    look_at_once(places, desk, replies)
}
