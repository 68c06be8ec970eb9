//! What a line is as the reply to a request.

ghost use Rattle.std.specs.Prelude.{◌≡◌, ◌≢◌, true, false, All, ◌++◌, ◌∷◌, List, ℕ, option_map, MatchOption};
ghost use Rattle.cody_words.specs.Octets.{newline};
ghost use Rattle.mapper_requests.specs.Asked.{asked_by};
ghost use Rattle.mapper_replies.specs.Values.{value_of};
ghost use Rattle.mapper_replies.specs.Working.{reply_of};
ghost use Rattle.client_core.specs.Replies.{allowed, may_have};
ghost use Rattle.client_core.specs.Working.{reply_by};

use cody_batches::Step;
use cody_words::Words;
use mapper_replies::{Reply, read};
use mapper_requests::Request;
use memchr::memchr;

/// Whether a request may have the reply.
fn may_have(request: &Request<'_>, reply: &Reply<'_>) -> bool
    ensures { result ≡ may_have (asked_by request.now) (value_of reply.now) }
{
    match request {
        Request::Hello { .. } => matches!(reply, Reply::Hello { .. } | Reply::Error(_)),
        Request::Repo | Request::Export { .. } | Request::Import { .. } => {
            matches!(reply, Reply::Pathname(_) | Reply::Error(_))
        }
        Request::Compiled { .. } => matches!(reply, Reply::Done | Reply::Error(_)),
        Request::Translate { .. } | Request::Bad { .. } => matches!(reply, Reply::Error(_)),
    }
}

/// The reply to a request that the words are, if they are one.
fn reply_to<'a>(request: &Request<'_>, words: &'a Words) -> Option<Reply<'a>>
    ensures { option_map value_of result ≡ allowed (asked_by request.now) (reply_of words.now) }
{
    let Ok(reply) = read(words) else {
        return None;
    };
    if may_have(request, &reply) {
        Some(reply)
    } else {
        None
    }
}

/// The reply to a request that a line is, by what its end brought. There is none where its block ends too early or too
/// late with it.
pub(crate) fn line_reply<'a>(
    request: &Request<'_>,
    more: bool,
    step: Step,
    words: &'a Words,
) -> Option<Reply<'a>>
    ensures { option_map value_of result ≡ reply_by (asked_by request.now) more step words.now }
{
    match step {
        Step::Message { last } if last != more => reply_to(request, words),
        _ => None,
    }
}

/// Whether no line ended that counts.
pub(crate) fn is_more(step: Step) -> bool
    ensures more { result ≡ true → step ≡ Step.More }
    ensures other { result ≡ false → step ≢ Step.More }
{
    matches!(step, Step::More)
}

/// The octets before the first NEWLINE, if there is one.
pub(crate) fn first_line(piece: &[u8]) -> Option<&[u8]>
    ensures { MatchOption result (All (λ octet. octet ≢ newline) piece.now)
        (λ line. All (λ octet. octet ≢ newline) line.now
        × ((rest : List ℕ) × (piece.now ≡ line.now ++ newline ∷ rest))) }
{
    match memchr(b'\n', piece) {
        Some(k) => Some(&piece[..k]),
        None => None,
    }
}
