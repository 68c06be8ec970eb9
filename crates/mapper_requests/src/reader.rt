//! The request that words are.

ghost use Rattle.std.specs.Prelude.{◌≡◌, ◌<◌, length};
ghost use Rattle.std.specs.Option.{option_map};
ghost use Rattle.mapper_requests.specs.Asked.{asked_by};
ghost use Rattle.mapper_requests.specs.Requests.{flags_of, request, word_at, Row};
ghost use Rattle.mapper_requests.specs.Working.{row_of};

use crate::number::read_number;
use crate::request::{Bad, Request};
use crate::verb::Verb;
use cody_words::Words;

/// The word at that place, counted from 0, or the empty word where there is none.
pub fn word_or_empty(words: &Words, place: u32) -> &[u8]
    ensures word_at { result.now ≡ word_at words.now place }
{
    if place < words.len() {
        words.word(place)
    } else {
        b""
    }
}

/// The flags of a request with a name: the third word, or 0 where there is none.
fn read_flags(words: &Words) -> Option<u32>
    ensures { result ≡ flags_of words.now }
{
    if words.len() <= 2 {
        return Some(0);
    }
    read_number(word_or_empty(words, 2))
}

/// What words with this verb and a right count ask, where their number is one.
fn read_form(verb: Verb, words: &Words) -> Option<Request<'_>>
    ensures { option_map asked_by result ≡ (row_of verb).form words.now }
{
    let name = word_or_empty(words, 1);
    let request = match verb {
        Verb::Hello => Request::Hello {
            version: read_number(name)?,
            compiler: word_or_empty(words, 2),
            ident: word_or_empty(words, 3),
        },
        Verb::Repo => Request::Repo,
        Verb::Export => Request::Export {
            name,
            flags: read_flags(words)?,
        },
        Verb::Import => Request::Import {
            name,
            flags: read_flags(words)?,
        },
        Verb::Compiled => Request::Compiled {
            name,
            flags: read_flags(words)?,
        },
        Verb::Translate => Request::Translate {
            name,
            flags: read_flags(words)?,
        },
    };
    Some(request)
}

/// The request that the words are, by the table of verbs, counts of words and numbers. Words that are no
/// request are `Bad`, with the first cause that applies.
#[tactic(auto, unfolding(crate::specs::Requests::request))]
pub fn read(words: &Words) -> Request<'_>
    requires { 0 < length words.now }
    ensures { asked_by result ≡ request words.now }
{
    let Some(verb) = Verb::read(words.word(0)) else {
        return Request::Bad {
            why: Bad::UnknownVerb,
        };
    };
    if !verb.has_count(words.len()) {
        return Request::Bad {
            why: Bad::WrongWords,
        };
    }
    match read_form(verb, words) {
        Some(request) => request,
        None => Request::Bad {
            why: Bad::BadNumber,
        },
    }
}
