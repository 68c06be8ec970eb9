//! Reading a reply.

ghost use Rattle.std.specs.Prelude.{◌≡◌, ◌∷◌, [], IfOk, IfErr};
ghost use Rattle.mapper_replies.specs.Values.{ReplyValue, value_of};
ghost use Rattle.mapper_replies.specs.Replies.{IsReply};
ghost use Rattle.mapper_replies.specs.Working.{is_hello, read_value, reply_of, truth_of};

use crate::reply::{NotAReply, Reply};
use cody_words::Words;
use mapper_requests::read_number;

/// The truth value of a word.
fn read_truth(word: &[u8]) -> Option<bool>
    ensures { result ≡ truth_of word.now }
{
    if word == b"TRUE".as_slice() {
        Some(true)
    } else if word == b"FALSE".as_slice() {
        Some(false)
    } else {
        None
    }
}

/// The reply that one word is.
fn read_one(verb: &[u8]) -> Result<Reply<'static>, NotAReply>
    ensures { read_value result ≡ reply_of (verb.now ∷ []) }
{
    if verb == b"OK".as_slice() {
        Ok(Reply::Done)
    } else {
        Err(NotAReply)
    }
}

/// The reply that two words are.
fn read_two<'a>(verb: &[u8], word: &'a [u8]) -> Result<Reply<'a>, NotAReply>
    ensures { read_value result ≡ reply_of (verb.now ∷ word.now ∷ []) }
{
    if verb == b"PATHNAME".as_slice() {
        Ok(Reply::Pathname(word))
    } else if verb == b"BOOL".as_slice() {
        let truth = read_truth(word).ok_or(NotAReply)?;
        Ok(Reply::Bool(truth))
    } else if verb == b"ERROR".as_slice() {
        Ok(Reply::Error(word))
    } else {
        Err(NotAReply)
    }
}

/// Whether a greeting of version 1 begins with these words.
fn is_hello(verb: &[u8], version: &[u8]) -> bool
    ensures { result ≡ is_hello verb.now version.now }
{
    verb == b"HELLO".as_slice() && version == b"1".as_slice()
}

/// The reply that three words are.
fn read_three<'a>(verb: &[u8], version: &[u8], builder: &'a [u8]) -> Result<Reply<'a>, NotAReply>
    ensures { read_value result ≡ reply_of (verb.now ∷ version.now ∷ builder.now ∷ []) }
{
    if is_hello(verb, version) {
        Ok(Reply::Hello { builder, flags: 0 })
    } else {
        Err(NotAReply)
    }
}

/// The reply that four words are: one of three words with flags.
fn read_four<'a>(
    verb: &[u8],
    version: &[u8],
    builder: &'a [u8],
    number: &[u8],
) -> Result<Reply<'a>, NotAReply>
    ensures { read_value result
        ≡ reply_of (verb.now ∷ version.now ∷ builder.now ∷ number.now ∷ []) }
{
    if is_hello(verb, version) {
        let flags = read_number(number).ok_or(NotAReply)?;
        Ok(Reply::Hello { builder, flags })
    } else {
        Err(NotAReply)
    }
}

/// The reply that the words are, by the table of replies of libcody's protocol text: `HELLO 1 builder
/// [flags]`, `PATHNAME path`, `OK`, `BOOL TRUE`, `BOOL FALSE` or `ERROR message`. Flags are one to ten
/// decimal digits, of value at most 4,294,967,295, and 0 where the word is missing (this project's own).
pub fn read(words: &Words) -> Result<Reply<'_>, NotAReply>
    ensures reply { IfOk result (λ reply. IsReply words.now (value_of reply)) }
    ensures none { IfErr result (λ _. (value : ReplyValue) → ¬ IsReply words.now value) }
{
    match words.len() {
        1 => read_one(words.word(0)),
        2 => read_two(words.word(0), words.word(1)),
        3 => read_three(words.word(0), words.word(1), words.word(2)),
        4 => read_four(words.word(0), words.word(1), words.word(2), words.word(3)),
        _ => Err(NotAReply),
    }
}
