//! Laws of replies and refusals, as the contracts of functions that do nothing.

ghost use Rattle.std.specs.Prelude.{◌≡◌, ◌≤◌, List, ℕ, Bool, length};
ghost use Rattle.cody_words.specs.Lines.{Words, Says, longest_line};
ghost use Rattle.cody_words.specs.Canonical.{canonical_text};
ghost use Rattle.mapper_replies.specs.declared.refusal.Refusal as refusal;
ghost use Rattle.mapper_replies.specs.Refusals.{refusal_text};
ghost use Rattle.mapper_replies.specs.Values.{ReplyValue, HasNumber};
ghost use Rattle.mapper_replies.specs.Replies.{IsReply, reply_words, SaysReply};

/// No two refusals have the same text.
pub fn refusals_differ()
    ensures { (one other : refusal.Refusal) → refusal_text one ≡ refusal_text other → one ≡ other }
{}

/// The words of a line are at most one reply.
pub fn one_reply()
    ensures { (words : List (List ℕ)) (one other : ReplyValue)
        → IsReply words one → IsReply words other → one ≡ other }
{}

/// The round trip: the words in which a reply is written are that reply, and so a canonical line that isn't
/// too long says the reply, with the mark that it was given. Whatever words it is read as are that reply.
pub fn written_is_read()
    ensures words { (value : ReplyValue) → HasNumber value → IsReply (reply_words value) value }
    ensures line { (value : ReplyValue) (more : Bool) → HasNumber value
        → length (canonical_text (reply_words value) more) ≤ longest_line
        → SaysReply (canonical_text (reply_words value) more) value more }
    ensures back { (value : ReplyValue) (more again : Bool) (words : List (List ℕ)) → HasNumber value
        → Says (canonical_text (reply_words value) more) (Words words) again
        → IsReply words value × (again ≡ more) }
{}
