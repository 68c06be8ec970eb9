//! Laws of requests, as the contracts of functions that do nothing.

ghost use Rattle.std.specs.Prelude.{◌≡◌, ◌+◌, ◌≤◌, List, ℕ, Bool, Some, length, decimal};
ghost use Rattle.cody_words.specs.Lines.{Words, Says, longest_line};
ghost use Rattle.cody_words.specs.Canonical as canonical;
ghost use Rattle.mapper_requests.specs.Asked.{Asked, IsGood, HasNumbers};
ghost use Rattle.mapper_requests.specs.Numbers.{number_of, IsNumber};
ghost use Rattle.mapper_requests.specs.Requests.{request};
ghost use Rattle.mapper_requests.specs.Writing.{request_room, request_words};

/// A number that is written is read back.
pub fn number_read_back()
    ensures { (value : ℕ) → IsNumber value → number_of (decimal value) ≡ Some value }
{}

/// The version and the flags of a request that is read are numbers, at most 4,294,967,295.
pub fn numbers_fit()
    ensures { (words : List (List ℕ)) → HasNumbers (request words) }
{}

/// A request that is read asks for no more room than its words do where they are written, and 64 more.
pub fn room_fits()
    ensures { (words : List (List ℕ))
        → request_room (request words) ≤ canonical.line_room words + 64 }
{}

/// The words of a request that isn't bad are that request.
pub fn words_read_back()
    ensures { (asked : Asked) → IsGood asked → HasNumbers asked
        → request (request_words asked) ≡ asked }
{}

/// The canonical line of a request that isn't bad, without its NEWLINE and where it isn't too long, says the words
/// of that request and has the mark it was given. Whatever words it says are that request.
pub fn line_read_back()
    ensures says { (asked : Asked) (more : Bool) → IsGood asked
        → length (canonical.canonical_text (request_words asked) more) ≤ longest_line
        → Says (canonical.canonical_text (request_words asked) more)
        (Words (request_words asked)) more }
    ensures reads { (asked : Asked) (more marked : Bool) (words : List (List ℕ))
        → IsGood asked → HasNumbers asked
        → Says (canonical.canonical_text (request_words asked) more) (Words words) marked
        → (request words ≡ asked) × (marked ≡ more) }
{}
