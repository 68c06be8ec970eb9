//! Laws of histories, as the contracts of functions that do nothing.

ghost use Rattle.std.specs.Prelude.{◌≡◌, ◌≢◌, ◌↔◌, ◌||◌, ◌+◌, ◌<◌, ◌≤◌, ℕ, Bool, List, [], ◌∷◌, ◌++◌, length, map, slice_get, All, Contains, count_by, false, Some, None, is_some, is_none, IsTrue, IsFalse};
ghost use Rattle.std.specs.List.{range_with_len};
ghost use Rattle.wait_graph.specs.Walks.{IsAcyclic};
ghost use Rattle.unit_registry.specs.declared.act.Act.TheVariants.{Import};
ghost use Rattle.mapper_replies.specs.declared.refusal.Refusal.TheVariants.{UnitFailed};
ghost use Rattle.unit_registry.specs.Acts.{is_open_act, is_pause, is_done, is_compiled_of};
ghost use Rattle.unit_registry.specs.Projects.{ProjectView, is_built};
ghost use Rattle.histories.specs.declared.entry.Entry.{Entry};
ghost use Rattle.histories.specs.declared.answer.Answer.{Answer};
ghost use Rattle.histories.specs.declared.answer.Answer.TheVariants.{Path, Refused};
ghost use Rattle.histories.specs.declared.answered.Answered.{Answered};
ghost use Rattle.histories.specs.declared.answered.Wait.{Wait};
ghost use Rattle.histories.specs.declared.illegal_reason.IllegalReason.{IllegalReason};
ghost use Rattle.histories.specs.declared.standing.Fate.{Fate};
ghost use Rattle.histories.specs.declared.standing.Fate.TheVariants.{Compiled, Failed};
ghost use Rattle.histories.specs.declared.standing.Who.TheVariants.{Nobody};
ghost use Rattle.histories.specs.Answered.{was_opened, has_gone, is_open, open_connections, opened_count, open_count, done_count, reserved, is_paused, who, holder, is_accepted, is_reported, stores, is_stored, wait_at, told_to_wait};
ghost use Rattle.histories.specs.Noted.{fate, pending, waits, answer_in, answer_by};
ghost use Rattle.histories.specs.Answers.{at_once, IsFirstReport};
ghost use Rattle.histories.specs.Histories.{noted_of, answered_in, and_then, reply, with_said, asks_nothing, is_waiting, fault, first_fault, IsLegal, IsFirstFault};
ghost use Rattle.histories.specs.Counts.{effect_of, ChangesOpened, ChangesOpen, ChangesDone, ChangesReserved, ChangesOwn, MayCome};

/// A reply that has come stays, whatever is entered after it. So do those of a list of places that all have one.
pub fn replies_stay()
    ensures one { (project : ProjectView) (workers : ℕ) (history more : List Entry) (place : ℕ) (answer : Answer)
        → reply project workers history place ≡ Some answer
        → reply project workers (history ++ more) place ≡ Some answer }
    ensures all { (project : ProjectView) (workers : ℕ) (history more : List Entry) (places : List ℕ)
        → All (λ place. IsTrue (is_some (reply project workers history place))) places
        → map (reply project workers (history ++ more)) places ≡ map (reply project workers history) places }
{}

/// A reply comes with its request's own entry, or, where that was told to wait, with the entry after which
/// its unit has ended. An act that asks nothing never has one, nor an import whose connection has gone before
/// its unit has ended.
pub fn replies_come()
    ensures own { (project : ProjectView) (workers : ℕ) (history : List Entry) (entry : Entry)
        → reply project workers (history ++ entry ∷ []) (length history)
        ≡ answer_in (at_once project (noted_of project workers history) entry.conn entry.act) }
    ensures unasked { (project : ProjectView) (workers : ℕ) (history : List Entry) (place : ℕ)
        → length history ≤ place → reply project workers history place ≡ None }
    ensures ended { (project : ProjectView) (workers limit : ℕ) (history : List Entry) (entry : Entry)
        → IsLegal project workers limit (history ++ entry ∷ [])
        → (wait : Wait) → Contains (pending project (noted_of project workers history)) wait
        → (end : Fate)
        → fate project (noted_of project workers (history ++ entry ∷ [])) wait.unit ≡ Some end
        → reply project workers (history ++ entry ∷ []) wait.place ≡ Some (answer_by end wait.unit) }
    ensures nothing { (project : ProjectView) (workers : ℕ) (history more : List Entry) (entry : Entry)
        → IsTrue (asks_nothing entry.act)
        → reply project workers (history ++ entry ∷ more) (length history) ≡ None }
    ensures gone { (project : ProjectView) (workers : ℕ) (history more : List Entry)
        → (wait : Wait) → Contains (told_to_wait (answered_in project workers history)) wait
        → IsTrue (has_gone (answered_in project workers history) wait.conn)
        → fate project (noted_of project workers history) wait.unit ≡ None
        → reply project workers (history ++ more) wait.place ≡ None }
{}

/// A request of an open connection that has no reply waits: it is an import of a unit, not for its name alone, and
/// stands among those that wait. So its connection has an import that waits.
pub fn unanswered_wait()
    ensures request { (project : ProjectView) (workers : ℕ) (history : List Entry) (place : ℕ) (entry : Entry)
        → slice_get history place ≡ Some entry → IsFalse (asks_nothing entry.act)
        → IsTrue (is_open (answered_in project workers history) entry.conn)
        → reply project workers history place ≡ None
        → (unit : ℕ) × (entry.act ≡ Import (Some unit) false)
        × Contains (pending project (noted_of project workers history)) (wait_at place entry.conn unit) }
    ensures conn { (project : ProjectView) (workers : ℕ) (history : List Entry) (place : ℕ) (entry : Entry)
        → slice_get history place ≡ Some entry → IsFalse (asks_nothing entry.act)
        → IsTrue (is_open (answered_in project workers history) entry.conn)
        → reply project workers history place ≡ None
        → IsTrue (is_waiting project (noted_of project workers history) entry.conn) }
{}

/// An import that is answered by a path is answered by its own unit's. Where it isn't for the name alone, its unit is
/// compiled then, and one that is answered that its unit has failed has a unit that failed.
pub fn replies_tell_fates()
    ensures path { (project : ProjectView) (workers : ℕ) (history : List Entry) (place : ℕ) (entry : Entry)
        (unit path : ℕ) (name_only : Bool)
        → slice_get history place ≡ Some entry → entry.act ≡ Import (Some unit) name_only
        → reply project workers history place ≡ Some (Path path) → path ≡ unit }
    ensures compiled { (project : ProjectView) (workers : ℕ) (history : List Entry) (place : ℕ) (entry : Entry)
        (unit path : ℕ)
        → slice_get history place ≡ Some entry → entry.act ≡ Import (Some unit) false
        → reply project workers history place ≡ Some (Path path)
        → fate project (noted_of project workers history) unit ≡ Some Compiled }
    ensures failed { (project : ProjectView) (workers limit : ℕ) (history : List Entry)
        → IsLegal project workers limit history → (place : ℕ) (entry : Entry) (unit : ℕ)
        → slice_get history place ≡ Some entry → entry.act ≡ Import (Some unit) false
        → reply project workers history place ≡ Some (Refused UnitFailed)
        → fate project (noted_of project workers history) unit ≡ Some Failed }
{}

/// How a unit has ended stays as a legal history goes on. A unit that is compiled stays so whatever is entered.
pub fn fates_stay()
    ensures ended { (project : ProjectView) (workers limit : ℕ) (history more : List Entry)
        → IsLegal project workers limit (history ++ more) → (unit : ℕ) (end : Fate)
        → fate project (noted_of project workers history) unit ≡ Some end
        → fate project (noted_of project workers (history ++ more)) unit ≡ Some end }
    ensures compiled { (project : ProjectView) (workers : ℕ) (history more : List Entry) (unit : ℕ)
        → fate project (noted_of project workers history) unit ≡ Some Compiled
        → fate project (noted_of project workers (history ++ more)) unit ≡ Some Compiled }
{}

/// An import that was told to wait, and whose connection is open, has no reply exactly where its unit
/// hasn't ended.
pub fn waits_until_ended()
    ensures { (project : ProjectView) (workers limit : ℕ) (history : List Entry)
        → IsLegal project workers limit history
        → (wait : Wait) → Contains (told_to_wait (answered_in project workers history)) wait
        → IsTrue (is_open (answered_in project workers history) wait.conn)
        → is_none (reply project workers history wait.place)
        ≡ is_none (fate project (noted_of project workers history) wait.unit) }
{}

/// The waits of a legal history lead in no circle.
pub fn waits_are_acyclic()
    ensures { (project : ProjectView) (workers limit : ℕ) (history : List Entry)
        → IsLegal project workers limit history
        → IsAcyclic (waits project (noted_of project workers history)) }
{}

/// No deadlock: where no worker is free, some connection is open and all open ones have paused, some open
/// connection has no import that waits.
pub fn someone_goes_on()
    ensures { (project : ProjectView) (workers limit : ℕ) (history : List Entry)
        → IsLegal project workers limit history
        → open_count (answered_in project workers history)
        + done_count (answered_in project workers history) ≡ workers
        → open_count (answered_in project workers history) ≢ 0
        → ((conn : ℕ) → IsTrue (is_open (answered_in project workers history) conn)
        → IsTrue (is_paused (answered_in project workers history) conn))
        → (conn : ℕ) × IsTrue (is_open (answered_in project workers history) conn)
        × IsFalse (is_waiting project (noted_of project workers history) conn) }
{}

/// A history is noted entry by entry. It is legal with one more entry where it was, and that entry fails
/// no check.
pub fn legal_entries()
    ensures noted { (project : ProjectView) (workers : ℕ) (history : List Entry) (entry : Entry)
        → noted_of project workers (history ++ entry ∷ [])
        ≡ and_then project workers (noted_of project workers history) entry }
    ensures len { (project : ProjectView) (workers : ℕ) (history : List Entry)
        → length (noted_of project workers history) ≡ length history }
    ensures front { (project : ProjectView) (workers limit : ℕ) (history more : List Entry)
        → IsLegal project workers limit (history ++ more) → IsLegal project workers limit history }
    ensures one_more { (project : ProjectView) (workers limit : ℕ) (history : List Entry) (entry : Entry)
        → IsLegal project workers limit (history ++ entry ∷ [])
        ↔ (IsLegal project workers limit history
        × (fault project workers limit (noted_of project workers history) entry ≡ None)) }
{}

/// A history without a first fault is legal, and one with a first fault is legal up to its place and fails there for
/// its reason.
pub fn first_fault_decides()
    ensures legal { (project : ProjectView) (workers limit : ℕ) (history : List Entry)
        → (first_fault project workers limit 0 [] history ≡ None) ↔ IsLegal project workers limit history }
    ensures illegal { (project : ProjectView) (workers limit : ℕ) (history : List Entry)
        (place : ℕ) (reason : IllegalReason)
        → (first_fault project workers limit 0 [] history ≡ Some (place, reason))
        ↔ IsFirstFault project workers limit history place reason }
{}

/// After a legal history, an entry fails no check exactly where what its kind needs is there. An end and a
/// going need no room, since theirs was reserved.
pub fn entries_may_come()
    ensures { (project : ProjectView) (workers limit : ℕ) (history : List Entry) (entry : Entry)
        → workers ≤ limit → IsLegal project workers limit history
        → (fault project workers limit (noted_of project workers history) entry ≡ None)
        ↔ MayCome project workers limit (noted_of project workers history) entry (effect_of entry.act) }
{}

/// There is a worker for each open connection and each Done, and room for the ends that are to come.
pub fn ends_fit()
    ensures workers { (project : ProjectView) (workers limit : ℕ) (history : List Entry)
        → IsLegal project workers limit history
        → open_count (answered_in project workers history)
        + done_count (answered_in project workers history) ≤ workers }
    ensures limit { (project : ProjectView) (workers limit : ℕ) (history : List Entry)
        → workers ≤ limit → IsLegal project workers limit history
        → length history + reserved workers (answered_in project workers history) ≤ limit }
{}

/// The entries of a legal history and the ends that are still to come are together never fewer as it goes on: an end
/// that was still to come is an entry once it has come.
pub fn room_is_used_up()
    ensures { (project : ProjectView) (workers limit : ℕ) (history more : List Entry)
        → IsLegal project workers limit (history ++ more)
        → length history + reserved workers (answered_in project workers history)
        ≤ length (history ++ more) + reserved workers (answered_in project workers (history ++ more)) }
{}

/// What one more legal entry does to the counts goes by the kind of its act.
pub fn one_more_entry()
    ensures opened { (project : ProjectView) (workers limit : ℕ) (history : List Entry) (entry : Entry)
        → IsLegal project workers limit (history ++ entry ∷ [])
        → ChangesOpened (effect_of entry.act) (opened_count (answered_in project workers history))
        (opened_count (answered_in project workers (history ++ entry ∷ []))) }
    ensures still_open { (project : ProjectView) (workers limit : ℕ) (history : List Entry) (entry : Entry)
        → IsLegal project workers limit (history ++ entry ∷ [])
        → ChangesOpen (effect_of entry.act) (open_count (answered_in project workers history))
        (open_count (answered_in project workers (history ++ entry ∷ []))) }
    ensures done { (project : ProjectView) (workers limit : ℕ) (history : List Entry) (entry : Entry)
        → IsLegal project workers limit (history ++ entry ∷ [])
        → ChangesDone (effect_of entry.act) (done_count (answered_in project workers history))
        (done_count (answered_in project workers (history ++ entry ∷ []))) }
    ensures reserved { (project : ProjectView) (workers limit : ℕ) (history : List Entry) (entry : Entry)
        → IsLegal project workers limit (history ++ entry ∷ [])
        → ChangesReserved (effect_of entry.act) (reserved workers (answered_in project workers history))
        (reserved workers (answered_in project workers (history ++ entry ∷ []))) }
{}

/// An entry leaves open whichever other connection is open, and so do more entries of others. What it does to
/// its own goes by the kind of its act.
pub fn open_under_entries()
    ensures other { (entry : Answered) (answered : List Answered) (conn : ℕ)
        → entry.conn ≢ conn → is_open (entry ∷ answered) conn ≡ is_open answered conn }
    ensures others { (project : ProjectView) (workers : ℕ) (history more : List Entry) (conn : ℕ)
        → All (λ entry. entry.conn ≢ conn) more
        → is_open (answered_in project workers (history ++ more)) conn
        ≡ is_open (answered_in project workers history) conn }
    ensures own { (project : ProjectView) (workers limit : ℕ) (history : List Entry) (entry : Entry)
        → IsLegal project workers limit (history ++ entry ∷ [])
        → ChangesOwn (effect_of entry.act) (is_open (answered_in project workers history) entry.conn)
        (is_open (answered_in project workers (history ++ entry ∷ [])) entry.conn) }
{}

/// A connection has paused after its entry where that is a Pause. Entries of others leave it so, or not so.
pub fn paused_under_entries()
    ensures own { (project : ProjectView) (workers : ℕ) (history : List Entry) (entry : Entry)
        → is_paused (answered_in project workers (history ++ entry ∷ [])) entry.conn ≡ is_pause entry.act }
    ensures others { (project : ProjectView) (workers : ℕ) (history more : List Entry) (conn : ℕ)
        → All (λ entry. entry.conn ≢ conn) more
        → is_paused (answered_in project workers (history ++ more)) conn
        ≡ is_paused (answered_in project workers history) conn }
{}

/// Connections are numbered as they open: each entry but a Done is of one that opened, and the next
/// number and those above it are of none.
pub fn connection_numbers()
    ensures below { (project : ProjectView) (workers limit : ℕ) (history : List Entry)
        → IsLegal project workers limit history
        → All (λ entry. IsFalse (is_done entry.act)
        → entry.conn < opened_count (answered_in project workers history)) history }
    ensures unopened { (project : ProjectView) (workers limit : ℕ) (history : List Entry)
        → IsLegal project workers limit history
        → (conn : ℕ) → opened_count (answered_in project workers history) ≤ conn
        → IsFalse (was_opened (answered_in project workers history) conn) }
    ensures not_gone { (project : ProjectView) (workers limit : ℕ) (history : List Entry)
        → IsLegal project workers limit history
        → (conn : ℕ) → opened_count (answered_in project workers history) ≤ conn
        → IsFalse (has_gone (answered_in project workers history) conn) }
    ensures nobody { (project : ProjectView) (workers limit : ℕ) (history : List Entry)
        → IsLegal project workers limit history
        → (conn : ℕ) → opened_count (answered_in project workers history) ≤ conn
        → who (answered_in project workers history) conn ≡ Nobody }
{}

/// The open connections are those that are open, and over all numbers there are so many of them.
pub fn open_connections_counted()
    ensures members { (answered : List Answered) (conn : ℕ)
        → Contains (open_connections answered) conn ↔ IsTrue (is_open answered conn) }
    ensures counted { (project : ProjectView) (workers limit : ℕ) (history : List Entry)
        → IsLegal project workers limit history
        → open_count (answered_in project workers history)
        ≡ count_by (is_open (answered_in project workers history))
        (range_with_len 0 (opened_count (answered_in project workers history))) }
{}

/// Openings, and ends of workers, are counted over the entries alone.
pub fn entries_counted()
    ensures opened { (project : ProjectView) (workers : ℕ) (history : List Entry)
        → opened_count (answered_in project workers history)
        ≡ count_by (λ entry. is_open_act entry.act) history }
    ensures done { (project : ProjectView) (workers : ℕ) (history : List Entry)
        → done_count (answered_in project workers history)
        ≡ count_by (λ entry. is_done entry.act) history }
{}

/// A unit that has a holder, or that was reported, wasn't built. It is reported by its holder alone, and at most
/// once.
pub fn reported_once()
    ensures held { (project : ProjectView) (workers : ℕ) (history : List Entry) (unit conn : ℕ)
        → holder (answered_in project workers history) unit ≡ Some conn → IsFalse (is_built project unit) }
    ensures reported { (project : ProjectView) (workers : ℕ) (history : List Entry) (unit : ℕ)
        → IsTrue (is_reported (answered_in project workers history) unit) → IsFalse (is_built project unit) }
    ensures first { (project : ProjectView) (workers : ℕ) (history : List Entry) (entry : Entry) (unit : ℕ)
        → IsTrue (is_accepted (at_once project (noted_of project workers history) entry.conn entry.act))
        → IsTrue (is_compiled_of unit entry.act)
        → IsFirstReport project (answered_in project workers history) entry.conn unit }
{}

/// The units with an item: one more entry adds the unit of an accepted Compiled that came with one, which was
/// reported then.
pub fn items_stored()
    ensures more { (project : ProjectView) (workers : ℕ) (history : List Entry) (entry : Entry) (unit : ℕ)
        → is_stored (answered_in project workers (history ++ entry ∷ [])) unit
        ≡ (stores unit (with_said entry (at_once project (noted_of project workers history) entry.conn entry.act))
        || is_stored (answered_in project workers history) unit) }
    ensures reported { (answered : List Answered) (unit : ℕ)
        → IsTrue (is_stored answered unit) → IsTrue (is_reported answered unit) }
{}
