//! Laws of the answers to a connection's blocks, as the contracts of functions that do nothing.

ghost use Rattle.std.specs.Prelude.{◌≡◌, ◌++◌, ◌∷◌, [], List, ℕ, Option, Some, length};
ghost use Rattle.unit_registry.specs.Projects.{ProjectView};
ghost use Rattle.mm_outside.specs.Octets.{Octets};
ghost use Rattle.unit_registry.specs.declared.act.Act.TheVariants.{Open};
ghost use Rattle.histories.specs.declared.answer.Answer.{Answer};
ghost use Rattle.histories.specs.declared.entry.Entry.{Entry};
ghost use Rattle.histories.specs.Histories.{reply};
ghost use Rattle.connection_core.specs.declared.conn_end.ConnEnd.{ConnEnd};
ghost use Rattle.connection_core.specs.Asking.{Block, asked_of, acts, block_acts};
ghost use Rattle.connection_core.specs.Answers.{acts_of, all_requests, answers, answers_at, block_answer, joined, request_places};
ghost use Rattle.connection_core.specs.Ends.{Served};

/// The answers to blocks and one block more, whose requests have the places behind theirs, are those to the blocks and
/// then that to the block.
pub fn answers_join()
    ensures { (project : ProjectView) (answer_at : ℕ → Option Answer) (blocks : List Block) (block : Block)
        (places more : List ℕ) → length places ≡ all_requests project blocks
        → answers_at project answer_at (blocks ++ block ∷ []) (places ++ more)
        ≡ joined (answers_at project answer_at blocks places)
        (block_answer project answer_at (asked_of project block) more) }
{}

/// Answers to blocks that are all there stay, whatever replies come besides.
pub fn answers_stay()
    ensures { (project : ProjectView) (before after : ℕ → Option Answer)
        → ((place : ℕ) (answer : Answer) → before place ≡ Some answer → after place ≡ Some answer)
        → (blocks : List Block) (places text : List ℕ)
        → answers_at project before blocks places ≡ Some text
        → answers_at project after blocks places ≡ Some text }
{}

/// The answers of a history to a connection's blocks, where they are all there, stay, whatever is entered after them
/// and by whom.
pub fn answers_stay_later()
    ensures { (project : ProjectView) (workers : ℕ) (history more : List Entry) (conn : ℕ)
        (blocks : List Block) (text : List ℕ)
        → answers project workers history conn blocks ≡ Some text
        → answers project workers (history ++ more) conn blocks ≡ Some text }
{}

/// A connection that has entered blocks and has their answers enters one block more, whose requests stand at these
/// places. Where their replies are there too, the answer to the block stands behind the others.
pub fn answers_go_on()
    ensures answers { (project : ProjectView) (workers : ℕ) (history since : List Entry) (conn : ℕ)
        (entered : List Block) (block : Block) (requested text next : List ℕ)
        → acts_of conn history ≡ Open ∷ acts project entered
        → answers project workers history conn entered ≡ Some text
        → request_places (length history) conn since ≡ requested
        → block_answer project (reply project workers (history ++ since))
        (asked_of project block) requested ≡ Some next
        → answers project workers (history ++ since) conn (entered ++ block ∷ []) ≡ Some (text ++ next) }
    ensures entered { (project : ProjectView) (history since : List Entry) (conn : ℕ)
        (entered : List Block) (block : Block)
        → acts_of conn history ≡ Open ∷ acts project entered
        → acts_of conn since ≡ block_acts project block
        → acts_of conn (history ++ since) ≡ Open ∷ acts project (entered ++ block ∷ []) }
{}

/// A connection that was served stays served so, whatever others enter after it.
pub fn served_stays()
    ensures { (project : ProjectView) (workers limit : ℕ) (history more : List Entry) (conn : ℕ)
        (how : ConnEnd) (link : Octets)
        → Served project workers limit history conn how link
        → acts_of conn more ≡ []
        → Served project workers limit (history ++ more) conn how link }
{}
