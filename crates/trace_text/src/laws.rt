//! Laws of traces, as the contracts of functions that do nothing.

ghost use Rattle.std.specs.Prelude.{◌≡◌, List, [], ◌∷◌, ◌++◌, ℕ, length};
ghost use Rattle.histories.specs.declared.entry.Entry.{Entry};
ghost use Rattle.trace_text.specs.declared.reason.TraceReason.{TraceReason};
ghost use Rattle.trace_text.specs.Texts.{end_line, ended, entry_line, first_text, head_line, trace, HasTrace};
ghost use Rattle.trace_text.specs.Faults.{IsTraceText, IsFault};

/// Equal texts of traces are of equal numbers of workers, equal limits and equal histories.
pub fn equal_traces()
    ensures workers { (workers others limit bound : ℕ) (history other : List Entry)
        → HasTrace workers limit history → HasTrace others bound other
        → trace workers limit history ≡ trace others bound other → workers ≡ others }
    ensures limit { (workers others limit bound : ℕ) (history other : List Entry)
        → HasTrace workers limit history → HasTrace others bound other
        → trace workers limit history ≡ trace others bound other → limit ≡ bound }
    ensures history { (workers others limit bound : ℕ) (history other : List Entry)
        → HasTrace workers limit history → HasTrace others bound other
        → trace workers limit history ≡ trace others bound other → history ≡ other }
{}

/// The lines of a trace, written one behind the other, make its text.
pub fn lines_of_a_trace()
    ensures head { (workers limit : ℕ)
        → first_text workers limit [] ≡ ended (head_line workers limit) }
    ensures entry { (workers limit : ℕ) (history : List Entry) (entry : Entry)
        → first_text workers limit (history ++ entry ∷ [])
        ≡ first_text workers limit history ++ ended (entry_line entry) }
    ensures end { (workers limit : ℕ) (history : List Entry)
        → trace workers limit history
        ≡ first_text workers limit history ++ ended (end_line (length history)) }
{}

/// A text is that of one trace at most, has one first fault at most, and never both.
pub fn one_reading()
    ensures workers { (text : List ℕ) (workers others limit bound : ℕ) (history other : List Entry)
        → IsTraceText text workers limit history → IsTraceText text others bound other
        → workers ≡ others }
    ensures limit { (text : List ℕ) (workers others limit bound : ℕ) (history other : List Entry)
        → IsTraceText text workers limit history → IsTraceText text others bound other
        → limit ≡ bound }
    ensures history { (text : List ℕ) (workers others limit bound : ℕ) (history other : List Entry)
        → IsTraceText text workers limit history → IsTraceText text others bound other
        → history ≡ other }
    ensures line { (text : List ℕ) (line other : ℕ) (reason why : TraceReason)
        → IsFault text line reason → IsFault text other why → line ≡ other }
    ensures reason { (text : List ℕ) (line other : ℕ) (reason why : TraceReason)
        → IsFault text line reason → IsFault text other why → reason ≡ why }
    ensures apart { (text : List ℕ) (workers limit : ℕ) (history : List Entry)
        (line : ℕ) (reason : TraceReason)
        → IsTraceText text workers limit history → IsFault text line reason → ⊥ }
{}
