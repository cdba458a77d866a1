//! Laws of traces, as contracts of functions that do nothing.
ghost use Rattle.std.specs.Prelude.{◌≡◌, ℕ, List};
ghost use Rattle.trace_check.specs.Breaks.{IsLawfulTrace, TraceBreaksAt};
ghost use Rattle.trace_check.specs.Reading.{IsTraceOf};
ghost use Rattle.trace_check.specs.Traces.{Trace};

use yak_model::laws::uniqueness;

/// A text is one trace at most.
pub fn law_one_trace()
    ensures { (lines : List (List ℕ)) (one other : Trace) → IsTraceOf lines one → IsTraceOf lines other → one ≡ other }
{}

/// No trace is both lawful and broken.
pub fn law_lawful_or_breaks()
    ensures { (lines : List (List ℕ)) (trace : Trace) (entry : ℕ) → IsTraceOf lines trace → IsLawfulTrace trace.script trace.entries → TraceBreaksAt trace.script trace.entries entry → ⊥ }
{
    uniqueness();
}
