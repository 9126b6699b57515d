//! Laws of every trace that is audited. Each law is the contract of a function that does nothing.
ghost use Rattle.std.specs.Prelude.{◌≡◌, length};
ghost use Rattle.cb_trace.specs.Trace.{TraceView, asked_from, base_account};
ghost use Rattle.cb_audit.specs.Turns.{answers_in, turns_in};

/// A trace has a question for each answer. So each answer is among its turns.
pub fn each_answer_has_its_question()
    ensures asked { (trace : TraceView) → length (asked_from (base_account trace) trace.entries)
        ≡ length (answers_in trace.entries) }
    ensures turns { (trace : TraceView)
        → length (turns_in trace) ≡ length (answers_in trace.entries) }
{}
