//! What a request's answers are, row by row of the table of services (ISO 14229-1), and that `judge` of `uds_codec` finds
//! just these.
#![tactic(auto)]

ghost use Rattle.answer_law.specs.Answering.{IsAnswered};

/// An answer is judged good exactly where it is in the form of the request's row, and what is kept of it is what stands
/// behind that form; it is judged a refusal, busy or pending exactly where it is the negative answer to the request's
/// service with that code, and a bad status exactly where a routine's answer says one.
pub fn answered()
    ensures { IsAnswered }
{
    uds_codec::grammar();
}
