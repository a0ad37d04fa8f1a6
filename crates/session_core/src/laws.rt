ghost use Rattle.session_core.specs.Histories.{AnswersTellHistories};

/// Reply lines that answer the lines of a script one after the other, at most 2^53-1 of them, are the reply lines of one
/// legal history, whose requests are those of the lines. It does nothing, and its contract is the law.
pub fn answers_tell_histories()
    ensures { AnswersTellHistories }
{}
