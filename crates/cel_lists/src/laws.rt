//! A law of answers. Its function does nothing; its contract is the law.

ghost use Rattle.cel_lists.specs.Valuations.{AnswersAreFinite};

/// Each query has a list of exactly its answers at each position, each once.
pub fn answers_are_finite()
    ensures { AnswersAreFinite }
{}
