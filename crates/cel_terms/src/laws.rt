//! Laws of the meaning of queries. Each function does nothing; its contract is the law.

ghost use Rattle.cel_terms.specs.MeaningLaws.{ChainsBracketAnywhere, ChoicesCommute, EndsAreMarked, IntervalsSpan, MarksLieWithin, RepetitionUnfolds, UndeclaredIsLeftOut};

/// `(f ; g) ; h` means what `f ; (g ; h)` means, and so for `:` in either place.
pub fn chains_bracket_anywhere()
    ensures { ChainsBracketAnywhere }
{}

/// `f OR g` means what `g OR f` means.
pub fn choices_commute()
    ensures { ChoicesCommute }
{}

/// `f +` means `f` or `f ; f +`, and `f :+` means `f` or `f : f :+`.
pub fn repetition_unfolds()
    ensures { RepetitionUnfolds }
{}

/// The interval of a valuation begins and ends at events of the substream, in this order.
pub fn intervals_span()
    ensures { IntervalsSpan }
{}

/// The marks of an answer are positions of its substream, from its start to its end.
pub fn marks_lie_within()
    ensures { MarksLieWithin }
{}

/// Without SELECT and KEEP the start and the end of an answer are marked.
pub fn ends_are_marked()
    ensures { EndsAreMarked }
{}

/// An event whose type number is not declared is of no substream and has no attribute.
pub fn undeclared_is_left_out()
    ensures { UndeclaredIsLeftOut }
{}
