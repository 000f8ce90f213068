//! Laws of the answers and of the output. Each function does nothing; its contract is the law.
//!
//! They tell a reader of the output what to expect of the definitions in `cel_terms` and
//! `answer_text`. The lemmas after them, in `proofs`, are for callers too.
#![tactic(auto)]

ghost use Rattle.output_laws.specs.AnswerLaws.{AnswersLookBack, AnswersLookWithin, LaterEventsChangeNoAnswer, LaterEventsChangeNoBlock, LaterEventsChangeNoBlocks, LaterEventsChangeNoOutput, OneMoreEventAddsItsBlocks, OutputBeginsWithThatOfTheFirst, OutputGrowsAtItsEnd, OutputStartsEmpty, SortedOutputIsUnique, TreesTellTheAnswers, TreesTellTheOutput};
ghost use Rattle.output_laws.specs.RowLaws.{LinesTellTheirRows, OrdersWriteTheSameLines, OutputIsRows, RowsAreTheOutput, RowsGrowAtTheirEnd};
ghost use Rattle.output_laws.specs.After.{OutputAfterIsFromThere, OutputIsInTwoParts};
ghost use Rattle.output_laws.specs.QueryWords.{WordsTellTheAnswers, WordsTellTheOutput};

/// An answer depends on the events up to its end alone.
pub fn answers_look_back()
    ensures { AnswersLookBack }
{}

/// An answer depends on the events alone that its query reads from its start to its end.
pub fn answers_look_within()
    ensures { AnswersLookWithin }
{}

/// Events that come later change no answer.
pub fn later_events_change_no_answer()
    ensures { LaterEventsChangeNoAnswer }
{}

/// Events that come later change no block of a query.
pub fn later_events_change_no_block()
    ensures { LaterEventsChangeNoBlock }
{}

/// Events that come later change nothing of what is written at a position.
pub fn later_events_change_no_blocks()
    ensures { LaterEventsChangeNoBlocks }
{}

/// Events that come later change nothing of what is written at the first positions.
pub fn later_events_change_no_output()
    ensures { LaterEventsChangeNoOutput }
{}

/// Before the first event nothing is written.
pub fn output_starts_empty()
    ensures { OutputStartsEmpty }
{}

/// One more event puts its blocks after the output.
pub fn one_more_event_adds_its_blocks()
    ensures { OneMoreEventAddsItsBlocks }
{}

/// The output of more events is that of the first with more after it.
pub fn output_grows_at_its_end()
    ensures { OutputGrowsAtItsEnd }
{}

/// Every output of more events begins with an output of the first.
pub fn output_begins_with_that_of_the_first()
    ensures { OutputBeginsWithThatOfTheFirst }
{}

/// In sorted order, and where no query has ANY, there is no second output.
pub fn sorted_output_is_unique()
    ensures { SortedOutputIsUnique }
{}

/// The answers of a query depend on what it says, and not on where its parts lie in memory.
pub fn trees_tell_the_answers()
    ensures { TreesTellTheAnswers }
{}

/// The output depends on what the queries say, and not on where their parts lie in memory.
pub fn trees_tell_the_output()
    ensures { TreesTellTheOutput }
{}

/// The answers of a query depend on its words, and not on where these stand in a text.
pub fn words_tell_the_answers()
    ensures { WordsTellTheAnswers }
{}

/// The output depends on the words of the queries, and not on where these stand in a text.
pub fn words_tell_the_output()
    ensures { WordsTellTheOutput }
{}

/// Each line of the output is that of an answer, and no answer has two.
pub fn output_is_rows()
    ensures { OutputIsRows }
{}

/// A line tells its query, its position and its answer.
pub fn lines_tell_their_rows()
    ensures { LinesTellTheirRows }
{}

/// Where no query has ANY, the same lines are written in every order.
pub fn orders_write_the_same_lines()
    ensures { OrdersWriteTheSameLines }
{}

/// The output's rows, one line each, are the output.
pub fn rows_are_the_output()
    ensures { RowsAreTheOutput }
{}

/// The rows of more events are those of the first with more after them.
pub fn rows_grow_at_their_end()
    ensures { RowsGrowAtTheirEnd }
{}

/// The output behind the first events is that at the positions from there on.
pub fn output_after_is_from_there()
    ensures { OutputAfterIsFromThere }
{}

/// The output of all events is that of the first, and behind it that of those that come after them.
pub fn output_is_in_two_parts()
    ensures { OutputIsInTwoParts }
{}
