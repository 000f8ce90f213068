//! Laws that tie what the engine keeps to the answers of a query. Each function does nothing; its
//! contract is the law.

ghost use Rattle.query_standing.specs.Laws.{HeldAreAnswers, NodesGiveAnswers, NoKeyNoAnswer, OthersLeaveAKey, OneOfAKeyComesLast, LowNeverFalls, HoldsLater, HoldsWithoutDropped, LaterAnswersStartLate, KeptGivesAnswers, KeptEngineGivesAnswers, KeptPassesUnread, KeptSkips, KeptPassesWithoutKey, KeptPassesDormant, KeptAdvances, KeptTakesAKey, KeptRemovesKeys, StatesAreMet};
ghost use Rattle.query_standing.specs.Dormancy.{GreatestIsLast, NoOpsStand, NoOpStands, ClockIsGiven, ClockGoesOn, OnlyFirstBegin, ClockIsOfEvents, LastClockIsShared, FallIsShared, FirstHeadFallsFirst, NoHeadNoneFalls};
ghost use Rattle.query_standing.specs.Giving.{NoneIsRemoved, MoreAreRemoved, OneIsRemoved};

/// The recent open matches of accepting states are exactly the answers at the last event of their
/// key, each once; over nodes, a cursor on their entries gives exactly these.
pub fn held_are_answers()
    ensures plain { HeldAreAnswers }
    ensures nodes { NodesGiveAnswers }
{}

/// Where the last event has no key there is no answer.
pub fn no_key_no_answer()
    ensures { NoKeyNoAnswer }
{}

/// An event changes what is seen of the events with its own key alone.
pub fn an_event_is_of_one_key()
    ensures others { OthersLeaveAKey }
    ensures own { OneOfAKeyComesLast }
{}

/// Along clocks that do not fall the low clock does not fall, and what starts below it is of no
/// later answer, so it may be dropped.
pub fn old_starts_may_go()
    ensures low { LowNeverFalls }
    ensures later { HoldsLater }
    ensures dropped { HoldsWithoutDropped }
    ensures answers { LaterAnswersStartLate }
{}

/// A query state stands for the events, as they come.
pub fn kept_stands()
    ensures answers { KeptGivesAnswers }
    ensures engine { KeptEngineGivesAnswers }
    ensures unread { KeptPassesUnread }
    ensures skips { KeptSkips }
    ensures no_key { KeptPassesWithoutKey }
    ensures dormant { KeptPassesDormant }
    ensures keyed { KeptAdvances }
    ensures new_key { KeptTakesAKey }
    ensures states { StatesAreMet }
{}

/// A query state stands for events that are not brought to it, with the clock that queries share.
pub fn no_ops_stand()
    ensures after_no_ops { NoOpsStand }
    ensures no_op { NoOpStands }
    ensures given { ClockIsGiven }
    ensures goes_on { ClockGoesOn }
    ensures greatest { GreatestIsLast }
    ensures begins { OnlyFirstBegin }
    ensures one { ClockIsOfEvents }
    ensures last { LastClockIsShared }
    ensures falls { FallIsShared }
    ensures first { FirstHeadFallsFirst }
    ensures none { NoHeadNoneFalls }
{}

/// Keys without lists may be removed.
pub fn kept_removes()
    ensures stands { KeptRemovesKeys }
    ensures none { NoneIsRemoved }
    ensures more { MoreAreRemoved }
    ensures one { OneIsRemoved }
{}
