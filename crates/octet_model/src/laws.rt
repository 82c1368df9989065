//! The laws over the definitions, each the contract of a function that does nothing.
ghost use Rattle.octet_model.specs.Laws.{OneExecution, OneSetOfJournals, FrontsContinue, LowestPlayMakesAll, LowestPlayGivesHeap, LowestPlayIsLowestOrder, LowestFrontIsFront, OneLowestFront, LowestOrderIsLowest, LowestPlayIsLowest, LowestOrderIsLawful, HistoryBegins, HistoryGrows, PlayIsFaithful, HistoryIsFaithful, HistoryIsFaithfulToPlan, ScriptIsItsPlan, LawfulOrderHasItsLog, LawfulOrderFits, FaithfulLogIsShort, FaithfulAddsUp, ScriptTestIsExact, LogTestIsExact};
ghost use Rattle.octet_model.specs.PastLaws.{PathsStay, PastsStay, PastsGainNothing, PastHasOwn, PastHappensBefore, PastIsClosed, PastGrows, PastHasJoined, PastHasDraws, DrawsDifferInHistory};

/// Where the journals of one lawful order are ordered, all lawful orders have one execution and
/// the same journals, and every lawful front can be continued to a lawful order: no replay of
/// such a log sticks, whatever order it takes.
pub fn one_outcome()
    ensures execution { OneExecution }
    ensures journals { OneSetOfJournals }
    ensures continues { FrontsContinue }
{}

/// Where journals are ordered and some play makes every event of them and gives every read its
/// value and every update its two values, the lowest play does so too and ends with the same
/// heap. Where they fit a script to its threads' ends, it is the lowest order of the script and
/// the journals' log.
pub fn lowest_play_makes_all()
    ensures makes_all { LowestPlayMakesAll }
    ensures heap { LowestPlayGivesHeap }
    ensures order { LowestPlayIsLowestOrder }
{}

/// A lowest front takes always the lowest thread that may step, until none may. From one state
/// there is at most one, and it is a front. The lowest order of a script and a log, and the lowest
/// play of journals, are lowest fronts: the number of steps that they may take is enough. Where
/// the journals of one lawful order are ordered, the lowest order is a lawful order.
pub fn lowest_is_one()
    ensures front { LowestFrontIsFront }
    ensures one { OneLowestFront }
    ensures order { LowestOrderIsLowest }
    ensures play { LowestPlayIsLowest }
    ensures lawful { LowestOrderIsLawful }
{}

/// Journals that grow by one event keep their paths, and a past never changes: each event in it
/// stays, and in one history, where heap and marks allow the new event, none comes into it.
pub fn pasts_never_change()
    ensures paths { PathsStay }
    ensures stay { PastsStay }
    ensures gain { PastsGainNothing }
{}

/// What lies in the past of a thread's first events: these themselves, what happens before one
/// in it, the past of fewer events, after a Join the past of the events that it names, and
/// after a Draw or a Fence each draw up to its number with its past, since in one history no
/// two draws have one number. An event of a past happens before each later event of the thread.
pub fn laws_of_the_past()
    ensures own { PastHasOwn }
    ensures later { PastHappensBefore }
    ensures closed { PastIsClosed }
    ensures grows { PastGrows }
    ensures joined { PastHasJoined }
    ensures draws { PastHasDraws }
    ensures differ { DrawsDifferInHistory }
{}

/// A step keeps one history. One history is what every state of a run keeps of its journals: the
/// lowest play makes every event of them, gives every read its value and every update its two
/// values and ends with the heap and the number of draws, and the journals are ordered. It holds
/// of no event, and of one event more where heap and marks allow that event and the journals
/// stay ordered.
pub fn history_grows()
    ensures begins { HistoryBegins }
    ensures grows { HistoryGrows }
{}

/// Where journals are ordered and frugal and fit a script to its threads' ends, and some play
/// makes every event of them and gives every read its value and every update its two values,
/// their log and that play's outcome are a faithful recording. So are they where the journals
/// have one history.
pub fn recording_is_faithful()
    ensures play { PlayIsFaithful }
    ensures history { HistoryIsFaithful }
{}

/// A plan is what the plain machine needs of a script: fuel, starting values and commands, without
/// names and limits. The journals of one history are a faithful recording of each plan that they
/// fit, and the faithful recordings of a script are exactly those of its plan.
pub fn plans_are_faithful()
    ensures history { HistoryIsFaithfulToPlan }
    ensures script { ScriptIsItsPlan }
{}

/// The journals of a lawful order have the very log that the order follows, and fit the script to
/// its threads' ends: no access and no mark of a log is left over, and none is made beside it.
pub fn order_follows_its_log()
    ensures log { LawfulOrderHasItsLog }
    ensures fits { LawfulOrderFits }
{}

/// The log of a faithful recording has at most 55,050,374 bytes, since few marks stand before an
/// access and none after the last: fewer than a log's file may have.
pub fn faithful_log_is_short()
    ensures { FaithfulLogIsShort }
{}

/// In a faithful recording an object whose accesses are all reads and updates ends with its
/// starting value and what its updates add, modulo 2^64, and each update adds the amount that
/// its thread demands.
pub fn faithful_adds_up()
    ensures { FaithfulAddsUp }
{}

/// Scripts and logs are valid by their types, which rest on tests that compute. Each test is true
/// exactly where the plain facts hold: limits, ranges, names that differ, and openers that are
/// each closed.
pub fn validity_is_exact()
    ensures script { ScriptTestIsExact }
    ensures log { LogTestIsExact }
{}
