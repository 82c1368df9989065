//! Laws of the field's state and its runs, each the contract of a function that does nothing.
ghost use Rattle.octet_parallel.specs.Laws.{LookIsLawful, ReadIsLawful, WriteIsLawful, BumpIsLawful, CountIsLawful, MarkIsLawful, StopIsLawful, OpeningIsSound, WordTellsStop, StepsAreOfRun, StepsTellWords, ViewsTellWords, SilenceChangesNothing, ArrivalChangesNothing};

/// The state is sound before the first step, and each kind of step of a player keeps it sound.
pub fn steps_keep_the_field_sound()
    ensures opening { OpeningIsSound }
    ensures look { LookIsLawful }
    ensures read { ReadIsLawful }
    ensures write { WriteIsLawful }
    ensures bump { BumpIsLawful }
    ensures count { CountIsLawful }
    ensures mark { MarkIsLawful }
    ensures stop { StopIsLawful }
{}

/// The progress word of a player is the stop number exactly where the player is amiss or stopped.
pub fn words_tell_who_stopped()
    ensures { WordTellsStop }
{}

/// Each step that a player took in a run is one of its steps there. Two runs in which each player
/// takes the same, and is told the same words, leave the same words.
pub fn steps_tell_words()
    ensures each { StepsAreOfRun }
    ensures words { StepsTellWords }
{}

/// No word changes but by a step that a player knows of: the views of all players tell the words, and
/// an operation that tells its player nothing is allowed only where it changes nothing.
pub fn views_tell_words()
    ensures told { ViewsTellWords }
    ensures silent { SilenceChangesNothing }
    ensures arriving { ArrivalChangesNothing }
{}
