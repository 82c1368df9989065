//! The laws of the machine, each the contract of a function that does nothing.
ghost use Rattle.octet_machine.specs.Laws.{EndIsFaithful, NextStepsMayBeTaken, OpeningIsRunning, TurnsKeepRunning};

/// Before the first step the machine runs.
pub fn opening_is_running()
    ensures { OpeningIsRunning }
{}

/// Each turn of a thread keeps the machine running: its protocol stays sound, and its journals
/// keep up with the threads of its script.
pub fn turns_keep_running()
    ensures { TurnsKeepRunning }
{}

/// The step that is next for a thread that has not ended is one that the thread may take.
pub fn next_steps_may_be_taken()
    ensures { NextStepsMayBeTaken }
{}

/// Once all threads have ended, the log of the journals, and what the threads came to with the
/// cells, are a faithful recording of the script.
pub fn end_is_faithful()
    ensures { EndIsFaithful }
{}
