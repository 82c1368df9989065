//! How long threads wait, and how much they do at a time. No answer depends on these numbers, only the
//! time that a run takes. All of them together were measured on four processors, with two and with
//! sixteen threads that make 48,000 accesses to two objects. Alone, a number was measured only where
//! its comment gives a figure; the others are reasoned guesses.

/// Polls in vain, each after a longer spin, that tell that the other thread may have no processor: some
/// 500 times `spin_loop` in all. A thread that runs answers within a microsecond. Where workers spun
/// and slept but never rested, sixteen threads took 760 ms and slept 9,859 times; with rests they take
/// 8 ms, and 26 beside eight busy processes. There the version before, which yielded in place of a
/// sleep, was cut off at 8 s.
pub(crate) const POLLS_BEFORE_SLEEP: u32 = 13;

/// Spins before the first poll of an object that another thread has got, or is getting: so that one
/// makes some accesses first, where each poll takes its word from it.
pub(crate) const SPINS_IF_HELD: u32 = 4;

/// The shortest and the longest sleep between two polls, in microseconds. A thread that sleeps answers
/// nobody, so that a long sleep keeps the others waiting.
pub(crate) const SHORTEST_SLEEP: u32 = 50;

pub(crate) const LONGEST_SLEEP: u32 = 200;

/// What is added to a worker's heat by an access that has to wait for another thread, and by a sleep.
/// Each access takes 1 away. So a worker that waits at one access in sixteen never gets hot, and one
/// that slept twice within some accesses does: one sleep alone calls for no rest. Where an access that
/// found its object held was not counted, sixteen threads passed one object round in 49 and 52 ms by
/// two measurements, and in 42 and 45 where it was.
pub(crate) const HEAT_OF_WAITING: u32 = 16;

pub(crate) const HEAT_OF_SLEEP: u32 = 32;

/// The heat that calls for a rest.
pub(crate) const HEAT_OF_REST: u32 = 64;

/// The shortest and the longest rest, in microseconds; each is twice as long as the one before. In a
/// millisecond another thread makes thousands of accesses to an object that it has.
pub(crate) const SHORTEST_REST: u32 = 1_000;

pub(crate) const LONGEST_REST: u32 = 16_000;

/// So many accesses without a wait tell that nobody holds the thread up any more: its next rest is the
/// shortest again.
pub(crate) const ACCESSES_OF_CALM: u32 = 1_024;

/// How often a worker that has begun looks whether all have, each time after a yield, before it sleeps:
/// some 50 microseconds where no other thread wants its processor.
pub(crate) const YIELDS_AT_START: u32 = 100;

/// How long it sleeps then at most, in microseconds.
pub(crate) const LONGEST_START: u32 = 2_000;

/// The demands of its thread after which a worker yields for the first time; each next time it is four
/// times as many. Without yields three scripts of `tests/racing.py` left 3, 9 and 27 different logs in 60
/// runs on one busy processor, and with twice as many yields 9, 23 and 60.
pub(crate) const DEMANDS_BEFORE_YIELD: u32 = 16;

/// The safe points and pauses in a row, with no write and no mark between, after which a worker dozes for
/// the first time; each next time it is twice as many.
pub(crate) const SAFE_POINTS_BEFORE_DOZE: u32 = 16;

/// The shortest and the longest doze, in microseconds; each is four times as long as the one before. So a
/// thread with the fuel that scripts have by default waits for some 20 milliseconds.
pub(crate) const SHORTEST_DOZE: u32 = 20;

pub(crate) const LONGEST_DOZE: u32 = 4_000;

/// Turns of its own thread that a worker takes at most before it lets go of the machine: enough that
/// the lock costs little beside them, and few, since others wait for it meanwhile.
pub(crate) const TURNS: u32 = 16;
