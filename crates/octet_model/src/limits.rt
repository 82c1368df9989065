//! The limits of scripts, logs and files. Code, contracts and definitions cite them by name; where
//! one stands as a number too, its comment says in which files.

/// Threads of a script or a log; there is at least 1.
/// As a number, 15 or 16: `octet_state/specs/Words.antt`, `octet_state/src/state_word.rt`,
/// `octet_state/src/status_word.rt`, `octet_state/src/whom.rt` (a word has room for no more),
/// `octet_machine/specs/Memory.antt`, `octet_machine/src/memory.rt`.
pub const MAX_THREADS: usize = 16;

/// Objects of a script.
pub const MAX_OBJECTS: usize = 1024;

/// Registers of a thread, `r0` to `r15`.
/// As a number, 15: `octet_script/src/line.rt` (the last of their names).
pub const REGISTERS: usize = 16;

/// Fuel of a thread, and of all threads of a script together; a thread has at least 1.
pub const MAX_FUEL: u32 = 262_144;

/// Fuel of a thread where the script has no `fuel` line.
pub const DEFAULT_FUEL: u32 = 16_384;

/// Accesses of a log, summed over its threads.
pub const MAX_ACCESSES: u32 = 262_144;

/// Marks directly before one access, as they are recorded; with the access they are 16 events.
/// As a number, 15 or 16: `octet_state/specs/Laws.antt`, `octet_machine/specs/Run.antt`,
/// `octet_rule/specs/Laws.antt`, `octet_rule/src/words.rt`, `octet_heap/specs/Logs.antt`.
pub const MAX_MARKS_BEFORE_ACCESS: usize = 15;

/// Bytes of a script's file.
pub const MAX_SCRIPT_FILE: u32 = 1_048_576;

/// Bytes of a log's file.
pub const MAX_LOG_FILE: u32 = 67_108_864;

/// Bytes of an object's name; it has at least 1.
pub const MAX_NAME: usize = 32;

/// Picks of a scheduled run; there is at least 1.
pub const MAX_PICKS: usize = 65_536;
