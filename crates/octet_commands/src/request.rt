//! What words ask for: which task, and of which files.
ghost use Rattle.std.specs.Prelude.{◌≡◌};
ghost use Rattle.std.specs.Option.{option_map};
ghost use Rattle.octet_commands.specs.Request.{texts, shown, request_in, asked_by_two, asked_by_three, asked_by_four, asked_by_five, asked_by_six, most_of, tries_of, shown_claim, shown_quarry, claimed_of, named_by, name_in};

use crate::picks::are_picks;
use octet_hunt::MAX_TRIES;
use octet_script::number_of;

/// Moments of a search, where no words say how many.
pub const DEFAULT_MOMENTS: u64 = 10_000_000;

/// Moments of a search; there is at least 1.
pub const MOST_MOMENTS: u64 = 2_147_483_648;

/// Tasks on a script and a log.
#[derive(Clone, Copy)]
pub enum PairTask {
    Replay,
    Verify,
    Regions,
    /// One event, and how many lie in its past.
    Slice { thread: u64, event: u64 },
    /// The first event that reads the value of the object that is named, or leaves it there.
    Stop { value: u64 },
    /// Each event with its place.
    Trace,
    Profile,
}

/// Ways to run a script and write its log.
#[derive(Clone, Copy)]
pub enum Way<Text> {
    /// As its threads come, beside each other, while the log is written.
    AsTheyCome,
    /// As its threads come, over a machine behind one lock.
    BehindLock,
    /// A turn for each hexadecimal digit, and then by rounds.
    ByPicks { picks: Text },
}

/// What a hunt looks for.
#[derive(Clone, Copy)]
pub enum Quarry<Text> {
    /// A run whose threads are all done, and that ends with another value than this number at the
    /// object of this name.
    OtherEnd { name: Text, number: u64 },
    /// A run whose regions have a cycle.
    AnyCycle,
}

impl<'a> Quarry<&'a str> {
    /// The object that is named.
    pub(crate) fn name(self) -> Option<&'a str>
        ensures { name_in result ≡ named_by (shown_quarry self.entry) }
    {
        match self {
            Quarry::OtherEnd { name, .. } => Some(name),
            Quarry::AnyCycle => None,
        }
    }
}

/// What is claimed of every run.
#[derive(Clone, Copy)]
pub enum Claim<Text> {
    /// Where all its threads are done, it leaves this number in the object of this name.
    Leaves { name: Text, number: u64 },
    /// It can go on until all its threads are done.
    CanEnd,
}

impl<'a> Claim<&'a str> {
    /// The object that is named.
    pub(crate) fn name(self) -> Option<&'a str>
        ensures { name_in result ≡ claimed_of (shown_claim self.entry) }
    {
        match self {
            Claim::Leaves { name, .. } => Some(name),
            Claim::CanEnd => None,
        }
    }
}

/// What words ask for, with the names of its files. The program's texts are `&str`; definitions
/// speak of the same request with lists of bytes.
#[derive(Clone, Copy)]
pub enum Request<Text> {
    /// The script's canonical text.
    Tidy {
        script: Text,
    },
    /// The log's text.
    Show {
        log: Text,
    },
    /// A marks file's text.
    Marks {
        file: Text,
    },
    /// Of a script and a log, and of one object where it is named.
    OfPair {
        task: PairTask,
        script: Text,
        log: Text,
        object: Option<Text>,
    },
    /// A replay on threads, where the log orders all conflicts.
    Parallel {
        script: Text,
        log: Text,
    },
    /// Of a script, a log, and the file that is written.
    Convert {
        script: Text,
        log: Text,
        out: Text,
    },
    /// A run of the script, whose log is written.
    Run {
        way: Way<Text>,
        script: Text,
        log: Text,
    },
    /// A run of the script that the number generates.
    Gen {
        number: u64,
        script: Text,
        log: Text,
    },
    /// Runs by schedules, up to one that is looked for, whose log is written.
    Hunt {
        quarry: Quarry<Text>,
        script: Text,
        log: Text,
        tries: u32,
    },
    /// All final heaps of the script's interleavings, by so many moments.
    Outcomes {
        script: Text,
        most: u64,
    },
    /// Whether the claim holds of every interleaving, by so many moments. The log of a run of which it
    /// does not hold is written.
    Always {
        claim: Claim<Text>,
        script: Text,
        log: Text,
        most: u64,
    },
}

/// What words ask for, if they ask for anything.
pub fn request_of(words: &[String]) -> Option<Request<&str>>
    ensures { option_map shown result ≡ request_in (texts words.now) }
{
    match words {
        [word, file] => of_two(word, file),
        [word, script, log] => of_three(word, script, log),
        [word, first, second, third] => of_four(word, first, second, third),
        [word, script, log, third, last] => of_five(word, script, log, third, last),
        [word, script, log, name, number, last] => of_six(word, script, log, name, number, last),
        _ => None,
    }
}

fn of_two<'a>(word: &str, file: &'a str) -> Option<Request<&'a str>>
    ensures { option_map shown result ≡ asked_by_two word.now file.now }
{
    match word {
        "tidy" => Some(Request::Tidy { script: file }),
        "show" => Some(Request::Show { log: file }),
        "marks" => Some(Request::Marks { file }),
        "outcomes" => Some(Request::Outcomes {
            script: file,
            most: DEFAULT_MOMENTS,
        }),
        _ => None,
    }
}

fn of_three<'a>(word: &str, script: &'a str, log: &'a str) -> Option<Request<&'a str>>
    ensures { option_map shown result ≡ asked_by_three word.now script.now log.now }
{
    let task = match word {
        "run" => {
            return Some(Request::Run {
                way: Way::AsTheyCome,
                script,
                log,
            });
        }
        "locked" => {
            return Some(Request::Run {
                way: Way::BehindLock,
                script,
                log,
            });
        }
        "parallel" => return Some(Request::Parallel { script, log }),
        "replay" => PairTask::Replay,
        "verify" => PairTask::Verify,
        "regions" => PairTask::Regions,
        "trace" => PairTask::Trace,
        "profile" => PairTask::Profile,
        "outcomes" => {
            return Some(Request::Outcomes {
                script,
                most: most_of(log)?,
            });
        }
        "always" => {
            return Some(Request::Always {
                claim: Claim::CanEnd,
                script,
                log,
                most: DEFAULT_MOMENTS,
            });
        }
        _ => return None,
    };
    Some(Request::OfPair {
        task,
        script,
        log,
        object: None,
    })
}

fn of_four<'a>(
    word: &str,
    first: &'a str,
    second: &'a str,
    third: &'a str,
) -> Option<Request<&'a str>>
    ensures { option_map shown result ≡ asked_by_four word.now first.now second.now third.now }
{
    match word {
        "gen" => Some(Request::Gen {
            number: number_of(first.as_bytes())?,
            script: second,
            log: third,
        }),
        "turns" if are_picks(third) => Some(Request::Run {
            way: Way::ByPicks { picks: third },
            script: first,
            log: second,
        }),
        "profile" => Some(Request::OfPair {
            task: PairTask::Profile,
            script: first,
            log: second,
            object: Some(third),
        }),
        "convert" => Some(Request::Convert {
            script: first,
            log: second,
            out: third,
        }),
        "hunt" => Some(Request::Hunt {
            quarry: Quarry::AnyCycle,
            script: first,
            log: second,
            tries: tries_of(third)?,
        }),
        "always" => Some(Request::Always {
            claim: Claim::CanEnd,
            script: first,
            log: second,
            most: most_of(third)?,
        }),
        _ => None,
    }
}

fn of_five<'a>(
    word: &str,
    script: &'a str,
    log: &'a str,
    third: &'a str,
    last: &'a str,
) -> Option<Request<&'a str>>
    ensures { option_map shown result ≡ asked_by_five word.now script.now log.now third.now last.now }
{
    match word {
        "slice" => Some(Request::OfPair {
            task: PairTask::Slice {
                thread: number_of(third.as_bytes())?,
                event: number_of(last.as_bytes())?,
            },
            script,
            log,
            object: None,
        }),
        "stop" => Some(Request::OfPair {
            task: PairTask::Stop {
                value: number_of(last.as_bytes())?,
            },
            script,
            log,
            object: Some(third),
        }),
        "always" => Some(Request::Always {
            claim: Claim::Leaves {
                name: third,
                number: number_of(last.as_bytes())?,
            },
            script,
            log,
            most: DEFAULT_MOMENTS,
        }),
        _ => None,
    }
}

fn of_six<'a>(
    word: &str,
    script: &'a str,
    log: &'a str,
    name: &'a str,
    number: &str,
    last: &str,
) -> Option<Request<&'a str>>
    ensures { option_map shown result ≡ asked_by_six word.now script.now log.now name.now number.now last.now }
{
    match word {
        "hunt" => Some(Request::Hunt {
            quarry: Quarry::OtherEnd {
                name,
                number: number_of(number.as_bytes())?,
            },
            script,
            log,
            tries: tries_of(last)?,
        }),
        "always" => Some(Request::Always {
            claim: Claim::Leaves {
                name,
                number: number_of(number.as_bytes())?,
            },
            script,
            log,
            most: most_of(last)?,
        }),
        _ => None,
    }
}

// A number of moments.
fn most_of(word: &str) -> Option<u64>
    ensures { result ≡ most_of word.now }
{
    let number = number_of(word.as_bytes())?;
    if number < 1 || number > MOST_MOMENTS {
        return None;
    }
    Some(number)
}

// A number of tries.
fn tries_of(word: &str) -> Option<u32>
    ensures { result ≡ tries_of word.now }
{
    let number = number_of(word.as_bytes())?;
    if number < 1 || number > u64::from(MAX_TRIES) {
        return None;
    }
    Some(number as u32)
}
