//! The commands that start no thread: from words and files to what is written and said.
#![tactic(auto)]

mod always;
mod commands;
mod convert;
mod event_text;
mod giving;
mod hunt;
mod inputs;
mod marks;
mod outcomes;
mod picks;
mod profile;
mod refusal;
mod regions;
mod reply;
mod request;
mod slice;
mod stop;
mod trace;
mod without_runtime;

pub use commands::replay_ordered;
pub use giving::{code_given, deliver};
pub use inputs::{Pair, Source, read_fitting, read_script};
pub use marks::{TOO_MANY_BYTES, serve_marks};
pub use outcomes::Told;
pub use picks::picks_of;
pub use refusal::Refused;
pub use reply::{Output, Reply, Status};
pub use request::{
    Claim, DEFAULT_MOMENTS, MOST_MOMENTS, PairTask, Quarry, Request, Way, request_of,
};
pub use without_runtime::{reply_alone, serve_alone};
