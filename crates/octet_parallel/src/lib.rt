//! A replay of a log on threads: a player for each thread of the script makes that thread's events,
//! beside the others, on words that all share. An event that needs others waits for them.
#![tactic(auto)]

mod alone;
mod apart;
mod crew;
mod draws;
mod fate;
mod field;
mod finished;
pub mod laws;
mod pace;
mod passing;
mod played;
mod player;
mod player_backoff;
mod replay;
mod view;
mod words;
mod worker;

pub use field::Field;
pub use finished::Finished;
pub use played::Played;
pub use player::Player;
pub use replay::parallel;
