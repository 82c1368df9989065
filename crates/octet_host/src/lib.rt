//! What a thread does that a host drives call by call, over any session. Whatever a session asks of its callers is tested
//! here, and refused with a reason. Beside it stand the places where the threads of a run lay what they leave.
#![tactic(auto)]

mod answer;
pub mod calls;
mod copying;
mod desk;
mod fault;
mod handing_in;
mod loose;
mod misuse;
mod sealing;
mod stage;

pub use answer::Answer;
pub use copying::copy_out;
pub use desk::{Left, lay, places};
pub use fault::CloseFault;
pub use handing_in::{HandIn, hand_in_all};
pub use loose::Loose;
pub use misuse::Misuse;
pub use sealing::{agree, seal, seals};
pub use stage::Stage;
