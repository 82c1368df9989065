//! A front of a run: how far each thread is.
ghost use Rattle.std.specs.Prelude.{◌≡◌};
ghost use Rattle.octet_window.specs.Fronts.{made_in, shifted};

use octet_model::{List, Mark};

/// A front: how many events each thread has made, marks included, and how many draws there were.
#[derive(Debug, Drop)]
pub struct Front {
    pub made: List<u64>,
    pub draws: u64,
}

impl Front {
    /// The mark as it stands after the front: it counts events and draws from there. One that waits for what the
    /// front has waits for nothing more.
    pub fn shifted(&self, mark: Mark) -> Mark
        ensures { result ≡ shifted self.now mark }
    {
        match mark {
            Mark::Join { from, upto } => Mark::Join {
                from,
                upto: upto.saturating_sub(self.made_by(from)),
            },
            Mark::Draw { number } => Mark::Draw {
                number: number.saturating_sub(self.draws),
            },
            Mark::Fence { number } => Mark::Fence {
                number: number.saturating_sub(self.draws),
            },
        }
    }

    // How many events it has of the thread.
    fn made_by(&self, thread: u8) -> u64
        ensures { result ≡ made_in self.now thread }
    {
        self.made
            .as_slice()
            .get(thread as usize)
            .copied()
            .unwrap_or(0)
    }
}
