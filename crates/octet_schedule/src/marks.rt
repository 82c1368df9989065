//! Threads that a host marks.
ghost use Rattle.std.specs.Prelude.{◌≡◌, ◌≤◌, length, take};
ghost use Rattle.octet_model.specs.declared.limits.TheConstants.{MAX_THREADS};
ghost use Rattle.octet_schedule.specs.Ready.{marked};

use octet_model::MAX_THREADS;

/// Which of the marks are not 0.
#[tactic(auto, using(crate::proofs::Marking::one_more))]
pub fn marked(marks: &[u8]) -> [bool; MAX_THREADS]
    requires { length marks.now ≤ MAX_THREADS }
    ensures { take (length marks.now) result ≡ marked marks.now }
{
    let mut marked = [false; MAX_THREADS];
    for place in 0..marks.len() {
        marked[place] = marks[place] != 0;
    }
    marked
}
