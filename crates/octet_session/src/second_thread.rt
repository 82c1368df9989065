//! A thread of a second run.
ghost use Rattle.std.specs.Prelude.{◌≡◌, false, None};

use octet_recorder::Access;
use octet_rerun::Follower;

/// A thread of a second run. It counts lines as its recording has them, so that it has no room where it had none.
#[derive(Drop)]
pub struct SecondThread {
    pub(crate) follower: Follower,
    // The access that it has asked for and that waits.
    pub(crate) begun: Option<Access>,
    pub(crate) region: bool,
    pub(crate) left: u32,
}

impl SecondThread {
    /// The thread of a follower, with the fuel of the script that was recorded.
    pub fn new(follower: Follower, fuel: u32) -> SecondThread
        ensures follower { result.follower ≡ follower }
        ensures begun { result.begun ≡ None }
        ensures region { result.region ≡ false }
        ensures left { result.left ≡ fuel }
    {
        SecondThread {
            follower,
            begun: None,
            region: false,
            left: fuel,
        }
    }

    /// Its follower, for `Rerun::close`.
    pub fn into_follower(self) -> Follower
        ensures { result ≡ self.follower }
    {
        self.follower
    }
}
