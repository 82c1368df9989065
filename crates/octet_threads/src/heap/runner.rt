//! A worker with the thread that it runs.
ghost use Rattle.std.specs.Prelude.{◌≡◌, ◌<◌, [], false, IfOk};
ghost use Rattle.std.specs.Option.{ForSome};
ghost use Rattle.octet_model.specs.Journals.{gapped_marks};
ghost use Rattle.octet_interp.specs.Demands.{next_demand, starting_thread};
ghost use Rattle.octet_interp.specs.Laws.{IsJournalOf};
ghost use Rattle.octet_heap.specs.Workers.{seat_of};
ghost use Rattle.octet_threads.specs.Carrying.{start_of};
ghost use Rattle.octet_live.specs.Feeds.{HasSent};

use octet_heap::Worker;
use octet_interp::Config;
use octet_live::Feed;

/// How many words lie between what two threads write: two cache lines, since processors fetch them in
/// pairs. Without them four threads with an object each took twice as long.
pub(crate) const CACHE_PADDING: usize = 16;

/// A worker with the configuration of its thread. The worker's journal fits the thread from its
/// start, the configuration stands where the journal leaves it, and no read waits for its value. Where
/// the marks are sent to a drainer, the first of them were sent, in order.
#[derive(Drop)]
pub(crate) struct Runner {
    pub(crate) worker: Worker,
    pub(crate) config: Config,
    pub(crate) feed: Option<Feed>,
    pub(crate) padding: [u64; CACHE_PADDING],
    ghost fits: { ∥ IsJournalOf (start_of worker) (seat_of worker).journal config ∥₁ },
    ghost idle: { config.waits ≡ false },
    ghost fed: { ForSome feed (λ feed. HasSent feed (gapped_marks 0 (seat_of worker).journal)) },
}
