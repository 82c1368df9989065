//! The laws of what is said of threads. Each is the contract of a function that does nothing.
ghost use Rattle.octet_heap.specs.Laws.{MarkersTell, WorkersTell};

/// A marker or a worker of a heap is idle, rests or has begun something exactly where its model says so.
pub fn models_tell()
    ensures markers { MarkersTell }
    ensures workers { WorkersTell }
{}
