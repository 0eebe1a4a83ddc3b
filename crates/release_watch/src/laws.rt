//! What the watch finds is what the speculative decoder may release.
ghost use Rattle.release_watch.specs.Watches.{FirstReadyLaw, ReadyLaw};

/// The raw values of an operation have arrived exactly where the last of them has.
pub fn ready()
    ensures { ReadyLaw }
{}

/// Where nothing is dropped, compared or committed, the least operation that is ready is the first
/// turn.
pub fn first_ready()
    ensures { FirstReadyLaw }
{}
