//! What a frame has to do with the decoder whose commits it takes.
ghost use Rattle.pauli_frame.specs.FrameLaws.{BitLaw, CommitLaw, FollowLaw};

/// One more window is committed, to the decoder and to its frame: the frame stays the decoder's.
pub fn committed_once()
    ensures { CommitLaw }
{}

/// A frame that takes each commit of a run, from no flips on, is the decoder's at the run's end.
pub fn followed()
    ensures { FollowLaw }
{}

/// The bit of an operation is the exclusive or of the raw values of its observables and of their
/// flips in the decoder's frame.
pub fn bit_told()
    ensures { BitLaw }
{}
