//! The laws by which the counts, bits and frame that are kept of conditional operations follow the
//! speculative decoder.
#![tactic(auto)]

ghost use Rattle.release_laws.specs.TableLaws.{FirstReleaseLaw, LeftReleasesLaw, NoneReleasedLaw, ReleasableLaw, ReleasedTableLaw, StillMissingLaw, TakenWindowLaw};

/// Before anything happens every needed window is missing, and nothing is released or flipped.
pub fn none_released()
    ensures { NoneReleasedLaw }
{}

/// A committed window is missing no longer, and its edges are committed to the frame.
pub fn window_taken()
    ensures { TakenWindowLaw }
{}

/// A window that is committed was missing to each operation that needs it.
pub fn still_missing()
    ensures { StillMissingLaw }
{}

/// A release keeps its bit.
pub fn table_released()
    ensures { ReleasedTableLaw }
{}

/// Every other event leaves counts, bits and frame as they are.
pub fn releases_left()
    ensures { LeftReleasesLaw }
{}

/// An operation that isn't released, to which no window is missing and whose raw values have
/// arrived may be released, and no other.
pub fn releasable()
    ensures { ReleasableLaw }
{}

/// Where nothing is dropped, compared or committed, the least operation that may be released is the
/// first turn, with the bit that its raw values and the frame give.
pub fn first_release()
    ensures { FirstReleaseLaw }
{}
