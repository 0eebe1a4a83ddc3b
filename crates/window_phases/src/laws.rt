//! Each event of the speculative decoder is one call.
ghost use Rattle.window_phases.specs.PhaseLaws.{AllWaitLaw, ClaimedTableLaw, CommittedTableLaw, GivenUpTableLaw, HeldTableLaw, LeftTableLaw, VerifiedTableLaw};

/// Before anything happens all windows wait.
pub fn all_wait()
    ensures { AllWaitLaw }
{}

/// A claim is `claim`.
pub fn table_claimed()
    ensures { ClaimedTableLaw }
{}

/// A result is `hold`.
pub fn table_held()
    ensures { HeldTableLaw }
{}

/// A verified guess is `verify`.
pub fn table_verified()
    ensures { VerifiedTableLaw }
{}

/// A drop or a poison is `give_up`.
pub fn table_given_up()
    ensures { GivenUpTableLaw }
{}

/// A commit is `commit`.
pub fn table_committed()
    ensures { CommittedTableLaw }
{}

/// Arrivals, releases and stale tickets change no phase.
pub fn table_left()
    ensures { LeftTableLaw }
{}
