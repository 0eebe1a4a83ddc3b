//! A journal is printed entry by entry, by what is kept beside it alone.
ghost use Rattle.trace_laws.specs.Told.{LineLaw, LogLaw, MoreToldLaw, StandingLaw, TraceLaw};

/// The lines of a history's trace are those of the journal's entries.
pub fn traced()
    ensures { TraceLaw }
{}

/// The line of an event is that of its entry.
pub fn line_told()
    ensures { LineLaw }
{}

/// What the entries speak of stands yet where the journal ends.
pub fn stands_yet()
    ensures { StandingLaw }
{}

/// The steps that show of a history are those of the journal's entries.
pub fn logged()
    ensures { LogLaw }
{}

/// Where one more entry is reported rightly, all are.
pub fn told_on()
    ensures { MoreToldLaw }
{}
