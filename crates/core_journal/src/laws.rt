//! One more entry is one more event, and the events before it stay.
ghost use Rattle.core_journal.specs.EntryLaws.{ArrivedLaw, BroughtLaw, ClaimedLaw, HeldLaw, PlainLaw};

/// A slot arrives: its values are written, and no others.
pub fn arrived()
    ensures { ArrivedLaw }
{}

/// A claim adds the links of the next ticket.
pub fn claimed()
    ensures { ClaimedLaw }
{}

/// A result is kept where there was none.
pub fn held()
    ensures { HeldLaw }
{}

/// Any other event changes nothing that is kept.
pub fn noted()
    ensures { PlainLaw }
{}

/// Each arrival brings the values that are kept.
pub fn brought()
    ensures { BroughtLaw }
{}
