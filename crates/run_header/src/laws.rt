//! Laws of headers and of what is accepted, as calls without work.
ghost use Rattle.run_header.specs.Openings.{HeaderStandsLaw, OneHeaderLaw, SizedHeaderLaw};
ghost use Rattle.run_header.specs.Refusals.{NeverBothLaw, OneRefusalLaw};

/// An input begins with at most one header, of 1 to 1,048,577 bytes, and doesn't end before it.
pub fn headed()
    ensures one { OneHeaderLaw }
    ensures stands { HeaderStandsLaw }
    ensures sized { SizedHeaderLaw }
{}

/// A schedule is accepted or refused, never both, and refused with one fault.
pub fn judged()
    ensures never_both { NeverBothLaw }
    ensures one_refusal { OneRefusalLaw }
{}
