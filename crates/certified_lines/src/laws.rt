//! What lines are, beside their reading.
ghost use Rattle.certified_lines.specs.Certified.{OneLineLaw, WholeLinesLaw};

/// No bytes are two lines.
pub fn one_line()
    ensures { OneLineLaw }
{}

/// No line holds a line feed, so a text of lines is cut at its line feeds just into them.
pub fn whole_lines()
    ensures { WholeLinesLaw }
{}
