//! What a log with certificates is as a text.
ghost use Rattle.certified_log.specs.Texts.{ReadBackLaw};

/// Each of its lines is a line of the grammar without a line feed in it, so the text is cut at its
/// line feeds into just these, and `cert_line` reads each that is not too long.
pub fn read_back()
    ensures { ReadBackLaw }
{}
