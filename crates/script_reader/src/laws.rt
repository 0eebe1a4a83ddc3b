//! What one line more says of the script.
ghost use Rattle.script_reader.specs.Laws.{EndedLaw, LastLaw, ReadOnLaw, StoppedLaw};

/// A line that is read with its line feed is the script's next command, and the script goes on
/// after it.
pub fn read_on()
    ensures { ReadOnLaw }
{}

/// A line in which the input ended is the script's next command, and its last.
pub fn last()
    ensures { LastLaw }
{}

/// Where the input has ended, the script is complete.
pub fn ended()
    ensures { EndedLaw }
{}

/// Where a line is at fault, the script has its fault there.
pub fn stopped()
    ensures { StoppedLaw }
{}
