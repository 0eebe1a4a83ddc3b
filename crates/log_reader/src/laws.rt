//! What logs are, beside their reading.
ghost use Rattle.report_model.specs.Logs.{LoggedLaw, OneFaultLaw, OneLogLaw};

/// The log of a run is the log of its steps with their labels.
pub fn logged()
    ensures { LoggedLaw }
{}

/// No text is the log of two lists of steps.
pub fn one_log()
    ensures { OneLogLaw }
{}

/// No text has two first lines that no log has.
pub fn one_fault()
    ensures { OneFaultLaw }
{}
