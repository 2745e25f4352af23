//! Laws of the texts of reports: the contract of the function is the law.

ghost use Rattle.rl_report.specs.Laws.{ReadIsPrinted, PrintedIsRead};

/// A text that is read as a report is the text of that report, and the text of a report is read as it.
pub fn texts()
    ensures read { ReadIsPrinted }
    ensures printed { PrintedIsRead }
{}
