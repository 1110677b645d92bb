//! What the text of a report is.
ghost use Rattle.herm_report_laws.specs.ReportLaws.{ConsolesHoldStrings, ReportsDescribe, TextsAreOfRuns};

/// The text of a report is that of the system without names, and of the journal, of which it tells, where the messages at the console's
/// port are strings.
pub fn texts_are_of_runs()
    ensures texts { TextsAreOfRuns }
{}

/// The messages at the console's port are strings in each state of a run of a good image.
pub fn consoles_hold_strings()
    ensures strings { ConsolesHoldStrings }
{}

/// Where nobody can step the report of a world of a good image, with its status and its text, describes the run that the world shows.
pub fn reports_describe_runs()
    ensures describes { ReportsDescribe }
{}
