// The machine of code beside the source machine.

ghost use Rattle.herm_simulation.specs.laws.CodeReports.{CodeReportsDescribe, CodeRunsAreDescribed};
ghost use Rattle.herm_simulation.specs.laws.DiarySimulation.{DiariesBack, DiariesForth, NamelessCodeIsJoined};
ghost use Rattle.herm_simulation.specs.laws.SimulationLaws.{CodeIsJoined, CodeRoundsAsSource, CodeRunsAsSource, SourceRoundsAsCode, SourceRunsAsCode};

/// Of a checked program and its good image, each beginning, local step and answer of the source is exactly one of the code, between processes of which
/// the one simulates the other; and such processes show the same: numbers, counts, ends, cells, ports, calls, how they stand and what they want. So it
/// is without the names of cells.
pub fn code_is_joined()
    ensures named { CodeIsJoined }
    ensures nameless { NamelessCodeIsJoined }
{}

/// So, with a text as argument, whatever events the source goes along, the code does, and the other way round; and the runs look alike: journals,
/// ports, replies, the book, fates, queues, counts, status and text are equal, and the one is at its end where the other is. The rounds are the same too.
pub fn runs_look_alike()
    ensures forth { CodeRunsAsSource }
    ensures back { SourceRunsAsCode }
    ensures rounds_forth { CodeRoundsAsSource }
    ensures rounds_back { SourceRoundsAsCode }
{}

/// And of each single process, whatever its module, its number and its port: what a diary leads to in the source it leads to in the code, and the
/// other way round; and the process of code simulates that of the source there, but for names.
pub fn diaries_lead_alike()
    ensures forth { DiariesForth }
    ensures back { DiariesBack }
{}

/// Each run of the code to a final state, with its journal in order and a text as argument, is described by its report as a run of the checked program: a run of the source
/// machine in which every state is sound and every statement finds what it needs, with this journal, these ends, queues, counts, status and text.
pub fn reports_of_code_describe_runs()
    ensures runs { CodeRunsAreDescribed }
    ensures reports { CodeReportsDescribe }
{}
