// Laws of worlds without names: code holds values without names, and what it does is what is done in the language.

ghost use Rattle.herm_model.specs.Values.{Name};
ghost use Rattle.herm_runs.specs.laws.ProcessLaws.{ForgetsNames};
ghost use Rattle.herm_system.specs.Machines.{Machine};
ghost use Rattle.herm_waking.specs.UnnamedReport.{CountsWithoutNames};
ghost use Rattle.herm_waking.specs.laws.UnnamedLaws.{AwaitedForgetsNames, CountsForgetNames, FatesForgetNames, KeptForgetsNames, OpeningsForgetNames, QueuesForgetNames, RoundsForgetNames, SchedulesForgetNames, StandingsForgetNames, StepsForgetNames, TurnsForgetNames, WorkForgetsNames};
ghost use Rattle.std.specs.Prelude.{⊤};

/// Where a process does the same without the names of its cells, so does a system: each process stands the same and waits at the same ports,
/// its next event is the same and leaves the same, and the same is kept behind it.
pub fn systems_forget_names<P, Q>()
    ensures standings { (machine : Machine Name P) (nameless : Machine ⊤ Q) (without : P → Q) → ForgetsNames machine nameless without → StandingsForgetNames machine nameless without }
    ensures awaited { (machine : Machine Name P) (nameless : Machine ⊤ Q) (without : P → Q) → ForgetsNames machine nameless without → AwaitedForgetsNames machine nameless without }
    ensures turns { (machine : Machine Name P) (nameless : Machine ⊤ Q) (without : P → Q) → ForgetsNames machine nameless without → TurnsForgetNames machine nameless without }
    ensures steps { (machine : Machine Name P) (nameless : Machine ⊤ Q) (without : P → Q) → ForgetsNames machine nameless without → StepsForgetNames machine nameless without }
    ensures kept { (machine : Machine Name P) (nameless : Machine ⊤ Q) (without : P → Q) → ForgetsNames machine nameless without → KeptForgetsNames machine nameless without }
{}

/// So are the beginning, steps, rounds and schedules of worlds without names those of runs of the language, without names.
pub fn worlds_forget_names<P, Q>()
    ensures begins { (machine : Machine Name P) (nameless : Machine ⊤ Q) (without : P → Q) → ForgetsNames machine nameless without → OpeningsForgetNames machine nameless without }
    ensures steps { (machine : Machine Name P) (nameless : Machine ⊤ Q) (without : P → Q) → ForgetsNames machine nameless without → WorkForgetsNames machine nameless without }
    ensures rounds { (machine : Machine Name P) (nameless : Machine ⊤ Q) (without : P → Q) → ForgetsNames machine nameless without → RoundsForgetNames machine nameless without }
    ensures schedules { (machine : Machine Name P) (nameless : Machine ⊤ Q) (without : P → Q) → ForgetsNames machine nameless without → SchedulesForgetNames machine nameless without }
{}

/// Where a process also ends and counts the same without the names of its cells, a world without names reports the same: what became of each
/// process, the texts that are queued at each port, and the numbers of the summary, added up from what each process and place counts.
pub fn reports_forget_names<P, Q>()
    ensures ends { (machine : Machine Name P) (nameless : Machine ⊤ Q) (without : P → Q) → ForgetsNames machine nameless without → CountsWithoutNames machine nameless without → FatesForgetNames machine nameless without }
    ensures queues { (machine : Machine Name P) (nameless : Machine ⊤ Q) (without : P → Q) → ForgetsNames machine nameless without → CountsWithoutNames machine nameless without → QueuesForgetNames machine nameless without }
    ensures counts { (machine : Machine Name P) (nameless : Machine ⊤ Q) (without : P → Q) → ForgetsNames machine nameless without → CountsWithoutNames machine nameless without → CountsForgetNames machine nameless without }
{}
