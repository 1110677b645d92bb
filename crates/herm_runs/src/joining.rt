// Two machines that do the same: the law that joins them, and two ways to count down as its example.

ghost use Rattle.std.specs.Prelude.{◌≡◌, List, [], ◌∷◌, ◌++◌, Some, codes, flat_map, ⊤};
ghost use Rattle.herm_model.specs.Values.{Name};
ghost use Rattle.herm_system.specs.Machines.{Machine};
ghost use Rattle.herm_runs.specs.laws.ProcessLaws.{KeepsNumbers};
ghost use Rattle.herm_journal.specs.Renaming.{forget_name};
ghost use Rattle.herm_system.specs.RunTexts.{with_summary, the_journal};
ghost use Rattle.herm_system.specs.TextLines.{line};
ghost use Rattle.herm_runs.specs.examples.Countdowns.{as_named, counting_down, counting_up, CountTheSame, written};
ghost use Rattle.herm_runs.specs.Joining.{AreJoined, ArePaired, DiariesTogether, RoundsFollow, RunsFollow, RunTogether, turned};

/// Two machines are joined where each local step, answer and beginning of the one is exactly one of the other, between states
/// that correspond; which do is said by a type of pairs. Then whatever events the one goes along, the other does, and they
/// look alike: journals, ports, replies, the book, ends, queues, numbers, status and text are equal, and the one is at its
/// end where the other is. In both directions, where what comes in suits. It is enough that in the first whatever can be
/// done would suit: then each run of the second is one of the first, and the second's rounds are the first's.
pub fn joined_machines_run_together<P, Q, J>()
    ensures forth { (a : Machine Name P) → (b : Machine Name Q) → (left : J → P) → (right : J → Q) → AreJoined a b (ArePaired left right) → KeepsNumbers a → RunTogether a b (ArePaired left right) }
    ensures back { (a : Machine Name P) → (b : Machine Name Q) → (left : J → P) → (right : J → Q) → AreJoined a b (ArePaired left right) → KeepsNumbers b → RunTogether b a (turned (ArePaired left right)) }
    ensures follow { (a : Machine Name P) → (b : Machine Name Q) → (left : J → P) → (right : J → Q) → AreJoined a b (ArePaired left right) → KeepsNumbers b → RunsFollow a b (ArePaired left right) }
    ensures rounds { (a : Machine Name P) → (b : Machine Name Q) → (left : J → P) → (right : J → Q) → AreJoined a b (ArePaired left right) → KeepsNumbers b → RoundsFollow a b (ArePaired left right) }
{}

/// What a diary leads to in the one of two joined machines, it leads to in the other, in both directions.
pub fn joined_machines_have_the_same_diaries<P, Q, J>()
    ensures forth { (a : Machine ⊤ P) → (b : Machine ⊤ Q) → (left : J → P) → (right : J → Q) → AreJoined a b (ArePaired left right) → DiariesTogether a b (ArePaired left right) }
    ensures back { (a : Machine ⊤ P) → (b : Machine ⊤ Q) → (left : J → P) → (right : J → Q) → AreJoined a b (ArePaired left right) → DiariesTogether b a (turned (ArePaired left right)) }
{}

/// The two machines that count are joined, whatever names their cells have.
pub fn countdowns_are_joined()
    ensures named { AreJoined (counting_down as_named) (counting_up as_named) CountTheSame }
    ensures nameless { AreJoined (counting_down forget_name) (counting_up forget_name) CountTheSame }
{}

/// So whatever events the one goes along, the other does: journals, ports, replies and the book are equal, and so are ends,
/// queues, numbers, status and text; and the one is at its end where the other is. In both directions.
pub fn countdowns_run_together()
    ensures down { RunTogether (counting_down as_named) (counting_up as_named) CountTheSame }
    ensures up { RunTogether (counting_up as_named) (counting_down as_named) (turned CountTheSame) }
{}

/// And what a diary leads to in the one, it leads to in the other, in both directions.
pub fn countdowns_have_the_same_diaries()
    ensures down { DiariesTogether (counting_down forget_name) (counting_up forget_name) CountTheSame }
    ensures up { DiariesTogether (counting_up forget_name) (counting_down forget_name) (turned CountTheSame) }
{}

/// Both write 2 and 1, and both have finalised the four cells of the start and their port by the end.
pub fn countdowns_write_the_same()
    ensures down { written with_summary (counting_down as_named) ≡ Some (flat_map line (
        codes "2" ∷ codes "1"
        ∷ codes "summary: processes 1 ended 1 waiting 0 stopped 0"
        ∷ codes "summary: ports 2 open 1"
        ∷ codes "summary: steps 2 actions 3"
        ∷ codes "summary: cells made 7 held 1 queued 2 finalised 4" ∷ [])) }
    ensures up { written with_summary (counting_up as_named) ≡ written with_summary (counting_down as_named) }
    ensures journal { written the_journal (counting_up as_named) ≡ Some (flat_map line (
        codes "journal: 1 1 port 0 put 0 \"2\""
        ∷ codes "journal: 2 1 port 0 put 1 \"1\""
        ∷ codes "journal: 3 1 port 1 close 1" ∷ [])) }
{}
