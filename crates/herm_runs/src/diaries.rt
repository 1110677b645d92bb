// Laws of processes along their diaries.

ghost use Rattle.std.specs.Prelude.{◌≡◌, codes, map, [], ◌∷◌, ⊤};
ghost use Rattle.herm_model.specs.ValueTexts.{text_of};
ghost use Rattle.herm_model.specs.Values.{a_scalar, a_text, an_inport, Name};
ghost use Rattle.herm_system.specs.Machines.{Machine};
ghost use Rattle.herm_runs.specs.examples.Closes.{alone, integer, IsPutAside, Tells, with_part};
ghost use Rattle.herm_runs.specs.laws.ProcessLaws.{ForgetsNames, KeepsNumbers};
ghost use Rattle.herm_runs.specs.laws.DiaryLaws.{DiariesLeadToOneState, DiariesTell, EntriesTellOneAction, SuitsWithoutNames};

/// What comes in suits a process exactly where it suits the process without names.
pub fn suiting_forgets_names<P, Q>()
    ensures both { (machine : Machine Name P) (nameless : Machine ⊤ Q) (without : P → Q) → ForgetsNames machine nameless without → SuitsWithoutNames machine nameless without }
{}

/// Whatever the schedule, where what comes in with each action suits its process, every process of a run is what its
/// diary says, but for the names of its cells.
pub fn diaries_tell<P, Q>()
    ensures told { (machine : Machine Name P) (nameless : Machine ⊤ Q) (without : P → Q) → ForgetsNames machine nameless without → KeepsNumbers machine → DiariesTell machine nameless without }
{}

/// An entry tells a process of one action at most, and so a diary, with a number of local steps behind it, leads to
/// one state without names: the texts of values suffice.
pub fn diaries_lead_to_one_state<Q>()
    ensures action { (machine : Machine ⊤ Q) → EntriesTellOneAction machine }
    ensures state { (machine : Machine ⊤ Q) → DiariesLeadToOneState machine }
{}

/// The entry of a close with the text `@12` tells of an inport 12, and not of an inport 1 that has an integer 2 as
/// its part; with `55` it tells of an integer 55, and not of a 5 with a part 5. Where the text is that of such a cell
/// alone, the entry is put aside.
pub fn close_entries_example()
    ensures texts { map text_of (with_part (an_inport 1) (integer 2) ∷ with_part (integer 5) (integer 5) ∷ with_part (an_inport 1) (a_scalar (a_text (codes "a"))) ∷ []) ≡ codes "@12" ∷ codes "55" ∷ codes "@1\"a\"" ∷ [] }
    ensures inport { Tells (codes "@12") (alone (an_inport 12)) }
    ensures not_inport { Tells (codes "@12") (with_part (an_inport 1) (integer 2)) → ⊥ }
    ensures integer { Tells (codes "55") (alone (integer 55)) }
    ensures not_integer { Tells (codes "55") (with_part (integer 5) (integer 5)) → ⊥ }
    ensures aside { IsPutAside (codes "@1\"a\"") }
{}
