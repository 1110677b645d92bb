// The machine of code meets the laws of one process that the laws of runs ask for.

ghost use Rattle.herm_code_machine.specs.Beside.{stack_kinds};
ghost use Rattle.herm_code_machine.specs.CodeInstance.{code_machine, nameless_code};
ghost use Rattle.herm_code_machine.specs.CodeRenaming.{forget_code};
ghost use Rattle.herm_code_machine.specs.ReadyCode.{ReadyImage};
ghost use Rattle.herm_code_machine.specs.laws.CountLaws.{PutsAside, StepsAreCounted};
ghost use Rattle.herm_code_machine.specs.laws.WantLaws.{WantsAreInOrder};
ghost use Rattle.herm_sound.specs.SoundMachines.{KeepsLimits, NumbersCalls};
ghost use Rattle.herm_runs.specs.laws.ProcessLaws.{ForgetsNames, KeepsLedger, KeepsNumbers, KnowsPlaces};

/// A process begins with the number and the module that it is given, and keeps them.
pub fn numbers_are_kept()
    ensures numbers { (image : ReadyImage) → KeepsNumbers (code_machine image) }
{}

/// What a process makes, holds, finalises, gives and gets keeps the ledger's equation.
pub fn the_ledger_is_kept()
    ensures ledger { (image : ReadyImage) → KeepsLedger (code_machine image) }
{}

/// A process that knows only ports and callers that the book has counted, in its cells and in the values on its stack, wants
/// nothing of others, and learns only what comes to it.
pub fn places_are_known()
    ensures places { (image : ReadyImage) → KnowsPlaces (code_machine image) stack_kinds }
{}

/// A process does the same without the names of its cells.
pub fn names_are_forgotten()
    ensures names { (image : ReadyImage) → ForgetsNames (code_machine image) (nameless_code image) forget_code }
{}

/// A process begins with no steps and no actions; a local step counts one step, and an answer one action and the step of its
/// piece; and none is made beyond its limit.
pub fn limits_are_kept()
    ensures limits { (image : ReadyImage) → KeepsLimits (code_machine image) }
{}

/// An entry that is put aside is one action more, and nothing else; also of values without names.
pub fn what_is_put_aside_counts()
    ensures aside { (image : ReadyImage) → PutsAside (code_machine image) }
    ensures nameless { (image : ReadyImage) → PutsAside (nameless_code image) }
{}

/// A local step begins with a `Step`, and counts that one step and no action; an answer counts one action, and one step exactly where the process
/// is at a `Step`, with nothing that waits to be finalised and no call open.
pub fn steps_are_counted()
    ensures counts { StepsAreCounted }
{}

/// What a process wants is for the front of its work list, where something waits to be finalised; for the reply, where nothing does and a call is
/// open; and else for the action that it is at, or to which its step leads.
pub fn wants_are_in_order()
    ensures wants { WantsAreInOrder }
{}

/// A process numbers its calls upwards: a call that it opens has a number that none of its calls had before.
pub fn calls_are_numbered()
    ensures calls { (image : ReadyImage) → NumbersCalls (code_machine image) }
{}
