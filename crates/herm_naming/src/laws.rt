//! Laws of the meaning and the refusals of process modules. No function here does any work: each states a law, which the
//! check proves.
ghost use Rattle.herm_naming.specs.examples.StatementExamples.{RightValues, WrongValues, RightForms, WrongForms, KeysAndCalls, Blocks};
ghost use Rattle.herm_naming.specs.examples.ProcessExamples.{FirstProcess, Declarations, Nested, Main, Limits};
ghost use Rattle.herm_naming.specs.laws.NamingLaws.{UnrefusedIsTyped, RefusalsAreOne};

/// Modules without a refusal of names and types mean a typed program, over a table that keeps the rules of definitions.
pub fn unrefused_is_typed()
    ensures typed { UnrefusedIsTyped }
{}

/// Modules have one list of refusals.
pub fn refusals_are_one()
    ensures one { RefusalsAreOne }
{}

/// Computed examples: statements beside the code at each.
pub fn examples_are_judged()
    ensures right_values { RightValues }
    ensures wrong_values { WrongValues }
    ensures right_forms { RightForms }
    ensures wrong_forms { WrongForms }
    ensures keys_and_calls { KeysAndCalls }
    ensures blocks { Blocks }
{}

/// Computed examples: processes beside the codes at their places.
pub fn processes_are_judged()
    ensures first { FirstProcess }
    ensures declarations { Declarations }
    ensures nested { Nested }
    ensures main { Main }
    ensures limits { Limits }
{}
