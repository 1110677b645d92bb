// Laws of good code.

ghost use Rattle.herm_instructions.specs.laws.GoodLaws.{NoneBrokenIsGood, TestDecidesImages, TestsDecideCode};
ghost use Rattle.herm_instructions.specs.laws.KeyLaws.{KeysAreTyped};
ghost use Rattle.herm_instructions.specs.laws.LabelLaws.{BeginsAtLabel, ExceptionsLand, FactsAreHeldBehind, InstructionsHavePlaces, LabelsAreClosed, PlacesAreInstructions, ValuesFitWhereTheyArrive, WaysLeadToLabels};

/// Which code modules and images are good is decided by tests: one for each rule, and all of them together.
pub fn tests_decide_code()
    ensures rules { TestsDecideCode }
    ensures modules { NoneBrokenIsGood }
    ensures images { TestDecidesImages }
{}

/// The places of a module are its instructions, each at its index, with its landings and the label there.
pub fn places_are_instructions()
    ensures instructions { InstructionsHavePlaces }
    ensures places { PlacesAreInstructions }
{}

/// Good code has a label wherever control comes: at the beginning, and behind each way of an instruction that has one, where
/// what arrives fits it. Its facts are closed. Each exception that can be raised has a landing.
pub fn good_code_is_labelled()
    ensures begins { BeginsAtLabel }
    ensures ways { WaysLeadToLabels }
    ensures closed { LabelsAreClosed }
    ensures landings { ExceptionsLand }
{}

/// The facts that an instruction hands on are those that its row of the statement table leaves, and values that fit what is
/// handed on fit the label where it arrives.
pub fn labels_are_of_values()
    ensures behind { FactsAreHeldBehind }
    ensures arrived { ValuesFitWhereTheyArrive }
{}

/// With literals in place of the keys on the stack, a typed `Remove` or `Get` is the typed statement.
pub fn keys_are_typed()
    ensures { KeysAreTyped }
{}
