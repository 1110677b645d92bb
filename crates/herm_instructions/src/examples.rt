// Laws of good code at examples.

ghost use Rattle.std.specs.Prelude.{[], ◌∷◌};
ghost use Rattle.herm_instructions.specs.GoodCode.{IsGood};
ghost use Rattle.herm_instructions.specs.laws.CodeExampleLaws.{AreOddConstants, BreakTheseCodeRules};
ghost use Rattle.herm_instructions.specs.examples.CodeExamples.{good_code, odd_constants, odd_instructions, odd_modules, odd_operands, odd_ways};
ghost use Rattle.herm_instructions.specs.examples.MoreCodeExamples.{odd_places};
ghost use Rattle.herm_instructions.specs.examples.ExampleImages.{asks, denies, example_exceptions, greeting, image_of, two_rows};

/// Images that are good: a greeting, a loop over two rows, and a call that is denied with a kept parameter.
pub fn images_are_good()
    ensures greeting { IsGood example_exceptions (image_of (greeting ∷ [])) }
    ensures loop_over_rows { IsGood example_exceptions (image_of (two_rows ∷ [])) }
    ensures call { IsGood example_exceptions (image_of (denies ∷ asks ∷ [])) }
{}

/// For each rule of good code small pieces of code that break it alone, and beside them code that is good.
pub fn code_breaks_its_rules()
    ensures good { BreakTheseCodeRules good_code }
    ensures modules { BreakTheseCodeRules odd_modules }
    ensures instructions { BreakTheseCodeRules odd_instructions }
    ensures operands { BreakTheseCodeRules odd_operands }
    ensures ways { BreakTheseCodeRules odd_ways }
    ensures places { BreakTheseCodeRules odd_places }
    ensures constants { AreOddConstants odd_constants }
{}
