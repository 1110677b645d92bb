// Laws of the text of a value.

ghost use Rattle.std.specs.Prelude.{◌≡◌, [], ◌∷◌, map, true, false, pos, negsuc, codes};
ghost use Rattle.herm_model.specs.Values.{a_boolean, an_integer, a_text, a_tag, a_table, a_polymorph, a_callmessage, an_inport, an_outport, cell};
ghost use Rattle.herm_model.specs.ValueTexts.{scalar_text, text_of};
ghost use Rattle.herm_model.specs.examples.ExampleTypes.{bare, two, pair, a_whole, a_call, with_part, without_first};
ghost use Rattle.herm_model.specs.laws.TextLaws.{TellsValues, WritesDecimals, WritesIntegers};

/// The text of a value determines it among the values of its type, also where more text follows that does not begin
/// with a digit.
pub fn a_text_tells_its_value()
    ensures values { TellsValues }
{}

/// Numbers of at most 64 digits, and integers of 64 bits, are written as std writes them.
pub fn numbers_are_written_in_decimal()
    ensures unsigned { WritesDecimals }
    ensures signed { WritesIntegers }
{}

/// The texts of scalars and ports.
pub fn scalar_texts_example()
    ensures booleans { map scalar_text (a_boolean true ∷ a_boolean false ∷ []) ≡ codes "true" ∷ codes "false" ∷ [] }
    ensures integers { map scalar_text (an_integer (pos 0) ∷ an_integer (pos 42) ∷ an_integer (negsuc 4) ∷ an_integer (negsuc 9223372036854775807) ∷ []) ≡ codes "0" ∷ codes "42" ∷ codes "-5" ∷ codes "-9223372036854775808" ∷ [] }
    ensures strings { map scalar_text (a_text (codes "a b") ∷ a_text (codes "\"\\\n") ∷ a_text [] ∷ []) ≡ codes "\"a b\"" ∷ codes "\"\\\"\\\\\\n\"" ∷ codes "\"\"" ∷ [] }
    ensures tags { scalar_text (a_tag 2) ≡ codes "#2" }
    ensures ports { map text_of (bare (an_inport 3) ∷ bare (an_outport 0) ∷ []) ≡ codes "@3" ∷ codes ">0" ∷ [] }
{}

/// The texts of values with parts, where some of them may be missing.
pub fn composed_texts_example()
    ensures record { text_of a_whole ≡ codes "{{1,2},1!{3,4},@5}" }
    ensures part { text_of without_first ≡ codes "{_,0!true,@9}" }
    ensures call { text_of a_call ≡ codes "(2,0:7,{5,6},_)" }
    ensures empty_call { text_of (bare (a_callmessage 1 12)) ≡ codes "(1,12:)" }
    ensures rows { text_of (cell 0 a_table (two (pair 1 4 6) (pair 4 5 6))) ≡ codes "[{4,6},{5,6}]" }
    ensures no_rows { text_of (bare a_table) ≡ codes "[]" }
    ensures polymorph { text_of (with_part (a_polymorph 8) (pair 1 2 3)) ≡ codes "<8:{2,3}>" }
{}
