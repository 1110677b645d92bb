// Laws of the code of small programs.

ghost use Rattle.std.specs.Prelude.{[], ◌∷◌, ◌≡◌, true};
ghost use Rattle.herm_instructions.specs.tests.GoodTests.{is_good};
ghost use Rattle.herm_source.specs.examples.Programs.{greeting, empty_body, left_loop, two_senders, refused_insert, waiting_select};
ghost use Rattle.herm_source.specs.examples.CallPrograms.{kept_parameter};
ghost use Rattle.herm_source.specs.examples.CheckedExamples.{nested_loops};
ghost use Rattle.herm_translated.specs.examples.CheckedByRounds.{image_by};
ghost use Rattle.herm_translated.specs.examples.TheRing.{HasAtMost, instruction_counts, statement_counts, token_ring};
ghost use Rattle.herm_source.specs.examples.ComponentPrograms.{taken_apart};
ghost use Rattle.herm_translated.specs.examples.LeavingPrograms.{raised_out_of_loops, opened_again, arms_turned, sends_part};
ghost use Rattle.herm_translated.specs.examples.CodeOfLeaving.{raised_out_of_loops_lines, opened_again_lines, empty_body_lines, arms_turned_lines, sends_part_lines};
ghost use Rattle.herm_translated.specs.examples.CodeOfPrograms.{HasLines, ListsIndices, greeting_lines, left_loop_lines, nested_loops_lines, sender_lines};

/// The images of small programs pass the test of good code.
pub fn images_are_good()
    ensures greeting { is_good 7 (image_by 2 greeting) ≡ true }
    ensures loop_left { is_good 7 (image_by 3 left_loop) ≡ true }
    ensures nested { is_good 7 (image_by 3 nested_loops) ≡ true }
    ensures tried { is_good 7 (image_by 3 refused_insert) ≡ true }
    ensures select { is_good 7 (image_by 3 waiting_select) ≡ true }
    ensures call { is_good 8 (image_by 3 kept_parameter) ≡ true }
    ensures senders { is_good 7 (image_by 3 (two_senders 2)) ≡ true }
    ensures left { is_good 7 (image_by 3 raised_out_of_loops) ≡ true }
    ensures opened { is_good 7 (image_by 3 opened_again) ≡ true }
    ensures empty { is_good 7 (image_by 2 empty_body) ≡ true }
    ensures arms { is_good 7 (image_by 2 arms_turned) ≡ true }
    ensures part { is_good 7 (image_by 2 sends_part) ≡ true }
    ensures apart { is_good 7 (image_by 3 taken_apart) ≡ true }
{}

/// The code of small programs is what is written by hand.
pub fn code_is_as_by_hand()
    ensures greeting { HasLines (image_by 2 greeting) 0 greeting_lines }
    ensures greeting_labels { ListsIndices (image_by 2 greeting) 0 (1 ∷ 9 ∷ []) }
    ensures loop_left { HasLines (image_by 3 left_loop) 0 left_loop_lines }
    ensures loop_labels { ListsIndices (image_by 3 left_loop) 0 (1 ∷ 13 ∷ 14 ∷ 15 ∷ 23 ∷ 24 ∷ 25 ∷ 29 ∷ 31 ∷ 32 ∷ 39 ∷ 40 ∷ []) }
    ensures nested { HasLines (image_by 3 nested_loops) 0 nested_loops_lines }
    ensures sender { HasLines (image_by 3 (two_senders 2)) 0 sender_lines }
    ensures left { HasLines (image_by 3 raised_out_of_loops) 0 raised_out_of_loops_lines }
    ensures left_labels { ListsIndices (image_by 3 raised_out_of_loops) 0 (1 ∷ 13 ∷ 14 ∷ 15 ∷ 23 ∷ 24 ∷ 25 ∷ 28 ∷ 29 ∷ 31 ∷ 33 ∷ 37 ∷ 39 ∷ 42 ∷ 44 ∷ 49 ∷ []) }
    ensures opened { HasLines (image_by 3 opened_again) 0 opened_again_lines }
    ensures opened_labels { ListsIndices (image_by 3 opened_again) 0 (2 ∷ 6 ∷ 7 ∷ 10 ∷ 11 ∷ []) }
    ensures empty { HasLines (image_by 2 empty_body) 0 empty_body_lines }
    ensures empty_labels { ListsIndices (image_by 2 empty_body) 0 [] }
    ensures arms { HasLines (image_by 2 arms_turned) 0 arms_turned_lines }
    ensures arms_labels { ListsIndices (image_by 2 arms_turned) 0 (1 ∷ 8 ∷ 9 ∷ 10 ∷ 13 ∷ []) }
    ensures part { HasLines (image_by 2 sends_part) 0 sends_part_lines }
    ensures part_labels { ListsIndices (image_by 2 sends_part) 0 (1 ∷ 6 ∷ 7 ∷ 20 ∷ []) }
    ensures sender_labels { ListsIndices (image_by 3 (two_senders 2)) 0 (1 ∷ 6 ∷ 12 ∷ 13 ∷ 24 ∷ 25 ∷ 31 ∷ []) }
{}

/// A ring of nodes that pass a token has 36 statements, which become 139 instructions, fewer than four each; its image passes the test of good code.
pub fn a_ring_is_short()
    ensures statements { statement_counts (token_ring 100 10000) ≡ (12 ∷ 24 ∷ []) }
    ensures instructions { instruction_counts (image_by 4 (token_ring 100 10000)) ≡ (56 ∷ 83 ∷ []) }
    ensures bar { HasAtMost (image_by 4 (token_ring 100 10000)) (token_ring 100 10000) 4 }
    ensures good { is_good 7 (image_by 4 (token_ring 100 10000)) ≡ true }
{}
