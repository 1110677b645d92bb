// Runs of code by hand, computed from the definitions. The comments on the code have the programs as they are written.

ghost use Rattle.herm_code_machine.specs.examples.BranchingCode.{by_component, by_port, caught_row, compares, taken_by_key};
ghost use Rattle.herm_code_machine.specs.examples.CallingCode.{answering_code, arguments_of_call, asks, atoms_of_call, keeps_of_call, kept_parameter, losing_code, losing_return};
ghost use Rattle.herm_code_machine.specs.examples.CodeByHand.{greeting_image, left_loop, variable, whole_loop};
ghost use Rattle.herm_code_machine.specs.examples.EndingCode.{greeting_in_one_step, raising};
ghost use Rattle.herm_code_machine.specs.laws.InstructionLaws.{CallsAs};
ghost use Rattle.herm_code_machine.specs.examples.CodeRuns.{code_ending, in_lines, limited};
ghost use Rattle.herm_system.specs.RunTexts.{plainly, the_journal, with_summary};
ghost use Rattle.herm_instructions.specs.tests.GoodTests.{is_good, keeps};
ghost use Rattle.herm_instructions.specs.examples.ExampleImages as good;
ghost use Rattle.herm_instructions.specs.examples.ExampleImages.{busy, denies_by};
ghost use Rattle.herm_model.specs.TypedPrograms.{main_start};
ghost use Rattle.herm_code_machine.specs.CodeTypes.{first_type};
ghost use Rattle.herm_code_machine.specs.ReadyCode.{labelled_image};
ghost use Rattle.herm_code_machine.specs.laws.GoodImageLaws.{IsGoodOver, labelled_code};
ghost use Rattle.herm_code_machine.specs.examples.StuckCode.{can_begin, can_step, mended_code, mended_step, stuck_code, stuck_step};
ghost use Rattle.herm_instructions.specs.laws.CodeExampleLaws.{broken_in_example};
ghost use Rattle.std.specs.Prelude.{List, None, Some, [], codes, false, map, replicate, true, ◌∷◌, ◌≡◌};

/// The code of a greeting runs to one line on the console, and four of the six cells are finalised.
pub fn greeting_is_shown()
    ensures at_the_end { code_ending 60 with_summary (limited 1000 4 4) greeting_image 0 ≡ Some (record {
      status = 0;
      text = in_lines (
          codes "hi"
          ∷ codes "summary: processes 1 ended 1 waiting 0 stopped 0"
          ∷ codes "summary: ports 2 open 1"
          ∷ codes "summary: steps 3 actions 3"
          ∷ codes "summary: cells made 6 held 1 queued 1 finalised 4" ∷ []);
    }) }
{}

/// Its journal is the greeting's.
pub fn greeting_is_recorded()
    ensures journal { code_ending 60 the_journal (limited 1000 4 4) greeting_image 0 ≡ Some (record {
      status = 0;
      text = in_lines (
          codes "journal: 1 1 port 1 take 0 {\"\",>0}"
          ∷ codes "journal: 2 1 port 0 put 0 \"hi\""
          ∷ codes "journal: 3 1 port 1 close 0" ∷ []);
    }) }
{}

/// A loop visits both rows of a table.
pub fn rows_are_visited()
    ensures at_the_end { code_ending 60 with_summary (limited 1000 4 4) whole_loop 0 ≡ Some (record {
      status = 0;
      text = in_lines (
          codes "1"
          ∷ codes "2"
          ∷ codes "summary: processes 1 ended 1 waiting 0 stopped 0"
          ∷ codes "summary: ports 2 open 1"
          ∷ codes "summary: steps 15 actions 4"
          ∷ codes "summary: cells made 16 held 1 queued 2 finalised 13" ∷ []);
    }) }
{}

/// A loop that is left finalises the copies of rows that it has not visited.
pub fn loop_is_left()
    ensures at_the_end { code_ending 60 with_summary (limited 1000 4 4) left_loop 0 ≡ Some (record {
      status = 0;
      text = in_lines (
          codes "1"
          ∷ codes "summary: processes 1 ended 1 waiting 0 stopped 0"
          ∷ codes "summary: ports 2 open 1"
          ∷ codes "summary: steps 12 actions 3"
          ∷ codes "summary: cells made 15 held 1 queued 1 finalised 13" ∷ []);
    }) }
{}

/// A limit of two steps stops the greeting before its string is sent.
pub fn greeting_is_stopped()
    ensures at_the_end { code_ending 60 with_summary (limited 2 4 4) greeting_image 0 ≡ Some (record {
      status = 8;
      text = in_lines (
          codes "hermes: process 1 spent 2 steps"
          ∷ codes "summary: processes 1 ended 0 waiting 0 stopped 1"
          ∷ codes "summary: ports 2 open 2"
          ∷ codes "summary: steps 2 actions 1"
          ∷ codes "summary: cells made 6 held 6 queued 0 finalised 0" ∷ []);
    }) }
{}

/// The code of a call that is answered by an exception with a parameter that is kept.
pub fn parameter_is_kept()
    ensures at_the_end { code_ending 60 with_summary (limited 1000 4 4) kept_parameter 1 ≡ Some (record {
      status = 0;
      text = in_lines (
          codes "w"
          ∷ codes "summary: processes 2 ended 2 waiting 0 stopped 0"
          ∷ codes "summary: ports 3 open 1"
          ∷ codes "summary: steps 8 actions 9"
          ∷ codes "summary: cells made 11 held 1 queued 1 finalised 9" ∷ []);
    }) }
{}

/// Its journal is that of the program.
pub fn kept_parameter_is_recorded()
    ensures journal { code_ending 60 the_journal (limited 1000 4 4) kept_parameter 1 ≡ Some (record {
      status = 0;
      text = in_lines (
          codes "journal: 1 1 port 1 take 0 {\"\",>0}"
          ∷ codes "journal: 2 1 book process 2 2 0"
          ∷ codes "journal: 3 1 port 2 put 0 (1,0:\"q\",\"w\")"
          ∷ codes "journal: 4 2 port 2 take 0 (1,0:\"q\",\"w\")"
          ∷ codes "journal: 5 2 reply 1 answer 0 raise Busy \"w\""
          ∷ codes "journal: 6 1 reply 1 hear 0 raise Busy \"w\""
          ∷ codes "journal: 6 2 port 2 close 0"
          ∷ codes "journal: 7 1 port 0 put 0 \"w\""
          ∷ codes "journal: 8 1 port 1 close 0" ∷ []);
    }) }
{}

/// One is less than two.
pub fn true_goes_on()
    ensures at_the_end { code_ending 60 plainly (limited 1000 4 4) (compares 2 3) 0 ≡ Some (record {
      status = 0;
      text = in_lines (codes "yes" ∷ []);
    }) }
{}

/// Two is not less than one.
pub fn false_jumps()
    ensures at_the_end { code_ending 60 plainly (limited 1000 4 4) (compares 3 2) 0 ≡ Some (record {
      status = 0;
      text = in_lines (codes "no" ∷ []);
    }) }
{}

/// A variant goes to the index of its component.
pub fn component_chooses()
    ensures at_the_end { code_ending 60 plainly (limited 1000 4 4) by_component 0 ≡ Some (record {
      status = 0;
      text = in_lines (codes "two" ∷ []);
    }) }
{}

/// Of two ports, the one with a message is taken from, and its arm follows.
pub fn message_chooses()
    ensures at_the_end { code_ending 60 plainly (limited 1000 4 4) by_port 0 ≡ Some (record {
      status = 0;
      text = in_lines (codes "b" ∷ []);
    }) }
{}

/// A row is taken out by its key.
pub fn row_is_taken_out()
    ensures at_the_end { code_ending 60 plainly (limited 1000 4 4) (taken_by_key 1) 0 ≡ Some (record {
      status = 0;
      text = in_lines (codes "2" ∷ []);
    }) }
{}

/// A row that is there already stays with the process, which catches the exception.
pub fn exception_is_caught()
    ensures at_the_end { code_ending 60 plainly (limited 1000 4 4) caught_row 0 ≡ Some (record {
      status = 0;
      text = in_lines (codes "1" ∷ []);
    }) }
{}

/// What a call asks for is there behind it.
pub fn parameter_comes_back()
    ensures at_the_end { code_ending 60 plainly (limited 1000 4 4) (asks answering_code) 1 ≡ Some (record {
      status = 0;
      text = in_lines (codes "w" ∷ []);
    }) }
{}

/// A process that ends without an answer leaves its caller `Disconnected`, which is caught.
pub fn caller_is_left()
    ensures at_the_end { code_ending 60 plainly (limited 1000 4 4) (asks losing_code) 1 ≡ Some (record {
      status = 0;
      text = in_lines (codes "lost" ∷ []);
    }) }
{}

/// An exception that nothing catches ends main by it.
pub fn exception_ends_main()
    ensures at_the_end { code_ending 60 plainly (limited 1000 4 4) raising 0 ≡ Some (record {
      status = 6;
      text = in_lines (codes "hermes: main ended by Overflow" ∷ []);
    }) }
{}

/// An action that begins a piece asks for no step: one step is enough for all.
pub fn action_asks_for_no_step()
    ensures at_the_end { code_ending 60 with_summary (limited 1 4 4) greeting_in_one_step 0 ≡ Some (record {
      status = 0;
      text = in_lines (
          codes "hi"
          ∷ codes "summary: processes 1 ended 1 waiting 0 stopped 0"
          ∷ codes "summary: ports 2 open 1"
          ∷ codes "summary: steps 1 actions 3"
          ∷ codes "summary: cells made 6 held 1 queued 1 finalised 4" ∷ []);
    }) }
{}

/// The code that these runs are of is good, where eight exceptions are there.
pub fn code_by_hand_is_good()
    ensures truth { is_good 8 (compares 2 3) ≡ true }
    ensures component { is_good 8 by_component ≡ true }
    ensures message { is_good 8 by_port ≡ true }
    ensures key { is_good 8 (taken_by_key 1) ≡ true }
    ensures caught { is_good 8 caught_row ≡ true }
    ensures answered { is_good 8 (asks answering_code) ≡ true }
    ensures lost { is_good 8 (asks losing_code) ≡ true }
{}

/// Code that calls meets what the laws of good images ask: with a parameter of mode in, one that comes back and an exception that keeps it,
/// and with one of mode out that is answered. It is good over a well-formed table, and the port of its main is of the type main_start; and its call is given the
/// arguments of its statement.
pub fn calling_code_meets_the_laws()
    ensures kept { IsGoodOver 8 kept_parameter }
    ensures answered { IsGoodOver 8 (asks answering_code) }
    ensures kept_main { first_type (labelled_image kept_parameter 1) 1 ≡ Some main_start }
    ensures answered_main { first_type (labelled_image (asks answering_code) 1) 1 ≡ Some main_start }
    ensures calls { CallsAs (labelled_code kept_parameter good.asks) (variable 2) arguments_of_call keeps_of_call atoms_of_call }
{}

/// The code of the greeting, of both loops, of an end by an exception and of an action without a step meets what the laws of good images ask.
pub fn code_by_hand_meets_the_laws()
    ensures greeting { IsGoodOver 8 greeting_image }
    ensures whole { IsGoodOver 8 whole_loop }
    ensures left { IsGoodOver 8 left_loop }
    ensures raised { IsGoodOver 8 raising }
    ensures one_step { IsGoodOver 8 greeting_in_one_step }
{}

/// Code that breaks one rule alone, of which no process can begin; and, mended, code that is good, of which each can.
pub fn broken_code_stands_still()
    ensures broken { map (λ e. broken_in_example e.example) stuck_code ≡ map (λ e. e.broken) stuck_code }
    ensures stuck { map (λ e. can_begin e.example) stuck_code ≡ replicate 10 false }
    ensures good { map (λ e. broken_in_example e.example) mended_code ≡ replicate 6 [] }
    ensures begun { map (λ e. can_begin e.example) mended_code ≡ replicate 6 true }
{}

/// Code whose label at index 0 says more than what a process begins with: it begins, and its first step is stuck; and, mended, code that is
/// good, whose first step goes through.
pub fn broken_beginning_stops_at_its_step()
    ensures broken { broken_in_example stuck_step.example ≡ stuck_step.broken }
    ensures begun { can_begin stuck_step.example ≡ true }
    ensures stuck { can_step stuck_step.example ≡ false }
    ensures good { broken_in_example mended_step.example ≡ [] }
    ensures stepped { can_step mended_step.example ≡ true }
{}

/// A return by an exception that keeps less than the type of its callmessage declares: its code breaks that rule alone, and the caller is
/// stuck where the reply comes.
pub fn reply_without_its_kept_parameter_is_stuck()
    ensures broken { broken_in_example (denies_by busy []) ≡ keeps ∷ [] }
    ensures stuck { code_ending 60 plainly (limited 1000 4 4) losing_return 1 ≡ None }
{}
