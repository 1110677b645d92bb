// Runs of small programs in the middle: what single processes hold, find and want there.

ghost use Rattle.std.specs.Prelude.{◌≡◌, [], ◌∷◌, Some, None, true, codes, pos};
ghost use Rattle.herm_model.specs.Values.{a_callmessage, a_record, a_scalar, a_text, an_inport, an_integer, an_outport, cell, no_parts, part};
ghost use Rattle.herm_journal.specs.Actions.{raised, to_answer, to_close, to_hear, to_put, to_take};
ghost use Rattle.herm_system.specs.Machines.{acting, local};
ghost use Rattle.herm_source.specs.examples.CheckedExamples.{nested_loops};
ghost use Rattle.herm_source.specs.examples.MiddleExamples.{middle_of};
ghost use Rattle.herm_source.specs.examples.CallPrograms.{busy, kept_parameter};
ghost use Rattle.herm_source.specs.examples.Programs.{two_senders};

/// Two senders: main has a message for the second one, a full record with an outport to its own port; the first one steps. Both have
/// values where their facts say, and their ports stand at places of their types.
pub fn senders_in_the_middle()
    ensures main { middle_of 12 1 (two_senders 3) ≡ Some (record {
      standing = acting;
      as_said = true;
      numbers = (7, an_inport 1) ∷ (5, an_outport 0) ∷ (9, an_inport 2) ∷ (10, an_outport 2) ∷ (13, an_outport 4) ∷ (10, an_outport 2) ∷ [];
      rows = [];
      want = Some (to_put 4 (cell (1, 9) a_record (part (cell (1, 10) (a_scalar (an_integer (pos 2))) no_parts) (part (cell (1, 11) (an_outport 2) no_parts) no_parts))));
    }) }
    ensures sender { middle_of 12 2 (two_senders 3) ≡ Some (record {
      standing = local;
      as_said = true;
      numbers = (12, an_inport 3) ∷ (10, an_outport 2) ∷ [];
      rows = [];
      want = None;
    }) }
{}

/// A call whose exception keeps a parameter: the callmessage is to be put with full parameters, while its callee looks at its port;
/// then the caller waits for the reply, and the callee, which has the callmessage, gives back the parameter that is kept.
pub fn kept_call_in_the_middle()
    ensures calling { middle_of 4 1 kept_parameter ≡ Some (record {
      standing = acting;
      as_said = true;
      numbers = (7, an_inport 1) ∷ (5, an_outport 0) ∷ (10, an_outport 2) ∷ [];
      rows = [];
      want = Some (to_put 2 (cell (1, 5) (a_callmessage 1 0) (part (cell (1, 4) (a_scalar (a_text (codes "q"))) no_parts) (part (cell (1, 3) (a_scalar (a_text (codes "w"))) no_parts) no_parts))));
    }) }
    ensures looking { middle_of 4 2 kept_parameter ≡ Some (record {
      standing = acting;
      as_said = true;
      numbers = (9, an_inport 2) ∷ [];
      rows = [];
      want = Some (to_take (2 ∷ []));
    }) }
    ensures waiting { middle_of 5 1 kept_parameter ≡ Some (record {
      standing = acting;
      as_said = true;
      numbers = (7, an_inport 1) ∷ (5, an_outport 0) ∷ (10, an_outport 2) ∷ [];
      rows = [];
      want = Some to_hear;
    }) }
    ensures answering { middle_of 5 2 kept_parameter ≡ Some (record {
      standing = acting;
      as_said = true;
      numbers = (9, an_inport 2) ∷ (8, a_callmessage 1 0) ∷ [];
      rows = [];
      want = Some (to_answer 1 0 (raised busy (cell (1, 3) (a_scalar (a_text (codes "w"))) no_parts ∷ [])));
    }) }
{}

/// Nested loops over two rows: within both, one row is left to visit in each; behind the inner `leave` the outer one has its own
/// still; and at the end its port is to be closed.
pub fn nested_loops_in_the_middle()
    ensures inside { middle_of 10 1 nested_loops ≡ Some (record {
      standing = local;
      as_said = true;
      numbers = (7, an_inport 1) ∷ (5, an_outport 0) ∷ [];
      rows = 1 ∷ 1 ∷ [];
      want = None;
    }) }
    ensures left { middle_of 11 1 nested_loops ≡ Some (record {
      standing = local;
      as_said = true;
      numbers = (7, an_inport 1) ∷ (5, an_outport 0) ∷ [];
      rows = 1 ∷ [];
      want = None;
    }) }
    ensures behind { middle_of 12 1 nested_loops ≡ Some (record {
      standing = acting;
      as_said = true;
      numbers = [];
      rows = [];
      want = Some (to_close 1);
    }) }
{}
