// Laws of typed programs at examples: what is typed, and for each rule what breaks it alone.

ghost use Rattle.std.specs.Prelude.{◌≡◌, [], ◌∷◌, ◌++◌, map, replicate, true, false};
ghost use Rattle.herm_model.specs.Types.{predefined, fields, inport, outport};
ghost use Rattle.herm_model.specs.WellFormedTables.{Reaches};
ghost use Rattle.herm_model.specs.examples.RefusedProcesses.{calls, denies, on_busy};
ghost use Rattle.herm_model.specs.examples.TypedExamples.{item_types, items_in_a_table, keeping_types, ring_main, ring_node, ring_types, sender, sender_types, two_senders, with_statements, with_variables};
ghost use Rattle.herm_model.specs.TypedPrograms.{IsTypedProgram};
ghost use Rattle.herm_model.specs.tests.BodyTests.{broken_process_rules, few_variable_paths, few_statements, keeps_process_rule, port, variables_known};
ghost use Rattle.herm_model.specs.examples.BodyExamples.{body_examples};
ghost use Rattle.herm_model.specs.examples.TableRuleExamples.{table_examples};
ghost use Rattle.herm_model.specs.laws.TypedExampleLaws.{AreTyped, BreakTheirFormAlone, BreakTheseRules, BreakTheseTableRules};
ghost use Rattle.herm_model.specs.examples.TypedStatementExamples.{typed_statements};
ghost use Rattle.herm_model.specs.examples.UntypedStatementExamples.{untyped_statements};

/// Tables that are well formed, and for each rule of definitions tables that break it.
pub fn tables_break_their_rules()
    ensures { BreakTheseTableRules table_examples }
{}

/// Types that reach themselves: a record of itself, and a record with an outport to an inport of itself.
pub fn types_reach_themselves()
    ensures itself { Reaches (predefined ++ fields (8 ∷ []) ∷ []) 8 8 }
    ensures by_port { Reaches (predefined ++ inport 9 [] ∷ fields (10 ∷ []) ∷ outport 8 ∷ []) 9 9 }
{}

/// Statements of each form that are typed.
pub fn statements_are_typed()
    ensures { AreTyped typed_statements }
{}

/// Statements of each form that are not typed, where nothing else is wrong.
pub fn statements_break_their_rules()
    ensures { BreakTheirFormAlone untyped_statements }
{}

/// Bodies that are typed, and for each rule of bodies one that breaks it.
pub fn bodies_break_their_rules()
    ensures { BreakTheseRules body_examples }
{}

/// The ring, the two senders, a call whose exception keeps a parameter, and a table of variants in a polymorph are typed
/// programs. Main has a port of main_start.
pub fn programs_are_typed()
    ensures ring { IsTypedProgram 7 (predefined ++ ring_types) (ring_node ∷ ring_main ∷ []) 1 }
    ensures senders { IsTypedProgram 7 (predefined ++ sender_types) (sender ∷ two_senders ∷ []) 1 }
    ensures kept { IsTypedProgram 8 (predefined ++ keeping_types) (denies [] ∷ calls on_busy ∷ []) 1 }
    ensures items { IsTypedProgram 7 (predefined ++ item_types) (items_in_a_table ∷ []) 0 }
    ensures no_main { IsTypedProgram 7 (predefined ++ ring_types) (ring_node ∷ ring_main ∷ []) 0 → ⊥ }
    ensures no_such_process { IsTypedProgram 7 (predefined ++ ring_types) (ring_node ∷ ring_main ∷ []) 2 → ⊥ }
{}

/// Variables and limits: no port, a port of no inport type, an unknown type, too many paths and too many statements.
pub fn processes_break_their_rules()
    ensures port { map (λ p. broken_process_rules 7 predefined [] (with_variables p)) ([] ∷ (1 ∷ []) ∷ (7 ∷ []) ∷ []) ≡ (port ∷ []) ∷ (port ∷ []) ∷ [] ∷ [] }
    ensures unknown { map (λ p. broken_process_rules 7 predefined [] (with_variables p)) ((7 ∷ 8 ∷ []) ∷ (7 ∷ 5 ∷ []) ∷ []) ≡ (variables_known ∷ []) ∷ [] ∷ [] }
    ensures paths { map (λ n. broken_process_rules 7 predefined [] (with_variables (7 ∷ replicate n 1))) (4095 ∷ 4096 ∷ []) ≡ [] ∷ (few_variable_paths ∷ []) ∷ [] }
    ensures statements { map (λ n. keeps_process_rule 7 predefined [] (with_statements n) few_statements) (1024 ∷ 1025 ∷ []) ≡ true ∷ false ∷ [] }
{}
