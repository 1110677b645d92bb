// Laws of well-formed tables and typed programs.

ghost use Rattle.herm_model.specs.laws.ArgumentLaws.{TypedArgumentsFit};
ghost use Rattle.herm_model.specs.laws.ExcessLaws.{FactsHaveTheirExcess, ValuesHaveTheirExcess};
ghost use Rattle.herm_model.specs.laws.TypedFactLaws.{CallmessagesTravelFull, DeclaredFactsAreThere, FullFactsAreThere, HeldFactsAreThere, ListedFactsAreThere, TypedCallsDeclare, TypedFormsAreInRange, TypedFormsHaveTheirFacts, TypedPathsAreBounded};
ghost use Rattle.herm_model.specs.laws.TypedLaws.{NoneBrokenIsTyped, NoneBrokenIsWellFormed, TestDecidesPrograms, TestsDecideProcesses, TestsDecideTables};

/// Which tables are well formed is decided by tests: one for each rule, and all of them together.
pub fn tests_decide_tables()
    ensures rules { TestsDecideTables }
    ensures table { NoneBrokenIsWellFormed }
{}

/// Which processes and programs are typed is decided by tests: one for each rule, and all of them together.
pub fn tests_decide_programs()
    ensures rules { TestsDecideProcesses }
    ensures process { NoneBrokenIsTyped }
    ensures program { TestDecidesPrograms }
{}

/// In a typed process the type at a path is one that there is and within the depth, no path is longer than types are deep,
/// and the paths that hold values are no more than the limit.
pub fn typed_paths_are_bounded()
    ensures { TypedPathsAreBounded }
{}

/// The facts of full values and of messages, what a typed statement needs, makes and takes away, and what is held on a
/// control path are facts that there are of the variables.
pub fn typed_facts_are_there()
    ensures full { FullFactsAreThere }
    ensures declared { DeclaredFactsAreThere }
    ensures listed { ListedFactsAreThere }
    ensures forms { TypedFormsHaveTheirFacts }
    ensures held { HeldFactsAreThere }
{}

/// The exceptions that a call declares differ and keep only what the call sets, nothing with Disconnected. Callmessages
/// travel full. The arguments that come back are targets of the types of their parameters, and apart.
pub fn typed_calls_declare()
    ensures exceptions { TypedCallsDeclare }
    ensures messages { CallmessagesTravelFull }
    ensures arguments { TypedArgumentsFit }
{}

/// Every number in a typed statement is in range.
pub fn typed_forms_are_in_range()
    ensures { TypedFormsAreInRange }
{}

/// What a set of facts has beyond another is one list of paths, in order, found with types or without. Values have the
/// excess of their facts.
pub fn an_excess_is_one_list()
    ensures facts { FactsHaveTheirExcess }
    ensures values { ValuesHaveTheirExcess }
{}
