// Laws of nodes, the statement table, control paths and labels.

ghost use Rattle.herm_model.specs.laws.FlowLaws.{AcceptedMeansHeld, BeginsFirst, BeginsThere, EdgesLeadThere, ExactLabelsRefuse, ExitsAreOutcomes, FlowingLabelsHold, HeldFactsAreClosed, HoldingFactsAreClosed, MakesAreClosed, NeedsAreClosed, NeedsDiffer, NodesAreStatements, NumbersAreInRange, NumbersRise, OutcomesDiffer, PathsAreCommon, PathsFollowEdges, RefusalsAreDetermined};

/// The nodes of a process are its statements other than `try`, in the order of the text. Their numbers rise, so that
/// they differ, and lie from 1 to the number of statements.
pub fn nodes_are_statements()
    ensures forms { NodesAreStatements }
    ensures rise { NumbersRise }
    ensures range { NumbersAreInRange }
{}

/// Where each form stands with the blocks that belong to it, a node has one exit for each outcome of its form, in the
/// order of the outcomes, and these differ.
pub fn exits_are_outcomes()
    ensures exits { ExitsAreOutcomes }
    ensures differ { OutcomesDiffer }
{}

/// A process begins, and each outcome of each statement leads, at a statement that is there or at an end. Where control
/// reaches every statement, the process begins at the first one.
pub fn control_leads_somewhere()
    ensures entry { BeginsThere }
    ensures edges { EdgesLeadThere }
    ensures first { BeginsFirst }
{}

/// What a statement needs has no repeats, and both what it needs and what it makes contain the facts before each fact.
pub fn needs_and_makes_are_closed()
    ensures differ { NeedsDiffer }
    ensures needs { NeedsAreClosed }
    ensures makes { MakesAreClosed }
{}

/// Where a control path leads does not depend on the fact that is looked at. Where the outcomes of each statement differ,
/// control paths lead to the targets to which edges lead from the beginning, and to no others.
pub fn paths_follow_edges()
    ensures common { PathsAreCommon }
    ensures reached { PathsFollowEdges }
{}

/// What is held on a control path contains the facts before each of its facts, and so does what holds at a statement.
pub fn held_facts_are_closed()
    ensures path { HeldFactsAreClosed }
    ensures statement { HoldingFactsAreClosed }
{}

/// Labels whose facts are facts of the start at the entry, and are held behind each edge from the label before it,
/// are held on every control path.
pub fn flowing_labels_hold()
    ensures { FlowingLabelsHold }
{}

/// Where control reaches each statement and its label has exactly the facts that hold there, the refusals are exactly the
/// needs that are not in the labels, in order.
pub fn exact_labels_refuse()
    ensures { ExactLabelsRefuse }
{}

/// Two lists of what is missing differ in their paths alone, and nothing is missing exactly where every need is held on
/// every path to its statement.
pub fn refusals_are_determined()
    ensures determined { RefusalsAreDetermined }
    ensures accepted { AcceptedMeansHeld }
{}
