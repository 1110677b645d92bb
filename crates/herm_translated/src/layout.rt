// Laws of the layout of code.

ghost use Rattle.herm_translated.specs.laws.LayoutLaws.{CodeIsLaidOut, EdgesStandAtExits};
ghost use Rattle.herm_translated.specs.laws.LabelsOfBlocks.{BlocksAreLabelled};
ghost use Rattle.herm_translated.specs.laws.LabelsAtEdges.{FirstStepsAreLabelled, EdgesAreLabelled};
ghost use Rattle.herm_translated.specs.laws.LabelsAlong.{ExpressionsPushTheirType, FrontsHandOn, EdgesHandOn};
ghost use Rattle.std.specs.Prelude.{ℕ, List};
ghost use Rattle.herm_model.specs.Types.{TypeTable};
ghost use Rattle.herm_model.specs.Expressions.{Literal};

/// Each instruction of a laid out module belongs to the edge to where its process begins or to the block of a node, at the
/// index that the lengths of the blocks before it give; and an edge stands where its outcome leads.
pub fn blocks_are_in_order()
    ensures blocks { CodeIsLaidOut }
    ensures edges { EdgesStandAtExits }
{}

/// Labels are listed by rising index: at each block that an edge leads to that of its node with the empty stack, and at each edge that is named what is held behind its
/// outcome.
pub fn blocks_are_labelled()
    ensures { BlocksAreLabelled }
{}

/// Operands leave the types of their values on the stack and nothing else changes; a front hands on what is held behind its form's outcome; and an edge
/// hands on what it does not drop.
pub fn labels_are_handed_on()
    ensures expressions { (types : TypeTable) → (variables : List ℕ) → (constants : List Literal) → ExpressionsPushTheirType types variables constants }
    ensures fronts { (types : TypeTable) → (variables : List ℕ) → (constants : List Literal) → FrontsHandOn types variables constants }
    ensures edges { (types : TypeTable) → (variables : List ℕ) → (constants : List Literal) → EdgesHandOn types variables constants }
{}

/// At the first step of each typed block stand its facts and slots, also where no edge leads there and the block before hands them on. Before each edge stands
/// what is held behind its outcome, and before its last instruction what it has not dropped.
pub fn edges_are_labelled()
    ensures first_steps { FirstStepsAreLabelled }
    ensures edges { EdgesAreLabelled }
{}
