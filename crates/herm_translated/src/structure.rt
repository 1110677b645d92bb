// Laws of the structure of laid out code.

ghost use Rattle.herm_translated.specs.laws.CheckedBlocks.{SettledFactsAreListed, TypedProcessesAreLinked, TypedProcessesAreStructured};
ghost use Rattle.herm_translated.specs.laws.GoodStructure.{CompleteBlocksAreListed, LinkedBlocksAreStructured};

/// Where edges lead to blocks that are there, laid out code keeps the rules of good code that look at neither facts nor operands: there is code, each
/// instruction has its landings and each exception one, labels rise, control goes back only to listed steps, and calls and returns keep what is declared.
pub fn linked_blocks_are_structured()
    ensures { LinkedBlocksAreStructured }
{}

/// Where each outcome has its edge and each block is led to, labels are listed for exactly the indices that jumps and landings name.
pub fn complete_blocks_are_listed()
    ensures { CompleteBlocksAreListed }
{}

/// The blocks of a typed process are linked, and each has an edge for each outcome of its form, or goes on by its only one; so its code keeps the rules of
/// `linked_blocks_are_structured`.
pub fn typed_processes_are_linked()
    ensures linked { TypedProcessesAreLinked }
    ensures structured { TypedProcessesAreStructured }
{}

/// Where the facts of each node are those of its exact label, so are those that each block has at its first step.
pub fn settled_facts_are_listed()
    ensures { SettledFactsAreListed }
{}
