// Laws of the images of checked programs.

ghost use Rattle.herm_good_images.specs.laws.EnteredLoops.{LoopsAreEnteredAtHeads, EdgesKeepSlots};
ghost use Rattle.herm_good_images.specs.laws.CodeLengths.{CodeIsBounded, IndicesFit};
ghost use Rattle.herm_good_images.specs.laws.GoodImages.{TypedBlocksAreComplete, ImagesAreGood, MainsBegin};
ghost use Rattle.herm_good_images.specs.laws.CheckedModulesExist.{CheckedProgramsHaveModules};

/// An edge that leads inside a loop comes from inside it, or leads to its own statement; so an edge arrives with the slots that it does not leave.
pub fn loops_are_entered_at_their_heads()
    ensures heads { LoopsAreEnteredAtHeads }
    ensures slots { EdgesKeepSlots }
{}

/// Each block of a typed process is led to by an edge to its first step, or by the block before it, and has an edge for each outcome of its form, or goes on by its only one; so labels are listed for exactly the
/// indices that jumps and landings name.
pub fn typed_blocks_are_complete()
    ensures { TypedBlocksAreComplete }
{}

/// The image of each checked program is good over its types, and its main has a port of the type main_start.
pub fn images_are_good()
    ensures good { ImagesAreGood }
    ensures begins { MainsBegin }
{}

/// Each checked program has the facts of its labels as lists, and what is dropped along its edges: so it has an image.
pub fn checked_programs_have_modules()
    ensures { CheckedProgramsHaveModules }
{}

/// Code is no longer than its nodes, their fronts, and an edge for each exit; so each index of it has 32 bits, where the exits are few.
pub fn code_is_bounded()
    ensures bounded { CodeIsBounded }
    ensures fit { IndicesFit }
{}
