// What a send trims.

ghost use Rattle.herm_code_machine.specs.laws.TrimLaws.{SendsActAsForms, TrimsAreExcess};

/// What a send of good code trims is what a send of the source drops of the same values; so it wants the same, and its answer leaves the
/// same.
pub fn trims_are_the_excess()
    ensures excess { TrimsAreExcess }
    ensures sends { SendsActAsForms }
{}
