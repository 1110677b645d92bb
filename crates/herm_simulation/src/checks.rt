// What a check gives of a process.

ghost use Rattle.herm_simulation.specs.laws.CheckLaws.{ExcessIsRight};

/// Of a typed process with exact labels, a check that has exactly the facts of the labels, and for each exit the excess of what is held behind it beyond
/// the label of its target, is right: it lists what the source drops.
pub fn checks_by_excess_are_right()
    ensures checks { ExcessIsRight }
{}
