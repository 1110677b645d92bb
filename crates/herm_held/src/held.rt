// What is read of variables.

ghost use Rattle.herm_held.specs.laws.HeldLaws.{ReadsStandTyped};

/// What is read at a path has the path's type, also through components, and stands among the cells at places of their types.
pub fn what_is_read_stands_typed()
    ensures typed { ReadsStandTyped }
{}
