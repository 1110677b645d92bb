//! What coercions are to the source machine.
ghost use Rattle.herm_coerce.specs.laws.CoercionLaws.{EdgesDropCoercions, BeginningsDropCoercions};

/// In a typed process with exact labels the source machine drops on each edge, and where the process begins, exactly the paths that the
/// coercions have there, in order.
pub fn edges_drop_coercions()
    ensures edges { EdgesDropCoercions }
    ensures entry { BeginningsDropCoercions }
{}
