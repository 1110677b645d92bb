// The code of edges.

ghost use Rattle.herm_simulation.specs.laws.EdgeLaws.{EdgesDoArrivals};

/// The code of an edge that drops what its target does not keep, and the slots of the loops that it leaves, leads to where the edge arrives, with the
/// frame that the source has where control goes to the target.
pub fn edges_do_arrivals()
    ensures edges { EdgesDoArrivals }
{}
