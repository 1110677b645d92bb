//! Which names the words of refusals have, and whose sites they are.
ghost use Rattle.herm_words.specs.laws.NodeLaws.{NodesNameVariants, SitesAreAsMany, SitesAreOfNodes};
ghost use Rattle.herm_words.specs.laws.WordLaws.{ComponentsAreOfVariants, RefusalsAreTold};

/// A component's name in the words of a hop is that of the variant at the path of the hop's `case`, where the types beside the paths of the process
/// are those of the values there.
pub fn hops_name_components_of_variants()
    ensures { ComponentsAreOfVariants }
{}

/// The number of a node is that of its statement: the statement at the place before it, in the order of the text, says what the node says. There are as many
/// statements as numbers.
pub fn sites_are_of_nodes()
    ensures nodes { SitesAreOfNodes }
    ensures count { SitesAreAsMany }
{}

/// The name of a component in a hop from the node of a `case` is that of the variant at the node's path, where the types beside the paths of the process
/// are those of the values there.
pub fn nodes_name_variants()
    ensures { NodesNameVariants }
{}

/// What is told of a fact and of a search are the words of the refusals for the fact at the places of the search.
pub fn refusals_are_told()
    ensures { RefusalsAreTold }
{}
