// Laws of the facts that statements need and make.

ghost use Rattle.herm_model.specs.laws.OrderedFacts.{FactsToAreOrdered, NeedsAreOrdered, MakesAreOrdered, PrefixesAreFacts};

/// Each fact that a statement needs stands behind the facts before it in the list of its needs; so it is with what a
/// statement makes, and with the facts to a path. The facts before a fact that there is are facts that there are.
pub fn facts_stand_behind_prefixes()
    ensures paths { FactsToAreOrdered }
    ensures needs { NeedsAreOrdered }
    ensures makes { MakesAreOrdered }
    ensures there { PrefixesAreFacts }
{}
