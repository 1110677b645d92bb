// Laws of the ledger for one process.

ghost use Rattle.herm_forms.specs.laws.LedgerLaws.{EdgesKeep};

/// An edge finalises what it drops and makes nothing, of every form and in every state.
pub fn edges_keep_the_ledger()
    ensures edges { EdgesKeep }
{}
