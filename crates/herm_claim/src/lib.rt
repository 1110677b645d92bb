//! The claim: what a call of the program says of files whose bytes were read. The definitions stand in specs/; the functions here are laws.
#![tactic(auto)]

ghost use Rattle.herm_claim.specs.laws.ClaimLaws.{FaultsAreRefused, AcceptedAreOtherwise, StatusesAreFive};

/// By every claim files are refused exactly where a phase has a fault of them; and the statuses are those of a refusal and of a run.
pub fn claims_are_exact()
    ensures refused { FaultsAreRefused }
    ensures accepted { AcceptedAreOtherwise }
    ensures statuses { StatusesAreFive }
{}
