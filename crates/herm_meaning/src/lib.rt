//! What definitions modules mean, and where they are faulty. The definitions stand in `specs/`; the functions here are
//! laws about them.
#![tactic(auto)]

ghost use Rattle.herm_meaning.specs.laws.FaultLaws.{HasOneList, FaultlessIsWellNamed, FaultlessHasOutline};

/// The list of refusals is determined by the definitions.
pub fn one_list_of_faults()
    ensures one { HasOneList }
{}

/// Definitions without a fault mean a table of types that keeps the rules of definitions.
pub fn faultless_definitions_are_well_named()
    ensures well_named { FaultlessIsWellNamed }
    ensures outline { FaultlessHasOutline }
{}
