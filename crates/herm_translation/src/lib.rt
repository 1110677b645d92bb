//! When a process of code stands for a process of the source. The definitions stand in specs/; the function here is a law.
#![tactic(auto)]

ghost use Rattle.herm_translation.specs.laws.StandingLaws.{StandingStatesLookTheSame};

/// A process that stands for another one has its numbers, its end and its cells, also behind an entry that both put aside.
pub fn standing_states_look_the_same()
    ensures same { StandingStatesLookTheSame }
{}
