// Laws of rising lists of numbers, as which the set of the processes that can step is seen.

ghost use Rattle.herm_waking.specs.laws.NumberLaws.{InsertedIsThere, NextIsFirst, NoneIsNext, RemovedIsGone, RisingAreKnown};

/// Rising lists with the same members are equal. A number that is put in is there and one that is taken out is not, and all others are as
/// before; and the first from a number on is the least that is there, or none where all are below.
pub fn rising_numbers_are_known()
    ensures known { RisingAreKnown }
    ensures inserted { InsertedIsThere }
    ensures removed { RemovedIsGone }
    ensures next { NextIsFirst }
    ensures none { NoneIsNext }
{}
