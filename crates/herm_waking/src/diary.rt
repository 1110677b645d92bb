// Laws of a process with its diary.

ghost use Rattle.herm_system.specs.Machines.{Machine};
ghost use Rattle.std.specs.Prelude.{⊤};
ghost use Rattle.herm_waking.specs.DiaryKept.{ActionsKeepDiary, BeginsAtDiary, DiaryStampsAreBetween, LocalStepsKeepDiary};

/// A process that begins with an empty diary is in the state behind its diary; so it stays along local steps, and along each action whose
/// entry, with a stamp above its clock, is put behind its diary. Every stamp of the diary is above its birth's and none above its clock.
pub fn diaries_are_kept<P>()
    ensures begins { (machine : Machine ⊤ P) → BeginsAtDiary machine }
    ensures steps { (machine : Machine ⊤ P) → LocalStepsKeepDiary machine }
    ensures actions { (machine : Machine ⊤ P) → ActionsKeepDiary machine }
    ensures stamps { (machine : Machine ⊤ P) → DiaryStampsAreBetween machine }
{}
