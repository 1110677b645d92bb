//! A local step of a machine.
ghost use Rattle.std.specs.Prelude.{◌≡◌, ℕ, false, IsErr, OnOk, ⊤};
ghost use Rattle.herm_instructions.specs.Images.{Image};
ghost use Rattle.herm_code_machine.specs.CodeStates.{CodeState};
ghost use Rattle.herm_machine.specs.Machines.{IsAt, Reaches, nameless};
ghost use Rattle.herm_process.specs.Processes.{IsStepping};

use herm_machine::Machine;
use std::alloc::AllocError;

/// The machine makes its local step, which is next.
pub fn make_step(machine: &mut Machine) -> Result<(), AllocError>
    requires alive { machine.old.is_dead ≡ false }
    requires next { IsStepping machine.old }
    ensures step { OnOk result ((image : Image) (main : ℕ) (s : CodeState ⊤) → IsAt image main machine.old s → Reaches image main machine.new ((nameless image main).local_step s)) }
{
    machine.local_step()?;
    Ok(())
}
