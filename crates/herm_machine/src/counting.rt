//! How many cells a process has made, holds and has finalised.
ghost use Rattle.std.specs.Prelude.{◌≡◌, length, ⊤};
ghost use Rattle.herm_forms.specs.Frames as frames;
ghost use Rattle.herm_forms.specs.Weights.{weight_held};
ghost use Rattle.herm_system.specs.Summary.{cut};
ghost use Rattle.herm_code_machine.specs.CodeStates.{CodeState};
ghost use Rattle.herm_frames.specs.Standing.{Stands};
ghost use Rattle.herm_steps.specs.StandingAt.{StandsAt};

use herm_steps::Running;

/// How many steps and how many actions a process has made.
pub fn counted(process: &Running) -> (u64, u64)
    ensures counts { (result.0 ≡ process.now.frame.steps) × (result.1 ≡ process.now.frame.actions) }
{
    (process.frame.steps(), process.frame.actions())
}

/// How many cells a process has made, how many it holds, and how many it has finalised, each cut at 2^63.
pub fn counted_cells(process: &Running) -> (u64, u64, u64)
    ensures made { (s : CodeState ⊤) → StandsAt process.now s → result.0 ≡ cut s.frame.serial }
    ensures held { (s : CodeState ⊤) → StandsAt process.now s → result.1 ≡ cut (weight_held (λ n. 1) s.frame) }
    ensures finalised { (s : CodeState ⊤) → StandsAt process.now s → result.2 ≡ cut (length s.frame.finalised) }
    ensures left { (b : frames.Frame ⊤) → Stands process.now.frame b → (result.0 ≡ cut b.serial) × (result.1 ≡ cut (weight_held (λ n. 1) b)) × (result.2 ≡ cut (length b.finalised)) }
{
    let made = process.frame.made();
    let held = process.frame.cells();
    let finalised = process.frame.finalised();
    (made, held, finalised)
}
