//! What became of each process, where none can step.
ghost use Rattle.std.specs.Prelude.{◌≡◌, ℕ, List, Some, false, All, IfOk, map, ⊤};
ghost use Rattle.herm_journal.specs.Actions.{to_take};
ghost use Rattle.herm_system.specs.ProcessFates.{end_as, waits};
ghost use Rattle.herm_instructions.specs.Images as images;
ghost use Rattle.herm_code_machine.specs.CodeStates.{CodeState};
ghost use Rattle.herm_steps.specs.Coming.{end_view as stop_view};
ghost use Rattle.herm_machine.specs.Machines.{nameless};
ghost use Rattle.herm_process.specs.Processes.{IsProcess};
ghost use Rattle.herm_waking.specs.Unnamed.{ports_of_want};
ghost use Rattle.herm_report.specs.View.{end_view, proc_end_view, spent_view};
ghost use Rattle.herm_world.specs.Looks.{Takes, IsToldWant};
ghost use Rattle.herm_world.specs.Reported.{IsAtRest, IsEndOf, reached_view};
ghost use Rattle.herm_world.specs.Worlds.{AreAlike};

use herm_base::PortNo;
use herm_exchanges::Want;
use herm_process::{Next, Process, Spent as Reached};
use herm_report::{End, ProcEnd, Spent};
use herm_steps::End as Stop;
use std::alloc::{AllocError, Global};

/// The ports at which a process looks, in order.
fn looked_at(alloc: Global, process: &Process, count: usize) -> Result<Vec<PortNo>, AllocError>
    requires alive { process.now.is_dead ≡ false }
    requires takes { (image : images.Image) (main : ℕ) (x : CodeState ⊤) → IsProcess image main process.now x → Takes count ((nameless image main).wanted x) }
    ensures ports { IfOk result (λ v. (image : images.Image) (main : ℕ) (x : CodeState ⊤) (ports : List ℕ) → IsProcess image main process.now x → (nameless image main).wanted x ≡ Some (to_take ports) → map (λ p. p.number) v.items ≡ ports) }
{
    let mut found = Vec::new(alloc);
    for place in 0..count {
        let port = process.look(place);
        found.push(port)?;
    }
    Ok(found)
}

/// The ports on which a process waits that wants this: none where it waits for a reply.
fn waits_on(alloc: Global, process: &Process, want: Want) -> Result<Vec<PortNo>, AllocError>
    requires alive { process.now.is_dead ≡ false }
    requires wants { (image : images.Image) (main : ℕ) (x : CodeState ⊤) → IsProcess image main process.now x → IsToldWant want ((nameless image main).wanted x) }
    ensures ports { IfOk result (λ v. (image : images.Image) (main : ℕ) (x : CodeState ⊤) → IsProcess image main process.now x → map (λ p. p.number) v.items ≡ ports_of_want ((nameless image main).wanted x)) }
{
    match want {
        Want::Take(ports) => {
            let found = looked_at(alloc, process, ports.count)?;
            return Ok(found);
        }
        Want::MakePort => return Ok(Vec::new(alloc)),
        Want::MakeProcess(_) => return Ok(Vec::new(alloc)),
        Want::Put(_) => return Ok(Vec::new(alloc)),
        Want::Close(_) => return Ok(Vec::new(alloc)),
        Want::Answer(_, _) => return Ok(Vec::new(alloc)),
        Want::Hear => return Ok(Vec::new(alloc)),
    }
}

fn stop_of(stop: Stop) -> End
    ensures end { end_view result ≡ end_as (stop_view stop) }
{
    match stop {
        Stop::Normal => End::Normal,
        Stop::By(exception) => End::By(exception),
    }
}

fn spent_of(reached: Reached) -> Spent
    ensures spent { spent_view result ≡ reached_view reached }
{
    match reached {
        Reached::Steps(limit) => Spent::Steps(limit),
        Reached::Actions(limit) => Spent::Actions(limit),
    }
}

fn wait_of(ports: Vec<PortNo>) -> ProcEnd
    ensures waits { proc_end_view result ≡ waits (map (λ p. p.number) ports.items) }
{
    ProcEnd::Waiting(ports)
}

/// What became of a process that cannot step.
fn end_of(alloc: Global, process: &Process) -> Result<ProcEnd, AllocError>
    requires rest { IsAtRest process.now }
    ensures end { IfOk result (λ e. IsEndOf process.now e) }
{
    match process.next() {
        Next::Act(want) => {
            let ports = waits_on(alloc, process, want)?;
            return Ok(wait_of(ports));
        }
        Next::Ended(stop) => return Ok(ProcEnd::Ended(stop_of(stop))),
        Next::Stopped(reached) => return Ok(ProcEnd::Stopped(spent_of(reached))),
        Next::Local => unreachable!(),
    }
}

/// What became of each process.
pub fn ends_of(alloc: Global, processes: &[Process]) -> Result<Vec<ProcEnd>, AllocError>
    requires rest { All IsAtRest processes.now }
    ensures ends { IfOk result (λ v. AreAlike IsEndOf processes.now v.items) }
{
    let mut ends = Vec::new(alloc);
    for process in processes {
        let end = end_of(alloc, process)?;
        ends.push(end)?;
    }
    Ok(ends)
}
