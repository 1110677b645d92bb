//! The order of what a process wants.
ghost use Rattle.std.specs.Prelude.{◌≡◌, ℕ, Some, false, option_and_then, IfOk, IsErr, ⊤};
ghost use Rattle.herm_instructions.specs.Images.{Image};
ghost use Rattle.herm_code_machine.specs.CodeStates.{CodeState};
ghost use Rattle.herm_exchanges.specs.Told.{a_put, an_answer, told};
ghost use Rattle.herm_machine.specs.Machines.{IsAt, IsInside, nameless};
ghost use Rattle.herm_process.specs.Entries.{IsWholeOrder};
ghost use Rattle.herm_process.specs.Processes.{IsWanting, Orders};

use crate::ordered::{Ordered, sums_of};
use herm_base::{PortNo, ProcNo};
use herm_exchanges::Want;
use herm_machine::{Machine, Order};
use std::alloc::AllocError;

/// The order of what the machine wants, with what is remembered of it put where it is told. A message or a reply that goes with the
/// order is taken out.
pub fn order_of(machine: &mut Machine, ordered: &mut Option<Ordered>) -> Result<Order, AllocError>
    requires inside { IsInside machine.old }
    requires alive { machine.old.is_dead ≡ false }
    requires wanting { IsWanting machine.old }
    ensures orders { IfOk result (λ r. (o : Ordered) × (ordered.new ≡ Some o) × ((image : Image) (main : ℕ) (s : CodeState ⊤) → IsAt image main machine.old s → Orders image main machine.new r o s)) }
    ensures whole { IfOk result IsWholeOrder }
    ensures failed { IsErr result → ordered.new ≡ ordered.old }
{
    match machine.wants() {
        Some(Want::MakePort) => {
            *ordered = Some(Ordered::MakePort);
            Ok(Order::MakePort)
        }
        Some(Want::MakeProcess(code)) => {
            *ordered = Some(Ordered::MakeProcess(code));
            Ok(Order::MakeProcess(code))
        }
        Some(Want::Put(port)) => {
            let order = put_order(machine, ordered, port)?;
            Ok(order)
        }
        Some(Want::Take(ports)) => {
            *ordered = Some(Ordered::Take);
            Ok(Order::Take(ports))
        }
        Some(Want::Close(port)) => {
            *ordered = Some(Ordered::Close(port));
            Ok(Order::Close(port))
        }
        Some(Want::Answer(caller, call)) => {
            let order = answer_order(machine, ordered, caller, call)?;
            Ok(order)
        }
        Some(Want::Hear) => {
            *ordered = Some(Ordered::Hear);
            Ok(Order::Hear)
        }
        None => unreachable!(),
    }
}

/// The order of a put, with the letter.
fn put_order(
    machine: &mut Machine,
    ordered: &mut Option<Ordered>,
    port: PortNo,
) -> Result<Order, AllocError>
    requires inside { IsInside machine.old }
    requires put { (image : Image) (main : ℕ) (s : CodeState ⊤) → IsAt image main machine.old s → Some (a_put port.number) ≡ option_and_then told ((nameless image main).wanted s) }
    ensures orders { IfOk result (λ r. (o : Ordered) × (ordered.new ≡ Some o) × ((image : Image) (main : ℕ) (s : CodeState ⊤) → IsAt image main machine.old s → Orders image main machine.new r o s)) }
    ensures whole { IfOk result IsWholeOrder }
    ensures failed { IsErr result → ordered.new ≡ ordered.old }
{
    let sums = sums_of(machine);
    let letter = machine.letter()?;
    *ordered = Some(Ordered::Put(port, sums));
    Ok(Order::Put(port, letter))
}

/// The order of an answer, with the reply and its texts.
fn answer_order(
    machine: &mut Machine,
    ordered: &mut Option<Ordered>,
    caller: ProcNo,
    call: u64,
) -> Result<Order, AllocError>
    requires inside { IsInside machine.old }
    requires answer { (image : Image) (main : ℕ) (s : CodeState ⊤) → IsAt image main machine.old s → Some (an_answer caller.number call) ≡ option_and_then told ((nameless image main).wanted s) }
    ensures orders { IfOk result (λ r. (o : Ordered) × (ordered.new ≡ Some o) × ((image : Image) (main : ℕ) (s : CodeState ⊤) → IsAt image main machine.old s → Orders image main machine.new r o s)) }
    ensures whole { IfOk result IsWholeOrder }
    ensures failed { IsErr result → ordered.new ≡ ordered.old }
{
    let sums = sums_of(machine);
    let (reply, recorded, heard) = machine.reply()?;
    let text = recorded.again()?;
    *ordered = Some(Ordered::Answer(caller, call, text, sums));
    Ok(Order::Answer(caller, call, reply, recorded, heard))
}
