//! What comes in with the answer to an action that gave nothing away: a new port, a new process, or a message.
ghost use Rattle.std.specs.Prelude.{◌≡◌, ℕ, List, option_map, IfOk, ⊤};
ghost use Rattle.herm_forms.specs.Frames as frames;
ghost use Rattle.herm_journal.specs.Messages.{CellAction};
ghost use Rattle.herm_journal.specs.Renaming.{forget_name};
ghost use Rattle.herm_model.specs.Values as model;
ghost use Rattle.herm_code.specs.View.{instr_view};
ghost use Rattle.herm_letters.specs.Letters.{IsParcel};
ghost use Rattle.herm_model.specs.Outcomes.{arm};
ghost use Rattle.herm_pieces.specs.View.{outcome_view};
ghost use Rattle.herm_code_machine.specs.CodeActions.{code_settles};
ghost use Rattle.herm_code_machine.specs.ReadyCode.{ReadyCode};
ghost use Rattle.herm_frames.specs.Standing.{Stands};
ghost use Rattle.herm_answers.specs.Incomings.{IsWholeIncoming, TellsIncoming, message_taken, port_made, process_made};
ghost use Rattle.herm_answers.specs.Settled.{Settles};

use herm_base::{PortNo, ProcNo};
use herm_code::Instr;
use herm_exchanges::{create, new_inport, receive, select};
use herm_frames::Frame;
use herm_letters::Parcel;
use herm_pieces::Outcome;
use herm_steps::outcome_of;
use std::alloc::AllocError;

/// What comes in: a new port, a new process with its port, or a message of a port.
#[derive(Drop)]
pub enum Incoming {
    Port(Option<PortNo>),
    Process(Option<(ProcNo, PortNo)>),
    Message(PortNo, Parcel),
}

/// What comes in goes where the instruction says. None where the instruction waits for something else, or is stuck.
pub fn take_in(
    frame: &mut Frame,
    instruction: &Instr,
    incoming: Incoming,
) -> Result<Option<Outcome>, AllocError>
    requires whole { IsWholeIncoming incoming }
    ensures settles { IfOk result (λ r. (c : ReadyCode) (s : frames.Frame ⊤) (stack : List model.Value) (at : ℕ) (action : CellAction ⊤) → Stands frame.old s → TellsIncoming incoming at action → Settles r frame.new stack (code_settles forget_name c (instr_view instruction.now) stack at action s)) }
{
    match incoming {
        Incoming::Port(made) => {
            let outcome = take_port(frame, instruction, made)?;
            Ok(outcome)
        }
        Incoming::Process(made) => {
            let outcome = take_process(frame, instruction, made)?;
            Ok(outcome)
        }
        Incoming::Message(port, parcel) => {
            let outcome = take_message(frame, instruction, port, parcel)?;
            Ok(outcome)
        }
    }
}

/// A new port, or none.
#[tactic(auto, using(crate::proofs::Behind::settles_by))]
fn take_port(
    frame: &mut Frame,
    instruction: &Instr,
    made: Option<PortNo>,
) -> Result<Option<Outcome>, AllocError>
    ensures settles { IfOk result (λ r. (c : ReadyCode) (s : frames.Frame ⊤) (stack : List model.Value) (at : ℕ) → Stands frame.old s → Settles r frame.new stack (code_settles forget_name c (instr_view instruction.now) stack at (port_made made) s)) }
{
    match instruction {
        Instr::New(target, _) => {
            let outcome = new_inport(frame, target, made)?;
            Ok(outcome_of(outcome))
        }
        _ => Ok(None),
    }
}

/// A new process with its port, or none.
#[tactic(auto, using(crate::proofs::Behind::settles_by))]
fn take_process(
    frame: &mut Frame,
    instruction: &Instr,
    made: Option<(ProcNo, PortNo)>,
) -> Result<Option<Outcome>, AllocError>
    ensures settles { IfOk result (λ r. (c : ReadyCode) (s : frames.Frame ⊤) (stack : List model.Value) (at number : ℕ) → Stands frame.old s → Settles r frame.new stack (code_settles forget_name c (instr_view instruction.now) stack at (process_made number made) s)) }
{
    match instruction {
        Instr::Create(target, _) => {
            let outcome = create(frame, target, made)?;
            Ok(outcome_of(outcome))
        }
        _ => Ok(None),
    }
}

/// A message of a port.
#[tactic(auto, using(crate::proofs::Behind::settles_by))]
fn take_message(
    frame: &mut Frame,
    instruction: &Instr,
    port: PortNo,
    parcel: Parcel,
) -> Result<Option<Outcome>, AllocError>
    requires whole { IsParcel parcel }
    ensures settles { IfOk result (λ r. (c : ReadyCode) (s : frames.Frame ⊤) (stack : List model.Value) → Stands frame.old s → Settles r frame.new stack (code_settles forget_name c (instr_view instruction.now) stack port.number (message_taken parcel) s)) }
{
    match instruction {
        Instr::Receive(target, _) => {
            let outcome = receive(frame, target, parcel.value)?;
            Ok(outcome_of(outcome))
        }
        Instr::Select(arms) => {
            let place = select(frame, arms.as_slice(), port, parcel.value)?;
            Ok(arm_of(place))
        }
        _ => Ok(None),
    }
}

/// The outcome of an arm, if there is one.
fn arm_of(place: Option<usize>) -> Option<Outcome>
    ensures arm { option_map outcome_view result ≡ option_map arm place }
{
    match place {
        Some(n) => Some(Outcome::Arm(n)),
        None => None,
    }
}
