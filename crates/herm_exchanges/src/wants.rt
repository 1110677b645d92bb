//! What instructions want that are actions, and what waits on a work list.
ghost use Rattle.std.specs.Prelude.{◌≡◌, ◌∷◌, [], ℕ, List, Some, map, option_map, option_and_then, slice_get, ⊤};
ghost use Rattle.herm_model.specs.Values as model;
ghost use Rattle.herm_journal.specs.Actions.{to_take};
ghost use Rattle.herm_journal.specs.Messages.{CellWant};
ghost use Rattle.herm_journal.specs.Renaming.{forget_name};
ghost use Rattle.herm_forms.specs.ClosesAndAnswers.{work_wants};
ghost use Rattle.herm_forms.specs.Exchanges as exchanges;
ghost use Rattle.herm_forms.specs.Frames as frames;
ghost use Rattle.herm_forms.specs.ReturnForms.{caller_of};
ghost use Rattle.herm_types.specs.View.{path_view};
ghost use Rattle.herm_values.specs.View.{value_view};
ghost use Rattle.herm_values.specs.Works.{item_view};
ghost use Rattle.herm_code.specs.View.{choice_view, instr_view};
ghost use Rattle.herm_code_machine.specs.CodeActions.{code_wants, ports_of_choices};
ghost use Rattle.herm_code_machine.specs.CodeSeen.{ports_of};
ghost use Rattle.herm_code_machine.specs.ReadyCode.{ReadyCode};
ghost use Rattle.herm_frames.specs.Standing.{Stands};
ghost use Rattle.herm_exchanges.specs.Told.{a_put, a_take, an_answer, told, told_among, told_call, told_of, want_view};

use crate::ports::{inport_at, outport_at};
use herm_base::{PortNo, ProcNo};
use herm_code::{Arm, Instr};
use herm_frames::Frame;
use herm_types::Path;
use herm_values::{Value, WorkItem};

/// The ports that a process looks at: the first one, and how many they are.
#[derive(Clone, Copy, Debug, PartialEq, Eq)]
pub struct PortList {
    pub first: PortNo,
    pub count: usize,
}

/// What a process wants of a place: a new port, a process of the module with this number, to put a message, to take one
/// from the first of these ports that has one, to close a port, to answer a call, or to hear the answer of its own.
#[derive(Clone, Copy, Debug, PartialEq, Eq)]
pub enum Want {
    MakePort,
    MakeProcess(u32),
    Put(PortNo),
    Take(PortList),
    Close(PortNo),
    Answer(ProcNo, u64),
    Hear,
}

/// What an instruction wants that is an action. None of one that is no action, and where there is no port or no callmessage.
pub fn want_of(frame: &Frame, instruction: &Instr) -> Option<Want>
    ensures want { (c : ReadyCode) (stack : List model.Value) (s : frames.Frame ⊤) (w : CellWant ⊤) → Stands frame.now s → code_wants forget_name c (instr_view instruction.now) stack s ≡ Some w → option_map want_view result ≡ told w }
    ensures exactly { (s : frames.Frame ⊤) → Stands frame.now s → option_map want_view result ≡ told_of (instr_view instruction.now) s }
{
    match instruction {
        Instr::New(_, _) => Some(Want::MakePort),
        Instr::Send(_, port, _) => put_to(frame, port),
        Instr::Receive(_, port) => take_from(frame, port),
        Instr::Select(arms) => take_among(frame, arms.as_slice()),
        Instr::Call(port, _, _) => put_to(frame, port),
        Instr::Return(message) => answer_of(frame, message),
        Instr::ReturnBy(message, _, _) => answer_of(frame, message),
        Instr::Create(_, number) => Some(Want::MakeProcess(*number)),
        _ => None,
    }
}

/// A message is put to where the outport at a path leads.
fn put_to(frame: &Frame, port: &Path) -> Option<Want>
    ensures want { (s : frames.Frame ⊤) → Stands frame.now s → option_map want_view result ≡ option_map a_put (exchanges.outport_at (path_view port.now) s) }
{
    match outport_at(frame, port) {
        Some(port) => Some(Want::Put(port)),
        None => None,
    }
}

/// A message is taken from the inport at a path.
fn take_from(frame: &Frame, port: &Path) -> Option<Want>
    ensures want { (s : frames.Frame ⊤) → Stands frame.now s → option_map want_view result ≡ option_map (λ p. a_take p 1) (exchanges.inport_at (path_view port.now) s) }
{
    match inport_at(frame, port) {
        Some(first) => Some(Want::Take(PortList { first, count: 1 })),
        None => None,
    }
}

/// A message is taken from one of the inports at the paths of arms.
fn take_among(frame: &Frame, arms: &[Arm]) -> Option<Want>
    ensures want { (s : frames.Frame ⊤) (w : CellWant ⊤) → Stands frame.now s → exchanges.select_wants (ports_of_choices (map choice_view arms.now)) s ≡ Some w → option_map want_view result ≡ told w }
    ensures exactly { (s : frames.Frame ⊤) → Stands frame.now s → option_map want_view result ≡ told_among (ports_of_choices (map choice_view arms.now)) s }
{
    let count = arms.len();
    let Some((arm, _)) = arms.split_first() else {
        return None;
    };
    match inport_at(frame, &arm.port) {
        Some(first) => Some(Want::Take(PortList { first, count })),
        None => None,
    }
}

/// The call is answered whose callmessage stands at a path.
fn answer_of(frame: &Frame, message: &Path) -> Option<Want>
    ensures want { (s : frames.Frame ⊤) → Stands frame.now s → option_map want_view result ≡ told_call (path_view message.now) s }
{
    match frame.at(message) {
        Some(v) => answer_to(v),
        None => None,
    }
}

/// The call of a callmessage is answered.
#[tactic(auto, using(herm_values::proofs::Seen::layers))]
fn answer_to(v: &Value) -> Option<Want>
    ensures want { option_map want_view result ≡ option_map (λ (c : ℕ × ℕ). an_answer c.0 c.1) (caller_of (value_view v.now)) }
{
    match v {
        Value::Bool(_) => None,
        Value::Int(_) => None,
        Value::Text(_) => None,
        Value::Tag(_) => None,
        Value::Fields(_) => None,
        Value::Case(_, _) => None,
        Value::Table(_) => None,
        Value::Poly(_) => None,
        Value::Call(call) => Some(Want::Answer(call.caller(), call.call())),
        Value::Inport(_) => None,
        Value::Outport(_) => None,
    }
}

/// The port of an arm's inport, which is the one at this place that a process looks at. None where there is no arm or no inport.
pub fn port_of_arm(frame: &Frame, arms: &[Arm], place: usize) -> Option<PortNo>
    ensures port { (s : frames.Frame ⊤) (ports : List ℕ) → Stands frame.now s → exchanges.ports_at (ports_of_choices (map choice_view arms.now)) s ≡ Some ports → option_map (λ p. p.number) result ≡ slice_get ports place }
    ensures exactly { (s : frames.Frame ⊤) → Stands frame.now s → option_map (λ p. p.number) result ≡ option_and_then (λ i. exchanges.inport_at i s) (slice_get (ports_of_choices (map choice_view arms.now)) place) }
{
    match arm_at(arms, place) {
        Some(arm) => inport_at(frame, &arm.port),
        None => None,
    }
}

/// The port at a place among those that an instruction looks at. None where it looks at none there.
#[tactic(auto, using(crate::proofs::Told::looking))]
pub fn port_at(frame: &Frame, instruction: &Instr, place: usize) -> Option<PortNo>
    ensures port { (c : ReadyCode) (stack : List model.Value) (s : frames.Frame ⊤) (ports : List ℕ) → Stands frame.now s → code_wants forget_name c (instr_view instruction.now) stack s ≡ Some (to_take ports) → option_map (λ p. p.number) result ≡ slice_get ports place }
    ensures exactly { (s : frames.Frame ⊤) → Stands frame.now s → option_map (λ p. p.number) result ≡ option_and_then (λ i. exchanges.inport_at i s) (slice_get (ports_of (instr_view instruction.now)) place) }
{
    match instruction {
        Instr::New(_, _) => None,
        Instr::Send(_, _, _) => None,
        Instr::Receive(_, port) => only_port(frame, port, place),
        Instr::Select(arms) => port_of_arm(frame, arms.as_slice(), place),
        Instr::Call(_, _, _) => None,
        Instr::Return(_) => None,
        Instr::ReturnBy(_, _, _) => None,
        Instr::Create(_, _) => None,
        _ => None,
    }
}

/// The port of the inport at a path, which is the only one that is looked at.
#[tactic(auto, using(crate::proofs::Told::only_looking))]
fn only_port(frame: &Frame, port: &Path, place: usize) -> Option<PortNo>
    ensures port { (s : frames.Frame ⊤) (ports : List ℕ) → Stands frame.now s → exchanges.receive_wants (path_view port.now) s ≡ Some (to_take ports) → option_map (λ p. p.number) result ≡ slice_get ports place }
    ensures exactly { (s : frames.Frame ⊤) → Stands frame.now s → option_map (λ p. p.number) result ≡ option_and_then (λ i. exchanges.inport_at i s) (slice_get (path_view port.now ∷ []) place) }
{
    if place == 0 {
        return inport_at(frame, port);
    }
    None
}

/// The arm at a place.
fn arm_at(arms: &[Arm], place: usize) -> Option<&Arm>
    ensures arm { option_map (λ a. a.now) result ≡ slice_get arms.now place }
{
    arms.get(place)
}

/// What is wanted where this is at the front of the work list.
pub fn work_want(item: &WorkItem) -> Want
    ensures want { option_and_then told (work_wants (item_view item.now)) ≡ Some (want_view result) }
{
    match item {
        WorkItem::Close(port) => Want::Close(*port),
        WorkItem::Answer(caller, call) => Want::Answer(*caller, *call),
    }
}
