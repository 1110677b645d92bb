//! One process of an image.
ghost use Rattle.std.specs.Prelude.{◌≡◌, ◌<◌, ◌↔◌, ℕ, List, Some, None, true, false, is_some, option_map, option_and_then, slice_get, length, IfOk, OnOk, IsErr, IsSome, ⊤};
ghost use Rattle.herm_model.specs.Values.{an_inport};
ghost use Rattle.herm_journal.specs.Actions.{to_answer, to_put, to_take};
ghost use Rattle.herm_journal.specs.Entries.{map_reply, texts_of};
ghost use Rattle.herm_journal.specs.Messages.{CellAction, CellReply, CellWant};
ghost use Rattle.herm_forms.specs.Frames as frames;
ghost use Rattle.herm_forms.specs.Weights.{weight_held};
ghost use Rattle.herm_frames.specs.Standing.{Stands};
ghost use Rattle.herm_system.specs.Ledger.{held_by};
ghost use Rattle.herm_system.specs.Summary.{cut};
ghost use Rattle.herm_system.specs.Suiting.{Answers, Suits};
ghost use Rattle.herm_instructions.specs.Images as images;
ghost use Rattle.herm_code.specs.View.{image_view};
ghost use Rattle.herm_code_machine.specs.CodeSteps.{code_next};
ghost use Rattle.herm_code_machine.specs.CodeStates.{CodeState};
ghost use Rattle.herm_events.specs.View.{reply_trace_view};
ghost use Rattle.herm_values.specs.View.{leaf, value_view};
ghost use Rattle.herm_letters.specs.Letters.{IsWholeReply};
ghost use Rattle.herm_letters.specs.View.{reply_view};
ghost use Rattle.herm_exchanges.specs.Told.{told, want_view};
ghost use Rattle.herm_steps.specs.Coming.{begins_with_step, coming, end_view};
ghost use Rattle.herm_steps.specs.StandingAt.{StandsAt};
ghost use Rattle.herm_answers.specs.Orders.{HoldsOrder};
ghost use Rattle.herm_machine.specs.Gots.{Fits, IsOrdered, IsSuiting, IsWholeGot, TellsGot};
ghost use Rattle.herm_machine.specs.Machines.{HasOut, IsAnswerWanted, IsAt, IsInside, IsNothing, IsPutWanted, IsTakeWanted, Reaches, StandsFor, code_of, counted_out, end_of, nameless};

use crate::counting::{counted, counted_cells};
use crate::looking::first_port;
use crate::order::Got;
use crate::settling::settle;
use crate::suiting::{is_awaited, is_heard};
use crate::taking::{count_aside, is_full, message_of, reply_of};
use herm_base::{PortNo, ProcNo};
use herm_code::Image;
use herm_events::ReplyTrace;
use herm_exchanges::Want;
use herm_letters::{Letter, Reply, reply_trace_of};
use herm_pieces::Code;
use herm_steps::{Coming, End, Next, Running, sound_steps_are_made};
use std::alloc::{AllocError, Global};
use std::marker::Model;

/// Nothing comes next.
const NOTHING: Coming = Coming {
    end: None,
    has_step: false,
    want: None,
};

/// One process of an image. Contracts see its code made ready, where it is and what it holds, the want whose message or reply was
/// taken out, and whether a call failed: it is dead from then on. If it is not dead it is at a state of the machine of code
/// that is sound.
#[derive(Drop)]
pub struct Machine<'i> {
    alloc: Global,
    code: Code<'i>,
    running: Running,
    order: Option<Want>,
    // What comes next, found once for all that ask, while no order is out.
    coming: Coming,
    is_front: bool,
    is_dead: bool,
}

impl<'i> Model for Machine<'i> {
    ghost use Rattle.std.specs.Coded.{codes};
    ghost use Rattle.herm_values.specs.contracts.value.Value as held;
    ghost use Rattle.herm_values.specs.contracts.work.WorkItem as item;
    ghost use Rattle.herm_machine.specs.Machines.{IsKeptMachine, MachineState};

    ghost Value = { MachineState };

    ghost coded = { Prim.hlevel (codes, held.the_row.coded, item.the_row.coded) };

    ghost view = { λ m. record { code = m.code; held = m.running; order = m.order; is_front = m.is_front; is_dead = m.is_dead } };

    ghost invariant = { λ m. IsKeptMachine m.coming (record { code = m.code; held = m.running; order = m.order; is_front = m.is_front; is_dead = m.is_dead }) };
}

impl<'i> Machine<'i> {
    /// The process with this number begins, of the process module with this number, with the inport of its first port.
    pub fn begin(
        alloc: Global,
        number: ProcNo,
        image: &'i Image,
        module_number: u32,
        first: PortNo,
    ) -> Result<Machine<'i>, AllocError>
        requires there { module_number < length image.now.modules }
        ensures begins { IfOk result (λ m. (main : ℕ) → Reaches (image_view image.now) main m ((nameless (image_view image.now) main).begin module_number number.number (leaf (an_inport first.number)))) }
    {
        let Some(code) = Code::of(image, module_number) else {
            unreachable!()
        };
        image.keeps();
        image.types().keeps();
        let Some(running) = Running::begin(alloc, &code, number, first)? else {
            unreachable!()
        };
        let coming = running.coming(&code);
        Ok(Machine {
            alloc,
            code,
            running,
            order: None,
            coming,
            is_front: false,
            is_dead: false,
        })
    }

    /// What it wants of a place, also while its order is out. None while a local step is next, or it has ended, or is dead.
    pub fn wants(&self) -> Option<Want>
        ensures wanted { (image : images.Image) (main : ℕ) (s : CodeState ⊤) → IsAt image main self.now s → option_map want_view result ≡ option_and_then told ((nameless image main).wanted s) }
        ensures there { (image : images.Image) (main : ℕ) (s : CodeState ⊤) (w : CellWant ⊤) → IsAt image main self.now s → (nameless image main).wanted s ≡ Some w → is_some result ≡ true }
        ensures dead { self.now.is_dead ≡ true → result ≡ None }
    {
        if self.is_dead {
            return None;
        }
        match self.order {
            Some(want) => Some(want),
            None => self.coming.want,
        }
    }

    /// The port at this place among those from which it wants to take a message.
    pub fn look(&self, place: usize) -> PortNo
        requires alive { self.now.is_dead ≡ false }
        requires take { (image : images.Image) (main : ℕ) (s : CodeState ⊤) → IsAt image main self.now s → IsTakeWanted place ((nameless image main).wanted s) }
        ensures port { (image : images.Image) (main : ℕ) (s : CodeState ⊤) (ports : List ℕ) → IsAt image main self.now s → (nameless image main).wanted s ≡ Some (to_take ports) → slice_get ports place ≡ Some result.number }
    {
        if place == 0 {
            if let Some(port) = first_port(self.wants()) {
                return port;
            }
        }
        let Some(port) = self.running.look(&self.code, place) else {
            unreachable!()
        };
        port
    }

    /// How it ended, if it has. A dead process has not ended.
    pub fn ended(&self) -> Option<End>
        ensures end { (image : images.Image) (main : ℕ) (s : CodeState ⊤) → IsAt image main self.now s → option_map end_view result ≡ end_of (code_of self.now) s }
        ensures dead { self.now.is_dead ≡ true → result ≡ None }
    {
        if self.is_dead {
            return None;
        }
        if self.order.is_some() {
            return None;
        }
        self.coming.end
    }

    /// What comes next: how it has ended, if it has; whether a step begins it; and what it wants of a place. Nothing comes next of a dead
    /// process, nor while an order is out.
    #[inline(always)]
    pub fn coming(&self) -> Coming
        ensures end { (image : images.Image) (main : ℕ) (s : CodeState ⊤) → StandsFor image main self.now s → option_map end_view result.end ≡ end_of (code_of self.now) s }
        ensures step { (image : images.Image) (main : ℕ) (s : CodeState ⊤) → StandsFor image main self.now s → result.has_step ≡ begins_with_step (coming (code_next (code_of self.now) s)) }
        ensures wanted { (image : images.Image) (main : ℕ) (s : CodeState ⊤) → StandsFor image main self.now s → option_map want_view result.want ≡ option_and_then told ((nameless image main).wanted s) }
        ensures there { (image : images.Image) (main : ℕ) (s : CodeState ⊤) (w : CellWant ⊤) → StandsFor image main self.now s → (nameless image main).wanted s ≡ Some w → is_some result.want ≡ true }
        ensures dead { self.now.is_dead ≡ true → IsNothing result }
        ensures out { IsSome self.now.order → IsNothing result }
    {
        if self.is_dead {
            return NOTHING;
        }
        if self.order.is_some() {
            return NOTHING;
        }
        self.coming
    }

    /// Makes its local step, which is next.
    pub fn local_step(&mut self) -> Result<(), AllocError>
        requires unwanted { (image : images.Image) (main : ℕ) (s : CodeState ⊤) → IsAt image main self.old s → (nameless image main).wanted s ≡ None }
        requires goes_on { (image : images.Image) (main : ℕ) (s : CodeState ⊤) → IsAt image main self.old s → end_of (code_of self.old) s ≡ None }
        ensures step { OnOk result ((image : images.Image) (main : ℕ) (s : CodeState ⊤) → IsAt image main self.old s → Reaches image main self.new ((nameless image main).local_step s)) }
        ensures failed { IsErr result → self.new.is_dead ≡ true }
        ensures dead { self.old.is_dead ≡ true → IsErr result }
        ensures stays { self.old.is_dead ≡ true → self.new ≡ self.old }
    {
        if self.is_dead {
            return Err(AllocError);
        }
        self.is_dead = true;
        if is_full(&self.running) {
            return Err(AllocError);
        }
        sound_steps_are_made();
        let made = self.running.known_step(self.alloc, &self.code)?;
        if !made {
            unreachable!()
        }
        self.coming = self.running.coming(&self.code);
        self.is_dead = false;
        Ok(())
    }

    /// Takes out the letter that it wants to put.
    pub fn letter(&mut self) -> Result<Letter, AllocError>
        requires inside { IsInside self.old }
        requires put { (image : images.Image) (main : ℕ) (s : CodeState ⊤) → IsAt image main self.old s → IsPutWanted ((nameless image main).wanted s) }
        ensures letter { IfOk result (λ l. (image : images.Image) (main : ℕ) (s : CodeState ⊤) → IsAt image main self.old s → (port : ℕ) × ((nameless image main).wanted s ≡ Some (to_put port (value_view l)))) }
        ensures out { OnOk result ((image : images.Image) (main : ℕ) (s : CodeState ⊤) → IsAt image main self.old s → HasOut image main self.new s) }
        ensures failed { IsErr result → self.new.is_dead ≡ true }
        ensures dead { self.old.is_dead ≡ true → IsErr result }
        ensures stays { self.old.is_dead ≡ true → self.new ≡ self.old }
    {
        if self.is_dead {
            return Err(AllocError);
        }
        self.is_dead = true;
        let want = self.coming.want;
        let Some(message) = message_of(&mut self.running, self.alloc, &self.code)? else {
            unreachable!()
        };
        let Ok(letter) = Letter::of(self.alloc, message) else {
            return Err(AllocError);
        };
        self.order = want;
        self.is_front = false;
        self.is_dead = false;
        Ok(letter)
    }

    /// Takes out the reply that it wants to answer with, and its text twice.
    pub fn reply(&mut self) -> Result<(Reply, ReplyTrace, ReplyTrace), AllocError>
        requires inside { IsInside self.old }
        requires answer { (image : images.Image) (main : ℕ) (s : CodeState ⊤) → IsAt image main self.old s → IsAnswerWanted ((nameless image main).wanted s) }
        ensures reply { IfOk result (λ r. (image : images.Image) (main : ℕ) (s : CodeState ⊤) → IsAt image main self.old s → (caller call : ℕ) × ((nameless image main).wanted s ≡ Some (to_answer caller call (reply_view r.0)))) }
        ensures whole { IfOk result (λ r. IsWholeReply r.0) }
        ensures texts { IfOk result (λ r. (reply_trace_view r.1 ≡ map_reply texts_of (reply_view r.0)) × (reply_trace_view r.2 ≡ map_reply texts_of (reply_view r.0))) }
        ensures out { OnOk result ((image : images.Image) (main : ℕ) (s : CodeState ⊤) → IsAt image main self.old s → HasOut image main self.new s) }
        ensures failed { IsErr result → self.new.is_dead ≡ true }
        ensures dead { self.old.is_dead ≡ true → IsErr result }
        ensures stays { self.old.is_dead ≡ true → self.new ≡ self.old }
    {
        if self.is_dead {
            return Err(AllocError);
        }
        self.is_dead = true;
        let want = self.coming.want;
        let Some((reply, is_front)) = reply_of(&mut self.running, self.alloc, &self.code)? else {
            unreachable!()
        };
        let diary = reply_trace_of(self.alloc, &reply)?;
        let history = reply_trace_of(self.alloc, &reply)?;
        self.order = want;
        self.is_front = is_front;
        self.is_dead = false;
        Ok((reply, diary, history))
    }

    /// Whether what it got is what it waits for. It takes no memory.
    pub fn suits(&self, got: &Got) -> bool
        requires whole { IsWholeGot got.now }
        ensures suits { (image : images.Image) (main : ℕ) (s : CodeState ⊤) (at : ℕ) (a : CellAction ⊤) → IsAt image main self.now s → TellsGot got.now at a → (result ≡ true) ↔ Suits (nameless image main) s at a }
    {
        match got {
            Got::Port(_) => true,
            Got::Process(_) => true,
            Got::Placed { .. } => true,
            Got::Back { .. } => true,
            Got::Message { port, parcel } => {
                if self.gave_away() {
                    return false;
                }
                is_awaited(&self.running, &self.code, *port, &parcel.value)
            }
            Got::Left(_) => true,
            Got::Answered => true,
            Got::Heard { call, reply, .. } => {
                if self.gave_away() {
                    return false;
                }
                is_heard(&self.running, &self.code, *call, reply)
            }
        }
    }

    /// Whether an order is out with which something was given away.
    fn gave_away(&self) -> bool
        ensures out { result ≡ true → (image : images.Image) (main : ℕ) (s : CodeState ⊤) → IsAt image main self.now s → HoldsOrder (code_of self.now) self.now.held s }
        ensures inside { result ≡ false → (image : images.Image) (main : ℕ) (s : CodeState ⊤) → IsAt image main self.now s → StandsAt self.now.held s }
    {
        match self.order {
            Some(_) => !self.is_front,
            None => false,
        }
    }

    /// Goes on with what it got for what it wanted, up to its next piece.
    pub fn took(&mut self, got: Got) -> Result<(), AllocError>
        requires whole { IsWholeGot got }
        requires fits { Fits self.old got }
        requires suits { IsSuiting self.old got }
        requires ordered { IsOrdered self.old got }
        ensures answered { OnOk result ((image : images.Image) (main : ℕ) (s : CodeState ⊤) (w : CellWant ⊤) (at : ℕ) (a : CellAction ⊤) → IsAt image main self.old s → (nameless image main).wanted s ≡ Some w → Answers w a → TellsGot got at a → Reaches image main self.new ((nameless image main).answered s at a)) }
        ensures failed { IsErr result → self.new.is_dead ≡ true }
        ensures dead { self.old.is_dead ≡ true → IsErr result }
        ensures stays { self.old.is_dead ≡ true → self.new ≡ self.old }
    {
        if self.is_dead {
            return Err(AllocError);
        }
        self.is_dead = true;
        let goes = settle(
            &mut self.running,
            self.alloc,
            &self.code,
            self.is_front,
            got,
        )?;
        if !goes {
            unreachable!()
        }
        self.order = None;
        self.coming = self.running.coming(&self.code);
        self.is_dead = false;
        Ok(())
    }

    /// Counts one action more, where what it got is put aside. A dead process stays as it is.
    pub fn put_aside(&mut self)
        requires inside { IsInside self.old }
        requires few { self.old.held.frame.actions < u64.MAX }
        ensures aside { (image : images.Image) (main : ℕ) (s : CodeState ⊤) → IsAt image main self.old s → StandsFor image main self.new ((nameless image main).put_aside s) }
        ensures dead { self.new.is_dead ≡ self.old.is_dead }
        ensures stays { self.old.is_dead ≡ true → self.new ≡ self.old }
    {
        if self.is_dead {
            return;
        }
        count_aside(&mut self.running);
        self.coming = self.running.coming(&self.code);
    }

    /// How many steps and how many actions it has made. While the order of an action is out, its own are among them.
    pub fn counts(&self) -> (u64, u64)
        ensures counts { (image : images.Image) (main : ℕ) (s : CodeState ⊤) → StandsFor image main self.now s → (result.0 ≡ (nameless image main).steps s) × (result.1 ≡ (nameless image main).actions s) }
        ensures out { (image : images.Image) (main : ℕ) (s : CodeState ⊤) → HasOut image main self.now s → (result.0 ≡ (counted_out self.now.is_front (coming (code_next (code_of self.now) s)) s.frame).steps) × (result.1 ≡ (counted_out self.now.is_front (coming (code_next (code_of self.now) s)) s.frame).actions) }
        ensures held { (result.0 ≡ self.now.held.frame.steps) × (result.1 ≡ self.now.held.frame.actions) }
    {
        counted(&self.running)
    }

    /// How many cells it has made, how many it holds, and how many it has finalised, each cut at 2^63. While an order is out, those
    /// of what is left of it.
    pub fn cells(&self) -> (u64, u64, u64)
        ensures made { (image : images.Image) (main : ℕ) (s : CodeState ⊤) → StandsFor image main self.now s → result.0 ≡ cut ((nameless image main).serial s) }
        ensures held { (image : images.Image) (main : ℕ) (s : CodeState ⊤) → StandsFor image main self.now s → result.1 ≡ cut (held_by (λ n. 1) (nameless image main) s) }
        ensures finalised { (image : images.Image) (main : ℕ) (s : CodeState ⊤) → StandsFor image main self.now s → result.2 ≡ cut (length ((nameless image main).finalised s)) }
        ensures left { (b : frames.Frame ⊤) → Stands self.now.held.frame b → (result.0 ≡ cut b.serial) × (result.1 ≡ cut (weight_held (λ n. 1) b)) × (result.2 ≡ cut (length b.finalised)) }
    {
        counted_cells(&self.running)
    }
}
