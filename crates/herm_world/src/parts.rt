//! The parts of a world, and what one step of a process changes among them.
ghost use Rattle.std.specs.Prelude.{◌≡◌, ◌<◌, ◌≤◌, ℕ, List, IfOk, OnOk, length, option_map, ⊤};
ghost use Rattle.herm_system.specs.Machines.{local};
ghost use Rattle.herm_instructions.specs.Images as images;
ghost use Rattle.herm_code.specs.View.{image_view};
ghost use Rattle.herm_code_machine.specs.CodeStates.{CodeState};
ghost use Rattle.herm_machine.specs.Machines.{nameless};
ghost use Rattle.herm_process.specs.Processes.{IsProcess};
ghost use Rattle.herm_world.specs.Doing.{numbers_in};
ghost use Rattle.herm_world.specs.Orders.{made_view};
ghost use Rattle.herm_world.specs.Places.{places_of, ClocksFit, AreNumbered, AreOwned};
ghost use Rattle.herm_world.specs.Steps.{AreAlive, IsOf, CanAct, Acts, MadeLocal, MadeAction, Begins, BeginsMade, IsModule, LookedAt, LookedAtEach};
ghost use Rattle.herm_world.specs.Turns.{TurnsAs};

use crate::doing::{Made, do_order};
use crate::places::Places;
use crate::turns::{Turn, turn_of};
use crate::waits::look_again;
use herm_base::{Limits, ProcNo};
use herm_code::Image;
use herm_events::Stamp;
use herm_process::{Birth, Process};
use herm_ready::Ready;
use std::alloc::AllocError;

/// The processes of a world from process 1 on, its places, and who can step.
#[derive(Drop)]
pub struct Parts<'i> {
    pub processes: Vec<Process<'i>>,
    pub places: Places,
    pub ready: Ready,
}

/// An action that was done: the stamp of its entry, the process that it wakes, and the process that it made.
#[derive(Clone, Copy)]
pub struct Acted {
    pub stamp: Stamp,
    pub woken: Option<ProcNo>,
    pub made: Option<Made>,
}

/// An action of a process, which can be done now.
fn act_on(process: &mut Process, places: &mut Places, who: ProcNo) -> Result<Acted, AllocError>
    requires acts { CanAct process.old (places_of places.old) who.number }
    requires clocks { ClocksFit (places_of places.old) }
    requires numbered { AreNumbered (places_of places.old) }
    requires owned { AreOwned (places_of places.old) }
    ensures made { IfOk result (λ r. Acts who.number process.old process.new (places_of places.old) (places_of places.new) r.stamp.0 (numbers_in r.woken) (option_map made_view r.made)) }
{
    let clock = process.clock();
    let order = process.prepare()?;
    let done = do_order(process, places, who, clock, order)?;
    process.settle(done.got, done.stamp)?;
    Ok(Acted {
        stamp: done.stamp,
        woken: done.woken,
        made: done.made,
    })
}

impl<'i> Parts<'i> {
    /// What the process of this number does at its turn.
    pub fn turn(&self, who: ProcNo) -> Turn
        requires from_one { 1 ≤ who.number }
        requires there { who.number ≤ length self.now.processes.items }
        requires alive { AreAlive self.now.processes.items }
        ensures turn { IsOf who.number self.now.processes.items (λ process. TurnsAs result process (places_of self.now.places) who.number) }
    {
        turn_of(&self.processes[who.number as usize - 1], &self.places, who)
    }

    /// Makes the local step of the process of this number, which is next, and looks at it again.
    pub fn step_locally(&mut self, who: ProcNo) -> Result<(), AllocError>
        requires from_one { 1 ≤ who.number }
        requires there { who.number ≤ length self.old.processes.items }
        requires alive { AreAlive self.old.processes.items }
        requires room { length self.old.processes.items ≤ self.old.ready.limit }
        requires next { IsOf who.number self.old.processes.items (λ process. (image : images.Image) (main : ℕ) (x : CodeState ⊤) → IsProcess image main process x → (nameless image main).ready process.limit x ≡ local) }
        ensures made { OnOk result (MadeLocal who.number self.old.processes.items self.new.processes.items) }
        ensures limit { self.new.ready.limit ≡ self.old.ready.limit }
        ensures looked { OnOk result (LookedAt who.number self.new.processes.items (places_of self.old.places) self.old.ready.members (places_of self.new.places) self.new.ready.members) }
    {
        let process = &mut self.processes[who.number as usize - 1];
        process.local()?;
        look_again(process, &mut self.places, &mut self.ready, who)?;
        Ok(())
    }

    /// Makes the action of the process of this number, which is next and can be done now.
    pub fn act(&mut self, who: ProcNo) -> Result<Acted, AllocError>
        requires from_one { 1 ≤ who.number }
        requires there { who.number ≤ length self.old.processes.items }
        requires acts { IsOf who.number self.old.processes.items (λ process. CanAct process (places_of self.old.places) who.number) }
        requires clocks { ClocksFit (places_of self.old.places) }
        requires numbered { AreNumbered (places_of self.old.places) }
        requires owned { AreOwned (places_of self.old.places) }
        ensures made { IfOk result (λ r. MadeAction who.number self.old.processes.items self.new.processes.items (places_of self.old.places) (places_of self.new.places) r.stamp.0 (numbers_in r.woken) (option_map made_view r.made)) }
        ensures ready { self.new.ready ≡ self.old.ready }
    {
        let acted = act_on(
            &mut self.processes[who.number as usize - 1],
            &mut self.places,
            who,
        )?;
        Ok(acted)
    }

    /// Begins the process that an action has made, if it made one, behind the others.
    pub fn begin_made(
        &mut self,
        image: &'i Image,
        limits: &Limits,
        maker: ProcNo,
        stamp: Stamp,
        made: Option<Made>,
    ) -> Result<(), AllocError>
        requires there { IsModule (length image.now.modules) (option_map made_view made) }
        ensures begins { OnOk result (BeginsMade (image_view image.now) limits.now.steps maker stamp (option_map made_view made) self.old.processes.items self.new.processes.items) }
        ensures places { self.new.places ≡ self.old.places }
        ensures ready { self.new.ready ≡ self.old.ready }
    {
        match made {
            Some(made) => {
                self.begin_one(image, limits, maker, stamp, made)?;
                return Ok(());
            }
            None => return Ok(()),
        }
    }

    /// Begins a process that an action has made, behind the others.
    fn begin_one(
        &mut self,
        image: &'i Image,
        limits: &Limits,
        maker: ProcNo,
        stamp: Stamp,
        made: Made,
    ) -> Result<(), AllocError>
        requires there { made.module < length image.now.modules }
        ensures begins { OnOk result (Begins (image_view image.now) limits.now.steps maker stamp made.module made.number.number made.port.number self.old.processes.items self.new.processes.items) }
        ensures places { self.new.places ≡ self.old.places }
        ensures ready { self.new.ready ≡ self.old.ready }
    {
        let alloc = *self.processes.allocator();
        let birth = Birth { maker, stamp };
        let process = Process::begin(
            alloc,
            made.number,
            image,
            made.module,
            made.port,
            birth,
            limits,
        )?;
        self.processes.push(process)?;
        Ok(())
    }

    /// Looks again at the process of this number: it is kept exactly where it can step, and noted at each port at which it waits. Where
    /// there is no such process it is not kept.
    pub fn look_at(&mut self, who: ProcNo) -> Result<(), AllocError>
        requires alive { AreAlive self.old.processes.items }
        requires room { length self.old.processes.items ≤ self.old.ready.limit }
        ensures processes { self.new.processes.items ≡ self.old.processes.items }
        ensures limit { self.new.ready.limit ≡ self.old.ready.limit }
        ensures looked { OnOk result (LookedAt who.number self.old.processes.items (places_of self.old.places) self.old.ready.members (places_of self.new.places) self.new.ready.members) }
    {
        let n = who.number as usize;
        if n < 1 || n > self.processes.len() {
            self.ready.remove(who.number);
            return Ok(());
        }
        look_again(
            &self.processes[n - 1],
            &mut self.places,
            &mut self.ready,
            who,
        )?;
        Ok(())
    }

    /// Looks again at a process that was woken, if one was.
    pub fn look_at_woken(&mut self, woken: Option<ProcNo>) -> Result<(), AllocError>
        requires alive { AreAlive self.old.processes.items }
        requires room { length self.old.processes.items ≤ self.old.ready.limit }
        ensures processes { self.new.processes.items ≡ self.old.processes.items }
        ensures limit { self.new.ready.limit ≡ self.old.ready.limit }
        ensures looked { OnOk result (LookedAtEach (numbers_in woken) self.old.processes.items (places_of self.old.places) self.old.ready.members (places_of self.new.places) self.new.ready.members) }
    {
        match woken {
            Some(who) => {
                self.look_at(who)?;
                return Ok(());
            }
            None => return Ok(()),
        }
    }
}
