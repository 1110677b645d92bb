//! The whole system of processes on one thread.
ghost use Rattle.std.specs.Prelude.{◌≡◌, ◌≤◌, ◌↔◌, ℕ, List, [], Some, true, false, IfOk, IfSome, IsErr, OnOk, IsTrue, length, ⊤};
ghost use Rattle.herm_model.specs.Typed.{is_text};
ghost use Rattle.herm_model.specs.TypedPrograms.{main_start};
ghost use Rattle.herm_journal.specs.Entries.{Text};
ghost use Rattle.herm_journal.specs.NextNumbers as limits_of;
ghost use Rattle.herm_system.specs.Systems.{Event};
ghost use Rattle.herm_instructions.specs.Images as images;
ghost use Rattle.herm_code.specs.View.{image_view};
ghost use Rattle.herm_code_machine.specs.CodeStates.{CodeState};
ghost use Rattle.herm_code_machine.specs.CodeTypes.{first_type};
ghost use Rattle.herm_code_machine.specs.ReadyCode.{labelled_image};
ghost use Rattle.herm_waking.specs.KeptRounds.{Worked, first_worked};
ghost use Rattle.herm_waking.specs.Numbers.{has, next_from as first_from};
ghost use Rattle.herm_waking.specs.Unnamed.{bare_can_step, bare_standing};
ghost use Rattle.herm_waking.specs.UnnamedRounds.{BareWorked, bare_first};
ghost use Rattle.herm_model.specs.Values.{Name};
ghost use Rattle.herm_journal.specs.Journals.{ordered};
ghost use Rattle.herm_waking.specs.UnnamedReport.{bare_fates, bare_queues, bare_counts};
ghost use Rattle.herm_report.specs.View.{proc_ends_view, numbered_queues, counts_view};
ghost use Rattle.herm_code_worlds.specs.CodeWorlds.{named, nameless};
ghost use Rattle.herm_queue.specs.BookStates.{limits_view};
ghost use Rattle.herm_world.specs.Worlds.{ShowsRun, MakesNext, Leads, LeadsAlong, LeadsToEnd, IsWorld, IsStanding, changes_nothing, IsOfSame};
ghost use Rattle.herm_world.specs.Steps.{IsOf};
ghost use Rattle.herm_world.specs.Turns.{TurnsAs};
ghost use Rattle.herm_world.specs.declared.turns.Turn.TheVariants.{Local, Act};
ghost use Rattle.herm_world.specs.declared.world.WorldStep.TheVariants.{Memory};

use crate::beginning::{first_parts, works};
use crate::parts::Parts;
use crate::reports::report_of;
use crate::rounds::{go_along, go_rounds};
use crate::turns::Turn;
use herm_base::{Limits, ProcNo};
use herm_code::Image;
use herm_report::Report;
use std::alloc::{AllocError, Global};
use std::marker::Model;

/// What the step of a process comes to: it made its next event; it waits, has ended or has reached a limit, and nothing changed; or
/// memory was wanted, and the world is dead.
#[derive(Clone, Copy, Debug, PartialEq, Eq)]
pub enum WorldStep {
    Stepped,
    Waiting,
    Ended,
    Stopped,
    Memory,
}

/// A run of an image: its processes from process 1 on, its places, and who can step. Contracts see the runs of the language that it
/// shows. After a call for which memory was wanting it is dead, and shows none.
#[derive(Drop)]
pub struct World<'i> {
    image: &'i Image,
    main: u32,
    limits: Limits,
    parts: Parts<'i>,
    is_dead: bool,
}

impl<'i> Model for World<'i> {
    ghost use Rattle.std.specs.Coded.{codes};
    ghost use Rattle.herm_values.specs.contracts.value.Value as held;
    ghost use Rattle.herm_values.specs.contracts.work.WorkItem as item;
    ghost use Rattle.herm_letters.specs.contracts.reply.Reply as reply;
    ghost use Rattle.herm_queue.specs.BookStates.{limits_view};
    ghost use Rattle.herm_world.specs.Kept.{world_of, IsKeptWorld};
    ghost use Rattle.herm_world.specs.Worlds.{WorldState};

    ghost Value = { WorldState };

    ghost coded = { Prim.hlevel (codes, held.the_row.coded, item.the_row.coded, reply.the_row.coded) };

    ghost view = { λ w. world_of w.image.now w.main w.parts w.is_dead };

    ghost invariant = { λ w. IsKeptWorld (limits_view w.limits) (world_of w.image.now w.main w.parts w.is_dead) };
}

impl<'i> World<'i> {
    /// The world of an image as it begins, with a process of main at port 1, where a message with the argument waits.
    pub fn begin(
        alloc: Global,
        image: &'i Image,
        main: u32,
        limits: Limits,
        arg: &[u8],
    ) -> Result<World<'i>, AllocError>
        requires main { first_type (labelled_image (image_view image.now) main) main ≡ Some main_start }
        requires text { IsTrue (is_text arg.now) }
        ensures image { IfOk result (λ w. (w.image ≡ image_view image.now)) }
        ensures main { IfOk result (λ w. (w.main ≡ main)) }
        ensures begins { IfOk result (λ w. ShowsRun (limits_view limits) arg.now [] (first_worked (named (image_view image.now) main) (limits_view limits) arg.now) (bare_first (nameless (image_view image.now) main) main (limits_view limits) arg.now) w) }
    {
        works(image, main);
        let parts = first_parts(alloc, image, main, &limits, arg)?;
        Ok(World {
            image,
            main,
            limits,
            parts,
            is_dead: false,
        })
    }

    /// Whether the process of this number can step: exactly where it can in each run that the world shows.
    pub fn can_step(&self, p: u32) -> bool
        ensures kept { result ≡ has p self.now.ready.members }
        ensures exact { (limits : limits_of.Limits) (argument : Text) (events : List Event) (w : Worked (CodeState Name)) (b : BareWorked (CodeState ⊤)) → ShowsRun limits argument events w b self.now → result ≡ bare_can_step (nameless self.now.image self.now.main) b.system p }
    {
        self.parts.ready.contains(p)
    }

    /// What every world keeps: if it is not dead, it shows a run. Nothing is done.
    pub(crate) fn keeps(&self)
        ensures kept { self.now.is_dead ≡ false → IsWorld self.now }
    {
        let _dead = self.is_dead;
    }

    /// Whether a process of this number was made, as is asked of that of a step.
    pub fn is_made(&self, p: u32) -> bool
        ensures made { (result ≡ true) ↔ ((1 ≤ p) × (p ≤ length self.now.processes)) }
    {
        p >= 1 && p as usize <= self.parts.processes.len()
    }

    /// The first process from this number on that can step.
    pub(crate) fn next_from(&self, from: u32) -> Option<u32>
        requires alive { self.now.is_dead ≡ false }
        ensures first { result ≡ first_from from self.now.ready.members }
        ensures few { IfSome result (λ p. p ≤ 1024) }
    {
        self.parts.ready.next_from(from)
    }

    /// Whether no process can step, as is asked of a world that is reported.
    pub fn is_over(&self) -> bool
        ensures over { (result ≡ true) ↔ (self.now.ready.members ≡ []) }
    {
        self.parts.ready.is_empty()
    }

    /// The step of a process that was made: its next event, if it can step.
    pub fn step(&mut self, p: u32) -> WorldStep
        requires from_one { 1 ≤ p }
        requires made { p ≤ length self.old.processes }
        ensures stands { (limits : limits_of.Limits) (argument : Text) (events : List Event) (w : Worked (CodeState Name)) (b : BareWorked (CodeState ⊤)) → ShowsRun limits argument events w b self.old → IsStanding result (bare_standing (nameless self.old.image self.old.main) b.system p) }
        ensures stepped { (limits : limits_of.Limits) (argument : Text) (events : List Event) (w : Worked (CodeState Name)) (b : BareWorked (CodeState ⊤)) → ShowsRun limits argument events w b self.old → Leads result limits argument events b p self.old self.new }
        ensures stays { changes_nothing result ≡ true → self.new ≡ self.old }
        ensures memory { result ≡ Memory → self.new.is_dead ≡ true }
        ensures dead { self.old.is_dead ≡ true → result ≡ Memory }
        ensures same { IsOfSame self.old self.new }
    {
        if self.is_dead {
            return WorldStep::Memory;
        }
        let who = ProcNo { number: p };
        match self.parts.turn(who) {
            Turn::Local => match self.make_local(who) {
                Ok(()) => return WorldStep::Stepped,
                Err(_) => return WorldStep::Memory,
            },
            Turn::Act => match self.make_action(who) {
                Ok(()) => return WorldStep::Stepped,
                Err(_) => return WorldStep::Memory,
            },
            Turn::Waiting => return WorldStep::Waiting,
            Turn::Ended => return WorldStep::Ended,
            Turn::Stopped => return WorldStep::Stopped,
        }
    }

    /// Makes the local step of the process of this number, which is next.
    fn make_local(&mut self, who: ProcNo) -> Result<(), AllocError>
        requires alive { self.old.is_dead ≡ false }
        requires from_one { 1 ≤ who.number }
        requires made { who.number ≤ length self.old.processes }
        requires turn { IsOf who.number self.old.processes (λ process. TurnsAs Local process self.old.places who.number) }
        ensures leads { OnOk result ((limits : limits_of.Limits) (argument : Text) (events : List Event) (w : Worked (CodeState Name)) (b : BareWorked (CodeState ⊤)) → ShowsRun limits argument events w b self.old → MakesNext limits argument events b who.number self.old self.new) }
        ensures same { IsOfSame self.old self.new }
        ensures failed { IsErr result → self.new.is_dead ≡ true }
    {
        self.is_dead = true;
        self.parts.step_locally(who)?;
        self.is_dead = false;
        Ok(())
    }

    /// Makes the action of the process of this number, which is next and can be done now.
    fn make_action(&mut self, who: ProcNo) -> Result<(), AllocError>
        requires alive { self.old.is_dead ≡ false }
        requires from_one { 1 ≤ who.number }
        requires made { who.number ≤ length self.old.processes }
        requires turn { IsOf who.number self.old.processes (λ process. TurnsAs Act process self.old.places who.number) }
        ensures leads { OnOk result ((limits : limits_of.Limits) (argument : Text) (events : List Event) (w : Worked (CodeState Name)) (b : BareWorked (CodeState ⊤)) → ShowsRun limits argument events w b self.old → MakesNext limits argument events b who.number self.old self.new) }
        ensures same { IsOfSame self.old self.new }
        ensures failed { IsErr result → self.new.is_dead ≡ true }
    {
        self.is_dead = true;
        let acted = self.parts.act(who)?;
        self.parts
            .begin_made(self.image, &self.limits, who, acted.stamp, acted.made)?;
        self.parts.look_at(who)?;
        self.parts.look_at_woken(acted.woken)?;
        self.is_dead = false;
        Ok(())
    }

    /// The steps of the processes of these numbers in order. Numbers of processes that are not made, or cannot step then, are passed
    /// over.
    pub fn run(&mut self, schedule: &[u32]) -> Result<(), AllocError>
        ensures along { OnOk result ((limits : limits_of.Limits) (argument : Text) (events : List Event) (w : Worked (CodeState Name)) (b : BareWorked (CodeState ⊤)) → ShowsRun limits argument events w b self.old → LeadsAlong schedule.now limits argument events w b self.old self.new) }
        ensures failed { IsErr result → self.new.is_dead ≡ true }
        ensures dead { self.old.is_dead ≡ true → IsErr result }
        ensures same { IsOfSame self.old self.new }
    {
        if self.is_dead {
            return Err(AllocError);
        }
        go_along(self, schedule)?;
        Ok(())
    }

    /// Rounds over the processes that can step, until none can.
    pub fn rounds(&mut self) -> Result<(), AllocError>
        ensures ends { OnOk result ((limits : limits_of.Limits) (argument : Text) (events : List Event) (w : Worked (CodeState Name)) (b : BareWorked (CodeState ⊤)) → ShowsRun limits argument events w b self.old → LeadsToEnd limits argument events w b self.old self.new) }
        ensures nobody { OnOk result (self.new.ready.members ≡ []) }
        ensures failed { IsErr result → self.new.is_dead ≡ true }
        ensures dead { self.old.is_dead ≡ true → IsErr result }
        ensures same { IsOfSame self.old self.new }
    {
        if self.is_dead {
            return Err(AllocError);
        }
        go_rounds(self)?;
        Ok(())
    }

    /// What is reported of the run, where no process can step: its journal by stamp and then by process, what became of each process, what
    /// is queued at each port, and its numbers. A dead world has none.
    pub fn report(self, alloc: Global) -> Result<Report, AllocError>
        requires nobody { self.is_dead ≡ false → self.ready.members ≡ [] }
        ensures journal { IfOk result (λ r. (limits : limits_of.Limits) (argument : Text) (events : List Event) (w : Worked (CodeState Name)) (b : BareWorked (CodeState ⊤)) → ShowsRun limits argument events w b self.entry → r.journal ≡ ordered w.run.journal) }
        ensures ends { IfOk result (λ r. (limits : limits_of.Limits) (argument : Text) (events : List Event) (w : Worked (CodeState Name)) (b : BareWorked (CodeState ⊤)) → ShowsRun limits argument events w b self.entry → proc_ends_view r.ends.items ≡ bare_fates (nameless self.entry.image self.entry.main) b.system) }
        ensures queued { IfOk result (λ r. (limits : limits_of.Limits) (argument : Text) (events : List Event) (w : Worked (CodeState Name)) (b : BareWorked (CodeState ⊤)) → ShowsRun limits argument events w b self.entry → numbered_queues r.queued.items ≡ bare_queues b.system) }
        ensures counts { IfOk result (λ r. (limits : limits_of.Limits) (argument : Text) (events : List Event) (w : Worked (CodeState Name)) (b : BareWorked (CodeState ⊤)) → ShowsRun limits argument events w b self.entry → counts_view r.counts ≡ bare_counts (nameless self.entry.image self.entry.main) b.system) }
        ensures dead { self.entry.is_dead ≡ true → IsErr result }
    {
        if self.is_dead {
            return Err(AllocError);
        }
        let report = report_of(alloc, self.parts)?;
        Ok(report)
    }
}
