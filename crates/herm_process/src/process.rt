//! One process of an image, with its diary.
ghost use Rattle.std.specs.Prelude.{◌≡◌, ◌<◌, ◌≤◌, ℕ, List, [], Some, None, true, false, IfOk, IsErr, IsSome, OnOk, length, slice_get, ⊤};
ghost use Rattle.herm_journal.specs.Messages.{CellWant};
ghost use Rattle.herm_system.specs.Ledger.{held_by};
ghost use Rattle.herm_system.specs.Machines.{acting, local};
ghost use Rattle.herm_system.specs.Summary.{cut};
ghost use Rattle.herm_instructions.specs.Images as images;
ghost use Rattle.herm_code.specs.View.{image_view};
ghost use Rattle.herm_code_machine.specs.CodeStates.{CodeState};
ghost use Rattle.herm_values.specs.View.{leaf};
ghost use Rattle.herm_model.specs.Values.{an_inport};
ghost use Rattle.herm_machine.specs.Gots.{FitsWant, IsWholeGot};
ghost use Rattle.herm_machine.specs.Machines.{IsTakeWanted, nameless};
ghost use Rattle.herm_journal.specs.Actions.{to_take};
ghost use Rattle.herm_process.specs.Entries.{IsOrderOf, IsWholeOrder, may_be_dropped};
ghost use Rattle.herm_process.specs.Nexts.{IsNext};
ghost use Rattle.herm_process.specs.declared.next.Next.TheVariants as nexts;
ghost use Rattle.herm_process.specs.Sums.{AreSums, sums_in};
ghost use Rattle.herm_process.specs.Processes.{Comes, FitsProcess, IsKept, IsProcess, IsSettled};

use crate::birth::Birth;
use crate::next::{Next, next_action, next_of};
use crate::ordered::{Ordered, Sums, remembered, sums_of};
use crate::ordering::order_of;
use crate::settling::{entry_of, take_in};
use crate::stepping::make_step;
use herm_base::{Limits, PortNo, ProcNo};
use herm_code::Image;
use herm_events::{Diary, Entry, Stamp};
use herm_machine::{Got, Machine, Order};
use std::alloc::{AllocError, Global};
use std::marker::Model;

/// One process of an image with its number, its clock, its diary and its limit of steps. If no call has failed it stands for the
/// state that is behind its diary; while an order is out, for the state before. Every stamp of its diary is above its birth's.
#[derive(Drop)]
pub struct Process<'i> {
    machine: Machine<'i>,
    number: ProcNo,
    module_number: u32,
    first: PortNo,
    birth: Birth,
    limit: u32,
    clock: Stamp,
    diary: Diary,
    ordered: Option<Ordered>,
    is_dead: bool,
}

impl<'i> Model for Process<'i> {
    ghost use Rattle.std.specs.Coded.{codes};
    ghost use Rattle.herm_values.specs.contracts.value.Value as held;
    ghost use Rattle.herm_values.specs.contracts.work.WorkItem as item;
    ghost use Rattle.herm_process.specs.Kept.{AreKept, process_state};
    ghost use Rattle.herm_process.specs.Sums.{AreSums};
    ghost use Rattle.herm_process.specs.Processes.{ProcessState};

    ghost Value = { ProcessState };

    ghost coded = { Prim.hlevel (codes, held.the_row.coded, item.the_row.coded) };

    ghost view = { λ p. process_state p.machine p.number p.module_number p.first p.birth p.limit p.clock p.diary p.ordered p.is_dead };

    ghost invariant = { λ p. AreKept p.machine p.number p.module_number p.first p.birth p.limit p.clock p.diary p.ordered p.is_dead };
}

impl<'i> Process<'i> {
    /// The process with this number begins, of the process module with this number, with the inport of its first port. Its
    /// diary is empty, and its clock is at the stamp of its birth.
    pub fn begin(
        alloc: Global,
        number: ProcNo,
        image: &'i Image,
        module_number: u32,
        first: PortNo,
        birth: Birth,
        limits: &Limits,
    ) -> Result<Process<'i>, AllocError>
        requires there { module_number < length image.now.modules }
        ensures begins { IfOk result (λ p. (main : ℕ) → Comes (image_view image.now) main p ((nameless (image_view image.now) main).begin module_number number.number (leaf (an_inport first.number)))) }
        ensures parts { IfOk result (λ p. p ≡ record { machine = p.machine; number = number.number; module_number = module_number; first = first.number; birth = birth; limit = limits.now.steps; clock = birth.stamp.0; diary = []; ordered = None; is_dead = false }) }
    {
        let machine = Machine::begin(alloc, number, image, module_number, first)?;
        Ok(Process {
            machine,
            number,
            module_number,
            first,
            birth,
            limit: limits.steps() as u32,
            clock: birth.stamp,
            diary: Diary::new(alloc, number),
            ordered: None,
            is_dead: false,
        })
    }

    /// Its number.
    pub fn number(&self) -> ProcNo
        ensures number { result.number ≡ self.now.number }
    {
        self.number
    }

    /// The number of its process module.
    pub fn module(&self) -> u32
        ensures number { result ≡ self.now.module_number }
    {
        self.module_number
    }

    /// The port whose inport it began with.
    pub fn first(&self) -> PortNo
        ensures port { result.number ≡ self.now.first }
    {
        self.first
    }

    /// Which process made it, and in which entry.
    pub fn birth(&self) -> Birth
        ensures birth { result ≡ self.now.birth }
    {
        self.birth
    }

    /// Its clock: the stamp of the last entry of its diary, or of its birth.
    pub fn clock(&self) -> Stamp
        ensures clock { result.0 ≡ self.now.clock }
        ensures kept { IsKept self.now }
    {
        self.clock
    }

    /// Its diary, each stamp of which is above that of its birth, and behind which it stands.
    pub fn diary(&self) -> &Diary
        ensures process { result.now.process ≡ self.now.number }
        ensures entries { result.now.entries ≡ self.now.diary }
        ensures kept { IsKept self.now }
    {
        &self.diary
    }

    /// Its diary alone.
    pub fn into_diary(self) -> Diary
        ensures process { result.process ≡ self.entry.number }
        ensures entries { result.entries ≡ self.entry.diary }
        ensures kept { IsKept self.entry }
    {
        self.diary
    }

    /// What comes next, also while its order is out: then the action of the order. A dead process has a local step next.
    #[inline(always)]
    pub fn next(&self) -> Next
        ensures next { (image : images.Image) (main : ℕ) (x : CodeState ⊤) → IsProcess image main self.now x → IsNext (nameless image main) self.now.limit x result }
        ensures dead { self.now.is_dead ≡ true → result ≡ nexts.Local }
    {
        if self.is_dead {
            return Next::Local;
        }
        match &self.ordered {
            Some(_) => next_action(&self.machine),
            None => next_of(&self.machine, self.limit),
        }
    }

    /// The port at this place among those from which it wants to take a message.
    pub fn look(&self, place: usize) -> PortNo
        requires alive { self.now.is_dead ≡ false }
        requires take { (image : images.Image) (main : ℕ) (x : CodeState ⊤) → IsProcess image main self.now x → IsTakeWanted place ((nameless image main).wanted x) }
        ensures port { (image : images.Image) (main : ℕ) (x : CodeState ⊤) (ports : List ℕ) → IsProcess image main self.now x → (nameless image main).wanted x ≡ Some (to_take ports) → slice_get ports place ≡ Some result.number }
    {
        let _want = self.machine.wants();
        self.machine.look(place)
    }

    /// Makes its local step, which is next.
    pub fn local(&mut self) -> Result<(), AllocError>
        requires next { (image : images.Image) (main : ℕ) (x : CodeState ⊤) → IsProcess image main self.old x → (nameless image main).ready self.old.limit x ≡ local }
        ensures step { OnOk result ((image : images.Image) (main : ℕ) (x : CodeState ⊤) → IsProcess image main self.old x → Comes image main self.new ((nameless image main).local_step x)) }
        ensures same { OnOk result (self.new ≡ record self.old { machine = self.new.machine }) }
        ensures failed { IsErr result → self.new ≡ record self.old { machine = self.new.machine; is_dead = true } }
        ensures dead { self.old.is_dead ≡ true → IsErr result }
        ensures stays { self.old.is_dead ≡ true → self.new ≡ self.old }
    {
        if self.is_dead {
            return Err(AllocError);
        }
        self.is_dead = true;
        make_step(&mut self.machine)?;
        self.is_dead = false;
        Ok(())
    }

    /// Gives the order of its action, which is next, and takes the memory of its entry. The order is out then: the process still
    /// stands for the state before. An order for a message or a reply that comes in may be dropped, and another prepared.
    pub fn prepare(&mut self) -> Result<Order, AllocError>
        requires next { (image : images.Image) (main : ℕ) (x : CodeState ⊤) → IsProcess image main self.old x → (nameless image main).ready self.old.limit x ≡ acting }
        requires free { may_be_dropped self.old.ordered ≡ true }
        ensures order { IfOk result (λ o. (image : images.Image) (main : ℕ) (x : CodeState ⊤) → IsProcess image main self.old x → (w : CellWant ⊤) × ((nameless image main).wanted x ≡ Some w) × IsOrderOf o w) }
        ensures whole { IfOk result IsWholeOrder }
        ensures out { OnOk result ((image : images.Image) (main : ℕ) (x : CodeState ⊤) → IsProcess image main self.old x → IsProcess image main self.new x) }
        ensures is_out { OnOk result (IsSome self.new.ordered) }
        ensures same { OnOk result (self.new ≡ record self.old { machine = self.new.machine; ordered = self.new.ordered }) }
        ensures failed { IsErr result → self.new ≡ record self.old { machine = self.new.machine; is_dead = true } }
        ensures dead { self.old.is_dead ≡ true → IsErr result }
        ensures stays { self.old.is_dead ≡ true → self.new ≡ self.old }
    {
        if self.is_dead {
            return Err(AllocError);
        }
        self.is_dead = true;
        self.diary.reserve()?;
        let order = order_of(&mut self.machine, &mut self.ordered)?;
        self.is_dead = false;
        Ok(order)
    }

    /// Goes on with what it got for the order that is out, up to its next piece, with an entry of this stamp; what does not suit
    /// it is put aside. Then no order is out. Where memory is wanted there is no entry, and the order stays.
    pub fn settle(&mut self, got: Got, stamp: Stamp) -> Result<(), AllocError>
        requires out { IsSome self.old.ordered }
        requires whole { IsWholeGot got }
        requires fits { FitsProcess self.old got }
        requires later { self.old.clock < stamp.0 }
        ensures settled { OnOk result ((image : images.Image) (main : ℕ) (x : CodeState ⊤) (w : CellWant ⊤) → IsProcess image main self.old x → (nameless image main).wanted x ≡ Some w → FitsWant got w → IsSettled image main self.old self.new x got w stamp.0) }
        ensures same { OnOk result (self.new ≡ record self.old { machine = self.new.machine; clock = stamp.0; diary = self.new.diary; ordered = None }) }
        ensures failed { IsErr result → self.new ≡ record self.old { machine = self.new.machine; is_dead = true } }
        ensures dead { self.old.is_dead ≡ true → IsErr result }
        ensures stays { self.old.is_dead ≡ true → self.new ≡ self.old }
    {
        if self.is_dead {
            return Err(AllocError);
        }
        self.is_dead = true;
        let (place, action) = entry_of(self.number, &self.ordered, &got)?;
        take_in(&mut self.machine, got)?;
        self.ordered = None;
        self.diary.push(Entry {
            stamp,
            proc: self.number,
            place,
            action,
        });
        self.clock = stamp;
        self.is_dead = false;
        Ok(())
    }

    /// How many steps and how many actions it has made; while an order is out, before it.
    pub fn counts(&self) -> (u32, u32)
        ensures counts { (image : images.Image) (main : ℕ) (x : CodeState ⊤) → IsProcess image main self.now x → (result.0 ≡ (nameless image main).steps x) × (result.1 ≡ (nameless image main).actions x) }
    {
        let sums = self.sums();
        (
            sums.steps.min(u32::MAX as u64) as u32,
            sums.actions.min(u32::MAX as u64) as u32,
        )
    }

    /// How many cells it has made, how many it holds, and how many it has finalised, each cut at 2^63, while no message and no reply is
    /// out.
    pub fn cells(&self) -> (u64, u64, u64)
        requires whole { sums_in self.now.ordered ≡ None }
        ensures made { (image : images.Image) (main : ℕ) (x : CodeState ⊤) → IsProcess image main self.now x → result.0 ≡ cut ((nameless image main).serial x) }
        ensures held { (image : images.Image) (main : ℕ) (x : CodeState ⊤) → IsProcess image main self.now x → result.1 ≡ cut (held_by (λ n. 1) (nameless image main) x) }
        ensures finalised { (image : images.Image) (main : ℕ) (x : CodeState ⊤) → IsProcess image main self.now x → result.2 ≡ cut (length ((nameless image main).finalised x)) }
    {
        let cells = self.machine.cells();
        cells
    }

    /// Its sums; while an order is out, those from before it.
    fn sums(&self) -> Sums
        ensures sums { (image : images.Image) (main : ℕ) (x : CodeState ⊤) → IsProcess image main self.now x → AreSums (nameless image main) x result }
        ensures few { self.now.limit ≤ 1000000 }
    {
        match remembered(&self.ordered) {
            Some(sums) => sums,
            None => sums_of(&self.machine),
        }
    }
}
