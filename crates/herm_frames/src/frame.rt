//! What a process holds but its position, and the few ways in which it changes.
ghost use Rattle.std.specs.Prelude.{◌≡◌, ◌<◌, ◌+◌, ◌∷◌, ◌++◌, [], map, suc, length, slice_get, true, Some, None, Option, IfSome, IfNone, IfOk, IfErr, OnOk, OnErr, IsErr, IsTrue, IsFalse, option_map, option_to_list, ⊤, ℕ};
ghost use Rattle.herm_model.specs.Finalising.{pending};
ghost use Rattle.herm_model.specs.CellNames.{count};
ghost use Rattle.herm_model.specs.Outcomes as model;
ghost use Rattle.herm_model.specs.Values.{cell_at, read_at, clear_at, put_at, has_place};
ghost use Rattle.herm_forms.specs.Frames as frames;
ghost use Rattle.herm_forms.specs.Frames.{cleared, counted_action, counted_step, drop_at, finalise, finalise_name, putting};
ghost use Rattle.herm_types.specs.View.{path_view};
ghost use Rattle.herm_values.specs.Keyed.{keyed_view};
ghost use Rattle.herm_values.specs.View.{value_view};
ghost use Rattle.herm_values.specs.Whole.{IsWhole};
ghost use Rattle.herm_values.specs.Works.{item_view};
ghost use Rattle.herm_places.specs.Held.{keyed_places, seen_places};
ghost use Rattle.herm_frames.specs.Completed.{outcome_view, Completes};
ghost use Rattle.herm_frames.specs.KeyedBehind.{LeavesKeyed};
ghost use Rattle.herm_frames.specs.Standing.{Stands};
ghost use Rattle.herm_frames.specs.Waiting.{Waits};

use crate::counts::{count_of, let_go, sum};
use crate::loops::Loop;
use crate::outcome::Outcome;
use herm_base::ProcNo;
use herm_places::Variables;
use herm_types::Path;
use herm_values::{Value, Work, WorkItem};
use std::alloc::{AllocError, Global};
use std::marker::Model;

/// What a process holds but its position: its number, its variables, the rows that its loops have yet to visit, innermost
/// last, its work list, its open call, and its counts. Contracts see it as such a record, the loops innermost first; each value in it is whole.
#[derive(Drop)]
pub struct Frame {
    pub(crate) number: ProcNo,
    pub(crate) variables: Variables,
    pub(crate) loops: Vec<Loop>,
    pub(crate) work: Work,
    pub(crate) call: Option<u64>,
    pub(crate) calls: u64,
    pub(crate) steps: u64,
    pub(crate) actions: u64,
    pub(crate) made: u64,
    pub(crate) finalised: u64,
}

impl Model for Frame {
    ghost use Rattle.std.specs.Prelude.{reverse};
    ghost use Rattle.std.specs.Coded.{codes};
    ghost use Rattle.herm_values.specs.contracts.value.Value as held;
    ghost use Rattle.herm_values.specs.contracts.work.WorkItem as item;
    ghost use Rattle.herm_frames.specs.HeldFrames.{HeldFrame, items_of};

    ghost Value = { HeldFrame };

    ghost coded = { Prim.hlevel (codes, held.the_row.coded, item.the_row.coded) };

    ghost view = { λ f. record { number = f.number.number; variables = f.variables; loops = reverse f.loops.items; work = items_of f.work; call = f.call; calls = f.calls; steps = f.steps; actions = f.actions; made = f.made; finalised = f.finalised } };
}

impl Frame {
    /// The frame of a process with these variables and nothing else. It takes no memory.
    pub fn new(alloc: Global, number: ProcNo, variables: Variables) -> Frame
        ensures frame { result ≡ record { number = number.number; variables = variables; loops = []; work = []; call = None; calls = 0; steps = 0; actions = 0; made = 0; finalised = 0 } }
    {
        Frame {
            number,
            variables,
            loops: Vec::new(alloc),
            work: Work::new(alloc),
            call: None,
            calls: 0,
            steps: 0,
            actions: 0,
            made: 0,
            finalised: 0,
        }
    }

    /// The process's number.
    pub fn number(&self) -> ProcNo
        ensures number { result.number ≡ self.now.number }
    {
        self.number
    }

    /// The number of the call whose answer it waits for, if it waits for one.
    pub fn call(&self) -> Option<u64>
        ensures call { result ≡ self.now.call }
    {
        self.call
    }

    /// How many calls it has made.
    pub fn calls(&self) -> u64
        ensures calls { result ≡ self.now.calls }
    {
        self.calls
    }

    /// How many steps it has made.
    pub fn steps(&self) -> u64
        ensures steps { result ≡ self.now.steps }
    {
        self.steps
    }

    /// How many actions it has made.
    pub fn actions(&self) -> u64
        ensures actions { result ≡ self.now.actions }
    {
        self.actions
    }

    /// How many cells it has made, and 2^63 where there are more.
    pub fn made(&self) -> u64
        ensures made { result ≡ self.now.made }
    {
        self.made
    }

    /// How many cells it has finalised, and 2^63 where there are more.
    pub fn finalised(&self) -> u64
        ensures finalised { result ≡ self.now.finalised }
    {
        self.finalised
    }

    /// What is to be done first of what it has finalised, if there is work.
    pub fn front(&self) -> Option<&WorkItem>
        ensures first { option_map (λ i. item_view i.now) result ≡ slice_get (map item_view self.now.work) 0 }
    {
        self.work.front()
    }

    /// Takes out what is to be done first, if there is work.
    pub fn take_work(&mut self) -> Option<WorkItem>
        ensures frame { self.new ≡ record self.old { work = self.new.work } }
        ensures first { option_to_list (option_map item_view result) ++ map item_view self.new.work ≡ map item_view self.old.work }
        ensures none { IfNone result (map item_view self.old.work ≡ []) }
    {
        self.work.take()
    }

    /// A step is counted.
    #[tactic(auto, using(crate::proofs::Stood::standing))]
    pub fn count_step(&mut self)
        requires few { self.old.steps < u64.MAX }
        ensures frame { self.new ≡ record self.old { steps = self.old.steps + 1 } }
        ensures stands { (s : frames.Frame ⊤) → Stands self.old s → Stands self.new (counted_step s) }
    {
        self.steps += 1;
    }

    /// An action is counted.
    #[tactic(auto, using(crate::proofs::Stood::standing))]
    pub fn count_action(&mut self)
        requires few { self.old.actions < u64.MAX }
        ensures frame { self.new ≡ record self.old { actions = self.old.actions + 1 } }
        ensures stands { (s : frames.Frame ⊤) → Stands self.old s → Stands self.new (counted_action s) }
    {
        self.actions += 1;
    }

    /// The next call is open, and counted.
    #[tactic(auto, using(crate::proofs::Stood::standing))]
    pub fn open_call(&mut self)
        requires few { self.old.calls < u64.MAX }
        ensures frame { self.new ≡ record self.old { call = Some self.old.calls; calls = self.old.calls + 1 } }
        ensures stands { (s : frames.Frame ⊤) → Stands self.old s → Stands self.new (record s { call = Some s.calls; calls = suc s.calls }) }
    {
        self.call = Some(self.calls);
        self.calls += 1;
    }

    /// No call is open.
    #[tactic(auto, using(crate::proofs::Stood::standing))]
    pub fn close_call(&mut self)
        ensures frame { self.new ≡ record self.old { call = None } }
        ensures stands { (s : frames.Frame ⊤) → Stands self.old s → Stands self.new (record s { call = None }) }
    {
        self.call = None;
    }

    /// What is read at a path, which may pass through components.
    #[inline(always)]
    #[tactic(auto, using(crate::proofs::Stood::standing))]
    pub fn read(&self, path: &Path) -> Option<&Value>
        ensures keyed { option_map (λ v. keyed_view v.now) result ≡ read_at (path_view path.now) (keyed_places self.now.variables) }
        ensures stands { (s : frames.Frame ⊤) → Stands self.now s → option_map (λ v. value_view v.now) result ≡ read_at (path_view path.now) s.variables }
        ensures whole { IfSome result (λ v. IsWhole v.now) }
    {
        self.variables.read(path)
    }

    /// What stands at a path, reached through records and callmessages alone.
    #[tactic(auto, using(crate::proofs::Stood::standing))]
    pub fn at(&self, path: &Path) -> Option<&Value>
        ensures keyed { option_map (λ v. keyed_view v.now) result ≡ cell_at (path_view path.now) (keyed_places self.now.variables) }
        ensures stands { (s : frames.Frame ⊤) → Stands self.now s → option_map (λ v. value_view v.now) result ≡ cell_at (path_view path.now) s.variables }
        ensures whole { IfSome result (λ v. IsWhole v.now) }
    {
        self.variables.at(path)
    }

    /// Takes out what stands at a path, if anything does. It takes no memory.
    pub fn take(&mut self, path: &Path) -> Option<Value>
        ensures frame { self.new ≡ record self.old { variables = self.new.variables } }
        ensures keyed { option_map keyed_view result ≡ cell_at (path_view path.now) (keyed_places self.old.variables) }
        ensures left { keyed_places self.new.variables ≡ clear_at (path_view path.now) (keyed_places self.old.variables) }
        ensures taken { (s : frames.Frame ⊤) → Stands self.old s → option_map value_view result ≡ cell_at (path_view path.now) s.variables }
        ensures stands { (s : frames.Frame ⊤) → Stands self.old s → Stands self.new (cleared (path_view path.now) s) }
        ensures whole { IfSome result IsWhole }
    {
        self.take_out(path)
    }

    /// Takes out what stands at a path, said also of what contracts see there.
    #[tactic(auto, using(crate::proofs::Stood::standing))]
    pub(crate) fn take_out(&mut self, path: &Path) -> Option<Value>
        ensures frame { self.new ≡ record self.old { variables = self.new.variables } }
        ensures keyed { option_map keyed_view result ≡ cell_at (path_view path.now) (keyed_places self.old.variables) }
        ensures left { keyed_places self.new.variables ≡ clear_at (path_view path.now) (keyed_places self.old.variables) }
        ensures left_seen { seen_places self.new.variables ≡ clear_at (path_view path.now) (seen_places self.old.variables) }
        ensures seen { option_map value_view result ≡ cell_at (path_view path.now) (seen_places self.old.variables) }
        ensures taken { (s : frames.Frame ⊤) → Stands self.old s → option_map value_view result ≡ cell_at (path_view path.now) s.variables }
        ensures stands { (s : frames.Frame ⊤) → Stands self.old s → Stands self.new (cleared (path_view path.now) s) }
        ensures whole { IfSome result IsWhole }
    {
        self.variables.take(path)
    }

    /// Finalises a value: what waits in it goes on the work list. Memory is wanted only where something does.
    #[tactic(auto, using(crate::proofs::Stood::standing))]
    pub fn finalise(&mut self, v: Value) -> Result<(), AllocError>
        ensures frame { OnOk result (self.new ≡ record self.old { work = self.new.work; finalised = self.new.finalised }) }
        ensures stands { OnOk result ((s : frames.Frame ⊤) → Stands self.old s → Stands self.new (finalise (value_view v) s)) }
        ensures refused { IsErr result → 0 < length (pending (value_view v)) }
    {
        let count = let_go(v, &mut self.work, self.finalised)?;
        self.finalised = count;
        Ok(())
    }

    /// One cell without its parts is finalised at once.
    #[tactic(auto, using(crate::proofs::Stood::standing))]
    pub fn finalise_cell(&mut self)
        ensures frame { self.new ≡ record self.old { finalised = self.new.finalised } }
        ensures stands { (s : frames.Frame ⊤) → Stands self.old s → Stands self.new (finalise_name tt s) }
    {
        self.finalised = sum(self.finalised, 1);
    }

    /// A cell is made.
    #[tactic(auto, using(crate::proofs::Stood::standing))]
    pub fn make_cell(&mut self)
        ensures frame { self.new ≡ record self.old { made = self.new.made } }
        ensures stands { (s : frames.Frame ⊤) → Stands self.old s → Stands self.new (record s { serial = suc s.serial }) }
    {
        self.made = sum(self.made, 1);
    }

    /// The cells of a value are made.
    #[tactic(auto, using(crate::proofs::Stood::standing))]
    pub fn make_cells(&mut self, v: &Value)
        ensures frame { self.new ≡ record self.old { made = self.new.made } }
        ensures stands { (s : frames.Frame ⊤) → Stands self.old s → Stands self.new (record s { serial = s.serial + count (value_view v.now) }) }
    {
        self.made = sum(self.made, count_of(v));
    }

    /// Puts a value at a path, and finalises what stood there. False where there is no such place: then the value is gone. Memory
    /// is wanted only where an inport or a callmessage stood there.
    #[inline(always)]
    #[tactic(auto, using(crate::proofs::Stood::standing, crate::proofs::Stood::waiting))]
    pub fn put(&mut self, path: &Path, v: Value) -> Result<bool, AllocError>
        requires whole { IsWhole v }
        ensures there { IfOk result (λ b. b ≡ has_place (seen_places self.old.variables) (path_view path.now)) }
        ensures keyed { IfOk result (λ b. IsTrue b → keyed_places self.new.variables ≡ put_at (path_view path.now) (keyed_view v) (keyed_places self.old.variables)) }
        ensures is_there { IfOk result (λ b. (s : frames.Frame ⊤) → Stands self.old s → b ≡ has_place s.variables (path_view path.now)) }
        ensures stands { IfOk result (λ b. IsTrue b → (s : frames.Frame ⊤) → Stands self.old s → Stands self.new (frames.put (path_view path.now) (value_view v) s)) }
        ensures refused { IsErr result → Waits (cell_at (path_view path.now) (seen_places self.old.variables)) }
    {
        match self.replace(path, v) {
            Ok(()) => Ok(true),
            Err(v) => {
                let is_there = self.put_over(path, v)?;
                Ok(is_there)
            }
        }
    }

    /// Puts a value at a path that is a variable by itself, or a field of a record in one, where nothing stands, or a scalar or an outport: that
    /// is finalised.
    /// Elsewhere the value comes back, and all is as it was.
    #[inline(always)]
    #[tactic(auto, using(crate::proofs::PlainCells::replaced))]
    fn replace(&mut self, path: &Path, v: Value) -> Result<(), Value>
        requires whole { IsWhole v }
        ensures there { OnOk result (has_place (seen_places self.old.variables) (path_view path.now) ≡ true) }
        ensures keyed { OnOk result (keyed_places self.new.variables ≡ put_at (path_view path.now) (keyed_view v) (keyed_places self.old.variables)) }
        ensures stands { OnOk result ((s : frames.Frame ⊤) → Stands self.old s → Stands self.new (frames.put (path_view path.now) (value_view v) s)) }
        ensures kept { OnErr result (keyed_places self.new.variables ≡ keyed_places self.old.variables) }
        ensures kept_seen { OnErr result (seen_places self.new.variables ≡ seen_places self.old.variables) }
        ensures stays { OnErr result ((s : frames.Frame ⊤) → Stands self.old s → Stands self.new s) }
        ensures handed_back { IfErr result (λ w. w ≡ v) }
    {
        match self.variables.replace(path, v) {
            Ok(false) => Ok(()),
            Ok(true) => {
                self.finalise_cell();
                Ok(())
            }
            Err(v) => Err(v),
        }
    }

    /// The same, whatever stands there.
    #[inline(never)]
    #[tactic(auto, using(crate::proofs::Stood::standing, crate::proofs::Stood::waiting))]
    fn put_over(&mut self, path: &Path, v: Value) -> Result<bool, AllocError>
        requires whole { IsWhole v }
        ensures there { IfOk result (λ b. b ≡ has_place (seen_places self.old.variables) (path_view path.now)) }
        ensures keyed { IfOk result (λ b. IsTrue b → keyed_places self.new.variables ≡ put_at (path_view path.now) (keyed_view v) (keyed_places self.old.variables)) }
        ensures is_there { IfOk result (λ b. (s : frames.Frame ⊤) → Stands self.old s → b ≡ has_place s.variables (path_view path.now)) }
        ensures stands { IfOk result (λ b. IsTrue b → (s : frames.Frame ⊤) → Stands self.old s → Stands self.new (frames.put (path_view path.now) (value_view v) s)) }
        ensures refused { IsErr result → Waits (cell_at (path_view path.now) (seen_places self.old.variables)) }
    {
        match self.variables.put(path, v) {
            Err(_) => Ok(false),
            Ok(None) => Ok(true),
            Ok(Some(old)) => {
                self.finalise(old)?;
                Ok(true)
            }
        }
    }

    /// The end of an instruction with one target, which gets this value, where the instruction comes to this outcome.
    #[inline(always)]
    #[tactic(auto, using(crate::proofs::Stood::standing))]
    pub fn put_at_end(
        &mut self,
        path: &Path,
        v: Value,
        outcome: Outcome,
    ) -> Result<Outcome, AllocError>
        requires whole { IsWhole v }
        ensures putting { IfOk result (λ r. (s : frames.Frame ⊤) (o : model.Outcome) → Stands self.old s → outcome_view outcome ≡ Some o → Completes (outcome_view r) self.new (putting (path_view path.now) o (value_view v) s)) }
        ensures keyed { IfOk result (λ r. LeavesKeyed r self.new (put_at (path_view path.now) (keyed_view v) (keyed_places self.old.variables))) }
        ensures refused { IsErr result → Waits (cell_at (path_view path.now) (seen_places self.old.variables)) }
    {
        let is_there = self.put(path, v)?;
        if is_there {
            return Ok(outcome);
        }
        Ok(Outcome::Stuck)
    }

    /// Finalises what stands at a path, if anything does. Memory is wanted only where an inport or a callmessage does.
    #[tactic(auto, using(crate::proofs::Stood::standing, crate::proofs::Stood::waiting))]
    pub fn drop_at(&mut self, path: &Path) -> Result<(), AllocError>
        ensures frame { OnOk result (self.new ≡ record self.old { variables = self.new.variables; work = self.new.work; finalised = self.new.finalised }) }
        ensures left { OnOk result (keyed_places self.new.variables ≡ clear_at (path_view path.now) (keyed_places self.old.variables)) }
        ensures stands { OnOk result ((s : frames.Frame ⊤) → Stands self.old s → Stands self.new (drop_at (path_view path.now) s)) }
        ensures refused { IsErr result → Waits (cell_at (path_view path.now) (seen_places self.old.variables)) }
    {
        let Some(v) = self.take_out(path) else {
            return Ok(());
        };
        self.finalise(v)?;
        Ok(())
    }
}
