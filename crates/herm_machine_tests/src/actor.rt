//! A process as the tests hold it: it goes on as long as nothing has failed.
ghost use Rattle.std.specs.Prelude.{IfOk, IfSome};
ghost use Rattle.herm_letters.specs.Letters.{IsParcel};

use crate::driving::{
    answer, begun, close, hear, look, make_port, make_process, put, send_back, step, take,
};
use crate::hearing::Hearing;
use herm_base::{PortNo, ProcNo};
use herm_code::Image;
use herm_exchanges::Want;
use herm_letters::{Parcel, Parcels};
use herm_machine::Machine;
use herm_steps::End;
use std::alloc::{AllocError, Global};
use std::marker::Model;

/// A process with no order out.
#[derive(Drop)]
pub struct Actor<'i> {
    machine: Machine<'i>,
}

impl<'i> Model for Actor<'i> {
    ghost use Rattle.std.specs.Coded.{codes};
    ghost use Rattle.herm_values.specs.contracts.value.Value as held;
    ghost use Rattle.herm_values.specs.contracts.work.WorkItem as item;
    ghost use Rattle.herm_machine.specs.Machines.{MachineState};
    ghost use Rattle.herm_machine_tests.specs.Going.{IsGoing};

    ghost Value = { MachineState };

    ghost coded = { Prim.hlevel (codes, held.the_row.coded, item.the_row.coded) };

    ghost view = { λ a. a.machine };

    ghost invariant = { λ a. IsGoing a.machine };
}

impl<'i> Actor<'i> {
    /// The process of a module, if there is one of this number.
    pub fn begin(
        alloc: Global,
        number: ProcNo,
        image: &'i Image,
        module_number: u32,
        first: PortNo,
    ) -> Result<Option<Actor<'i>>, AllocError> {
        let Some(machine) = begun(alloc, number, image, module_number, first)? else {
            return Ok(None);
        };
        Ok(Some(Actor { machine }))
    }

    pub fn wants(&self) -> Option<Want> {
        self.machine.wants()
    }

    pub fn ended(&self) -> Option<End> {
        self.machine.ended()
    }

    pub fn has_step(&self) -> bool {
        self.machine.coming().has_step
    }

    pub fn steps(&self) -> u64 {
        let (steps, _) = self.machine.counts();
        steps
    }

    /// The steps and the actions, and the cells made, held and finalised.
    pub fn sums(&self) -> (u64, u64, u64, u64, u64) {
        let (steps, actions) = self.machine.counts();
        let (made, held, finalised) = self.machine.cells();
        (steps, actions, made, held, finalised)
    }

    pub fn look(&self, place: usize) -> Option<PortNo> {
        look(&self.machine, place)
    }

    pub fn step(&mut self) -> Result<bool, AllocError> {
        let goes = step(&mut self.machine)?;
        Ok(goes)
    }

    pub fn make_port(&mut self, made: Option<PortNo>) -> Result<bool, AllocError> {
        let goes = make_port(&mut self.machine, made)?;
        Ok(goes)
    }

    pub fn make_process(&mut self, made: Option<(ProcNo, PortNo)>) -> Result<bool, AllocError> {
        let goes = make_process(&mut self.machine, made)?;
        Ok(goes)
    }

    pub fn put(&mut self, number: u64) -> Result<Option<Parcel>, AllocError>
        ensures parcel { IfOk result (λ r. IfSome r IsParcel) }
    {
        let placed = put(&mut self.machine, number)?;
        Ok(placed)
    }

    pub fn send_back(&mut self) -> Result<bool, AllocError> {
        let goes = send_back(&mut self.machine)?;
        Ok(goes)
    }

    pub fn take(&mut self, port: PortNo, parcel: Parcel) -> Result<bool, AllocError>
        requires parcel { IsParcel parcel }
    {
        let goes = take(&mut self.machine, port, parcel)?;
        Ok(goes)
    }

    pub fn close(&mut self, left: Parcels) -> Result<bool, AllocError> {
        let goes = close(&mut self.machine, left)?;
        Ok(goes)
    }

    /// The reply that it answers with.
    pub fn answer(&mut self) -> Result<Option<Hearing>, AllocError> {
        let Some((reply, trace)) = answer(&mut self.machine)? else {
            return Ok(None);
        };
        Ok(Some(Hearing::of(reply, trace)))
    }

    pub fn hear(&mut self, call: u64, heard: Hearing) -> Result<bool, AllocError> {
        let (reply, trace) = heard.into_parts();
        let goes = hear(&mut self.machine, call, reply, trace)?;
        Ok(goes)
    }
}
