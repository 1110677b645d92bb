//! Ends: everything is finalised.
ghost use Rattle.std.specs.Prelude.{◌≡◌, ℕ, OnOk, IfOk, ⊤, ◌∷◌, []};
ghost use Rattle.herm_model.specs.Targets as targets;
ghost use Rattle.herm_forms.specs.EdgeFinalising.{arrive};
ghost use Rattle.herm_forms.specs.Frames.{Frame as ModelFrame, drop};
ghost use Rattle.herm_code_machine.specs.ReadyCode.{ReadyCode};
ghost use Rattle.herm_types.specs.View.{path_view};
ghost use Rattle.herm_frames.specs.EmptyPlaces.{variables_from};
ghost use Rattle.herm_frames.specs.Scopes.{numbers_of};
ghost use Rattle.herm_frames.specs.Standing.{Stands};

use crate::frame::Frame;
use crate::rows::leave_all;
use herm_base::{TypeNo, VarNo};
use herm_types::Path;
use std::alloc::{AllocError, Global};

/// The path of a variable.
fn variable(alloc: Global, i: u32) -> Path
    ensures { path_view result ≡ i ∷ [] }
{
    Path {
        var: VarNo(i),
        parts: Vec::new(alloc),
    }
}

impl Frame {
    /// What an end finalises: everything, by variables and then by loops, innermost first. Of the variables these are as many
    /// as the code has.
    pub fn end(&mut self, alloc: Global, of: &[TypeNo]) -> Result<(), AllocError>
        ensures end { OnOk result ((c : ReadyCode) (s : ModelFrame ⊤) → c.scope.variables ≡ numbers_of of.now → Stands self.old s → Stands self.new (arrive c.scope targets.end s)) }
        ensures end_by { OnOk result ((c : ReadyCode) (e : ℕ) (s : ModelFrame ⊤) → c.scope.variables ≡ numbers_of of.now → Stands self.old s → Stands self.new (arrive c.scope (targets.end_by e) s)) }
    {
        if of.len() > u32::MAX as usize {
            return Err(AllocError);
        }
        self.drop_variables(alloc, of.len() as u32)?;
        let count = leave_all(&mut self.loops, &mut self.work, self.finalised)?;
        self.finalised = count;
        Ok(())
    }

    /// Finalises what stands in so many variables.
    fn drop_variables(&mut self, alloc: Global, n: u32) -> Result<(), AllocError>
        ensures stands { OnOk result ((s : ModelFrame ⊤) → Stands self.old s → Stands self.new (drop (variables_from 0 n) s)) }
    {
        'variables: for i in 0..n {
            let path = variable(alloc, i);
            self.drop_at(&path)?;
        }
        Ok(())
    }
}
