//! The facts of full values and of messages.
ghost use Rattle.std.specs.Prelude.{◌≡◌, ◌<◌, ◌∷◌, ◌++◌, [], false, IfOk, OnOk, map, length};
ghost use Rattle.herm_model.specs.Paths as model;
ghost use Rattle.herm_model.specs.Types.{all_parts, part_paths};
ghost use Rattle.herm_model.specs.Facts.{facts_from, full_facts, declared_facts};
ghost use Rattle.herm_types.specs.View.{path_view, fact_view};
ghost use Rattle.herm_types.specs.Chosen.{lists};
ghost use Rattle.herm_types.specs.Messages.{IsInport, number_of};

use crate::fact::{Fact, Path};
use crate::messages::{all_said, push_facts_to};
use crate::paths::{Choice, paths_from};
use crate::shape::Shape;
use crate::table::TypeTable;
use herm_base::{TypeNo, VarNo};
use std::alloc::{AllocError, Global};

/// `init` of each path of a variable.
fn inits(alloc: Global, var: VarNo, paths: Vec<Vec<u32>>) -> Result<Vec<Fact>, AllocError>
    ensures { IfOk result (λ v. map fact_view v.items ≡ map (λ q. model.init (var.0 ∷ q)) (lists paths.items)) }
{
    let mut facts = Vec::new(alloc);
    for parts in paths {
        facts.push(Fact::Init(Path { var, parts }))?;
    }
    Ok(facts)
}

impl TypeTable {
    /// Appends the facts by which there is a value at a path, each behind those that it needs: `init` of each path down to
    /// the first variant, then the component at each variant on the way. The variable's type is given, where there is one.
    pub fn push_facts_to(
        &self,
        alloc: Global,
        of: Option<TypeNo>,
        p: &Path,
        out: &mut Vec<Fact>,
    ) -> Result<(), AllocError>
        ensures { OnOk result (map fact_view out.new.items ≡ map fact_view out.old.items ++ facts_from self.now.shapes (p.now.var.0 ∷ []) (number_of of) false p.now.parts.items) }
    {
        push_facts_to(
            alloc,
            self.shapes.as_slice(),
            of,
            p.var,
            p.parts.as_slice(),
            out,
        )?;
        Ok(())
    }

    /// The paths of a type: its root and the paths of its fields, components or parameters, parents first.
    pub fn record_paths(&self, alloc: Global, t: TypeNo) -> Result<Vec<Vec<u32>>, AllocError>
        requires { t.0 < length self.now.shapes }
        ensures { IfOk result (λ v. lists v.items ≡ part_paths all_parts self.now.shapes t.0) }
    {
        let paths = paths_from(alloc, self.shapes.as_slice(), Choice::All, t, &[])?;
        Ok(paths)
    }

    /// The facts of a full value of a type at a path, parents first.
    pub fn full_facts(&self, alloc: Global, p: &Path, t: TypeNo) -> Result<Vec<Fact>, AllocError>
        requires { t.0 < length self.now.shapes }
        ensures { IfOk result (λ v. map fact_view v.items ≡ full_facts self.now.shapes t.0 (path_view p.now)) }
    {
        let paths = paths_from(
            alloc,
            self.shapes.as_slice(),
            Choice::Full,
            t,
            p.parts.as_slice(),
        )?;
        let facts = inits(alloc, p.var, paths)?;
        Ok(facts)
    }

    /// The facts at which messages of an inport type travel, said of a message at a path: `init` of the message and the
    /// listed facts, each behind those before it, or those of a full message where none is listed.
    pub fn declared_facts(
        &self,
        alloc: Global,
        p: &Path,
        port: TypeNo,
    ) -> Result<Vec<Fact>, AllocError>
        requires { IsInport self.now.shapes port.0 }
        ensures { IfOk result (λ v. map fact_view v.items ≡ declared_facts self.now.shapes port.0 (path_view p.now)) }
    {
        match self.shape(port) {
            Shape::Inport { message, facts } => {
                if facts.as_slice().is_empty() {
                    let full = self.full_facts(alloc, p, *message)?;
                    return Ok(full);
                }
                let declared = &self.declared[port.0 as usize];
                let said = all_said(alloc, p, declared.as_slice())?;
                Ok(said)
            }
            _ => Ok(Vec::new(alloc)),
        }
    }
}
