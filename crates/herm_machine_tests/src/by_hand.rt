//! An image by hand: `b := x; if b and y { b := x; }`, of a process that takes nothing from its first port. That it is good is computed.
ghost use Rattle.std.specs.Prelude.{◌≡◌, ◌∷◌, [], IfOk, map};
ghost use Rattle.herm_types.specs.View.{path_view, fact_view};
ghost use Rattle.herm_types.specs.Table.{defined_table};
ghost use Rattle.herm_code.specs.View.{const_view, instr_view, label_view, module_view, image_view};
ghost use Rattle.herm_machine_tests.specs.ByHand.{behind_label, hand_image, hand_module};

use crate::{Most, Sums, World};
use herm_base::{ExcNo, TypeNo, VarNo, Word};
use herm_code::{CodeModule, Const, Image, Instr, Label};
use herm_steps::End;
use herm_types::{Fact, Path, TypeTable};
use std::alloc::{AllocError, Global};
use std::test::Fail;

fn variable(alloc: Global, var: u32) -> Path
    ensures { path_view result ≡ var ∷ [] }
{
    Path {
        var: VarNo(var),
        parts: Vec::new(alloc),
    }
}

fn instructions(alloc: Global) -> Result<Vec<Instr>, AllocError>
    ensures { IfOk result (λ v. map instr_view v.items ≡ hand_module.code) }
{
    let first = Instr::Store(variable(alloc, 1));
    let load = Instr::Load(variable(alloc, 1));
    let second = Instr::Store(variable(alloc, 1));
    let code = vec![in alloc;
        Instr::Step,
        Instr::Const(0),
        first,
        Instr::Step,
        load,
        Instr::Const(1),
        Instr::And,
        Instr::JumpFalse(11),
        Instr::Step,
        Instr::Const(0),
        second,
        Instr::End,
    ]?;
    Ok(code)
}

fn label(alloc: Global) -> Result<Label, AllocError>
    ensures { IfOk result (λ l. label_view l ≡ behind_label) }
{
    let facts = vec![in alloc;
        Fact::Init(variable(alloc, 0)),
        Fact::Init(variable(alloc, 1)),
    ]?;
    Ok(Label {
        stack: Vec::new(alloc),
        facts,
        slots: Vec::new(alloc),
    })
}

/// No exceptions at any of the twelve instructions.
fn landings(alloc: Global) -> Result<Vec<Vec<(ExcNo, u32)>>, AllocError>
    ensures { IfOk result (λ v. map (λ ls. map (λ l. record { exception = (l.0).0; index = l.1 }) ls.items) v.items ≡ hand_module.landings) }
{
    let none = vec![in alloc;
        Vec::new(alloc),
        Vec::new(alloc),
        Vec::new(alloc),
        Vec::new(alloc),
        Vec::new(alloc),
        Vec::new(alloc),
        Vec::new(alloc),
        Vec::new(alloc),
        Vec::new(alloc),
        Vec::new(alloc),
        Vec::new(alloc),
        Vec::new(alloc),
    ]?;
    Ok(none)
}

fn module(alloc: Global) -> Result<CodeModule, AllocError>
    ensures { IfOk result (λ m. module_view m ≡ hand_module) }
{
    let name = Word::of(alloc, b"main")?;
    let vars = vec![in alloc; TypeNo(7), TypeNo(0)]?;
    let code = instructions(alloc)?;
    let landings = landings(alloc)?;
    let label = label(alloc)?;
    let labels = vec![in alloc; (11, label)]?;
    Ok(CodeModule {
        name,
        vars,
        code,
        landings,
        labels,
    })
}

fn table(alloc: Global) -> Result<TypeTable, AllocError>
    ensures { IfOk result (λ t. t ≡ defined_table [] []) }
{
    let defined = Vec::new(alloc);
    let exceptions = Vec::new(alloc);
    let table = TypeTable::new(alloc, defined, exceptions)?;
    Ok(table)
}

/// The image with these values for `x` and `y`.
fn image(alloc: Global, x: bool, y: bool) -> Result<Image, AllocError>
    ensures { IfOk result (λ i. image_view i ≡ hand_image x y) }
{
    let module = module(alloc)?;
    let modules = vec![in alloc; module]?;
    let constants = vec![in alloc; Const::Bool(x), Const::Bool(y)]?;
    let types = table(alloc)?;
    Ok(Image::new(modules, constants, types))
}

const AMPLE: Most = Most {
    steps: 100,
    processes: 1,
    ports: 2,
};

/// Whether a process of the image ends by itself with these sums: steps, actions, and cells made, held and finalised. Its one action closes
/// its port, in which a record of two parts waits.
fn is_so(alloc: Global, x: bool, y: bool, wanted: Sums) -> Result<bool, AllocError> {
    let image = image(alloc, x, y)?;
    let Some(mut world) = World::begin(alloc, &image, 0, AMPLE)? else {
        return Ok(false);
    };
    world.run()?;
    Ok(world.sums(0) == Some(wanted))
}

#[test]
fn an_image_by_hand_comes_to_its_end(rt: HostRuntime) -> Result<(), Fail> {
    let alloc = rt.alloc();
    let passed_over = (Some(End::Normal), 2, 1, 1, 0, 5);
    assert!(rt; is_so(alloc, false, false, passed_over)?);
    assert!(rt; is_so(alloc, false, true, passed_over)?);
    assert!(rt; is_so(alloc, true, false, passed_over)?);
    assert!(rt; is_so(alloc, true, true, (Some(End::Normal), 3, 1, 2, 0, 6))?);
    Ok(())
}
