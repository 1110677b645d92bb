//! An image by hand: the greeting, `receive m from start; s := "hi"; send s to m.out;`. That it is good is computed.
ghost use Rattle.std.specs.Prelude.{◌≡◌, ◌∷◌, [], IfOk, map};
ghost use Rattle.herm_instructions.specs.Instructions.{Send};
ghost use Rattle.herm_types.specs.View.{path_view, fact_view};
ghost use Rattle.herm_types.specs.Table.{defined_table};
ghost use Rattle.herm_code.specs.Sample.{sample_image, sample_label, sample_module};
ghost use Rattle.herm_code.specs.View.{const_view, instr_view, label_view, module_view, image_view};

use super::*;
use herm_base::{ExcNo, TypeNo, VarNo, Word};
use herm_types::{Fact, Path, TypeTable};
use std::alloc::{AllocError, Global};
use std::test::Fail;

fn variable(alloc: Global, var: u32) -> Path
    ensures { path_view result ≡ var ∷ [] }
{
    Path {
        var: VarNo(var),
        parts: Vec::new(alloc),
    }
}

fn part(alloc: Global, var: u32, place: u32) -> Result<Path, AllocError>
    ensures { IfOk result (λ p. path_view p ≡ var ∷ place ∷ []) }
{
    let parts = vec![in alloc; place]?;
    Ok(Path {
        var: VarNo(var),
        parts,
    })
}

fn send(alloc: Global) -> Result<Instr, AllocError>
    ensures { IfOk result (λ i. instr_view i ≡ Send (2 ∷ []) (1 ∷ 1 ∷ []) []) }
{
    let port = part(alloc, 1, 1)?;
    let message = variable(alloc, 2);
    Ok(Instr::Send(message, port, Vec::new(alloc)))
}

fn instructions(alloc: Global) -> Result<Vec<Instr>, AllocError>
    ensures { IfOk result (λ v. map instr_view v.items ≡ sample_module.code) }
{
    let send = send(alloc)?;
    let receive = Instr::Receive(variable(alloc, 1), variable(alloc, 0));
    let store = Instr::Store(variable(alloc, 2));
    let code = vec![in alloc;
        Instr::Step,
        receive,
        Instr::Step,
        Instr::Const(0),
        store,
        Instr::Step,
        send,
        Instr::End,
        Instr::EndBy(ExcNo(6)),
    ]?;
    Ok(code)
}

fn label(alloc: Global) -> Result<Label, AllocError>
    ensures { IfOk result (λ l. label_view l ≡ sample_label) }
{
    let argument = part(alloc, 1, 0)?;
    let output = part(alloc, 1, 1)?;
    let facts = vec![in alloc;
        Fact::Init(variable(alloc, 0)),
        Fact::Init(variable(alloc, 1)),
        Fact::Init(argument),
        Fact::Init(output),
        Fact::Init(variable(alloc, 2)),
    ]?;
    Ok(Label {
        stack: Vec::new(alloc),
        facts,
        slots: Vec::new(alloc),
    })
}

fn landings(alloc: Global) -> Result<Vec<Vec<(ExcNo, u32)>>, AllocError>
    ensures { IfOk result (λ v. map (λ ls. map (λ l. record { exception = (l.0).0; index = l.1 }) ls.items) v.items ≡ sample_module.landings) }
{
    let closed = vec![in alloc; (ExcNo(6), 8)]?;
    let all = vec![in alloc;
        Vec::new(alloc),
        Vec::new(alloc),
        Vec::new(alloc),
        Vec::new(alloc),
        Vec::new(alloc),
        Vec::new(alloc),
        closed,
        Vec::new(alloc),
        Vec::new(alloc),
    ]?;
    Ok(all)
}

fn module(alloc: Global) -> Result<CodeModule, AllocError>
    ensures { IfOk result (λ m. module_view m ≡ sample_module) }
{
    let name = Word::of(alloc, b"main")?;
    let vars = vec![in alloc; TypeNo(7), TypeNo(6), TypeNo(2)]?;
    let code = instructions(alloc)?;
    let landings = landings(alloc)?;
    let label = label(alloc)?;
    let labels = vec![in alloc; (8, label)]?;
    Ok(CodeModule {
        name,
        vars,
        code,
        landings,
        labels,
    })
}

fn modules(alloc: Global) -> Result<Vec<CodeModule>, AllocError>
    ensures { IfOk result (λ v. map module_view v.items ≡ sample_image.modules) }
{
    let module = module(alloc)?;
    let modules = vec![in alloc; module]?;
    Ok(modules)
}

fn constants(alloc: Global) -> Result<Vec<Const>, AllocError>
    ensures { IfOk result (λ v. map const_view v.items ≡ sample_image.constants) }
{
    let hi = Word::of(alloc, b"hi")?;
    let constants = vec![in alloc; Const::Text(hi)]?;
    Ok(constants)
}

fn table(alloc: Global) -> Result<TypeTable, AllocError>
    ensures { IfOk result (λ t. t ≡ defined_table [] []) }
{
    let defined = Vec::new(alloc);
    let exceptions = Vec::new(alloc);
    let table = TypeTable::new(alloc, defined, exceptions)?;
    Ok(table)
}

fn image(alloc: Global) -> Result<Image, AllocError>
    ensures { IfOk result (λ i. image_view i ≡ sample_image) }
{
    let modules = modules(alloc)?;
    let constants = constants(alloc)?;
    let types = table(alloc)?;
    Ok(Image::new(modules, constants, types))
}

#[test]
fn an_image_by_hand_is_good(rt: HostRuntime) -> Result<(), Fail> {
    let image = image(rt.alloc())?;
    assert_eq!(rt; image.modules().len(), 1);
    assert_eq!(rt; image.constants().len(), 1);
    assert_eq!(rt; image.types().len(), 8);
    Ok(())
}
