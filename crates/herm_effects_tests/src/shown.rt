//! Effects as text: a path is its variable's name and the places of its parts, a case has its component behind `=`.
use herm_base::{ExcNo, TypeNo};
use herm_effects::{kills_of, makes_of, needs_of};
use herm_judge::Frame;
use herm_typed::{Outcome, TypedForm, TypedVar};
use herm_types::{Fact, Path, TypeTable};
use std::alloc::{AllocError, Global};

type Put = Result<(), AllocError>;

/// The outcomes that are asked for, and their names.
const OUTCOMES: [(Outcome, &str); 12] = [
    (Outcome::Ok, "ok"),
    (Outcome::True, "true"),
    (Outcome::False, "false"),
    (Outcome::Turn, "turn"),
    (Outcome::Done, "done"),
    (Outcome::Component(0), "component 0"),
    (Outcome::Component(1), "component 1"),
    (Outcome::Arm(0), "arm 0"),
    (Outcome::Arm(1), "arm 1"),
    (Outcome::Raised(ExcNo(6)), "raised 6"),
    (Outcome::Raised(ExcNo(7)), "raised 7"),
    (Outcome::Raised(ExcNo(8)), "raised 8"),
];

fn put_name(out: &mut String, name: &[u8]) -> Put {
    for byte in name {
        out.push(*byte as char)?;
    }
    Ok(())
}

fn put_path(alloc: Global, out: &mut String, vars: &[TypedVar], path: &Path) -> Put {
    out.push(' ')?;
    if let Some(var) = vars.get(path.var.0 as usize) {
        put_name(out, var.name.text.bytes())?;
    }
    for part in &path.parts {
        let step = format!(in alloc; ".{part}")?;
        out.push_str(step.as_str())?;
    }
    Ok(())
}

fn put_fact(alloc: Global, out: &mut String, vars: &[TypedVar], fact: &Fact) -> Put {
    match fact {
        Fact::Init(path) => put_path(alloc, out, vars, path),
        Fact::Case(path, component) => {
            put_path(alloc, out, vars, path)?;
            let component = format!(in alloc; "={component}")?;
            out.push_str(component.as_str())
        }
    }
}

fn put_facts(alloc: Global, out: &mut String, vars: &[TypedVar], facts: &[Fact]) -> Put {
    for fact in facts {
        put_fact(alloc, out, vars, fact)?;
    }
    Ok(())
}

fn put_outcome(
    alloc: Global,
    out: &mut String,
    vars: &[TypedVar],
    frame: &Frame,
    form: &TypedForm,
    outcome: (Outcome, &str),
) -> Put {
    let (outcome, name) = outcome;
    let makes = makes_of(alloc, frame, form, outcome)?;
    let kills = kills_of(alloc, frame, form, outcome)?;
    if makes.is_empty() && kills.is_empty() {
        return Ok(());
    }
    out.push_str(" | ")?;
    out.push_str(name)?;
    out.push(':')?;
    put_facts(alloc, out, vars, makes.as_slice())?;
    out.push_str(" /")?;
    for path in &kills {
        put_path(alloc, out, vars, path)?;
    }
    Ok(())
}

/// What a form needs, and behind it each outcome that makes or takes something away, with what it makes and takes.
pub fn effects_text(
    alloc: Global,
    types: &TypeTable,
    vars: &[TypedVar],
    form: &TypedForm,
) -> Result<String, AllocError> {
    let mut of: Vec<TypeNo> = Vec::new(alloc);
    for var in vars {
        of.push(var.of)?;
    }
    let frame = Frame {
        types,
        of: of.as_slice(),
        ports: &[],
    };
    let mut out = String::new(alloc);
    let needs = needs_of(alloc, &frame, form)?;
    put_facts(alloc, &mut out, vars, needs.as_slice())?;
    for outcome in OUTCOMES {
        put_outcome(alloc, &mut out, vars, &frame, form, outcome)?;
    }
    Ok(out)
}
