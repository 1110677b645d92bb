//! What is looked up of each statement of a process.
ghost use Rattle.std.specs.Prelude.{◌≡◌, ◌++◌, ◌∷◌, [], map, option_map, IfOk, OnOk};
ghost use Rattle.std.specs.List.{flat_map};
ghost use Rattle.herm_typed.specs.Within.{statements_within, all_statements};
ghost use Rattle.herm_words.specs.Sites.{cases_of, site_of, sites_in, variant_of};
ghost use Rattle.herm_words.specs.Rows.{all_in_arms, all_in_port_arms, all_otherwise};

use herm_base::{ExcNo, Span, StmtNo, TypeNo};
use herm_typed::{TypedForm, TypedPath, TypedProcess, TypedStmt};
use std::alloc::{AllocError, Global};

/// The place of a statement in the text, and of a `case` the type of the variant at its path.
#[derive(Clone, Copy, Debug, PartialEq, Eq)]
pub struct Site {
    pub span: Span,
    pub cases: Option<TypeNo>,
}

fn cases_of(form: &TypedForm) -> Option<TypeNo>
    ensures { result ≡ cases_of form.now }
{
    match form {
        TypedForm::Case(v, _) => Some(v.of),
        _ => None,
    }
}

fn push_site(s: &TypedStmt, out: &mut Vec<Site>) -> Result<(), AllocError>
    ensures { OnOk result (out.new.items ≡ out.old.items ++ site_of s.now ∷ []) }
{
    let cases = cases_of(&s.form);
    let span = s.span;
    out.push(Site { span, cases })?;
    Ok(())
}

#[cycle(sites)]
#[tactic(auto, using(crate::proofs::Sizes::arm_size))]
fn push_arms(arms: &[(u32, Vec<TypedStmt>)], out: &mut Vec<Site>) -> Result<(), AllocError>
    ensures { OnOk result (out.new.items ≡ out.old.items ++ map site_of (all_in_arms arms.now)) }
{
    for (_, body) in arms {
        push_all(body.as_slice(), out)?;
    }
    Ok(())
}

#[cycle(sites)]
#[tactic(auto, using(crate::proofs::Sizes::arm_size))]
fn push_handlers(
    handlers: &[(ExcNo, Vec<TypedStmt>)],
    out: &mut Vec<Site>,
) -> Result<(), AllocError>
    ensures { OnOk result (out.new.items ≡ out.old.items ++ map site_of (all_in_arms handlers.now)) }
{
    for (_, body) in handlers {
        push_all(body.as_slice(), out)?;
    }
    Ok(())
}

#[cycle(sites)]
#[tactic(auto, using(crate::proofs::Sizes::port_size))]
fn push_port_arms(
    arms: &[(TypedPath, TypedPath, Vec<TypedStmt>)],
    out: &mut Vec<Site>,
) -> Result<(), AllocError>
    ensures { OnOk result (out.new.items ≡ out.old.items ++ map site_of (all_in_port_arms arms.now)) }
{
    for (_, _, body) in arms {
        push_all(body.as_slice(), out)?;
    }
    Ok(())
}

#[cycle(sites)]
fn push_otherwise(other: &Option<Vec<TypedStmt>>, out: &mut Vec<Site>) -> Result<(), AllocError>
    ensures { OnOk result (out.new.items ≡ out.old.items ++ map site_of (all_otherwise other.now)) }
{
    match other {
        Some(body) => {
            push_all(body.as_slice(), out)?;
            Ok(())
        }
        None => Ok(()),
    }
}

/// Appends the sites of the statements within a form.
#[cycle(sites)]
#[tactic(auto, using(crate::proofs::Sizes::select_size, crate::proofs::Sizes::if_size, crate::proofs::Sizes::try_size))]
fn push_within(form: &TypedForm, out: &mut Vec<Site>) -> Result<(), AllocError>
    ensures { OnOk result (out.new.items ≡ out.old.items ++ map site_of (statements_within form.now)) }
{
    match form {
        TypedForm::Case(_, arms) => {
            push_arms(arms.as_slice(), out)?;
            Ok(())
        }
        TypedForm::For(_, _, body) => {
            push_all(body.as_slice(), out)?;
            Ok(())
        }
        TypedForm::Select(arms) => {
            push_port_arms(arms.as_slice(), out)?;
            Ok(())
        }
        TypedForm::If(_, body, other) => {
            push_all(body.as_slice(), out)?;
            push_otherwise(other, out)?;
            Ok(())
        }
        TypedForm::While(_, body) => {
            push_all(body.as_slice(), out)?;
            Ok(())
        }
        TypedForm::Try(body, handlers) => {
            push_all(body.as_slice(), out)?;
            push_handlers(handlers.as_slice(), out)?;
            Ok(())
        }
        _ => Ok(()),
    }
}

/// Appends the sites of statements and of those within them, in the order of the text.
#[cycle(sites)]
#[tactic(auto, using(crate::proofs::Sizes::item_size))]
fn push_all(list: &[TypedStmt], out: &mut Vec<Site>) -> Result<(), AllocError>
    ensures { OnOk result (out.new.items ≡ out.old.items ++ map site_of (all_statements list.now)) }
{
    for s in list {
        push_site(s, out)?;
        push_within(&s.form, out)?;
    }
    Ok(())
}

/// The sites of all statements of a process, in the order of their numbers: the statement with number n is at place n - 1.
pub fn sites_of(alloc: Global, p: &TypedProcess) -> Result<Vec<Site>, AllocError>
    ensures { IfOk result (λ sites. sites.items ≡ sites_in p.now) }
{
    let mut sites = Vec::new(alloc);
    push_all(p.body.as_slice(), &mut sites)?;
    Ok(sites)
}

/// The type of the variant at the path of the `case` with a number.
pub fn variant_of(sites: &[Site], no: StmtNo) -> Option<TypeNo>
    ensures { option_map (λ t. t.0) result ≡ variant_of sites.now no.0 }
{
    if no.0 == 0 {
        return None;
    }
    match sites.get(no.0 as usize - 1) {
        Some(site) => site.cases,
        None => None,
    }
}
