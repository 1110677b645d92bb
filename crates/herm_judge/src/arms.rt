//! Arms and handlers of statements.
ghost use Rattle.std.specs.Prelude.{◌≡◌, ◌++◌, ◌∷◌, [], map, flat_map, nat_eq, nat_lt};
ghost use Rattle.herm_model.specs.Lists.{all_pass, any_pass, range};
ghost use Rattle.herm_model.specs.Statements.{Arm};
ghost use Rattle.herm_naming.specs.Fits.{fits_arm, has_every_arm, may_be};
ghost use Rattle.herm_naming.specs.UnknownNames.{is_there};
ghost use Rattle.herm_typed.specs.View.{typed_path_view};
ghost use Rattle.herm_typed.specs.Blocks.{typed_arm_view};
ghost use Rattle.herm_judge.specs.View.{kind, table_of, variables_of};

use crate::frame::Frame;
use crate::paths::{is_own, is_part_there, is_seen, is_there, type_of};
use crate::shapes::{may_give, shape_of};
use herm_base::{ExcNo, TypeNo};
use herm_typed::{TypedPath, TypedStmt};
use herm_types::{Shape, TypeTable};

/// Whether a component of the variant at a path is there, behind the path.
#[tactic(auto, using(crate::proofs::Components::component_there))]
pub fn is_component_there(frame: &Frame, v: &TypedPath, component: u32) -> bool
    ensures there { result ≡ is_there (table_of frame.now) (variables_of frame.now) (typed_path_view v.now ++ (component ∷ [])) }
{
    is_there(frame, &v.path) && is_part_there(frame.types, type_of(frame, &v.path), component)
}

/// Whether the components that the arms of a `case` name are there.
pub fn are_components_there(frame: &Frame, v: &TypedPath, arms: &[(u32, Vec<TypedStmt>)]) -> bool
    ensures there { result ≡ all_pass (is_there (table_of frame.now) (variables_of frame.now)) (map (λ c. typed_path_view v.now ++ (c ∷ [])) (map (λ a. a.0) arms.now)) }
{
    'arms: for (component, _) in arms {
        if !is_component_there(frame, v, *component) {
            return false;
        }
    }
    true
}

fn has_arm(arms: &[(u32, Vec<TypedStmt>)], component: usize) -> bool
    ensures arm { result ≡ any_pass (nat_eq component) (map (λ a. a.0) arms.now) }
{
    'arms: for (other, _) in arms {
        if component == *other as usize {
            return true;
        }
    }
    false
}

#[tactic(auto, using(crate::proofs::Stops::each_next))]
fn has_each(arms: &[(u32, Vec<TypedStmt>)], count: usize) -> bool
    ensures each { result ≡ all_pass (λ c. any_pass (nat_eq c) (map (λ a. a.0) arms.now)) (range 0 count) }
{
    let mut component: usize = 0;
    'components: while component < count {
        if !has_arm(arms, component) {
            return false;
        }
        component += 1;
    }
    true
}

/// Whether a type is a variant, and each of its components has an arm.
pub fn has_every_arm(types: &TypeTable, v: Option<TypeNo>, arms: &[(u32, Vec<TypedStmt>)]) -> bool
    ensures may { result ≡ may_be types.now.shapes (has_every_arm (map (λ a. a.0) arms.now)) (kind v) }
{
    match shape_of(types, v) {
        None => true,
        Some(shape) => match shape {
            Shape::Cases(parts) => {
                let parts = parts.as_slice();
                has_each(arms, parts.len())
            }
            _ => false,
        },
    }
}

/// Whether the paths of the arms of a `select` are there.
pub fn are_arms_there(frame: &Frame, arms: &[(TypedPath, TypedPath, Vec<TypedStmt>)]) -> bool
    ensures there { result ≡ all_pass (is_there (table_of frame.now) (variables_of frame.now)) (flat_map (λ (a : Arm). a.port ∷ a.target ∷ []) (map typed_arm_view arms.now)) }
{
    'arms: for (port, target, _) in arms {
        if !(is_there(frame, &port.path) && is_there(frame, &target.path)) {
            return false;
        }
    }
    true
}

/// Whether messages of the type at a target come from a port.
pub fn is_arm_fit(frame: &Frame, target: &TypedPath, port: &TypedPath) -> bool
    ensures fits { result ≡ fits_arm (table_of frame.now) (variables_of frame.now) (record { target = typed_path_view target.now; port = typed_path_view port.now }) }
{
    (is_own(frame, &target.path) && is_seen(frame, &port.path))
        && may_give(
            frame.types,
            type_of(frame, &port.path),
            type_of(frame, &target.path),
        )
}

/// Whether the arms of a `select` fit.
pub fn are_arms_fit(frame: &Frame, arms: &[(TypedPath, TypedPath, Vec<TypedStmt>)]) -> bool
    ensures fit { result ≡ all_pass (fits_arm (table_of frame.now) (variables_of frame.now)) (map typed_arm_view arms.now) }
{
    'arms: for (port, target, _) in arms {
        if !is_arm_fit(frame, target, port) {
            return false;
        }
    }
    true
}

/// Whether the exceptions of handlers are there.
pub fn are_handlers_there(exceptions: usize, handled: &[(ExcNo, Vec<TypedStmt>)]) -> bool
    ensures there { result ≡ all_pass (λ e. nat_lt e exceptions) (map (λ h. h.0.0) handled.now) }
{
    'handlers: for (e, _) in handled {
        if !((e.0 as usize) < exceptions) {
            return false;
        }
    }
    true
}
