//! The paths of what is taken out for calls and returns.
ghost use Rattle.std.specs.Prelude.{◌≡◌, ◌++◌, ◌∷◌, [], flat_map, map, IfOk, ⊤};
ghost use Rattle.herm_code.specs.View.{argument_view};
ghost use Rattle.herm_code_machine.specs.CodeActions.{inouts};
ghost use Rattle.herm_forms.specs.Excess.{excess_over_full};
ghost use Rattle.herm_forms.specs.Frames as frames;
ghost use Rattle.herm_frames.specs.Standing.{Stands};
ghost use Rattle.herm_model.specs.Calls as calls;
ghost use Rattle.herm_pieces.specs.View.{ready_view};
ghost use Rattle.herm_types.specs.View.{mode_view, param_view, path_view};

use herm_code::Arg;
use herm_frames::Frame;
use herm_pieces::Code;
use herm_types::{Mode, Param, Path};
use std::alloc::{AllocError, Global};

/// The same path.
fn same(alloc: Global, p: &Path) -> Result<Path, AllocError>
    ensures path { IfOk result (λ q. path_view q ≡ path_view p.now) }
{
    let parts = Vec::from_slice(alloc, p.parts.as_slice())?;
    Ok(Path { var: p.var, parts })
}

/// The path of the part at a place.
fn part_at(alloc: Global, p: &Path, place: u32) -> Result<Path, AllocError>
    ensures path { IfOk result (λ q. path_view q ≡ path_view p.now ++ place ∷ []) }
{
    let mut parts = Vec::from_slice(alloc, p.parts.as_slice())?;
    parts.push(place)?;
    Ok(Path { var: p.var, parts })
}

/// The paths of the parts at these places.
pub fn parts_at(alloc: Global, p: &Path, places: &[u32]) -> Result<Vec<Path>, AllocError>
    ensures paths { IfOk result (λ v. map path_view v.items ≡ map (λ i. path_view p.now ++ i ∷ []) places.now) }
{
    let mut found = Vec::new(alloc);
    for place in places {
        let part = part_at(alloc, p, *place)?;
        found.push(part)?;
    }
    Ok(found)
}

/// Whether a parameter of this mode comes back to the caller.
fn is_returned(mode: Mode) -> bool
    ensures returned { result ≡ calls.is_returned (mode_view mode) }
{
    match mode {
        Mode::In => false,
        Mode::Inout => true,
        Mode::Out => true,
    }
}

/// The places of the parameters that come back.
pub fn returned_places(alloc: Global, params: &[Param]) -> Result<Vec<u32>, AllocError>
    ensures places { IfOk result (λ v. v.items ≡ calls.returned_places 0 (map param_view params.now)) }
{
    let mut found = Vec::new(alloc);
    for (i, param) in params.iter().enumerate() {
        // No memory holds more parameters than there are numbers of 32 bits.
        let Ok(place) = u32::try_from(i) else {
            return Err(AllocError);
        };
        if is_returned(param.mode) {
            found.push(place)?;
        }
    }
    Ok(found)
}

/// The paths of the arguments of mode inout, in order.
pub fn inout_paths(alloc: Global, arguments: &[Arg]) -> Result<Vec<Path>, AllocError>
    ensures paths { IfOk result (λ v. map path_view v.items ≡ inouts (map argument_view arguments.now)) }
{
    let mut found = Vec::new(alloc);
    for argument in arguments {
        let Arg::Inout(path) = argument else {
            continue;
        };
        let path = same(alloc, path)?;
        found.push(path)?;
    }
    Ok(found)
}

/// The paths of what the values at these paths hold beyond full ones, one list behind the other.
pub fn excess_of(
    alloc: Global,
    code: &Code,
    frame: &Frame,
    paths: &[Path],
) -> Result<Vec<Path>, AllocError>
    ensures lost { IfOk result (λ lost. (s : frames.Frame ⊤) → Stands frame.now s → map path_view lost.items ≡ flat_map (λ p. excess_over_full (ready_view code.now).scope p s) (map path_view paths.now)) }
{
    let lost = frame.excess_of(alloc, code.types, code.code.vars.as_slice(), paths)?;
    Ok(lost)
}
