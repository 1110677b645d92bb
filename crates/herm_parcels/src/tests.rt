//! Parameters and contents by hand.
use super::*;
use herm_base::{ProcNo, TypeNo};
use std::alloc::{AllocError, Global};
use std::test::Fail;

/// A callmessage with the parameters 5 and nothing.
fn message(alloc: Global) -> Result<CallMsg<u8>, AllocError> {
    let mut params = Vec::new(alloc);
    params.push(Some(5u8))?;
    params.push(None)?;
    Ok(CallMsg::new(ProcNo { number: 4 }, 7, params))
}

/// Whether a parameter is read, and then taken, as this value, and is empty then.
fn is_taken(call: &mut CallMsg<u8>, n: usize, value: Option<u8>) -> bool {
    if n >= call.params().len() || call.param(n).copied() != value {
        return false;
    }
    call.take_param(n) == value && call.params()[n].is_none()
}

/// Whether a parameter that has the old value gets the new one.
fn is_set(call: &mut CallMsg<u8>, n: usize, new: u8, old: Option<u8>) -> bool {
    if n >= call.params().len() {
        return false;
    }
    call.set_param(n, new) == old && call.params()[n] == Some(new)
}

#[test]
fn parameters_are_taken_and_set(rt: HostRuntime) -> Result<(), Fail> {
    let mut call = message(rt.alloc())?;
    assert!(rt; call.caller() == ProcNo { number: 4 } && call.call() == 7);
    assert!(rt; is_taken(&mut call, 0, Some(5)));
    assert!(rt; is_taken(&mut call, 1, None));
    assert!(rt; is_set(&mut call, 1, 6, None));
    assert!(rt; is_set(&mut call, 1, 8, Some(6)));
    assert!(rt; is_taken(&mut call, 1, Some(8)));
    assert!(rt; call.into_params().len() == 2);
    Ok(())
}

/// Whether a polymorph of type 9 around 1 is refused as too deep, with its content.
fn is_too_deep(alloc: Global, depth: u32) -> bool {
    if depth == 0 {
        return false;
    }
    match Poly::new(alloc, TypeNo(9), depth, 1u8) {
        Err(PolyFault::Deep(content)) => content == 1,
        _ => false,
    }
}

/// Whether a polymorph of type 9 around 1 unwraps as this type, and is handed back where it does not.
fn unwraps(alloc: Global, depth: u32, wanted: TypeNo) -> bool {
    if depth == 0 {
        return false;
    }
    match Poly::new(alloc, TypeNo(9), depth, 1u8) {
        Ok(poly) => match poly.unwrap_as(wanted) {
            Ok(content) => content == 1,
            Err(same) => !(same.tag() == TypeNo(9) && same.depth() == depth),
        },
        Err(_) => false,
    }
}

#[test]
fn contents_are_unwrapped_by_their_type(rt: HostRuntime) -> Result<(), Fail> {
    assert!(rt; unwraps(rt.alloc(), 16, TypeNo(9)));
    assert!(rt; !unwraps(rt.alloc(), 16, TypeNo(8)));
    assert!(rt; is_too_deep(rt.alloc(), 17));
    assert!(rt; !is_too_deep(rt.alloc(), 16));
    Ok(())
}
