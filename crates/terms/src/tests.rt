// Terms compared, copied, lifted and substituted.
use crate::copy::{WriteError, copy_term};
use crate::lift::lift;
use crate::subst::subst;
use crate::walk::{end_of, equal};
use std::test::Fail;

// fun (x : Type 3) => x y, where y is an index that takes two words.
static FAR: [u32; 15] = [1, 0, 0, 4, 3, 0, 2, 0, 0, 3, 0, 0, 3, 1, 1];

// fun (x : Type 3) => x y, where y is the next index.
static NEAR: [u32; 15] = [1, 0, 0, 4, 3, 0, 2, 0, 0, 3, 0, 0, 3, 1, 0];

#[test]
fn compares(rt: HostRuntime) -> Result<(), Fail> {
    assert!(rt; end_of(&FAR, 0) == 15);
    assert!(rt; end_of(&FAR, 3) == 6);
    assert!(rt; equal(&FAR, 0, &FAR, 0));
    assert!(rt; !equal(&FAR, 0, &NEAR, 0));
    assert!(rt; equal(&FAR, 3, &NEAR, 3));
    Ok(())
}

#[test]
fn lifts(rt: HostRuntime) -> Result<(), Fail> {
    let mut out = [0; 15];
    let mut stack = [0; 4];
    let Ok(end) = lift(&FAR, 0, 0, 1, &mut out, 0, &mut stack) else {
        return Err(Fail::new("it does not fit"));
    };
    assert!(rt; end == 15);
    assert!(rt; out[10] == 0);
    assert!(rt; out[13] == 2);
    assert!(rt; out[14] == 1);
    Ok(())
}

#[test]
fn substitutes(rt: HostRuntime) -> Result<(), Fail> {
    let mut out = [0; 27];
    let mut stack = [0; 9];
    let Ok(end) = subst(&NEAR, 0, 0, &NEAR, 0, &mut out, 0, &mut stack) else {
        return Err(Fail::new("it does not fit"));
    };
    assert!(rt; end == 27);
    assert!(rt; out[12] == 1);
    assert!(rt; out[21] == 3);
    assert!(rt; out[22] == 0);
    assert!(rt; out[25] == 2);
    Ok(())
}

#[test]
fn says_no_room(rt: HostRuntime) -> Result<(), Fail> {
    let mut out = [0; 14];
    let mut stack = [0; 1];
    assert!(rt; copy_term(&FAR, 0, &mut out, 0).is_none());
    if let Err(WriteError::NoStack) = lift(&FAR, 0, 0, 1, &mut out, 0, &mut stack) {
        return Ok(());
    }
    Err(Fail::new("a stack of one word"))
}
