//! Numbers as text, in each form.

use number_text::{push_dec, push_hex, push_hex4, push_hex8};
use std::alloc::{AllocError, Global};

fn push_each(text: &mut Vec<u8>) -> Result<(), AllocError> {
    push_dec(text, 0)?;
    text.push(b' ')?;
    push_dec(text, u64::MAX)?;
    text.push(b' ')?;
    push_hex(text, 0)?;
    text.push(b' ')?;
    push_hex(text, 0x1007c)?;
    text.push(b' ')?;
    push_hex8(text, 0x00c0_80e7)?;
    text.push(b' ')?;
    push_hex4(text, 0x0c9a)
}

fn each_is_written(alloc: Global) -> Result<bool, AllocError> {
    let mut text = Vec::new(alloc);
    push_each(&mut text)?;
    Ok(text.as_slice() == b"0 18446744073709551615 0x0 0x1007c 00c080e7 0c9a".as_slice())
}

#[test]
fn numerals(rt: HostRuntime) {
    assert!(rt; each_is_written(rt.alloc()) == Ok(true));
}
