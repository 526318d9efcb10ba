// States by their packed bytes: some replaced, and two compared.
use definitions::state::State;
use packing::layout::STATE_SIZE;
use packing::reading::{no_state, unpack};
use packing::writing::pack;
use std::io::{Result, Write};
use vectors::lines::{after, before};
use vectors::values::{hex_bytes, value_of};

// Puts bytes at a place, where a field names one: `78 09`.
fn replace(bytes: &mut [u8], field: &[u8]) {
    let at = value_of(before(field, b' ')) as usize;
    if let Some(left) = bytes.get_mut(at..) {
        hex_bytes(after(field, b' '), left);
    }
}

fn packed(state: State) -> [u8; STATE_SIZE] {
    let mut bytes = [0u8; STATE_SIZE];
    let _ = pack(state, &mut bytes);
    bytes
}

// The state with the bytes replaced that a field names: one place, or two with a comma between them.
pub fn replaced(out: &mut impl Write, state: State, field: &[u8]) -> Result<State> {
    if field.is_empty() {
        return Ok(state);
    }
    let mut bytes = packed(state);
    replace(&mut bytes, before(field, b','));
    replace(&mut bytes, after(field, b','));
    match unpack(&bytes) {
        Some(changed) => Ok(changed),
        None => {
            write!(out, " no state's bytes")?;
            Ok(no_state())
        }
    }
}

// kept: nothing else compares states, so that they and what they hold have no `==`; their packed bytes have.
pub fn is_same(a: State, b: State) -> bool {
    packed(a) == packed(b)
}
