// Numbers and tapes from a reader.
use std::io::Read;

// Room for a tape or a text that is too long by far.
pub const ROOM: usize = 131072;

// A number of four bytes; none where the input ends before.
pub fn read_number(input: &mut impl Read) -> Option<usize> {
    let mut bytes = [0u8; 4];
    input.read_exact(&mut bytes).ok()?;
    Some(u32::from_le_bytes(bytes) as usize)
}

// Reads a length and so many bytes, to the front of the buffer; none where the input ends before, or the buffer is too short.
pub fn read_part<'a>(input: &mut impl Read, buffer: &'a mut [u8]) -> Option<&'a [u8]> {
    let size = read_number(input)?;
    let part = buffer.get_mut(..size)?;
    input.read_exact(part).ok()?;
    Some(part)
}
