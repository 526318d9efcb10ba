// What was made of the front of a tape, and how many bytes of the tape that took.
// kept: a pair would be read by `.0` and `.1`; and the tape was checked before it comes here, so an error for one that doesn't read would have no reader
#[derive(Clone, Copy)]
pub struct Used<T> {
    pub value: T,
    pub used: usize,
}
