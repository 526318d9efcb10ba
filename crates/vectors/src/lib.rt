// What test programs share. A file of vectors has one on a line, as `OPERATION OPERANDS = EXPECTED   # origin`: its lines and words, bytes in
// hexadecimal, words as numbers, and answers that can be compared.
#![tactic(auto)]

pub mod answers;
pub mod lines;
pub mod values;
