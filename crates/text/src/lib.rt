// Text as bytes: well-formed UTF-8, characters and their classes, spans, and parts compared with fixed words.
#![tactic(auto)]

pub mod bytes;
pub mod chars;
pub mod spans;
pub mod utf8;
