// How long a text or a tape may be; docs/TAPES.md, refusal 1.
pub const MAX_LENGTH: usize = 65535;

// How many things a job may bind; docs/TAPES.md, refusal 9.
pub const MAX_BINDINGS: usize = 8;
