// The commands of the record tape and of the notice tape by name. docs/TAPES.md says what each means.
// kept: each is written in one place, as the byte that it is, among others of one array; an enum would be turned back into it there

// Records: a source's group, a named import, a require, the file name.
pub const GROUP: u8 = 0xb0;

pub const NAMED: u8 = 0xb1;

pub const DEFAULT: u8 = 0xb2;

pub const FILE_NAME: u8 = 0xb3;

// Notices: the names of specs/Calls.
pub const VALUELESS_KEY: u8 = 0xc0;

pub const NAMESPACED_TAG: u8 = 0xc1;

pub const INVALID_PRAGMA: u8 = 0xc2;
