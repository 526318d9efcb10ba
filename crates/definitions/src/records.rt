// What a job binds.

// Sources, as B0 of the record tape numbers them.
pub const IMPORT_SOURCE: u8 = 0;

pub const RUNTIME_SOURCE: u8 = 1;

// Names of imports, as B1 numbers them.
pub const FRAGMENT: u8 = 0;

pub const CREATE_ELEMENT: u8 = 1;

pub const JSX: u8 = 2;

pub const JSXS: u8 = 3;

pub const JSX_DEV: u8 = 4;

// A named import from a source (the source, the name), a require of a source, or the file name.
// kept: the C interface: records come in a caller's bytes, where a source or a name may be any byte
#[derive(Clone, Copy, PartialEq, Eq)]
pub enum Import {
    Named(u8, u8),
    Default(u8),
    FileName,
}

#[derive(Clone, Copy, PartialEq, Eq)]
pub struct Record {
    pub import: Import,
    pub binding: u8,
}
