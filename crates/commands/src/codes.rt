// The codes of the commands, by the names that docs/TAPES.md lists them by.
// kept: bytes of a tape, which readers match as they stand: an enum of them would need a match of its own to be read

// ---- opening tape

// The first command.
pub const FLAGS: u8 = 0x61;

// Options, each once at most and in this order.
pub const PRAGMA: u8 = 0x62;

pub const PRAGMA_FRAG: u8 = 0x63;

pub const IMPORT_SOURCE: u8 = 0x64;

// Any number of comments.
pub const COMMENT: u8 = 0x60;

// ---- root tape

// What a root stands in.
pub const HERITAGE: u8 = 0x01;

pub const SCOPE: u8 = 0x02;

// Elements and fragments, and the ends of their lists.
pub const ELEMENT: u8 = 0x10;

pub const FRAGMENT: u8 = 0x11;

pub const END_ATTRIBUTES: u8 = 0x1e;

pub const END: u8 = 0x1f;

// An element's name.
pub const TAG: u8 = 0x20;

pub const TAG_IDENTIFIER: u8 = 0x21;

pub const TAG_THIS: u8 = 0x22;

pub const TAG_NAMESPACED: u8 = 0x23;

pub const TAG_MEMBER: u8 = 0x25;

// Attributes.
pub const ATTRIBUTE: u8 = 0x30;

pub const ATTRIBUTE_NAMESPACED: u8 = 0x31;

pub const SPREAD_ATTRIBUTE: u8 = 0x32;

pub const LITERAL: u8 = 0x33;

// The properties of an object literal that is spread.
pub const PROPERTY: u8 = 0x34;

pub const NAMED_PROPERTY: u8 = 0x36;

pub const END_LITERAL: u8 = 0x35;

// An attribute's value; the last two are children too.
pub const NO_VALUE: u8 = 0x40;

pub const STRING_VALUE: u8 = 0x41;

pub const CONTAINER: u8 = 0x42;

pub const EMPTY_CONTAINER: u8 = 0x43;

// Children.
pub const TEXT: u8 = 0x50;

pub const SPREAD_CHILD: u8 = 0x51;
