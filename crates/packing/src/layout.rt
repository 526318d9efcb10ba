// Where each part of a packed state stands, and the sizes of its parts.

const OPTIONAL_SIZE: usize = 5;

const FORM_SIZE: usize = 9;

pub const RECORD_SIZE: usize = 4;

const NUMBER_SIZE: usize = 8;

// The options.
pub const FLAGS: usize = 0;

pub const PRAGMA: usize = 1;

pub const PRAGMA_FRAG: usize = PRAGMA + OPTIONAL_SIZE;

pub const IMPORT_SOURCE: usize = PRAGMA_FRAG + OPTIONAL_SIZE;

pub const TS_PRAGMA: usize = IMPORT_SOURCE + OPTIONAL_SIZE;

pub const TS_PRAGMA_FRAG: usize = TS_PRAGMA + OPTIONAL_SIZE;

// What follows from them.
pub const PURE: usize = TS_PRAGMA_FRAG + OPTIONAL_SIZE;

pub const MODE: usize = PURE + 1;

pub const FORM: usize = MODE + 1;

pub const FORM_FRAG: usize = FORM + FORM_SIZE;

pub const SETTINGS_SIZE: usize = FORM_FRAG + FORM_SIZE;

// The eight records, and behind them three numbers.
pub const RECORDS: usize = SETTINGS_SIZE;

pub const COUNT: usize = RECORDS + 8 * RECORD_SIZE;

pub const CALLS: usize = COUNT + NUMBER_SIZE;

pub const NOTICES: usize = CALLS + NUMBER_SIZE;

pub const STATE_SIZE: usize = NOTICES + NUMBER_SIZE;
