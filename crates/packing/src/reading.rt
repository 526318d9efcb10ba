// A state from its bytes. Bytes that packing never makes are turned away.
ghost use Rattle.std.specs.Prelude.{◌≡◌, ◌&&◌, ◌+◌, ◌*◌, ◌≤◌, ◌<◌, length, get_or, eqb, ltb};
ghost use Rattle.packing.specs.Packed.{if_good, optional_at, good_optional, form_at, import_of, import_good, record_at, good_record, options_at, settings_at, records_at, good_options, good_settings, good_records, unpacked, no_state};

use crate::layout;
use crate::layout::STATE_SIZE;
use definitions::options::{Form, Mode, Options, PragmaRoot, Settings};
use definitions::records::{Import, Record};
use definitions::state::{NO_RECORDS, State};
use option_values::flags_of;
use tape::limits::MAX_BINDINGS;
use tape::numbers::Operand;
use text::spans::Span;

// Whether an option is present (0, 1), and its span: zeros where it is absent.
#[tactic(auto, unfolding(crate::specs::Packed::optional_good, crate::specs::Packed::optional_of))]
fn optional_at(bytes: &[u8], at: usize) -> Option<Option<Span>>
    requires { at + 5 ≤ length bytes.now }
    ensures { result ≡ if_good (good_optional bytes.now at) (optional_at bytes.now at) }
{
    match (bytes[at], Span::read(bytes, at + 1)) {
        (0, Span { start: 0, len: 0 }) => Some(None),
        (1, span) => Some(Some(span)),
        _ => None,
    }
}

fn pure_of(n: u8) -> Option<bool>
    ensures { result ≡ if_good (ltb n 2) (eqb n 1) }
{
    match n {
        0 => Some(false),
        1 => Some(true),
        _ => None,
    }
}

fn form_at(bytes: &[u8], at: usize) -> Option<Form>
    requires { at + 9 ≤ length bytes.now }
    ensures { result ≡ if_good (ltb (get_or bytes.now at 0) 4) (form_at bytes.now at) }
{
    Some(Form {
        root: PragmaRoot::try_from(bytes[at]).ok()?,
        tail: u64::read(bytes, at + 1) as usize,
    })
}

#[tactic(auto, unfolding(crate::specs::Packed::import_good, crate::specs::Packed::import_of))]
fn import_of(kind: u8, source: u8, name: u8) -> Option<Import>
    ensures { result ≡ if_good (import_good kind source name) (import_of kind source name) }
{
    match (kind, source, name) {
        (0, _, _) => Some(Import::Named(source, name)),
        (1, _, 0) => Some(Import::Default(source)),
        (2, 0, 0) => Some(Import::FileName),
        _ => None,
    }
}

// The record from a place on.
fn record_at(bytes: &[u8], at: usize) -> Option<Record>
    requires { at + 4 ≤ length bytes.now }
    ensures { result ≡ if_good (good_record bytes.now at) (record_at bytes.now at) }
{
    Some(Record {
        import: import_of(bytes[at], bytes[at + 1], bytes[at + 2])?,
        binding: bytes[at + 3],
    })
}

#[tactic(auto, unfolding(crate::specs::Packed::good_options, crate::specs::Packed::options_at))]
fn options_at(bytes: &[u8; STATE_SIZE]) -> Option<Options>
    ensures { result ≡ if_good (good_options bytes.now) (options_at bytes.now) }
{
    Some(Options {
        flags: flags_of(bytes[layout::FLAGS] as u16),
        pragma: optional_at(bytes, layout::PRAGMA)?,
        pragma_frag: optional_at(bytes, layout::PRAGMA_FRAG)?,
        import_source: optional_at(bytes, layout::IMPORT_SOURCE)?,
        ts_pragma: optional_at(bytes, layout::TS_PRAGMA)?,
        ts_pragma_frag: optional_at(bytes, layout::TS_PRAGMA_FRAG)?,
    })
}

#[tactic(auto, unfolding(crate::specs::Packed::good_settings, crate::specs::Packed::settings_at))]
fn settings_at(bytes: &[u8; STATE_SIZE]) -> Option<Settings>
    ensures { result ≡ if_good (good_options bytes.now && good_settings bytes.now) (settings_at bytes.now) }
{
    Some(Settings {
        options: options_at(bytes)?,
        pure: pure_of(bytes[layout::PURE])?,
        mode: Mode::try_from(bytes[layout::MODE]).ok()?,
        pragma: form_at(bytes, layout::FORM)?,
        pragma_frag: form_at(bytes, layout::FORM_FRAG)?,
    })
}

// The record with this number.
fn record(bytes: &[u8; STATE_SIZE], number: usize) -> Option<Record>
    requires { number < 8 }
    ensures { let at = 46 + 4 * number in result ≡ if_good (good_record bytes.now at) (record_at bytes.now at) }
{
    record_at(bytes, layout::RECORDS + number * layout::RECORD_SIZE)
}

#[tactic(auto, unfolding(crate::specs::Packed::good_records, crate::specs::Packed::records_at))]
fn records_at(bytes: &[u8; STATE_SIZE]) -> Option<[Record; 8]>
    ensures { result ≡ if_good (good_records bytes.now) (records_at bytes.now) }
{
    Some([
        record(bytes, 0)?,
        record(bytes, 1)?,
        record(bytes, 2)?,
        record(bytes, 3)?,
        record(bytes, 4)?,
        record(bytes, 5)?,
        record(bytes, 6)?,
        record(bytes, 7)?,
    ])
}

// A state that every entry refuses, for a caller that must have one.
#[tactic(auto, unfolding(definitions::specs::Options::flags_of))]
pub fn no_state() -> State
    ensures { result ≡ no_state }
{
    State {
        settings: Settings {
            options: Options::default(),
            pure: false,
            mode: Mode::Script,
            pragma: Form::default(),
            pragma_frag: Form::default(),
        },
        records: NO_RECORDS,
        count: MAX_BINDINGS + 1,
        calls: 0,
        notices: 0,
    }
}

// The state that these bytes are, if they are one's.
#[tactic(auto, unfolding(crate::specs::Packed::unpacked, crate::specs::Packed::good, crate::specs::Packed::state_at))]
pub fn unpack(bytes: &[u8]) -> Option<State>
    ensures { result ≡ unpacked bytes.now }
{
    let bytes = <&[u8; STATE_SIZE]>::try_from(bytes).ok()?;
    Some(State {
        settings: settings_at(bytes)?,
        records: records_at(bytes)?,
        count: u64::read(bytes, layout::COUNT) as usize,
        calls: u64::read(bytes, layout::CALLS) as usize,
        notices: u64::read(bytes, layout::NOTICES) as usize,
    })
}
