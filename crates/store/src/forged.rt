// Which states are forged: "over 8 records, a settings span or pragma form that this text does not bear out, records not numbered without gaps, a
// repeated pair, or a record its mode cannot make", and for a root "a call or notice fill above its target".
ghost use Rattle.std.specs.Prelude.{◌≡◌, not, ◌||◌, []};
ghost use Rattle.definitions.specs.Store.{source_of, can_name, can_import, can_require, can_bind};
ghost use Rattle.definitions.specs.Opening.{form_under, over_ascii_in, if_classic};
ghost use Rattle.definitions.specs.States.{in_order, borne_out, spans_borne_out, form_borne_out, forms_borne_out, sound, overfilled};
ghost use Rattle.store.specs.Following.{following};

use definitions::options::{Form, Mode, Options, Settings};
use definitions::records::{
    CREATE_ELEMENT, FRAGMENT, IMPORT_SOURCE, Import, JSX, JSX_DEV, JSXS, RUNTIME_SOURCE, Record,
};
use definitions::state::State;
use pragma::{form_under, over_ascii_under};
use records::finding::number_in;
use text::spans::{Bounds, Span, span_bounds};

// ---- the settings

// Within the text, cutting no character; an empty span is in order.
#[tactic(auto, unfolding(definitions::specs::States::in_order))]
fn in_order(bounds: Bounds) -> bool
    ensures { result ≡ in_order bounds }
{
    matches!(bounds, Bounds::Empty | Bounds::Good)
}

#[tactic(auto, unfolding(definitions::specs::States::borne_out))]
fn borne_out(text: &[u8], setting: Option<Span>) -> bool
    ensures { result ≡ borne_out text.now setting }
{
    setting.is_none_or(|span| in_order(span_bounds(text, span)))
}

fn spans_borne_out(text: &[u8], options: Options) -> bool
    ensures { result ≡ spans_borne_out text.now options }
{
    borne_out(text, options.pragma)
        & borne_out(text, options.pragma_frag)
        & borne_out(text, options.import_source)
        & borne_out(text, options.ts_pragma)
        & borne_out(text, options.ts_pragma_frag)
}

// Whether the text bears out the form of a pragma: it does for none that has a byte over 7F, since no opening takes it.
#[tactic(auto, using(crate::proofs::Forms::same_by_eq), unfolding(definitions::specs::States::form_borne_out))]
fn form_borne_out(text: &[u8], mode: Mode, pragma: Option<Span>, form: Form) -> bool
    ensures { result ≡ form_borne_out (if_classic mode (over_ascii_in text.now pragma)) form (form_under mode text.now pragma) }
{
    over_ascii_under(mode, text, pragma).is_none() && form == form_under(mode, text, pragma)
}

fn forms_borne_out(text: &[u8], settings: Settings) -> bool
    ensures { result ≡ forms_borne_out text.now settings }
{
    let mode = settings.mode;
    let options = settings.options;
    form_borne_out(text, mode, options.pragma, settings.pragma)
        & form_borne_out(text, mode, options.pragma_frag, settings.pragma_frag)
}

// ---- the records

// createElement is of the import source, every other name of the runtime source.
// kept: a name and a source are numbers of the record tape, as in `Import` and in the definition; any is taken, and an enum would ask more of callers
pub fn source_of(name: u8) -> u8
    ensures { result ≡ source_of name }
{
    match name {
        CREATE_ELEMENT => IMPORT_SOURCE,
        _ => RUNTIME_SOURCE,
    }
}

fn can_name(development: bool, name: u8) -> bool
    ensures { result ≡ can_name development name }
{
    match name {
        CREATE_ELEMENT | FRAGMENT => true,
        JSX_DEV => development,
        JSX | JSXS => !development,
        _ => false,
    }
}

#[tactic(auto, unfolding(definitions::specs::Store::can_import))]
fn can_import(mode: Mode, development: bool, source: u8, name: u8) -> bool
    ensures { result ≡ can_import mode development source name }
{
    matches!(mode, Mode::Module) && can_name(development, name) && source == source_of(name)
}

#[tactic(auto, unfolding(definitions::specs::Store::can_require))]
fn can_require(mode: Mode, source: u8) -> bool
    ensures { result ≡ can_require mode source }
{
    matches!(mode, Mode::Script) && source <= RUNTIME_SOURCE
}

#[tactic(auto, unfolding(definitions::specs::Store::can_bind))]
fn can_bind(settings: Settings, import: Import) -> bool
    ensures { result ≡ can_bind settings import }
{
    let mode = settings.mode;
    match import {
        Import::Named(source, name) => {
            can_import(mode, settings.options.flags.development, source, name)
        }
        Import::Default(source) => can_require(mode, source),
        Import::FileName => settings.options.flags.source_plugin,
    }
}

// Whether each record has its place for its number, binds what none before it binds, and is one that these settings can make.
fn follow(settings: Settings, records: &[Record]) -> bool
    ensures { result ≡ following settings 0 [] records.now }
{
    for (i, record) in records.iter().enumerate() {
        let numbered = record.binding as usize == i;
        let repeated = number_in(&records[..i], record.import).is_some();
        if !(numbered & !repeated & can_bind(settings, record.import)) {
            return false;
        }
    }
    true
}

// ---- the state

// Whether the state is one that opening or a root could have left over this text, its fills aside.
pub fn is_sound(text: &[u8], state: State) -> bool
    ensures { result ≡ sound text.now state }
{
    let Some(records) = state.records.get(..state.count) else {
        return false;
    };
    let settings = state.settings;
    spans_borne_out(text, settings.options)
        & forms_borne_out(text, settings)
        & follow(settings, records)
}

// Whether a root turns the state away, over targets of these lengths.
pub fn is_forged(text: &[u8], state: State, call_room: usize, notice_room: usize) -> bool
    ensures { result ≡ (not (sound text.now state) || overfilled state call_room notice_room) }
{
    !is_sound(text, state) | ((call_room < state.calls) | (notice_room < state.notices))
}
