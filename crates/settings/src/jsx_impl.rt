// What `JsxImpl::new` decides (jsx_impl.rs).
ghost use Rattle.std.specs.Prelude.{◌≡◌};
ghost use Rattle.definitions.specs.Opening.{mode_of, settings_with};

use definitions::options::{Flags, Form, InvalidPart, Mode, Options, Settings};
use pragma::form_by;

#[tactic(auto, unfolding(definitions::specs::Opening::mode_of))]
pub fn mode_of(f: Flags) -> Mode
    ensures { result ≡ mode_of f }
{
    if f.classic {
        return Mode::Classic;
    }
    if f.module {
        return Mode::Module;
    }
    Mode::Script
}

// The settings, with both pragmas as they were read under the mode of these options.
pub fn new(
    options: Options,
    read: Result<Option<Form>, InvalidPart>,
    read_frag: Result<Option<Form>, InvalidPart>,
) -> Settings
    ensures { result ≡ settings_with options read read_frag }
{
    // only where all that concerns it is left at its default, or where it is asked for
    let pure = options.flags.pure | (options.import_source.is_none() & options.pragma.is_none());
    Settings {
        options,
        pure,
        mode: mode_of(options.flags),
        pragma: form_by(read),
        pragma_frag: form_by(read_frag),
    }
}
