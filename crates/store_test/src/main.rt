// The record tapes of module_imports.rs's cases, and a forged state of every kind. Each line says what was answered, and then what all of the
// target holds, each byte of which was EE.
#![tactic(auto)]

mod show;
mod states;

use definitions::options::{Form, Mode, Options, PragmaRoot, Settings};
use definitions::records::Import;
use definitions::state::State;
use files::CANNOT_WRITE;
use show::{show, show_added, show_forged, show_over};
use states::{bind, filled, opened, put, settings};
use std::io;
use std::io::{Result, Write};
use text::spans::Span;

const JSX: Import = Import::Named(1, 2);

const CREATE_ELEMENT: Import = Import::Named(0, 1);

const FRAGMENT: Import = Import::Named(1, 0);

// kept: each line has its own label and its own state, so that the two and the writer are no value of their own.

// ---- tapes

fn modules(out: &mut impl Write, module: State) -> Result<()> {
    show(out, "nothing bound", module, 1)?;
    show(out, "jsx", bind(module, JSX), 6)?;
    show(out, "jsx twice", bind(bind(module, JSX), JSX), 6)
}

fn groups(out: &mut impl Write, module: State) -> Result<()> {
    show(
        out,
        "createElement first",
        bind(bind(module, CREATE_ELEMENT), JSX),
        11,
    )?;
    show(
        out,
        "createElement last",
        bind(bind(module, JSX), CREATE_ELEMENT),
        11,
    )?;
    show(
        out,
        "fragment, then jsx",
        bind(bind(module, FRAGMENT), JSX),
        9,
    )?;
    let three = bind(bind(bind(module, JSX), CREATE_ELEMENT), FRAGMENT);
    show(out, "all four names", bind(three, Import::Named(1, 3)), 17)
}

fn fronts(out: &mut impl Write, script: State) -> Result<()> {
    show(
        out,
        "require 1, then 0",
        bind(bind(script, Import::Default(1)), Import::Default(0)),
        9,
    )?;
    show(
        out,
        "require 0, then 1",
        bind(bind(script, Import::Default(0)), Import::Default(1)),
        9,
    )
}

// The file name is bound first, and its entry is last.
fn file_names(out: &mut impl Write, module: State, script: State, classic: State) -> Result<()> {
    show(
        out,
        "file name in a module",
        bind(bind(module, Import::FileName), Import::Named(1, 4)),
        9,
    )?;
    show(
        out,
        "file name in a script",
        bind(bind(script, Import::FileName), Import::Default(1)),
        8,
    )?;
    show(
        out,
        "file name in classic",
        bind(classic, Import::FileName),
        4,
    )
}

fn rooms(out: &mut impl Write, script: State) -> Result<()> {
    let two = bind(bind(script, Import::Default(1)), Import::Default(0));
    show(out, "exactly full", two, 8)?;
    show(out, "one byte short", two, 7)?;
    show(out, "no room", two, 0)?;
    show(out, "nothing bound, no room", script, 0)
}

// ---- the order of refusals

fn order(out: &mut impl Write, forged: State) -> Result<()> {
    let long = [0u8; 65536];
    show_over(out, "1 before 12", &long, forged, 2)?;
    show_over(out, "2 before 12", b"a\xc3", forged, 2)?;
    show(out, "12 before 10", forged, 0)
}

// ---- forged records

fn numbers(out: &mut impl Write, module: State) -> Result<()> {
    let one = bind(module, JSX);
    show(out, "numbered from 1", put(module, JSX, 1), 2)?;
    show(out, "a gap", put(one, FRAGMENT, 2), 2)?;
    show(out, "a number twice", put(one, FRAGMENT, 0), 2)
}

fn repeated(out: &mut impl Write, module: State, script: State) -> Result<()> {
    show(
        out,
        "a named import twice",
        put(put(module, JSX, 0), JSX, 1),
        2,
    )?;
    show(
        out,
        "a require twice",
        put(put(script, Import::Default(1), 0), Import::Default(1), 1),
        2,
    )?;
    show(
        out,
        "a file name twice",
        put(put(script, Import::FileName, 0), Import::FileName, 1),
        2,
    )
}

fn counts(out: &mut impl Write, module: State) -> Result<()> {
    let one = bind(module, JSX);
    show(out, "9 records", filled(one, 9, 0, 0), 2)?;
    show(
        out,
        "2 ^ 64 - 1 records",
        filled(one, 0xffff_ffff_ffff_ffff, 0, 0),
        2,
    )?;
    show(out, "8 records", filled(one, 8, 0, 0), 2)?;
    let dead = put(one, Import::Named(9, 9), 9);
    show(
        out,
        "records behind the count are none",
        filled(dead, 1, 0, 0),
        6,
    )
}

// ---- records that the mode cannot make

fn modules_cannot(out: &mut impl Write, module: State) -> Result<()> {
    show(
        out,
        "a require in a module",
        put(module, Import::Default(0), 0),
        2,
    )?;
    show(out, "name 5", put(module, Import::Named(1, 5), 0), 2)?;
    show(
        out,
        "createElement of the runtime",
        put(module, Import::Named(1, 1), 0),
        2,
    )?;
    show(
        out,
        "jsx of the import source",
        put(module, Import::Named(0, 2), 0),
        2,
    )
}

fn plugins_cannot(out: &mut impl Write, module: State, development: State) -> Result<()> {
    show(
        out,
        "file name without the plugin",
        put(module, Import::FileName, 0),
        2,
    )?;
    show(
        out,
        "jsxDEV without development",
        put(module, Import::Named(1, 4), 0),
        2,
    )?;
    show(out, "jsx in development", put(development, JSX, 0), 2)?;
    show(
        out,
        "jsxs in development",
        put(development, Import::Named(1, 3), 0),
        2,
    )
}

fn others_cannot(out: &mut impl Write, script: State, classic: State) -> Result<()> {
    show(out, "a named import in a script", put(script, JSX, 0), 2)?;
    show(out, "source 2", put(script, Import::Default(2), 0), 2)?;
    show(
        out,
        "a named import in classic",
        put(classic, CREATE_ELEMENT, 0),
        2,
    )?;
    show(
        out,
        "a require in classic",
        put(classic, Import::Default(0), 0),
        2,
    )
}

// ---- forged settings

fn at(start: u16, len: u16) -> Option<Span> {
    Some(Span { start, len })
}

// Settings over `a` and a character of two bytes.
fn show_spans(out: &mut impl Write, label: &str, settings: Settings) -> Result<()> {
    show_over(out, label, b"a\xc3\xa9", opened(settings), 2)
}

fn show_options(
    out: &mut impl Write,
    label: &str,
    settings: Settings,
    options: Options,
) -> Result<()> {
    show_spans(
        out,
        label,
        Settings {
            options,
            ..settings
        },
    )
}

fn pragma_spans(out: &mut impl Write, settings: Settings) -> Result<()> {
    let options = settings.options;
    let far = at(0, 4);
    let cases = [
        (
            "pragma outside",
            Options {
                pragma: far,
                ..options
            },
        ),
        (
            "fragment pragma outside",
            Options {
                pragma_frag: far,
                ..options
            },
        ),
        (
            "TypeScript pragma outside",
            Options {
                ts_pragma: far,
                ..options
            },
        ),
        (
            "its fragment pragma outside",
            Options {
                ts_pragma_frag: far,
                ..options
            },
        ),
    ];
    for (label, options) in cases {
        show_options(out, label, settings, options)?;
    }
    Ok(())
}

fn show_source(
    out: &mut impl Write,
    label: &str,
    settings: Settings,
    import_source: Option<Span>,
) -> Result<()> {
    let options = settings.options;
    show_options(
        out,
        label,
        settings,
        Options {
            import_source,
            ..options
        },
    )
}

fn source_spans(out: &mut impl Write, settings: Settings) -> Result<()> {
    show_source(out, "import source outside", settings, at(0, 4))?;
    show_source(out, "far outside", settings, at(65535, 65535))?;
    show_source(out, "cut at its start", settings, at(2, 1))?;
    show_source(out, "cut at its end", settings, at(0, 2))
}

fn empty_spans(out: &mut impl Write, settings: Settings) -> Result<()> {
    show_source(out, "empty within a character", settings, at(2, 0))?;
    show_source(out, "empty at the end", settings, at(3, 0))?;
    show_source(out, "the whole text", settings, at(0, 3))
}

fn form(root: PragmaRoot, tail: usize) -> Form {
    Form { root, tail }
}

// `a.b` for both pragmas, which are said to have these forms.
fn show_forms(
    out: &mut impl Write,
    label: &str,
    mode: Mode,
    pragma: Form,
    pragma_frag: Form,
) -> Result<()> {
    let given = settings(mode, false, false);
    let options = Options {
        pragma: at(0, 3),
        pragma_frag: at(0, 3),
        ..given.options
    };
    let forged = Settings {
        options,
        pragma,
        pragma_frag,
        ..given
    };
    show_over(out, label, b"a.b", opened(forged), 2)
}

fn pragma_forms(out: &mut impl Write) -> Result<()> {
    let right = form(PragmaRoot::Identifier, 1);
    let wrong = form(PragmaRoot::Default, 0);
    show_forms(out, "right forms", Mode::Classic, right, right)?;
    show_forms(
        out,
        "another root",
        Mode::Classic,
        form(PragmaRoot::This, 1),
        right,
    )?;
    show_forms(
        out,
        "another tail",
        Mode::Classic,
        form(PragmaRoot::Identifier, 2),
        right,
    )?;
    show_forms(
        out,
        "another form of the fragment",
        Mode::Classic,
        right,
        wrong,
    )
}

fn module_forms(out: &mut impl Write) -> Result<()> {
    let right = form(PragmaRoot::Default, 0);
    show_forms(out, "no forms in a module", Mode::Module, right, right)?;
    show_forms(
        out,
        "a form in a module",
        Mode::Module,
        form(PragmaRoot::Identifier, 1),
        right,
    )
}

// ---- fills, which only a root looks at

fn fills(out: &mut impl Write, module: State) -> Result<()> {
    show(out, "fills without a target", filled(module, 0, 9, 9), 1)?;
    show_forged(out, "fills at their targets", filled(module, 0, 8, 4), 8, 4)?;
    show_forged(
        out,
        "call fill above its target",
        filled(module, 0, 9, 4),
        8,
        4,
    )?;
    show_forged(
        out,
        "notice fill above its target",
        filled(module, 0, 8, 5),
        8,
        4,
    )?;
    show_forged(
        out,
        "9 records, empty targets",
        filled(module, 9, 0, 0),
        0,
        0,
    )
}

// ---- adding

fn adding(out: &mut impl Write, module: State) -> Result<()> {
    show_added(out, "the first", module, JSX)?;
    show_added(out, "a second", bind(module, JSX), FRAGMENT)?;
    show_added(
        out,
        "the first again",
        bind(bind(module, JSX), FRAGMENT),
        JSX,
    )
}

fn adding_last(out: &mut impl Write, seven: State) -> Result<()> {
    show_added(out, "the eighth", seven, FRAGMENT)?;
    show_added(out, "a ninth", filled(seven, 8, 0, 0), FRAGMENT)?;
    show_added(out, "one of eight", filled(seven, 8, 0, 0), JSX)?;
    show_added(out, "beyond eight", filled(seven, 9, 0, 0), JSX)
}

fn run(out: &mut impl Write) -> Result<()> {
    let bare = settings(Mode::Module, false, false);
    let module = opened(bare);
    let development = opened(settings(Mode::Module, true, true));
    let script = opened(settings(Mode::Script, false, true));
    let classic = opened(settings(Mode::Classic, false, true));
    modules(out, module)?;
    groups(out, module)?;
    fronts(out, script)?;
    file_names(out, development, script, classic)?;
    rooms(out, script)?;
    order(out, put(module, Import::FileName, 0))?;
    numbers(out, module)?;
    repeated(out, module, script)?;
    counts(out, module)?;
    modules_cannot(out, module)?;
    plugins_cannot(out, module, development)?;
    others_cannot(out, script, classic)?;
    pragma_spans(out, bare)?;
    source_spans(out, bare)?;
    empty_spans(out, bare)?;
    pragma_forms(out)?;
    module_forms(out)?;
    fills(out, module)?;
    adding(out, module)?;
    adding_last(out, filled(put(module, JSX, 0), 7, 0, 0))
}

fn main(rt: HostRuntime) {
    if run(&mut io::writer(&rt)).is_err() {
        let _ = rt.eprintln(CANNOT_WRITE);
    }
}
