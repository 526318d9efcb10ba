// The settings of a job that was opened, in words.
use crate::showing::say_hex;
use definitions::options::{Flags, Form, Mode, PragmaRoot, Settings};
use std::io::{Result, Write};
use text::spans::{Span, part};

fn mode_name(mode: Mode) -> &'static str {
    match mode {
        Mode::Classic => " classic",
        Mode::Script => " script",
        Mode::Module => " module",
    }
}

fn say_flag(out: &mut impl Write, name: &str, flag: bool) -> Result<()> {
    let digit = if flag { " 1" } else { " 0" };
    write!(out, "{name}{digit}")
}

fn say_flags(out: &mut impl Write, flags: Flags, pure: bool) -> Result<()> {
    say_flag(out, " plugin", flags.jsx_plugin)?;
    say_flag(out, " self", flags.self_plugin)?;
    say_flag(out, " source", flags.source_plugin)?;
    say_flag(out, " development", flags.development)?;
    say_flag(out, " throw", flags.throw_if_namespace)?;
    say_flag(out, " pure", pure)
}

// A part of the text behind a quote, or that there is none.
fn say_value(out: &mut impl Write, text: &[u8], value: Option<Span>) -> Result<()> {
    match value {
        None => write!(out, " -"),
        Some(span) => {
            write!(out, " '")?;
            say_hex(out, part(text, span))
        }
    }
}

fn root_name(root: PragmaRoot) -> &'static str {
    match root {
        PragmaRoot::Default => " default.",
        PragmaRoot::This => " this.",
        PragmaRoot::ImportMeta => " importmeta.",
        PragmaRoot::Identifier => " identifier.",
    }
}

// The form of a pragma, which only classic jobs have.
fn say_form(out: &mut impl Write, mode: Mode, form: Form) -> Result<()> {
    match mode {
        Mode::Classic => {
            let root = root_name(form.root);
            let tail = form.tail;
            write!(out, "{root}{tail}")
        }
        Mode::Script | Mode::Module => write!(out, " -"),
    }
}

pub fn show_settings(out: &mut impl Write, text: &[u8], settings: Settings) -> Result<()> {
    let Settings { options, mode, .. } = settings;
    let name = mode_name(mode);
    write!(out, "{name}")?;
    say_flags(out, options.flags, settings.pure)?;
    write!(out, " pragma")?;
    say_value(out, text, options.pragma)?;
    say_form(out, mode, settings.pragma)?;
    write!(out, " frag")?;
    say_value(out, text, options.pragma_frag)?;
    say_form(out, mode, settings.pragma_frag)?;
    write!(out, " import")?;
    say_value(out, text, options.import_source)?;
    write!(out, " typescript")?;
    say_value(out, text, options.ts_pragma)?;
    say_value(out, text, options.ts_pragma_frag)?;
    writeln!(out)
}
