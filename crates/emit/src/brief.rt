// What lowering asks of the settings as one byte, and read back from it. Lowering itself takes the settings (context.rt).
ghost use Rattle.std.specs.Prelude.{◌≡◌, cond, ◌≤◌};
ghost use Rattle.emit.specs.Outlines.{outline, settings_in, mode_bits};

use definitions::options::{Mode, Settings};

fn flag(on: bool, bit: u8) -> u8
    ensures value { result ≡ cond on bit 0 }
    ensures upper_bound { result ≤ bit }
{
    if on { bit } else { 0 }
}

fn mode_bits(mode: Mode) -> u8
    ensures value { result ≡ mode_bits mode }
    ensures upper_bound { result ≤ 128 }
{
    match mode {
        Mode::Module => 128,
        Mode::Script => 0,
        Mode::Classic => 8,
    }
}

pub fn brief(settings: Settings) -> u8
    ensures { settings_in result ≡ outline settings }
{
    let options = settings.options;
    let flags = options.flags;
    let mode = settings.mode;
    flag(flags.self_plugin, 2)
        + flag(flags.source_plugin, 4)
        + flag(flags.development, 16)
        + flag(flags.throw_if_namespace, 32)
        + flag(settings.pure, 64)
        + mode_bits(mode)
}

pub fn has_self_plugin(brief: u8) -> bool
    ensures { result ≡ (settings_in brief).options.flags.self_plugin }
{
    brief / 2 % 2 == 1
}

pub fn has_source_plugin(brief: u8) -> bool
    ensures { result ≡ (settings_in brief).options.flags.source_plugin }
{
    brief / 4 % 2 == 1
}

pub fn is_development(brief: u8) -> bool
    ensures { result ≡ (settings_in brief).options.flags.development }
{
    brief / 16 % 2 == 1
}

pub fn throws_if_namespace(brief: u8) -> bool
    ensures { result ≡ (settings_in brief).options.flags.throw_if_namespace }
{
    brief / 32 % 2 == 1
}

pub fn is_pure(brief: u8) -> bool
    ensures { result ≡ (settings_in brief).pure }
{
    brief / 64 % 2 == 1
}

pub fn mode_of(brief: u8) -> Mode
    ensures { result ≡ (settings_in brief).mode }
{
    if brief / 8 % 2 == 1 {
        return Mode::Classic;
    }
    if brief / 128 % 2 == 1 {
        return Mode::Module;
    }
    Mode::Script
}
