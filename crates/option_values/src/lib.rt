// What options alone give: the flags of a number, what development turns on (options.rs), and the number of a pragma's root.
#![tactic(auto)]

ghost use Rattle.std.specs.Prelude.{◌≡◌, ◌<◌};
ghost use Rattle.definitions.specs.Options.{bit, flags_of};
ghost use Rattle.definitions.specs.Options as options;
ghost use Rattle.definitions.specs.States.{root_number};

use definitions::options::{Flags, PragmaRoot};

fn bit(i: u32, n: u16) -> bool
    requires { i < 16 }
    ensures { result ≡ bit i n }
{
    (n >> i) % 2 == 1
}

#[tactic(auto, unfolding(definitions::specs::Options::flags_of))]
pub fn flags_of(n: u16) -> Flags
    ensures { result ≡ flags_of n }
{
    Flags {
        jsx_plugin: bit(0, n),
        self_plugin: bit(1, n),
        source_plugin: bit(2, n),
        classic: bit(3, n),
        development: bit(4, n),
        throw_if_namespace: bit(5, n),
        pure: bit(6, n),
        module: bit(7, n),
    }
}

// Development turns the three plugins on.
#[tactic(auto, unfolding(definitions::specs::Options::conform))]
pub fn conform(f: Flags) -> Flags
    ensures { result ≡ options.conform f }
{
    Flags {
        jsx_plugin: f.jsx_plugin | f.development,
        self_plugin: f.self_plugin | f.development,
        source_plugin: f.source_plugin | f.development,
        ..f
    }
}

// One number for each root, which stands for it in a state's bytes.
#[tactic(auto, unfolding(definitions::specs::States::root_number))]
pub fn pragma_root_number(root: PragmaRoot) -> u8
    ensures { result ≡ root_number root }
{
    root as u8
}
