// How far a value, or the properties of an object literal, reach. On a tape that was checked that is what is read of them, though no text is looked at
// again, and nothing is nested: the commands are passed one after the other.
ghost use Rattle.std.specs.Prelude.{◌≡◌, List, ℕ, ◌≤◌, ◌<◌, ◌^◌, length};
ghost use Rattle.definitions.specs.Judging.{done};
ghost use Rattle.definitions.specs.Tree.{Property, Value};
ghost use Rattle.definitions.specs.Reading.{properties_at, value_at};
ghost use Rattle.root_check.specs.Skipping.{size_within, open_behind, value_passed, properties_passed};

use commands::root::{PropertyCommand, property_command_at};
use commands::sizes::command_size;
use commands::{codes, sizes};

// How many bytes the command with this code takes, if it stands within an element or a fragment.
#[tactic(auto, using(commands::proofs::Table::size_or_none), unfolding(crate::specs::Skipping::size_within))]
fn size_within(code: u8) -> Option<usize>
    ensures { result ≡ size_within code }
{
    if code < codes::ELEMENT {
        return None;
    }
    command_size(code)
}

// How many elements and fragments are open behind a command, with `levels` of them before it.
#[tactic(auto, unfolding(crate::specs::Skipping::open_behind))]
fn open_behind(code: u8, levels: usize) -> usize
    requires { levels < 2 ^ 63 }
    ensures { result ≡ open_behind code levels }
{
    match code {
        codes::ELEMENT | codes::FRAGMENT => levels + 1,
        codes::END => levels.saturating_sub(1),
        _ => levels,
    }
}

// How many bytes the value at the front of the tape takes, if one stands there that reads; otherwise those up to where none is open, or no whole
// command stands.
pub fn skip_value(tape: &[u8]) -> usize
    ensures within { result ≤ length tape.now }
    ensures read { (f : ℕ) (text : List ℕ) (d : ℕ) (v : Value) (u : ℕ) → length tape.now < f →
        value_at f text d tape.now ≡ done v u → result ≡ u }
    ensures passed { result ≡ value_passed tape.now }
{
    let mut levels: usize = 0;
    let mut rest = tape;
    while let Some(&code) = rest.first() {
        let Some(size) = size_within(code) else {
            break;
        };
        let Some(behind) = rest.get(size..) else {
            break;
        };
        rest = behind;
        levels = open_behind(code, levels);
        if levels == 0 {
            break;
        }
    }
    tape.len() - rest.len()
}

// How many bytes the properties at the front of the tape take, with the 35 that ends them, if they read; otherwise those up to where none stands.
// kept: how far is what is told, so it is counted: of what is left it would be a difference at both returns.
#[tactic(auto, using(crate::proofs::Literals::properties_left_none, crate::proofs::Literals::properties_skipped))]
pub fn skip_properties(tape: &[u8]) -> usize
    ensures within { result ≤ length tape.now }
    ensures read { (f : ℕ) (text : List ℕ) (ps : List Property) (u : ℕ) → length tape.now < f →
        properties_at f text tape.now ≡ done ps u → result ≡ u }
    ensures passed { result ≡ properties_passed tape.now }
{
    let mut i: usize = 0;
    loop {
        match property_command_at(&tape[i..]) {
            Ok(PropertyCommand::Property(_)) => i += sizes::WITH_EXPRESSION,
            Ok(PropertyCommand::Named(_, _)) => i += sizes::WITH_EXPRESSION_AND_SPAN,
            Ok(PropertyCommand::End) => return i + sizes::BARE,
            Err(_) => return i,
        }
    }
}
