// A state's bytes, laid at the front of a lent target.
ghost use Rattle.std.specs.Prelude.{◌≡◌, length};
ghost use Rattle.tape.specs.Targets.{Wrote};
ghost use Rattle.packing.specs.Packed.{flags_byte, optional_bytes, form_bytes, import_number, source_of, name_of, record_bytes, records_bytes, options_bytes, settings_bytes, packed, packed_answer, packed_target};

use crate::layout::STATE_SIZE;
use definitions::options::{Flags, Form, Options, Settings};
use definitions::records::{Import, Record};
use definitions::state::State;
use option_values::pragma_root_number;
use tape::refusal::Refusal;
use tape::target::Encode;
use text::spans::Span;

fn flags_byte(f: Flags) -> u8
    ensures { result ≡ flags_byte f }
{
    u8::from(f.jsx_plugin)
        + u8::from(f.self_plugin) * 2
        + u8::from(f.source_plugin) * 4
        + u8::from(f.classic) * 8
        + u8::from(f.development) * 16
        + u8::from(f.throw_if_namespace) * 32
        + u8::from(f.pure) * 64
        + u8::from(f.module) * 128
}

#[tactic(auto, unfolding(crate::specs::Packed::optional_bytes, crate::specs::Packed::presence, crate::specs::Packed::span_of))]
fn put_optional(o: Option<Span>, out: &mut [u8], at: usize) -> usize
    ensures { Wrote out.old out.new at result (optional_bytes o) }
{
    match o {
        None => [0u8; 5].encode(out, at),
        Some(span) => (1u8, span).encode(out, at),
    }
}

#[tactic(auto, unfolding(crate::specs::Packed::form_bytes))]
fn put_form(form: Form, out: &mut [u8], at: usize) -> usize
    ensures { Wrote out.old out.new at result (form_bytes form) }
{
    (pragma_root_number(form.root), form.tail as u64).encode(out, at)
}

// What a thing is (0 named, 1 required, 2 the file name), its source and its name: zeros for what it has not.
#[tactic(auto, unfolding(crate::specs::Packed::import_number, crate::specs::Packed::source_of, crate::specs::Packed::name_of))]
fn import_numbers(import: Import) -> (u8, u8, u8)
    ensures kind { result.0 ≡ import_number import }
    ensures source { result.1 ≡ source_of import }
    ensures name { result.2 ≡ name_of import }
{
    match import {
        Import::Named(source, name) => (0, source, name),
        Import::Default(source) => (1, source, 0),
        Import::FileName => (2, 0, 0),
    }
}

#[tactic(auto, unfolding(crate::specs::Packed::record_bytes))]
fn put_record(bound: Record, out: &mut [u8], at: usize) -> usize
    ensures { Wrote out.old out.new at result (record_bytes bound) }
{
    let (kind, source, name) = import_numbers(bound.import);
    [kind, source, name, bound.binding].encode(out, at)
}

#[tactic(auto, unfolding(crate::specs::Packed::records_bytes))]
fn put_records(records: &[Record], out: &mut [u8], at: usize) -> usize
    ensures { Wrote out.old out.new at result (records_bytes records.now) }
{
    let mut end = ().encode(out, at);
    for bound in records {
        end = put_record(*bound, out, end);
    }
    end
}

#[tactic(auto, using(tape::proofs::Targets::wrote_then), unfolding(crate::specs::Packed::options_bytes, crate::specs::Packed::optional_bytes))]
fn put_options(options: Options, out: &mut [u8]) -> usize
    ensures { Wrote out.old out.new 0 result (options_bytes options) }
{
    let a = flags_byte(options.flags).encode(out, 0);
    let b = put_optional(options.pragma, out, a);
    let c = put_optional(options.pragma_frag, out, b);
    let d = put_optional(options.import_source, out, c);
    let e = put_optional(options.ts_pragma, out, d);
    put_optional(options.ts_pragma_frag, out, e)
}

// The settings' bytes, from the target's front on.
pub fn put_settings(settings: Settings, out: &mut [u8]) -> usize
    ensures { Wrote out.old out.new 0 result (settings_bytes settings) }
{
    let a = put_options(settings.options, out);
    let b = [u8::from(settings.pure), settings.mode as u8].encode(out, a);
    let c = put_form(settings.pragma, out, b);
    put_form(settings.pragma_frag, out, c)
}

fn put_state(state: State, out: &mut [u8]) -> usize
    ensures { Wrote out.old out.new 0 result (packed state) }
{
    let a = put_settings(state.settings, out);
    let b = put_records(&state.records, out, a);
    let c = (state.count as u64).encode(out, b);
    let d = (state.calls as u64).encode(out, c);
    (state.notices as u64).encode(out, d)
}

// The state's bytes at the front of the target; a target that has no room for them stays as it is.
#[tactic(auto, unfolding(crate::specs::Packed::packed_answer, crate::specs::Packed::packed_target))]
pub fn pack(state: State, out: &mut [u8]) -> Result<usize, Refusal>
    ensures value { result ≡ packed_answer (length out.old) }
    ensures out_after { out.new ≡ packed_target state out.old }
{
    if out.len() < STATE_SIZE {
        return Err(Refusal::Space(STATE_SIZE));
    }
    put_state(state, out);
    Ok(STATE_SIZE)
}
