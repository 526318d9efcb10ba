// The settings of a job as they stand after its comments, for a host that makes code of its tapes: their bytes, and the sources of imports as text. What B0 00,
// B0 01 and 98 00 stand for is told here.
//
//     @jsxImportSource preact          B0 00 is "preact", B0 01 is "preact/jsx-runtime"
#![tactic(auto)]

ghost use Rattle.std.specs.Prelude.{◌≡◌, ◌≤◌, length};
ghost use Rattle.definitions.specs.Entries.{judge_tape, records_answer, records_target};
ghost use Rattle.definitions.specs.Opening.{import_source, runtime_source};
ghost use Rattle.tape.specs.Targets.{Wrote};
ghost use Rattle.resolved.specs.Resolved.{runtime_path, source_text, judge_source, judge_settings};

use definitions::options::Options;
use definitions::records::IMPORT_SOURCE;
use definitions::state::State;
use packing::layout::SETTINGS_SIZE;
use packing::writing::put_settings;
use store::judging::judge_state;
use tape::refusal::Refusal;
use tape::target::{Encode, write_fitting};
use text::spans::{Span, part};

// ---- the sources of imports

// "Empty importSource means react."
#[tactic(auto, unfolding(definitions::specs::Opening::import_source, definitions::specs::Opening::or_react))]
fn import_source<'a>(text: &'a [u8], setting: Option<Span>) -> &'a [u8]
    ensures { result.now ≡ import_source text.now setting }
{
    match setting.map(|span| part(text, span)) {
        None | Some([]) => b"react",
        Some(name) => name,
    }
}

fn runtime_path(development: bool) -> &'static [u8]
    ensures { result.now ≡ runtime_path development }
{
    if development {
        return b"/jsx-dev-runtime";
    }
    b"/jsx-runtime"
}

// The import source, from a place of the target on.
pub fn put_import_source(text: &[u8], setting: Option<Span>, out: &mut [u8], at: usize) -> usize
    ensures { Wrote out.old out.new at result (import_source text.now setting) }
{
    import_source(text, setting).encode(out, at)
}

// The runtime source, from a place of the target on.
#[tactic(auto, unfolding(definitions::specs::Opening::runtime_source))]
pub fn put_runtime_source(text: &[u8], options: Options, out: &mut [u8], at: usize) -> usize
    ensures { Wrote out.old out.new at result (runtime_source text.now options) }
{
    let source = import_source(text, options.import_source);
    (source, runtime_path(options.flags.development)).encode(out, at)
}

#[tactic(auto, unfolding(crate::specs::Resolved::source_text))]
fn put_source(text: &[u8], options: Options, source: u8, out: &mut [u8]) -> usize
    ensures { Wrote out.old out.new 0 result (source_text text.now options source) }
{
    if source == IMPORT_SOURCE {
        return put_import_source(text, options.import_source, out, 0);
    }
    put_runtime_source(text, options, out, 0)
}

// ---- the entries

// The text of the source that a B0 names, 0 the import source and any other number the runtime source, at the front of the target.
pub fn write_source(
    text: &[u8],
    state: State,
    source: u8,
    target: &mut [u8],
) -> Result<usize, Refusal>
    ensures value { result ≡ records_answer (judge_source text.now state source (length target.old)) }
    ensures target_after { target.new ≡ records_target target.old (judge_source text.now state source (length target.old)) }
{
    judge_state(text, state)?;
    let options = state.settings.options;
    write_fitting(target, |out| put_source(text, options, source, out))
}

// The settings' bytes at the front of the target.
pub fn write_settings(text: &[u8], state: State, target: &mut [u8]) -> Result<usize, Refusal>
    ensures value { result ≡ records_answer (judge_settings text.now state (length target.old)) }
    ensures target_after { target.new ≡ records_target target.old (judge_settings text.now state (length target.old)) }
{
    judge_state(text, state)?;
    if target.len() < SETTINGS_SIZE {
        return Err(Refusal::Space(SETTINGS_SIZE));
    }
    put_settings(state.settings, target);
    Ok(SETTINGS_SIZE)
}
