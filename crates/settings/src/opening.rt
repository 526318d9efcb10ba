// Opening a job. Opening tape: 61 flags u16; then at most one each, in this order, of 62 pragma S, 63 pragmaFrag S, 64 importSource S;
// then any number of 60 comment S.
ghost use Rattle.std.specs.Prelude.{◌≡◌, ◌≤◌, length, None};
ghost use Rattle.commands.specs.Opening.{option_command};
ghost use Rattle.text.specs.Spans.{bounds_of};
ghost use Rattle.text.specs.Utf8.{first_ill};
ghost use Rattle.tape.specs.Targets.{Wrote};
ghost use Rattle.definitions.specs.Calls.{notice_bytes};
ghost use Rattle.definitions.specs.Opening.{bare, read_opening, settings_of, pragma_notice, notices_fitted, judge_options, judge_opening};
ghost use Rattle.definitions.specs.Entries.{opened_by, opened};
ghost use Rattle.settings.specs.Tapes.{options_before, checked, span_of, with_option, next_by, judged_options, judged_by, behind_flags, state_with, answered_by, opened_tape, Borne, Spanned, Opened};

use crate::jsx_impl::{mode_of, new};
use commands::opening::{OptionCommand, flags_command_at, option_command_at};
use commands::{codes, sizes};
use comments::update_options_with_comments;
use definitions::options::{Form, InvalidPart, Options, Settings};
use definitions::reading::legible;
use definitions::record_tape::INVALID_PRAGMA;
use definitions::state::{NO_RECORDS, State, Stepped};
use option_values::{conform, flags_of};
use pragma::{over_ascii_under, pragma_under};
use tape::limits::{MAX_BINDINGS, MAX_LENGTH};
use tape::refusal::{Fault, Refusal, TapeError};
use tape::target::Encode;
use text::spans::{Bounds, Span, span_bounds};
use text::utf8::first_ill_formed;

// ---- reading the tape

// A span may be empty here.
#[tactic(auto, unfolding(crate::specs::Tapes::checked))]
fn check_span(text: &[u8], span: Span) -> Result<(), TapeError>
    ensures { result ≡ checked (bounds_of text.now span) }
{
    match span_bounds(text, span) {
        Bounds::Outside => Err(TapeError {
            fault: Fault::Outside,
            place: 0,
        }),
        Bounds::Cuts => Err(TapeError {
            fault: Fault::Cuts,
            place: 0,
        }),
        Bounds::Empty | Bounds::Good => Ok(()),
    }
}

#[tactic(auto, unfolding(crate::specs::Tapes::span_of))]
fn span_of(command: OptionCommand) -> Span
    ensures { result ≡ span_of command }
{
    match command {
        OptionCommand::Pragma(s)
        | OptionCommand::PragmaFrag(s)
        | OptionCommand::ImportSource(s)
        | OptionCommand::Comment(s) => s,
    }
}

// The last option's byte and the options behind a command. A comment leaves the options as they are: comments are applied when the whole tape is in order.
#[tactic(auto, unfolding(crate::specs::Tapes::with_option))]
fn with_option(options: Options, command: OptionCommand) -> (u8, Options)
    ensures { result ≡ with_option options command }
{
    match command {
        OptionCommand::Pragma(s) => (
            codes::PRAGMA,
            Options {
                pragma: Some(s),
                ..options
            },
        ),
        OptionCommand::PragmaFrag(s) => (
            codes::PRAGMA_FRAG,
            Options {
                pragma_frag: Some(s),
                ..options
            },
        ),
        OptionCommand::ImportSource(s) => (
            codes::IMPORT_SOURCE,
            Options {
                import_source: Some(s),
                ..options
            },
        ),
        OptionCommand::Comment(_) => (codes::IMPORT_SOURCE, options),
    }
}

// What the command at the front of a tape comes to; none at the tape's end.
// kept: the last option is told by its byte, as `option_command_at` takes it: an enum would ask more of that function's callers
#[tactic(auto, unfolding(definitions::specs::Judging::legible, crate::specs::Tapes::next_by, crate::specs::Tapes::spanned_by, crate::specs::Tapes::checked))]
fn next_command(
    text: &[u8],
    last: u8,
    options: Options,
    tape: &[u8],
) -> Result<Option<(u8, Options)>, TapeError>
    ensures { result ≡ next_by text.now tape.now options (option_command last tape.now) }
{
    let Some(command) = legible(tape, option_command_at(last, tape))? else {
        return Ok(None);
    };
    check_span(text, span_of(command))?;
    Ok(Some(with_option(options, command)))
}

// Flags and nothing else.
#[tactic(auto, unfolding(crate::specs::Tapes::options_before))]
fn bare_options(n: u16) -> Options
    ensures { result ≡ options_before (bare n) }
{
    Options {
        flags: conform(flags_of(n)),
        ..Options::default()
    }
}

// The options that the commands behind the flags n give, before the comments.
// kept: no iterator gives the commands: each is read by the last option before it. A fault is told by its place, so the place is counted, and not what is left
#[tactic(auto, using(text::proofs::Lists::tail_part, crate::proofs::Commands::begin, crate::proofs::Commands::fault_inside, crate::proofs::Commands::at_fault), unfolding(crate::specs::Tapes::judged_by))]
fn read_options(text: &[u8], n: u16, tape: &[u8]) -> Result<Options, TapeError>
    requires { 3 ≤ length tape.now }
    ensures { judged_options text.now (behind_flags text.now tape.now n) ≡ judged_by text.now tape.now result }
{
    let mut options = bare_options(n);
    let mut last = codes::FLAGS;
    let mut front = sizes::WITH_FLAGS;
    loop {
        match next_command(text, last, options, &tape[front..]) {
            Ok(None) => return Ok(options),
            Ok(Some((next, behind))) => {
                last = next;
                options = behind;
                front += sizes::WITH_SPAN;
            }
            Err(error) => return Err(error.behind(front)),
        }
    }
}

#[tactic(auto, unfolding(definitions::specs::Judging::legible, crate::specs::Tapes::judged_options, crate::specs::Tapes::judged_by, definitions::specs::Opening::read_opening, definitions::specs::Opening::opening_by, definitions::specs::Judging::read))]
fn read_opening(text: &[u8], tape: &[u8]) -> Result<Options, TapeError>
    ensures { judged_options text.now (read_opening text.now tape.now) ≡ judged_by text.now tape.now result }
{
    let n = legible(tape, flags_command_at(tape))?;
    read_options(text, n, tape)
}

// ---- the notices

// How many bytes a pragma's notice takes.
// kept: two cases of a result; `map_or_else` would say the same with two closures.
#[tactic(auto, unfolding(definitions::specs::Opening::pragma_notice, definitions::specs::Calls::notice_bytes, definitions::specs::Calls::notice_bytes_of))]
fn notice_size(read: Result<Option<Form>, InvalidPart>) -> usize
    ensures { result ≡ length (notice_bytes (pragma_notice read)) }
{
    match read {
        Ok(_) => 0,
        Err(_) => sizes::WITH_SPAN,
    }
}

#[tactic(auto, unfolding(crate::specs::Tapes::Spanned, definitions::specs::Opening::pragma_notice, definitions::specs::Calls::notice_bytes))]
fn put_notice(notices: &mut [u8], at: usize, read: Result<Option<Form>, InvalidPart>) -> usize
    requires { Spanned read }
    ensures { Wrote notices.old notices.new at result (notice_bytes (pragma_notice read)) }
{
    match read {
        Ok(_) => ().encode(notices, at),
        Err(InvalidPart { place, len }) => {
            (INVALID_PRAGMA, Span::new(place, len)).encode(notices, at)
        }
    }
}

// ---- the answer

// A job once its tape was read: the text, and options whose pragmas it bears out.
#[derive(Clone, Copy)]
struct Job<'a> {
    text: &'a [u8],
    options: Options,
    ghost short: { length text.now ≤ 65535 },
    ghost borne: { Borne text.now options },
}

impl<'a> Job<'a> {
    // Where none of the pragmas has a byte over 7F: the notices are written where they fit.
    #[tactic(auto, using(crate::proofs::Noticing::spanned_under, definitions::proofs::OpeningNotices::notice_few))]
    fn open_noticed(self, notices: &mut [u8]) -> Result<(Settings, usize), Refusal>
        ensures { Opened (opened_by self.entry.text.now notices.old (notices_fitted self.entry.text.now (length notices.old) (settings_of self.entry.text.now self.entry.options))) result notices.new }
    {
        let Job { text, options } = self;
        let mode = mode_of(options.flags);
        let read = pragma_under(mode, text, options.pragma);
        let read_frag = pragma_under(mode, text, options.pragma_frag);
        let size = notice_size(read) + notice_size(read_frag);
        if notices.len() < size {
            return Err(Refusal::NoticeSpace(size));
        }
        let behind = put_notice(notices, 0, read);
        put_notice(notices, behind, read_frag);
        Ok((new(options, read, read_frag), size))
    }

    #[tactic(auto, using(crate::proofs::Noticing::found_under), unfolding(definitions::specs::Opening::pragmas_checked, definitions::specs::Opening::settings_of, definitions::specs::Judging::refuse_at, definitions::specs::Entries::opened_by, crate::specs::Tapes::answered_by))]
    fn open(self, notices: &mut [u8]) -> Result<(Settings, usize), Refusal>
        ensures { Opened (opened_by self.entry.text.now notices.old (judge_options self.entry.text.now (length notices.old) self.entry.options)) result notices.new }
    {
        let Job { text, options } = self;
        let mode = mode_of(options.flags);
        if let Some(place) = over_ascii_under(mode, text, options.pragma) {
            return Err(Refusal::PragmaByte(place));
        }
        if let Some(place) = over_ascii_under(mode, text, options.pragma_frag) {
            return Err(Refusal::PragmaByte(place));
        }
        self.open_noticed(notices)
    }
}

// A text that is not too long and is UTF-8.
#[tactic(auto, using(crate::proofs::Commands::tape_refused, crate::proofs::Commands::tape_read, crate::proofs::Commands::tape_borne), unfolding(definitions::specs::Entries::opened_by, crate::specs::Tapes::answered_by))]
fn open_text(text: &[u8], tape: &[u8], notices: &mut [u8]) -> Result<(Settings, usize), Refusal>
    requires text_len_bound { length text.now ≤ 65535 }
    requires well_formed { first_ill text.now ≡ None }
    ensures { Opened (opened_by text.now notices.old (opened_tape text.now tape.now (length notices.old))) result notices.new }
{
    let options = update_options_with_comments(text, read_opening(text, tape)?, tape);
    Job { text, options }.open(notices)
}

// The settings of a job and its notice fill.
#[tactic(auto, unfolding(definitions::specs::Entries::opened, definitions::specs::Opening::judge_opening, definitions::specs::Judging::refuse, definitions::specs::Judging::refuse_at, definitions::specs::Entries::opened_by, crate::specs::Tapes::opened_tape, crate::specs::Tapes::answered_by))]
fn open(text: &[u8], tape: &[u8], notices: &mut [u8]) -> Result<(Settings, usize), Refusal>
    ensures { Opened (opened text.now tape.now notices.old) result notices.new }
{
    // kept: store's `judge_state` has these tests too, but here the tape's length is told before UTF-8
    if MAX_LENGTH < text.len() || MAX_LENGTH < tape.len() {
        return Err(Refusal::TooLong);
    }
    if let Some(place) = first_ill_formed(text) {
        return Err(Refusal::NotUtf8(place));
    }
    open_text(text, tape, notices)
}

fn no_records(settings: Settings, count: usize, notices: usize) -> State
    ensures { result ≡ state_with settings count notices }
{
    State {
        settings,
        records: NO_RECORDS,
        count,
        calls: 0,
        notices,
    }
}

#[tactic(auto, unfolding(crate::specs::Tapes::answered_by, definitions::specs::Opening::settings_of, definitions::specs::Opening::pragma_under, definitions::specs::Opening::mode_of, crate::specs::Tapes::options_before, definitions::specs::Options::conform, definitions::specs::Options::flags_of))]
fn answered(opened: Result<(Settings, usize), Refusal>) -> Stepped
    ensures { result ≡ answered_by opened }
{
    match opened {
        Ok((settings, notices)) => Stepped {
            answer: Ok(()),
            state: no_records(settings, 0, notices),
        },
        // too many records: every entry refuses this state as forged
        Err(why) => Stepped {
            answer: Err(why),
            state: no_records(
                new(bare_options(0), Ok(None), Ok(None)),
                MAX_BINDINGS + 1,
                0,
            ),
        },
    }
}

// Opens a job. What its pragmas tell is written from the start of the notice target, and the state's notice fill begins behind it.
pub fn open_job(text: &[u8], tape: &[u8], notices: &mut [u8]) -> Stepped
    ensures value { result ≡ (opened text.now tape.now notices.old).stepped }
    ensures notices_after { notices.new ≡ (opened text.now tape.now notices.old).notices }
{
    answered(open(text, tape, notices))
}
