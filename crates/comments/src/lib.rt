// The pragmas of comments (comments.rs):
//
//     @jsx Preact.h
//     @jsxFrag Preact.Fragment
//     @jsxImportSource preact
//     @jsxRuntime classic
//
// There may be several in one comment, also in one line.
#![tactic(auto)]

ghost use Rattle.std.specs.Prelude.{◌≡◌, ℕ, Bool, ◌≤◌, ◌<◌, length, drop, position, IfSome};
ghost use Rattle.comments.specs.Searches.{stands, four_at, known_for, keyword_for, search_for, pragma_for, pragma_from};
ghost use Rattle.comments.specs.Tapes.{comments_of};
ghost use Rattle.definitions.specs.Comments.{is_blank, is_white, leads_in, place_from, keyword_of, seek, value_of, with_runtime, applied, with_comment, with_comments};

use commands::{codes, sizes};
use definitions::options::{Flags, Options};
use tape::numbers::Operand;
use text::spans::{Span, part};

// What a pragma sets.
#[derive(Clone, Copy)]
enum PragmaType {
    Jsx,
    JsxRuntime,
    JsxImportSource,
    JsxFrag,
}

// A pragma: its type, its value and the place in the comment where the value ends.
#[derive(Clone, Copy)]
struct Pragma<'a> {
    kind: PragmaType,
    value: &'a [u8],
    end: usize,
}

// A space or tab.
fn is_blank(b: u8) -> bool
    ensures { result ≡ is_blank b }
{
    matches!(b, b' ' | b'\t')
}

// ASCII white space.
fn is_white(b: u8) -> bool
    ensures { result ≡ is_white b }
{
    matches!(b, 0x09..=0x0d | b' ')
}

// What may stand before an at sign that counts.
fn leads_in(b: u8) -> bool
    ensures { result ≡ leads_in b }
{
    matches!(b, b' ' | b'\t' | b'\r' | b'\n' | b'*')
}

// The place of the first byte that passes, from `from` on.
fn place_from<F: Fn(u8) -> bool>(s: &[u8], from: usize, passes: F) -> Option<usize>
    requires { F.IsAlwaysCallable passes }
    ensures { (p : ℕ → Bool) → ((b : ℕ) (r : Bool) → F.post passes b r → r ≡ p b) → result ≡ place_from p s.now from }
{
    let n = s.get(from..)?.iter().position(|b| passes(*b))?;
    Some(from + n)
}

// Whether an at sign counts where it stands. This keeps code spans out, as `@jsx h` between backticks.
#[tactic(auto, unfolding(crate::specs::Searches::stands))]
fn stands_well(comment: &[u8], from: usize, sign: usize) -> bool
    requires { (from ≤ sign) × (sign < length comment.now) }
    ensures { result ≡ stands comment.now from sign }
{
    sign == from || leads_in(comment[sign - 1])
}

// The four bytes from an at sign on, which are compared at once.
#[tactic(auto, unfolding(crate::specs::Searches::four_at))]
fn next4(comment: &[u8], sign: usize) -> Option<u32>
    requires { sign ≤ length comment.now }
    ensures { result ≡ four_at comment.now sign }
{
    let bytes = comment[sign..].first_chunk::<4>()?;
    Some(u32::from_le_bytes(*bytes))
}

#[tactic(auto, unfolding(crate::specs::Searches::keyword_for, crate::specs::Searches::known_for, definitions::specs::Comments::keyword_of))]
fn keyword_of(word: &[u8]) -> Option<PragmaType>
    ensures { keyword_for result ≡ keyword_of word.now }
{
    // kept: a match on the words leaves the arms of seven and twelve bytes open: `search` and `grind` stop before they have joined the bytes
    if word == b"".as_slice() {
        return Some(PragmaType::Jsx);
    }
    if word == b"Frag".as_slice() {
        return Some(PragmaType::JsxFrag);
    }
    if word == b"ImportSource".as_slice() {
        return Some(PragmaType::JsxImportSource);
    }
    if word == b"Runtime".as_slice() {
        return Some(PragmaType::JsxRuntime);
    }
    None
}

// The next known keyword of a comment, of which what is left begins at `start`: its type and the place behind the byte that ends it.
fn find_keyword(comment: &[u8], start: usize) -> Option<(PragmaType, usize)>
    ensures { search_for result ≡ seek (length comment.now) comment.now start }
{
    let mut from = start;
    // kept: the refusals of an at sign go on with the search, as the original's labelled loop does
    let kind = 'signs: loop {
        let Some(sign) = place_from(comment, from, |b| b == b'@') else {
            return None;
        };
        let counts = stands_well(comment, from, sign);
        // what is left begins behind the at sign, whether it counts or not
        from = sign + 1;
        if !counts {
            continue 'signs;
        }
        let Some(bytes) = next4(comment, sign) else {
            return None;
        };
        if bytes != u32::from_le_bytes(*b"@jsx") {
            continue 'signs;
        }
        let first = sign + 4;
        let mut end = first;
        let word = loop {
            let Some(&b) = comment.get(end) else {
                return None;
            };
            if is_blank(b) {
                break &comment[first..end];
            }
            end += 1;
        };
        from = end + 1;
        let Some(kind) = keyword_of(word) else {
            continue 'signs;
        };
        break 'signs kind;
    };
    Some((kind, from))
}

// The part of what is left up to white space.
fn value_of(rest: &[u8]) -> &[u8]
    ensures { result.now ≡ value_of rest.now }
{
    let end = place_from(rest, 0, is_white).unwrap_or(rest.len());
    &rest[..end]
}

// The next pragma of a comment, of which what is left begins at `at`. An empty value ends the comment.
fn find_jsx_pragma<'a>(comment: &'a [u8], at: usize) -> Option<Pragma<'a>>
    ensures { pragma_for result ≡ pragma_from comment.now at }
{
    let Some((kind, from)) = find_keyword(comment, at) else {
        return None;
    };
    let Some(start) = place_from(comment, from, |b| !is_blank(b)) else {
        return None;
    };
    let value = value_of(&comment[start..]);
    if value.is_empty() {
        return None;
    }
    Some(Pragma {
        kind,
        value,
        end: start + value.len(),
    })
}

fn with_runtime(flags: Flags, value: &[u8]) -> Flags
    ensures { result ≡ with_runtime flags value.now }
{
    // kept: a match on the words, as in `keyword_of`
    if value == b"classic".as_slice() {
        return Flags {
            classic: true,
            ..flags
        };
    }
    if value == b"automatic".as_slice() {
        return Flags {
            classic: false,
            ..flags
        };
    }
    flags
}

// What one pragma does to the options; `span` is where its value stands in the text.
#[tactic(auto, unfolding(crate::specs::Searches::known_for, definitions::specs::Comments::applied))]
fn apply(options: Options, kind: PragmaType, span: Span, value: &[u8]) -> Options
    ensures { result ≡ applied options (known_for kind) span value.now }
{
    let set = Some(span);
    // the JSX pair is left alone where JSX isn't transformed
    let pair = options.flags.jsx_plugin | options.flags.development;
    match kind {
        PragmaType::Jsx if pair => Options {
            pragma: set,
            ts_pragma: set,
            ..options
        },
        PragmaType::Jsx => Options {
            ts_pragma: set,
            ..options
        },
        PragmaType::JsxFrag if pair => Options {
            pragma_frag: set,
            ts_pragma_frag: set,
            ..options
        },
        PragmaType::JsxFrag => Options {
            ts_pragma_frag: set,
            ..options
        },
        PragmaType::JsxImportSource => Options {
            import_source: set,
            ..options
        },
        PragmaType::JsxRuntime => Options {
            flags: with_runtime(options.flags, value),
            ..options
        },
    }
}

// The options after a comment.
fn update_options_with_comment(text: &[u8], options: Options, comment: Span) -> Options
    requires { length text.now ≤ 65535 }
    ensures { result ≡ with_comment text.now options comment }
{
    let content = part(text, comment);
    let mut held = options;
    let mut at = 0;
    while let Some(pragma) = find_jsx_pragma(content, at) {
        let len = pragma.value.len();
        let span = Span::new(usize::from(comment.start) + pragma.end - len, len);
        held = apply(held, pragma.kind, span, pragma.value);
        // behind the one white byte that ends the value
        at = pragma.end + 1;
    }
    held
}

// The options after the comments of an opening tape, in order. Its other commands behind the flags, which carry a span too, are passed over.
#[tactic(auto, using(crate::proofs::Tapes::comment_here, crate::proofs::Tapes::comment_elsewhere, crate::proofs::Tapes::comments_short), unfolding(definitions::specs::Comments::with_comments))]
pub fn update_options_with_comments(text: &[u8], options: Options, tape: &[u8]) -> Options
    requires { length text.now ≤ 65535 }
    ensures { result ≡ with_comments text.now options (comments_of (drop 3 tape.now)) }
{
    let Some(commands) = tape.get(sizes::WITH_FLAGS..) else {
        return options;
    };
    let mut held = options;
    for command in commands.chunks_exact(sizes::WITH_SPAN) {
        if let [codes::COMMENT, operand @ ..] = command {
            held = update_options_with_comment(text, held, Span::read(operand, 0));
        }
    }
    held
}
