// What a pragma is: `Pragma` of jsx_impl.rs, its root and the number of parts behind it; or the first part that fails.
#![tactic(auto)]

ghost use Rattle.std.specs.Prelude.{◌≡◌, ◌+◌, ◌^◌, ◌<◌, length, bytes_eq};
ghost use Rattle.std.specs.List.{list_all, list_any};
ghost use Rattle.std.specs.Iterator.{YieldsFirstRef, item_count};
ghost use Rattle.definitions.specs.Pragmas.{is_identifier_start, is_identifier_part, is_identifier_name, is_reserved_word, tail_from, meta_behind, pragma_of, pragma_in, form_by};
ghost use Rattle.definitions.specs.Opening.{pragma_under, form_under, over_ascii_in, if_classic};
ghost use Rattle.pragma.specs.Parts.{first_length, parts_behind, in_force};

use definitions::options::{Form, InvalidPart, Mode, PragmaRoot};
use text::bytes::{find_byte, find_over_ascii};
use text::spans::{Span, part};

#[tactic(auto, unfolding(definitions::specs::Pragmas::is_identifier_start))]
fn is_identifier_start(b: u8) -> bool
    ensures { result ≡ is_identifier_start b }
{
    // kept: the ranges of a pattern become branches, and a long name takes half as long again
    ((b'A' <= b) & (b <= b'Z')) | ((b'a' <= b) & (b <= b'z')) | (b == b'$') | (b == b'_')
}

#[tactic(auto, unfolding(definitions::specs::Pragmas::is_identifier_part))]
fn is_identifier_part(b: u8) -> bool
    ensures { result ≡ is_identifier_part b }
{
    is_identifier_start(b) | b.is_ascii_digit()
}

// kept: behind another test the clause of `all` isn't found (tried with `search` and `grind`), so it stands in a function of its own
fn are_identifier_parts(s: &[u8]) -> bool
    ensures { result ≡ list_all is_identifier_part s.now }
{
    s.iter().all(|b| is_identifier_part(*b))
}

#[tactic(auto, unfolding(definitions::specs::Pragmas::is_identifier_name))]
fn is_identifier_name(w: &[u8]) -> bool
    ensures { result ≡ is_identifier_name w.now }
{
    let Some((first, rest)) = w.split_first() else {
        return false;
    };
    is_identifier_start(*first) && are_identifier_parts(rest)
}

// How many bytes stand before the first dot.
fn first_length(s: &[u8]) -> usize
    ensures { result ≡ first_length s.now }
{
    find_byte(s, b'.').unwrap_or(s.len())
}

const RESERVED_WORDS: [&[u8]; 38] = [
    b"await",
    b"break",
    b"case",
    b"catch",
    b"class",
    b"const",
    b"continue",
    b"debugger",
    b"default",
    b"delete",
    b"do",
    b"else",
    b"enum",
    b"export",
    b"extends",
    b"false",
    b"finally",
    b"for",
    b"function",
    b"if",
    b"import",
    b"in",
    b"instanceof",
    b"new",
    b"null",
    b"return",
    b"super",
    b"switch",
    b"this",
    b"throw",
    b"true",
    b"try",
    b"typeof",
    b"var",
    b"void",
    b"while",
    b"with",
    b"yield",
];

// Whether `w` is one of these words.
// kept: over the constant itself the clause of `any` isn't found (tried with `search` and `grind`), so the words are a parameter
fn is_one_of(w: &[u8], words: &[&[u8]]) -> bool
    ensures { result ≡ list_any (λ word. bytes_eq w.now word.now) words.now }
{
    words.iter().any(|word| w == *word)
}

#[tactic(auto, unfolding(definitions::specs::Pragmas::is_reserved_word))]
fn is_reserved_keyword(w: &[u8]) -> bool
    ensures { result ≡ is_reserved_word w.now }
{
    is_one_of(w, &RESERVED_WORDS)
}

// The parts that stand one behind the other, each behind a dot.
#[derive(Drop)]
struct Parts<'a> {
    left: &'a [u8],
}

impl<'a> Iterator for Parts<'a> {
    type Item = &'a [u8];

    ghost next_gives = { YieldsFirstRef (λ s. parts_behind s.left.now) };

    ghost remaining = { item_count (λ s. parts_behind s.left.now) };

    #[tactic(auto, using(crate::proofs::Splitting::first_inside, crate::proofs::Splitting::behind_first, crate::proofs::Splitting::behind_none))]
    fn next(&mut self) -> Option<&'a [u8]> {
        let (_, behind) = self.left.split_first()?;
        let (first, left) = behind.split_at(first_length(behind));
        self.left = left;
        Some(first)
    }
}

// The parts of a pragma's tail, the first of which begins at `at`: the form with this root if all of them are identifier names, else the first that is none.
#[tactic(auto, using(crate::proofs::Splitting::behind_length), unfolding(definitions::specs::Pragmas::tail_from, definitions::proofs::OpeningNotices::parts_length))]
fn read_tail(root: PragmaRoot, parts: Parts, at: usize) -> Result<Form, InvalidPart>
    requires { at + length parts.left.now < 2 ^ 64 }
    ensures { result ≡ tail_from root 0 at (parts_behind parts.entry.left.now) }
{
    let mut place = at;
    let mut tail = 0;
    for part in parts {
        if !is_identifier_name(part) {
            return Err(InvalidPart {
                place,
                len: part.len(),
            });
        }
        tail += 1;
        place += part.len() + 1;
    }
    Ok(Form { root, tail })
}

// What stands behind the root `import`, which has `len` bytes.
#[tactic(auto, using(crate::proofs::Splitting::behind_length), unfolding(definitions::specs::Pragmas::meta_behind, definitions::proofs::OpeningNotices::parts_length))]
fn read_meta(len: usize, mut parts: Parts) -> Result<Form, InvalidPart>
    requires { len + 1 + length parts.left.now < 2 ^ 64 }
    ensures { result ≡ meta_behind len (parts_behind parts.entry.left.now) }
{
    match parts.next() {
        Some(b"meta") => read_tail(PragmaRoot::ImportMeta, parts, len + 1 + b"meta".len() + 1),
        _ => Err(InvalidPart { place: 0, len }),
    }
}

// A pragma: its form, or the first part that fails, its place counted from the pragma's front.
#[tactic(auto, using(crate::proofs::Splitting::first_inside, crate::proofs::Splitting::root_parts, crate::proofs::Splitting::root_length), unfolding(definitions::specs::Pragmas::parts_read))]
pub fn parse_impl(pragma: &[u8]) -> Result<Form, InvalidPart>
    ensures { result ≡ pragma_of pragma.now }
{
    let len = first_length(pragma);
    let (root, left) = pragma.split_at(len);
    let parts = Parts { left };
    // kept: a match on the two words has thirteen ways to its last arm, each an answer of its own; the tests need none
    if root == b"this".as_slice() {
        return read_tail(PragmaRoot::This, parts, len + 1);
    }
    if root == b"import".as_slice() {
        return read_meta(len, parts);
    }
    if !is_identifier_name(root) || is_reserved_keyword(root) {
        return Err(InvalidPart { place: 0, len });
    }
    read_tail(PragmaRoot::Identifier, parts, len + 1)
}

// A pragma that may be absent; the place of a part that fails is its place in the text.
#[tactic(auto, using(crate::proofs::Places::invalid_place), unfolding(definitions::specs::Pragmas::pragma_in, definitions::specs::Pragmas::behind_place))]
pub fn parse_no_ctx(text: &[u8], pragma: Option<Span>) -> Result<Option<Form>, InvalidPart>
    ensures { result ≡ pragma_in text.now pragma }
{
    let Some(span) = pragma else {
        return Ok(None);
    };
    let form = parse_impl(part(text, span)).map_err(|part| InvalidPart {
        place: usize::from(span.start).saturating_add(part.place),
        ..part
    })?;
    Ok(Some(form))
}

// Only classic bindings have pragmas.
fn in_force(mode: Mode, pragma: Option<Span>) -> Option<Span>
    ensures { result ≡ in_force mode pragma }
{
    match mode {
        Mode::Module | Mode::Script => None,
        Mode::Classic => pragma,
    }
}

// A pragma in these bindings.
#[tactic(auto, using(crate::proofs::InForce::pragma_in_force))]
pub fn pragma_under(
    mode: Mode,
    text: &[u8],
    pragma: Option<Span>,
) -> Result<Option<Form>, InvalidPart>
    ensures { result ≡ pragma_under mode text.now pragma }
{
    parse_no_ctx(text, in_force(mode, pragma))
}

// The form that settings take: the default's where none is there and where it is not valid.
#[tactic(auto, unfolding(definitions::specs::Pragmas::form_by))]
pub fn form_by(read: Result<Option<Form>, InvalidPart>) -> Form
    ensures { result ≡ form_by read }
{
    read.ok().flatten().unwrap_or_default()
}

// The form of a pragma in these bindings.
pub fn form_under(mode: Mode, text: &[u8], pragma: Option<Span>) -> Form
    ensures { result ≡ form_under mode text.now pragma }
{
    form_by(pragma_under(mode, text, pragma))
}

// The place of the first byte over 7F of a pragma.
#[tactic(auto, using(crate::proofs::Places::over_ascii_place), unfolding(definitions::specs::Opening::over_ascii_in, definitions::specs::Opening::shifted))]
fn over_ascii_in(text: &[u8], pragma: Option<Span>) -> Option<usize>
    ensures { result ≡ over_ascii_in text.now pragma }
{
    let span = pragma?;
    let place = find_over_ascii(part(text, span))?;
    Some(usize::from(span.start) + place)
}

// The same in these bindings.
#[tactic(auto, using(crate::proofs::InForce::over_ascii_in_force))]
pub fn over_ascii_under(mode: Mode, text: &[u8], pragma: Option<Span>) -> Option<usize>
    ensures { result ≡ if_classic mode (over_ascii_in text.now pragma) }
{
    over_ascii_in(text, in_force(mode, pragma))
}
