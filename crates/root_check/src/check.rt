// Whether a root tape is what docs/TAPES.md, "Root tape" and "Grammar", allows: the fault at its earliest command, or none.
//
// Siblings are passed in loops, and what is nested is checked by recursion over a part of the tape that starts at its command. At most 64 levels nest, so
// the stack that a check takes is bounded: in the program `root_check_test`, compiled for x86-64, a level takes 336 bytes at most (an element among
// children), and a whole check less than 23,000.
ghost use Rattle.std.specs.Prelude.{◌≡◌, false, ◌||◌, Err, List, ℕ, suc, ◌+◌, ◌≤◌, ◌<◌, ◌^◌, length, drop};
ghost use Rattle.text.specs.Spans.{bounds_of};
ghost use Rattle.tape.specs.Refusals.{fault_at};
ghost use Rattle.commands.specs.declared.root.Place as place;
ghost use Rattle.definitions.specs.Judging.{spanned, named, worse};
ghost use Rattle.definitions.specs.Reading.{lettered, opened, members_at, name_at, properties_at, element_at, fragment_at, attributes_at, value_at, children_at, is_function, scopes_at, read_root};
ghost use Rattle.root_check.specs.Checking.{checked, report, taken, shifted, sequel, reach, level, position, Reports, Opens, going, Moves, Scan, Steps};

use commands::root::{
    AttributeCommand, ChildCommand, NameCommand, Place, PropertyCommand, ScopeCommand,
    ValueCommand, attribute_command_at, child_command_at, heritage_command_at, member_command_at,
    name_command_at, property_command_at, scope_command_at, value_command_at,
};
use commands::sizes;
use definitions::reading::legible;
use references::has_reference;
use tape::refusal::Fault;
pub use tape::refusal::TapeError;
use text::spans::{Bounds, Span, part, span_bounds};

// What stands first in a list: one that takes so many bytes, with more behind it; or the list's end, with so many bytes.
#[derive(Clone, Copy)]
pub enum Step {
    Next(usize),
    End(usize),
}

// ---- scans of parts: how many bytes they take

// A fault of the command at the front.
fn refuse<T>(fault: Fault) -> Result<T, TapeError>
    ensures { result ≡ Err (fault_at fault 0) }
{
    Err(TapeError { fault, place: 0 })
}

// A scan of the part that begins at `at`, told from where the whole begins.
#[tactic(auto, unfolding(crate::specs::Checking::shifted))]
fn further(at: usize, scan: Result<usize, TapeError>) -> Result<usize, TapeError>
    requires { at + reach scan < 2 ^ 64 }
    ensures { result ≡ shifted at scan }
{
    scan.map(|u| at + u).map_err(|e| e.behind(at))
}

// A list goes on behind what was scanned.
#[tactic(auto, unfolding(crate::specs::Checking::going))]
fn onward(scan: Result<usize, TapeError>) -> Result<Step, TapeError>
    ensures { result ≡ going scan }
{
    scan.map(Step::Next)
}

// ---- what can be wrong at a command of n bytes, but for its grammar
//
// kept: each answers the n bytes, as `taken n` in its contract does: without them each arm that calls one would be two statements and not one call.

// Its span, which may be empty.
#[tactic(auto, unfolding(crate::specs::Checking::report, definitions::specs::Judging::named, definitions::specs::Judging::spanned))]
fn check_span(text: &[u8], span: Span, n: usize) -> Result<usize, TapeError>
    ensures { result ≡ report (spanned (bounds_of text.now span) (taken n)) }
{
    match span_bounds(text, span) {
        Bounds::Empty => Ok(n),
        bounds => check_bounds(bounds, n),
    }
}

// Its span, a name with these bounds.
#[tactic(auto, unfolding(crate::specs::Checking::report, definitions::specs::Judging::named))]
fn check_bounds(bounds: Bounds, n: usize) -> Result<usize, TapeError>
    ensures { result ≡ report (named bounds (taken n)) }
{
    match bounds {
        Bounds::Outside => refuse(Fault::Outside),
        Bounds::Cuts => refuse(Fault::Cuts),
        Bounds::Empty => refuse(Fault::EmptyName),
        Bounds::Good => Ok(n),
    }
}

// Its span, a name.
fn check_label(text: &[u8], span: Span, n: usize) -> Result<usize, TapeError>
    ensures { result ≡ report (named (bounds_of text.now span) (taken n)) }
{
    check_bounds(span_bounds(text, span), n)
}

// Its two spans, the parts of a namespaced name: the worse is told.
#[tactic(auto, unfolding(definitions::specs::Judging::worse))]
fn check_labels(text: &[u8], first: Span, second: Span, n: usize) -> Result<usize, TapeError>
    ensures { result ≡ report (named (worse (bounds_of text.now first) (bounds_of text.now second)) (taken n)) }
{
    let bounds = span_bounds(text, first).max(span_bounds(text, second));
    check_bounds(bounds, n)
}

// Its span, which names JSX text or an attribute's string: no reference may stand there.
#[tactic(auto, unfolding(crate::specs::Checking::report, definitions::specs::Judging::spanned, definitions::specs::Reading::lettered))]
fn check_text(text: &[u8], span: Span, n: usize) -> Result<usize, TapeError>
    ensures { result ≡ report (lettered text.now span (taken n)) }
{
    check_span(text, span, n)?;
    if has_reference(part(text, span)) {
        return refuse(Fault::Reference);
    }
    Ok(n)
}

// How many elements and fragments may be open within each other.
const MOST_LEVELS: usize = 64;

// The level of an element or a fragment, where `depth` of them are open already.
#[tactic(auto, unfolding(crate::specs::Checking::level))]
fn check_level(depth: usize) -> Result<usize, TapeError>
    ensures { result ≡ level depth }
{
    if MOST_LEVELS <= depth {
        return refuse(Fault::Depth);
    }
    Ok(sizes::WITH_PLACE)
}

// The line or column to which one can't be added.
const HIGHEST: u32 = 0xffff_ffff;

// Its line and column: one can be added to each.
#[tactic(auto, unfolding(crate::specs::Checking::position))]
fn check_position(place: Place) -> Result<usize, TapeError>
    ensures { result ≡ position place }
{
    if place.line == HIGHEST || place.column == HIGHEST {
        return refuse(Fault::Position);
    }
    Ok(sizes::WITH_PLACE)
}

// Both, the level first.
#[tactic(auto, unfolding(crate::specs::Checking::report, crate::specs::Checking::level, crate::specs::Checking::position, definitions::specs::Judging::from, definitions::specs::Reading::opened))]
fn check_place(depth: usize, place: Place) -> Result<usize, TapeError>
    ensures { result ≡ report (opened depth place (taken 0)) }
{
    check_level(depth)?;
    check_position(place)
}

// ---- lists

// A list by what stands first in it, which `step` tells of any part of the tape.
// kept: a fault is told by its place, so the place is counted, and not what is left.
fn check_list<F: Fn(&[u8]) -> Result<Step, TapeError>>(
    tape: &[u8],
    step: F,
) -> Result<usize, TapeError>
    requires called { (t : _) → length t.now ≤ length tape.now → F.pre step t }
    requires moves { (t : _) (s : _) → F.post step t s → Moves (length t.now) s }
    ensures { (read : ℕ → List ℕ → Scan) → ((t : _) (s : _) → F.post step t s → Steps read t.now s) → Reports read tape.now result }
{
    let mut i: usize = 0;
    loop {
        match step(&tape[i..]) {
            Ok(Step::Next(u)) => i += u,
            Ok(Step::End(u)) => return Ok(i + u),
            Err(e) => return Err(e.behind(i)),
        }
    }
}

// ---- names

// The first of an identifier's or of `this`'s properties.
fn member_step(text: &[u8], tape: &[u8]) -> Result<Step, TapeError>
    ensures { Steps (λ f t. report (members_at f text.now t)) tape.now result }
{
    let member = legible(tape, member_command_at(tape))?;
    match member {
        Some(s) => onward(check_label(text, s, sizes::WITH_SPAN)),
        None => Ok(Step::End(0)),
    }
}

fn check_members(text: &[u8], tape: &[u8]) -> Result<usize, TapeError>
    ensures { Reports (λ f t. report (members_at f text.now t)) tape.now result }
{
    check_list(tape, |part| member_step(text, part))
}

// The properties behind an identifier or `this` of n bytes.
fn members_behind(text: &[u8], tape: &[u8], n: usize) -> Result<usize, TapeError>
    requires { (1 ≤ n) × (n ≤ length tape.now) }
    ensures { Opens (λ f t. shifted n (report (members_at f text.now (drop n t)))) tape.now result }
{
    further(n, check_members(text, &tape[n..]))
}

fn check_name(text: &[u8], tape: &[u8]) -> Result<usize, TapeError>
    ensures { Reports (λ f t. report (name_at f text.now t)) tape.now result }
{
    let command = legible(tape, name_command_at(tape))?;
    match command {
        NameCommand::Plain(s) => check_label(text, s, sizes::WITH_SPAN),
        NameCommand::Identifier(s) => {
            let n = check_label(text, s, sizes::WITH_SPAN)?;
            members_behind(text, tape, n)
        }
        NameCommand::This => members_behind(text, tape, sizes::BARE),
        NameCommand::Namespaced(s, t) => check_labels(text, s, t, sizes::WITH_SPANS),
    }
}

// ---- the properties of an object literal

fn property_step(text: &[u8], tape: &[u8]) -> Result<Step, TapeError>
    ensures { Steps (λ f t. report (properties_at f text.now t)) tape.now result }
{
    let command = legible(tape, property_command_at(tape))?;
    match command {
        PropertyCommand::Property(_) => Ok(Step::Next(sizes::WITH_EXPRESSION)),
        PropertyCommand::Named(_, s) => {
            onward(check_span(text, s, sizes::WITH_EXPRESSION_AND_SPAN))
        }
        PropertyCommand::End => Ok(Step::End(sizes::BARE)),
    }
}

fn check_properties(text: &[u8], tape: &[u8]) -> Result<usize, TapeError>
    ensures { Reports (λ f t. report (properties_at f text.now t)) tape.now result }
{
    check_list(tape, |part| property_step(text, part))
}

// ---- elements and fragments: `depth` of them are open
//
// kept: the text, the tape and the depth go together as in the definition (`attributes_at f text d t`), but the calls that go on do so with another tape or depth: with a struct
// `check_children(text, &tape[v..], depth + 1)` would be `Part { tape: &part.tape[v..], depth: part.depth + 1, ..part }.check_children()`.

// An element whose 10 stands at the front.
#[cycle(nodes)]
fn open_element(text: &[u8], tape: &[u8], depth: usize, place: Place) -> Result<usize, TapeError>
    requires { 9 ≤ length tape.now }
    ensures { Opens (λ f t. report (opened depth place (element_at f text.now depth place (drop 9 t)))) tape.now result }
{
    check_place(depth, place)?;
    further(
        sizes::WITH_PLACE,
        check_element(text, &tape[sizes::WITH_PLACE..], depth),
    )
}

// A fragment whose 11 stands at the front.
// kept: this and `open_element` are two lines, the second a call of its own. With that call as a closure each place that opens would write a closure in place of a name.
#[cycle(nodes)]
fn open_fragment(text: &[u8], tape: &[u8], depth: usize, place: Place) -> Result<usize, TapeError>
    requires { 9 ≤ length tape.now }
    ensures { Opens (λ f t. report (opened depth place (fragment_at f text.now depth place (drop 9 t)))) tape.now result }
{
    check_place(depth, place)?;
    further(
        sizes::WITH_PLACE,
        check_children(text, &tape[sizes::WITH_PLACE..], depth + 1),
    )
}

// An element behind its 10 and place: a name, attributes, children. Its reader takes a turn of its own.
#[cycle(nodes)]
fn check_element(text: &[u8], tape: &[u8], depth: usize) -> Result<usize, TapeError>
    requires { depth < 64 }
    ensures { (p : place.Place) → Reports (λ f t. report (element_at (suc f) text.now depth p t)) tape.now result }
{
    let u = check_name(text, tape)?;
    let v = further(u, check_attributes(text, &tape[u..], depth + 1))?;
    further(v, check_children(text, &tape[v..], depth + 1))
}

#[cycle(nodes)]
fn attribute_step(text: &[u8], tape: &[u8], depth: usize) -> Result<Step, TapeError>
    ensures { Steps (λ f t. report (attributes_at f text.now depth t)) tape.now result }
{
    let command = legible(tape, attribute_command_at(tape))?;
    match command {
        AttributeCommand::Plain(s) => {
            let n = check_label(text, s, sizes::WITH_SPAN)?;
            onward(value_behind(text, tape, depth, n))
        }
        AttributeCommand::Namespaced(s, t) => {
            let n = check_labels(text, s, t, sizes::WITH_SPANS)?;
            onward(value_behind(text, tape, depth, n))
        }
        AttributeCommand::Spread(_) => Ok(Step::Next(sizes::WITH_EXPRESSION)),
        AttributeCommand::Literal(_) => onward(further(
            sizes::WITH_EXPRESSION,
            check_properties(text, &tape[sizes::WITH_EXPRESSION..]),
        )),
        AttributeCommand::End => Ok(Step::End(sizes::BARE)),
    }
}

// kept: this and `check_children` are one call of `check_list`, as `check_members` and `check_properties`: they differ in the step, which is the argument.
#[cycle(nodes)]
fn check_attributes(text: &[u8], tape: &[u8], depth: usize) -> Result<usize, TapeError>
    ensures { Reports (λ f t. report (attributes_at f text.now depth t)) tape.now result }
{
    check_list(
        tape,
        |part|
            ensures { Steps (λ f t. report (attributes_at f text.entry.now depth t)) part.now result }
        { attribute_step(text, part, depth) },
    )
}

// The value behind an attribute's name of n bytes.
#[cycle(nodes)]
fn value_behind(text: &[u8], tape: &[u8], depth: usize, n: usize) -> Result<usize, TapeError>
    requires { (1 ≤ n) × (n ≤ length tape.now) }
    ensures { Opens (λ f t. shifted n (report (value_at f text.now depth (drop n t)))) tape.now result }
{
    further(n, check_value(text, &tape[n..], depth))
}

#[cycle(nodes)]
fn check_value(text: &[u8], tape: &[u8], depth: usize) -> Result<usize, TapeError>
    ensures { Reports (λ f t. report (value_at f text.now depth t)) tape.now result }
{
    let command = legible(tape, value_command_at(tape))?;
    match command {
        ValueCommand::Absent => Ok(sizes::BARE),
        ValueCommand::Text(s) => check_text(text, s, sizes::WITH_SPAN),
        ValueCommand::Expression(_) => Ok(sizes::WITH_EXPRESSION),
        ValueCommand::Empty => Ok(sizes::BARE),
        ValueCommand::Element(p) => open_element(text, tape, depth, p),
        ValueCommand::Fragment(p) => open_fragment(text, tape, depth, p),
    }
}

#[cycle(nodes)]
fn child_step(text: &[u8], tape: &[u8], depth: usize) -> Result<Step, TapeError>
    ensures { Steps (λ f t. report (children_at f text.now depth t)) tape.now result }
{
    let command = legible(tape, child_command_at(tape))?;
    match command {
        ChildCommand::Text(s) => onward(check_text(text, s, sizes::WITH_SPAN)),
        ChildCommand::Expression(_) => Ok(Step::Next(sizes::WITH_EXPRESSION)),
        ChildCommand::Empty => Ok(Step::Next(sizes::BARE)),
        ChildCommand::Spread(_) => Ok(Step::Next(sizes::WITH_EXPRESSION)),
        ChildCommand::Element(p) => onward(open_element(text, tape, depth, p)),
        ChildCommand::Fragment(p) => onward(open_fragment(text, tape, depth, p)),
        ChildCommand::End => Ok(Step::End(sizes::BARE)),
    }
}

#[cycle(nodes)]
fn check_children(text: &[u8], tape: &[u8], depth: usize) -> Result<usize, TapeError>
    ensures { Reports (λ f t. report (children_at f text.now depth t)) tape.now result }
{
    check_list(
        tape,
        |part|
            ensures { Steps (λ f t. report (children_at f text.entry.now depth t)) part.now result }
        { child_step(text, part, depth) },
    )
}

// ---- the root

// The scopes, and the element or fragment that stands in them.
fn check_scopes(text: &[u8], tape: &[u8]) -> Result<usize, TapeError>
    ensures { Reports (λ f t. report (scopes_at f text.now false t)) tape.now result }
{
    // whether a constructor or another function has come
    let mut found = false;
    // kept: a fault is told by its place, so the place is counted, and not what is left
    let mut i: usize = 0;
    loop {
        let rest = &tape[i..];
        match legible(rest, scope_command_at(found, rest)) {
            Ok(ScopeCommand::Scope(kind)) => {
                found |= kind.is_function();
                i += sizes::WITH_KIND;
            }
            Ok(ScopeCommand::Element(p)) => return further(i, open_element(text, rest, 0, p)),
            Ok(ScopeCommand::Fragment(p)) => return further(i, open_fragment(text, rest, 0, p)),
            Err(e) => return Err(e.behind(i)),
        }
    }
}

// Whether the tape reads as a root over the text: what is left over is refused where it begins.
pub fn check_root(text: &[u8], tape: &[u8]) -> Result<(), TapeError>
    ensures { result ≡ checked (read_root text.now tape.now) }
{
    legible(tape, heritage_command_at(tape))?;
    let scopes = check_scopes(text, &tape[sizes::WITH_KIND..]);
    let taken = further(sizes::WITH_KIND, scopes)?;
    if taken < tape.len() {
        return Err(TapeError {
            fault: Fault::Grammar,
            place: taken,
        });
    }
    Ok(())
}
