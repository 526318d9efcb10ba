// The small parts of lowering (jsx_impl.rs): tests of names, values and attributes, keys behind spreads, lone spreads, text children. Of a tape that does not read
// nothing is promised but that no more than the tape is used.
// kept: what is given for a tape that does not read is no error: the tape was checked before, these functions can't fail, and an error would have no reader.
ghost use Rattle.std.specs.Prelude.{◌≡◌, Bool, length, drop, true, false, ◌&&◌, List, ◌++◌, ℕ, ◌+◌, ◌≤◌, ◌<◌, ◌^◌, Option, Some, None, IfSome};
ghost use Rattle.text.specs.declared.spans.Span as spans;
ghost use Rattle.text.specs.Spans.{part_of};
ghost use Rattle.text.specs.Utf8.{first_ill};
ghost use Rattle.definitions.specs.declared.options.Settings as settings;
ghost use Rattle.definitions.specs.Judging.{done};
ghost use Rattle.definitions.specs.Lowering as lowering;
ghost use Rattle.root_check.specs.InOrder.{Inside};
ghost use Rattle.commands.specs.declared.root.Place as places;
ghost use Rattle.definitions.specs.Tree.{Name, Property, Attributes, Value};
ghost use Rattle.definitions.specs.Reading.{members_at, name_at, properties_at, attributes_at, value_at};
ghost use Rattle.definitions.specs.Lowering.{Output, is_key, has_value, key_notice, key_after_spread, classic_element, form_of, lower_literal, self_output, source_output};
ghost use Rattle.pen.specs.Emitting.{Lent, Produced};
ghost use Rattle.emit.specs.Contexts.{over_text, over_both, over_other_text};
ghost use Rattle.parts.specs.Promises.{newer, SoleAt, IsText, TextWritten, LiteralWritten, some_output, Alone, LoneWithin, FrontWithin, FrontIs, starts_with};

use commands::root::{
    AttributeCommand, NameCommand, PropertyCommand, ValueCommand, attribute_command_at,
    member_command_at, name_command_at, property_command_at, value_command_at,
};
use commands::sizes;
use definitions::options::Mode;
use emit::context::{Context, Sound};
use emit::jsx_impl::{has_proto, lower_literal};
use emit::used::Used;
use jsx_text::fixup_whitespace_and_decode_entities;
use pen::pen::Pen;
use root_check::skip::{skip_properties, skip_value};
use text::spans::{Bounds, Span, part, span_bounds};

// Children were lowered, one of them or all: how many survive, and whether one is a spread.
// kept: a spread counts as any child does, so the flag says nothing of the fields beside it.
#[derive(Clone, Copy)]
pub struct Items {
    pub used: usize,
    pub count: usize,
    pub spread: bool,
}

// Attributes were lowered, one of them or all: whether that gave a property, and where the value of the last key stands that has one.
// kept: a key may come with or without a property, so the flag says nothing of the fields beside it.
#[derive(Clone, Copy)]
pub struct Props {
    pub used: usize,
    pub some: bool,
    pub key: Option<usize>,
}

// What an attribute is to a key: one behind a spread, a spread, or another one; and how many bytes it takes.
#[derive(Clone, Copy)]
pub enum Front {
    Key,
    Spread(usize),
    Other(usize),
}

#[tactic(auto, unfolding(definitions::specs::Lowering::is_classic))]
pub fn is_classic(mode: Mode) -> bool
    ensures { result ≡ lowering.is_classic mode }
{
    mode == Mode::Classic
}

fn is_key(context: &Context<'_>, span: Span) -> bool
    ensures { (s : settings.Settings) (b : Bool) → result ≡ is_key (over_text context.now s b) span }
{
    part(context.text, span) == b"key".as_slice()
}

// Whether the value at the front is there.
fn has_value(tape: &[u8]) -> bool
    ensures { (f : ℕ) (text : List ℕ) (d : ℕ) (v : Value) (u : ℕ) → value_at f text d tape.now ≡ done v u → result ≡ has_value v }
{
    match value_command_at(tape) {
        Ok(value) => !matches!(value, ValueCommand::Absent),
        Err(_) => false,
    }
}

// How many bytes the properties of a name take.
fn skip_members(tape: &[u8]) -> usize
    ensures within { result ≤ length tape.now }
    ensures read { (f : ℕ) (text : List ℕ) (ms : List spans.Span) (u : ℕ) → members_at f text tape.now ≡ done ms u → result ≡ u }
{
    let mut rest = tape;
    loop {
        match member_command_at(rest) {
            Ok(Some(_)) => {
                rest = &rest[sizes::WITH_SPAN..];
            }
            Ok(None) => return tape.len() - rest.len(),
            Err(_) => return tape.len() - rest.len(),
        }
    }
}

// How many bytes a name takes.
pub fn skip_name(tape: &[u8]) -> usize
    ensures within { result ≤ length tape.now }
    ensures read { (f : ℕ) (text : List ℕ) (n : Name) (u : ℕ) → name_at f text tape.now ≡ done n u → result ≡ u }
{
    let Ok(command) = name_command_at(tape) else {
        return 0;
    };
    match command {
        NameCommand::Plain(_) => sizes::WITH_SPAN,
        NameCommand::Identifier(_) => sizes::WITH_SPAN + skip_members(&tape[sizes::WITH_SPAN..]),
        NameCommand::This => sizes::BARE + skip_members(&tape[sizes::BARE..]),
        NameCommand::Namespaced(_, _) => sizes::WITH_SPANS,
    }
}

// Whether the attribute at the front, a plain one, is a key with a value.
pub fn is_valued_key(context: &Context<'_>, span: Span, value: &[u8]) -> bool
    ensures { (s : settings.Settings) (b : Bool) (f d : ℕ) (v : Value) (u : ℕ) → value_at f context.now.text.now d value.now ≡ done v u →
        result ≡ (is_key (over_text context.now s b) span && has_value v) }
{
    is_key(context, span) && has_value(value)
}

// C0 for a key without a value.
pub fn key_notice(context: &Context<'_>, span: Span, value: &[u8], pen: &mut Pen<'_>)
    ensures lent { Lent pen.old pen.new }
    ensures calls_stay { pen.new.calls.now ≡ pen.old.calls.now }
    ensures notice { (s : settings.Settings) (b : Bool) (f d : ℕ) (v : Value) (u : ℕ) → value_at f context.now.text.now d value.now ≡ done v u →
        Produced (key_notice (over_text context.now s b) span v) pen.old pen.new }
{
    if is_key(context, span) && !has_value(value) {
        pen.valueless_key(span);
    }
}

// No property, but bytes that are passed.
pub fn passed(used: usize, key: Option<usize>) -> Props
    ensures { result ≡ record { used = used; some = false; key = key } }
{
    Props {
        used,
        some: false,
        key,
    }
}

// The place of a key that was found so many bytes behind `at`, else the one found before.
#[tactic(auto, unfolding(crate::specs::Promises::newer))]
pub fn newer(at: usize, key: Option<usize>, before: Option<usize>) -> Option<usize>
    requires { IfSome key (λ k. at + k < 2 ^ 64) }
    ensures { result ≡ newer at key before }
{
    key.map(|place| at + place).or(before)
}

// Whether a tape begins with this code: an end, told without a step.
#[tactic(auto, unfolding(crate::specs::Promises::starts_with))]
pub fn starts_with(tape: &[u8], code: u8) -> bool
    ensures { result ≡ starts_with code tape.now }
{
    tape.first() == Some(&code)
}

// The form of an automatic call's children: 0 one bare item, 1 an array. A lone spread stays in an array.
// kept: a byte of the call tape, written once as it is; an enum would be made here and turned into the byte by the one caller.
pub fn children_form(count: usize, spread: bool) -> u8
    ensures { result ≡ form_of count spread }
{
    u8::from(count != 1 || spread)
}

// Whether a classic call of an element has a property.
#[tactic(auto, using(crate::proofs::Spreading::more))]
pub fn has_more(context: &Context<'_>, some: bool) -> bool
    ensures { (t : List ℕ) (place : places.Place) (os : List Output) → some_output os ≡ some →
        result ≡ some_output (os ++ self_output (over_other_text context.now t) ++ source_output (over_other_text context.now t) place) }
{
    let flags = context.settings.options.flags;
    some || flags.source_plugin || (flags.self_plugin && context.self_allowed)
}

// The first of an object literal's properties: whether there is one.
fn has_property(tape: &[u8]) -> bool
    ensures { (f : ℕ) (text : List ℕ) (c : lowering.Context) (e : ℕ) (ps : List Property) (u : ℕ) → properties_at f text tape.now ≡ done ps u →
        result ≡ some_output (lower_literal c e ps) }
{
    match property_command_at(tape) {
        Ok(property) => !matches!(property, PropertyCommand::End),
        Err(_) => false,
    }
}

// The literal at the front, behind its command of three bytes.
pub fn literal_attribute(context: &Context<'_>, e: u16, tape: &[u8], pen: &mut Pen<'_>) -> Props
    requires { 3 ≤ length tape.now }
    ensures lent { Lent pen.old pen.new }
    ensures notices_stay { pen.new.notices.now ≡ pen.old.notices.now }
    ensures moves { (result.key ≡ None) × (3 ≤ result.used) × (result.used ≤ length tape.now) }
    ensures literal_written { (s : settings.Settings) (b : Bool) (f : ℕ) (ps : List Property) (u : ℕ) → length tape.now ≤ f →
        properties_at f context.now.text.now (drop 3 tape.now) ≡ done ps u →
        LiteralWritten (lower_literal (over_text context.now s b) e ps) (3 + u) pen.old pen.new result }
{
    let properties = &tape[sizes::WITH_EXPRESSION..];
    let some = has_property(properties);
    let used = lower_literal(context, e, properties, pen);
    Props {
        used: sizes::WITH_EXPRESSION + used,
        some,
        key: None,
    }
}

// The spread at the front, of n bytes, if it is the only attribute: the expression, and what the attributes take.
fn sole(tape: &[u8], e: u16, n: usize) -> Option<Used<u16>>
    requires { n ≤ length tape.now }
    ensures { Alone tape.now e n result }
{
    let Ok(command) = attribute_command_at(&tape[n..]) else {
        return None;
    };
    match command {
        AttributeCommand::End => Some(Used {
            value: e,
            used: n + sizes::BARE,
        }),
        _ => None,
    }
}

// The expression that a classic call's attributes spread alone, if that is all that they are: the plugin options decide, not whether `this` may be used.
pub fn lone_spread(context: &Context<'_>, tape: &[u8]) -> Option<Used<u16>>
    ensures lone_within { LoneWithin (length tape.now) result }
    ensures sole_at { (b : Bool) (f d : ℕ) (a : Attributes) (u : ℕ) → length tape.now < f →
        attributes_at f context.now.text.now d tape.now ≡ done a u → SoleAt (over_both context.now b) a u result }
{
    let flags = context.settings.options.flags;
    if flags.self_plugin || flags.source_plugin {
        return None;
    }
    let Ok(command) = attribute_command_at(tape) else {
        return None;
    };
    match command {
        AttributeCommand::Spread(e) => sole(tape, e, sizes::WITH_EXPRESSION),
        AttributeCommand::Literal(e) => {
            let proto = has_proto(context, &tape[sizes::WITH_EXPRESSION..]);
            if proto.value {
                return None;
            }
            sole(tape, e, sizes::WITH_EXPRESSION + proto.used)
        }
        _ => None,
    }
}

// Whether a plain attribute is a key behind a spread.
fn is_late_key(context: &Context<'_>, span: Span, seen: bool) -> bool
    ensures { (s : settings.Settings) (b : Bool) → result ≡ (seen && is_key (over_text context.now s b) span) }
{
    seen && is_key(context, span)
}

// What stands first among the attributes, unless their end does.
fn front_attribute(context: &Context<'_>, tape: &[u8], seen: bool) -> Option<Front>
    ensures front_within { FrontWithin (length tape.now) result }
    ensures front_is { (s : settings.Settings) (b : Bool) (f d : ℕ) (a : Attributes) (u : ℕ) → length tape.now < f →
        attributes_at f context.now.text.now d tape.now ≡ done a u → FrontIs (over_text context.now s b) context.now.text.now d tape.now seen f a u result }
{
    let Ok(command) = attribute_command_at(tape) else {
        return None;
    };
    match command {
        AttributeCommand::Plain(span) => {
            if is_late_key(context, span, seen) {
                return Some(Front::Key);
            }
            let value = &tape[sizes::WITH_SPAN..];
            Some(Front::Other(sizes::WITH_SPAN + skip_value(value)))
        }
        AttributeCommand::Namespaced(_, _) => {
            let value = &tape[sizes::WITH_SPANS..];
            Some(Front::Other(sizes::WITH_SPANS + skip_value(value)))
        }
        AttributeCommand::Spread(_) => Some(Front::Spread(sizes::WITH_EXPRESSION)),
        AttributeCommand::Literal(_) => {
            let properties = &tape[sizes::WITH_EXPRESSION..];
            Some(Front::Spread(sizes::WITH_EXPRESSION + skip_properties(properties)))
        }
        AttributeCommand::End => None,
    }
}

// Whether a key stands behind a spread.
fn has_key_after_props_spread(context: &Context<'_>, tape: &[u8]) -> bool
    ensures { (s : settings.Settings) (b : Bool) (f d : ℕ) (a : Attributes) (u : ℕ) → length tape.now < f →
        attributes_at f context.now.text.now d tape.now ≡ done a u → result ≡ key_after_spread (over_text context.now s b) false a }
{
    let mut rest = tape;
    let mut seen = false;
    while let Some(front) = front_attribute(context, rest, seen) {
        match front {
            Front::Key => return true,
            Front::Spread(n) => {
                seen = true;
                rest = &rest[n..];
            }
            Front::Other(n) => {
                rest = &rest[n..];
            }
        }
    }
    false
}

// Whether the call of an element with these attributes is classic.
pub fn is_classic_element(context: &Context<'_>, tape: &[u8]) -> bool
    ensures { (b : Bool) (f d : ℕ) (a : Attributes) (u : ℕ) → length tape.now < f →
        attributes_at f context.now.text.now d tape.now ≡ done a u → result ≡ classic_element (over_both context.now b) a }
{
    is_classic(context.settings.mode) || has_key_after_props_spread(context, tape)
}

// The last place in a target: a pen that stands has none past it.
const LAST_PLACE: usize = 0x8000_0000_0000_0000;

// A text child that lies in the text: it is one child if it survives, else none.
fn text_lines(sound: &Sound<'_>, span: Span, pen: &mut Pen<'_>) -> Items
    requires { first_ill (part_of sound.now.context.text.now span) ≡ None }
    ensures text { IsText result }
    ensures notices_stay { pen.new.notices.now ≡ pen.old.notices.now }
    ensures text_written { TextWritten sound.now.context.text.now span pen.old pen.new result }
{
    let at = pen.at.calls.min(LAST_PLACE);
    let texted = fixup_whitespace_and_decode_entities(
        sound.context.text,
        span,
        &mut *pen.calls,
        at,
    );
    pen.at.calls = texted.at;
    Items {
        used: sizes::WITH_SPAN,
        count: usize::from(texted.survives),
        spread: false,
    }
}

// A text child: its lines, and how many children it is, 0 or 1. A tape that reads has no span that is not in the text.
pub fn transform_jsx_text(sound: &Sound<'_>, span: Span, pen: &mut Pen<'_>) -> Items
    ensures text { IsText result }
    ensures lent { Lent pen.old pen.new }
    ensures notices_stay { pen.new.notices.now ≡ pen.old.notices.now }
    ensures text_written { Inside sound.now.context.text.now span → TextWritten sound.now.context.text.now span pen.old pen.new result }
{
    match span_bounds(sound.context.text, span) {
        Bounds::Outside | Bounds::Cuts => Items {
            used: sizes::WITH_SPAN,
            count: 0,
            spread: false,
        },
        Bounds::Empty | Bounds::Good => text_lines(sound, span, pen),
    }
}
