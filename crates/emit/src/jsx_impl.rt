// The parts of a call (jsx_impl.rs): names, attribute names, callees, object literals.
ghost use Rattle.std.specs.Prelude.{◌≡◌, Bool, cond, List, [], ◌++◌, ℕ, ◌≤◌, ◌<◌, length};
ghost use Rattle.text.specs.declared.spans.Span as spans;
ghost use Rattle.definitions.specs.declared.call_tape.Bare.TheVariants as bare;
ghost use Rattle.definitions.specs.declared.call_tape.WithByte.TheVariants as with_byte;
ghost use Rattle.definitions.specs.declared.options.Settings as settings;
ghost use Rattle.definitions.specs.Judging.{done};
ghost use Rattle.definitions.specs.Tree.{Name, Property};
ghost use Rattle.definitions.specs.Reading.{members_at, name_at, properties_at};
ghost use Rattle.definitions.specs.Lowering.{put, put_byte, members, lower_name, imported, callee_named, fragment_tag, attribute_name, is_proto, has_proto, carried, lower_literal, pure_byte, automatic_name, development, static_children, no_key};
ghost use Rattle.pen.specs.Emitting.{Lent, Produced};
ghost use Rattle.emit.specs.Contexts.{over_text, over_settings};
ghost use Rattle.emit.specs.Properties.{property_of, NextIs, Shorter};
ghost use Rattle.emit.specs.Pragmas.{pragma_number};

use crate::context::Context;
use crate::used::Used;
use commands::root::{
    NameCommand, PropertyCommand, member_command_at, name_command_at, property_command_at,
};
use commands::sizes;
use definitions::call_tape::{Bare, WithByte, WithExpression, WithSpan};
use definitions::options::Mode;
use definitions::records;
use definitions::records::Import;
use pen::pen::Pen;
use store::forged::source_of;
use text::bytes::{find_byte, same};
use text::spans::{Span, part};

// The properties of a name: what they are members of has been written.
fn transform_jsx_member_expression(tape: &[u8], pen: &mut Pen<'_>)
    ensures lent { Lent pen.old pen.new }
    ensures notices_stay { pen.new.notices.now ≡ pen.old.notices.now }
    ensures written { (text : List ℕ) (f : ℕ) (ms : List spans.Span) (u : ℕ) → length tape.now < f → members_at f text tape.now ≡ done ms u → Produced (members ms) pen.old pen.new }
{
    let mut rest = tape;
    loop {
        match member_command_at(rest) {
            Ok(Some(name)) => {
                pen.put_spanned(WithSpan::MemberName, name);
                rest = &rest[sizes::WITH_SPAN..];
            }
            // kept: in an arm of two patterns the refusal has no name for the proof to cite, and it did not close
            Ok(None) => return,
            Err(_) => return,
        }
    }
}

// The tag of an element, whose name stands at the front of `tape`. Of a tape that does not read nothing is promised.
pub fn transform_element_name(context: &Context<'_>, tape: &[u8], pen: &mut Pen<'_>)
    ensures lent { Lent pen.old pen.new }
    ensures written { (t : List ℕ) (b : Bool) (text : List ℕ) (f : ℕ) (n : Name) (u : ℕ) → length tape.now < f → name_at f text tape.now ≡ done n u → Produced (lower_name (over_settings context.now t b) n) pen.old pen.new }
{
    match name_command_at(tape) {
        Ok(NameCommand::Plain(name)) => pen.put_string(name),
        Ok(NameCommand::Identifier(name)) => {
            pen.put_spanned(WithSpan::Identifier, name);
            transform_jsx_member_expression(&tape[sizes::WITH_SPAN..], pen);
        }
        Ok(NameCommand::This) => {
            pen.put_bare(Bare::This);
            transform_jsx_member_expression(&tape[sizes::BARE..], pen);
        }
        Ok(NameCommand::Namespaced(namespace, name)) => {
            if context.settings.options.flags.throw_if_namespace {
                pen.namespace_does_not_support(namespace, name);
            }
            pen.put_namespaced(namespace, name);
        }
        Err(_) => {}
    }
}

// An attribute's name: a name with a hyphen is no identifier, so it is a string.
pub fn get_attribute_name(context: &Context<'_>, span: Span, pen: &mut Pen<'_>)
    ensures lent { Lent pen.old pen.new }
    ensures notices_stay { pen.new.notices.now ≡ pen.old.notices.now }
    ensures written { (s : settings.Settings) (b : Bool) → Produced (attribute_name (over_text context.now s b) span) pen.old pen.new }
{
    match find_byte(part(context.text, span), b'-') {
        Some(_) => {
            pen.put_bare(Bare::StringName);
            pen.put_string(span);
        }
        None => pen.put_spanned(WithSpan::Name, span),
    }
}

// A property of an object literal: its expression, its name where it has one, and the tape behind it.
#[derive(Clone, Copy)]
struct Ahead<'a> {
    value: u16,
    name: Option<Span>,
    behind: &'a [u8],
}

// The property at the front of `tape`; none at their end, and where nothing can be read.
#[inline(always)]
fn next_property(tape: &[u8]) -> Option<Ahead<'_>>
    ensures shorter { Shorter tape.now result }
    ensures next { (f : ℕ) (text : List ℕ) (ps : List Property) (u : ℕ) → properties_at f text tape.now ≡ done ps u → NextIs f text tape.now ps u result }
{
    let Ok(command) = property_command_at(tape) else {
        return None;
    };
    match command {
        PropertyCommand::Property(value) => Some(Ahead {
            value,
            name: None,
            behind: &tape[sizes::WITH_EXPRESSION..],
        }),
        PropertyCommand::Named(value, name) => Some(Ahead {
            value,
            name: Some(name),
            behind: &tape[sizes::WITH_EXPRESSION_AND_SPAN..],
        }),
        PropertyCommand::End => None,
    }
}

fn is_proto(context: &Context<'_>, name: Option<Span>) -> bool
    ensures { (s : settings.Settings) (b : Bool) (e : ℕ) → result ≡ is_proto (over_text context.now s b) (property_of e name) }
{
    match name {
        Some(span) => same(part(context.text, span), b"__proto__"),
        None => false,
    }
}

// Whether one of an object literal's properties is called `__proto__`. The properties stand at the front of `tape`, and their end is used too. Of a
// tape that does not read nothing is promised but that no more than the tape is used.
pub fn has_proto(context: &Context<'_>, tape: &[u8]) -> Used<bool>
    ensures used_in_bounds { result.used ≤ length tape.now }
    ensures found_value { (s : settings.Settings) (b : Bool) (f : ℕ) (ps : List Property) (u : ℕ) → length tape.now < f → properties_at f context.now.text.now tape.now ≡ done ps u → (result.value ≡ has_proto (over_text context.now s b) ps) × (result.used ≡ u) }
{
    let mut found = false;
    let mut rest = tape;
    while let Some(property) = next_property(rest) {
        found = found | is_proto(context, property.name);
        rest = property.behind;
    }
    Used {
        value: found,
        used: tape.len() - rest.len() + rest.len().min(sizes::BARE),
    }
}

// An object literal's properties, each carried over.
fn carry_over(tape: &[u8], pen: &mut Pen<'_>)
    ensures lent { Lent pen.old pen.new }
    ensures notices_stay { pen.new.notices.now ≡ pen.old.notices.now }
    ensures written { (text : List ℕ) (f : ℕ) (ps : List Property) (u : ℕ) → length tape.now < f → properties_at f text tape.now ≡ done ps u → Produced (carried ps) pen.old pen.new }
{
    let mut rest = tape;
    while let Some(property) = next_property(rest) {
        pen.put_over(WithExpression::Carried, property.value);
        rest = property.behind;
    }
}

// The spread of the object literal `e`, whose properties stand at the front of `tape`: they are carried over, unless one is called `__proto__`,
// which would mean another thing in the properties. Gives what the properties take.
pub fn lower_literal(context: &Context<'_>, e: u16, tape: &[u8], pen: &mut Pen<'_>) -> usize
    ensures lent { Lent pen.old pen.new }
    ensures notices_stay { pen.new.notices.now ≡ pen.old.notices.now }
    ensures used_in_bounds { result ≤ length tape.now }
    ensures used_value { (s : settings.Settings) (b : Bool) (f : ℕ) (ps : List Property) (u : ℕ) → length tape.now < f → properties_at f context.now.text.now tape.now ≡ done ps u → (result ≡ u) × Produced (lower_literal (over_text context.now s b) e ps) pen.old pen.new }
{
    let proto = has_proto(context, tape);
    if proto.value {
        pen.put_over(WithExpression::SpreadProperty, e);
    } else {
        carry_over(tape, pen);
    }
    proto.used
}

// The pragmas of classic settings: what stands for a callee, and for a fragment.
#[derive(Clone, Copy)]
enum Pragma {
    Callee = 0,
    Fragment = 1,
}

impl Pragma {
    fn number(self) -> u8
        ensures { result ≡ pragma_number self }
    {
        self as u8
    }
}

// A name of one of the two sources; in classic settings a pragma stands for it.
fn imported_name(mode: Mode, name: u8, pragma: Pragma, pen: &mut Pen<'_>)
    ensures notices_stay { pen.new.notices.now ≡ pen.old.notices.now }
    ensures written { Produced (imported mode name (pragma_number pragma)) pen.old pen.new }
{
    let source = source_of(name);
    match mode {
        Mode::Module => pen.put_binding(Import::Named(source, name)),
        Mode::Script => {
            pen.put_binding(Import::Default(source));
            pen.put_byte(WithByte::Member, name);
        }
        Mode::Classic => pen.put_byte(WithByte::Pragma, pragma.number()),
    }
}

// The callee of that name.
// kept: a name is a number of the record tape, as in `Import` and in the definition; these functions take any, and an enum would ask more of their callers
pub fn get_create_element(mode: Mode, name: u8, pen: &mut Pen<'_>)
    ensures notices_stay { pen.new.notices.now ≡ pen.old.notices.now }
    ensures written { Produced (callee_named mode name) pen.old pen.new }
{
    imported_name(mode, name, Pragma::Callee, pen);
}

// A fragment's tag.
pub fn get_fragment(mode: Mode, pen: &mut Pen<'_>)
    ensures notices_stay { pen.new.notices.now ≡ pen.old.notices.now }
    ensures written { Produced (fragment_tag mode) pen.old pen.new }
{
    imported_name(mode, records::FRAGMENT, Pragma::Fragment, pen);
}

// The name of an automatic call's callee: jsxDEV in development, jsxs for two children or more, else jsx.
// kept: a name is a number, as for `get_create_element`
pub fn automatic_name(context: &Context<'_>, count: usize) -> u8
    ensures { (t : List ℕ) (b : Bool) → result ≡ automatic_name (over_settings context.now t b) count }
{
    if context.settings.options.flags.development {
        return records::JSX_DEV;
    }
    if count < 2 {
        return records::JSX;
    }
    records::JSXS
}

// The end of a call, behind its tag: the callee, and whether the call is pure.
// kept: a name is a number, as for `get_create_element`
pub fn closing(context: &Context<'_>, name: u8, pen: &mut Pen<'_>)
    ensures notices_stay { pen.new.notices.now ≡ pen.old.notices.now }
    ensures written { Produced (put bare.Callee ++ callee_named context.now.settings.now.mode name ++ put_byte with_byte.CallEnd (pure_byte context.now.settings.now.pure)) pen.old pen.new }
{
    pen.put_bare(Bare::Callee);
    get_create_element(context.settings.mode, name, pen);
    pen.put_byte(WithByte::CallEnd, u8::from(context.settings.pure));
}

// A command that is there in development alone.
fn in_development(context: &Context<'_>, command: Bare, pen: &mut Pen<'_>)
    ensures lent { Lent pen.old pen.new }
    ensures notices_stay { pen.new.notices.now ≡ pen.old.notices.now }
    ensures written { (t : List ℕ) (b : Bool) → Produced (cond (development (over_settings context.now t b)) (put command) []) pen.old pen.new }
{
    if !context.settings.options.flags.development {
        return;
    }
    pen.put_bare(command);
}

// Whether the children are static, in development.
pub fn static_children(context: &Context<'_>, count: usize, pen: &mut Pen<'_>)
    ensures lent { Lent pen.old pen.new }
    ensures notices_stay { pen.new.notices.now ≡ pen.old.notices.now }
    ensures written { (t : List ℕ) (b : Bool) → Produced (static_children (over_settings context.now t b) count) pen.old pen.new }
{
    let several = if 2 <= count {
        Bare::LiteralTrue
    } else {
        Bare::LiteralFalse
    };
    in_development(context, several, pen);
}

// What stands for a key that is not there, in development.
pub fn no_key(context: &Context<'_>, pen: &mut Pen<'_>)
    ensures lent { Lent pen.old pen.new }
    ensures notices_stay { pen.new.notices.now ≡ pen.old.notices.now }
    ensures written { (t : List ℕ) (b : Bool) → Produced (no_key (over_settings context.now t b)) pen.old pen.new }
{
    in_development(context, Bare::VoidZero, pen);
}
