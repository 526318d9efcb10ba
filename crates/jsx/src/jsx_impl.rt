// From a root tape that was checked to calls and notices (jsx_impl.rs). A tape that does not read gives nothing of use: it has been refused before.
// kept: a part that does not read gives some number of bytes and no error. The tape was checked before, and these functions cannot fail: an error would have no reader.
ghost use Rattle.std.specs.Prelude.{◌≡◌, length, drop, true, false, List, ◌++◌, ℕ, suc, ◌+◌, ◌≤◌, ◌<◌, Option, None};
ghost use Rattle.text.specs.Utf8.{first_ill};
ghost use Rattle.definitions.specs.Judging.{done};
ghost use Rattle.commands.specs.declared.root.Place as places;
ghost use Rattle.definitions.specs.Tree.{Name, Root, Node, Attributes, Value, Children};
ghost use Rattle.definitions.specs.Reading.{element_at, fragment_at, attributes_at, value_at, children_at, read_root};
ghost use Rattle.definitions.specs.Lowering.{Output, key_notice, attribute_name, object_of, lone_spread_or, no_key, lower_node, lower_value, lower_children, lower_root};
ghost use Rattle.pen.specs.Emitting.{Lent, Produced};
ghost use Rattle.emit.specs.Contexts.{context_of};
ghost use Rattle.emit.specs.Heads.{NodeAt};
ghost use Rattle.parts.specs.Promises.{starts_with};
ghost use Rattle.jsx.specs.Parts.{Written, is_classic_form, Countable, KeyWithin, AttributeMoves, ChildMoves, ChildStep, ChildrenWritten, AttributeStep, AttributesWritten, KeyAt, Parts, children_object, automatic_element, classic_properties, classic_call_of, classic_fragment, automatic_fragment};

use commands::root::{
    AttributeCommand, ChildCommand, Place, ScopeCommand, ValueCommand, attribute_command_at,
    child_command_at, scope_command_at, value_command_at,
};
use commands::{codes, sizes};
use definitions::call_tape::{Bare, WithByte, WithExpression};
use definitions::options::Settings;
use definitions::records::CREATE_ELEMENT;
use emit::context::{Context, Sound};
use emit::jsx_impl::{
    automatic_name, closing, get_attribute_name, get_fragment, no_key, static_children,
    transform_element_name,
};
use emit::jsx_self::{root_head, self_output};
use emit::jsx_source::source_output;
use parts::jsx_impl::{
    Items, Props, children_form, has_more, is_classic, is_classic_element, is_valued_key,
    key_notice, literal_attribute, lone_spread, newer, passed, skip_name, starts_with,
    transform_jsx_text,
};
use pen::pen::Pen;
use root_check::skip::skip_value;
use text::spans::Span;

// The two forms of a call, by the numbers that its begin tells.
#[derive(Clone, Copy)]
enum Form {
    Classic = 0,
    Automatic = 1,
}

// No child, but bytes that are passed.
fn unread(used: usize) -> Items
    ensures { result ≡ record { used = used; count = 0; spread = false } }
{
    Items {
        used,
        count: 0,
        spread: false,
    }
}

// ---- the recursion

// A value of an attribute.
#[cycle(lowering)]
fn transform_jsx_attribute_value(sound: &Sound<'_>, tape: &[u8], pen: &mut Pen<'_>) -> usize
    ensures lent { Lent pen.old pen.new }
    ensures used_in_bounds { result ≤ length tape.now }
    ensures written { (f d : ℕ) (v : Value) (u : ℕ) → length tape.now < f → value_at f sound.now.context.text.now d tape.now ≡ done v u → Written (lower_value (context_of sound.now.context) v) u pen.old pen.new result }
{
    match value_command_at(tape) {
        Ok(ValueCommand::Absent) => {
            pen.put_bare(Bare::LiteralTrue);
            sizes::BARE
        }
        Ok(ValueCommand::Empty) => {
            pen.put_bare(Bare::LiteralTrue);
            sizes::BARE
        }
        Ok(ValueCommand::Text(span)) => {
            pen.put_string(span);
            sizes::WITH_SPAN
        }
        Ok(ValueCommand::Expression(e)) => {
            pen.put_over(WithExpression::Expression, e);
            sizes::WITH_EXPRESSION
        }
        Ok(ValueCommand::Element(place)) => {
            let inside = &tape[sizes::WITH_PLACE..];
            sizes::WITH_PLACE + transform_jsx(sound, inside, place, pen)
        }
        Ok(ValueCommand::Fragment(_)) => {
            let inside = &tape[sizes::WITH_PLACE..];
            sizes::WITH_PLACE + fragment(sound, inside, pen)
        }
        Err(_) => 0,
    }
}

// An attribute whose name is written: its value, behind n bytes.
#[cycle(lowering)]
fn behind(sound: &Sound<'_>, tape: &[u8], n: usize, key: Option<usize>, pen: &mut Pen<'_>) -> Props
    requires { (1 ≤ n) × (n ≤ length tape.now) }
    ensures lent { Lent pen.old pen.new }
    ensures property { (result.key ≡ key) × (result.some ≡ true) × (n ≤ result.used) × (result.used ≤ length tape.now) }
    ensures written { (f d : ℕ) (v : Value) (u : ℕ) → length tape.now ≤ f → value_at f sound.now.context.text.now d (drop n tape.now) ≡ done v u → Written (lower_value (context_of sound.now.context) v) (n + u) pen.old pen.new result.used }
{
    Props {
        used: n + transform_jsx_attribute_value(sound, &tape[n..], pen),
        some: true,
        key,
    }
}

// A plain attribute that becomes a property.
#[cycle(lowering)]
fn plain(sound: &Sound<'_>, tape: &[u8], span: Span, key: Option<usize>, pen: &mut Pen<'_>) -> Props
    requires { 5 ≤ length tape.now }
    ensures lent { Lent pen.old pen.new }
    ensures property { (result.key ≡ key) × (result.some ≡ true) × (5 ≤ result.used) × (result.used ≤ length tape.now) }
    ensures written { (f d : ℕ) (v : Value) (u : ℕ) → length tape.now ≤ f → value_at f sound.now.context.text.now d (drop 5 tape.now) ≡ done v u → Written (key_notice (context_of sound.now.context) span v ++ attribute_name (context_of sound.now.context) span ++ lower_value (context_of sound.now.context) v) (5 + u) pen.old pen.new result.used }
{
    key_notice(&sound.context, span, &tape[sizes::WITH_SPAN..], pen);
    get_attribute_name(&sound.context, span, pen);
    behind(sound, tape, sizes::WITH_SPAN, key, pen)
}

// The attribute at the front, where the attributes don't end. In an automatic call a key with a value is no property: its place is told. What does not
// read is passed to its end.
#[cycle(lowering)]
fn attribute(sound: &Sound<'_>, form: Form, tape: &[u8], pen: &mut Pen<'_>) -> Props
    requires some { 1 ≤ length tape.now }
    requires not_over { starts_with 0x1e tape.now ≡ false }
    ensures lent { Lent pen.old pen.new }
    ensures moves { AttributeMoves (length tape.now) result }
    ensures step { (f d : ℕ) (a : Attributes) (u : ℕ) → length tape.now < f → attributes_at f sound.now.context.text.now d tape.now ≡ done a u → AttributeStep (context_of sound.now.context) (is_classic_form form) d tape.now pen.old pen.new result f a u }
{
    match attribute_command_at(tape) {
        Ok(AttributeCommand::Plain(span)) => {
            let value = &tape[sizes::WITH_SPAN..];
            if !is_valued_key(&sound.context, span, value) {
                return plain(sound, tape, span, None, pen);
            }
            let key = Some(sizes::WITH_SPAN);
            match form {
                Form::Classic => plain(sound, tape, span, key, pen),
                Form::Automatic => passed(sizes::WITH_SPAN + skip_value(value), key),
            }
        }
        Ok(AttributeCommand::Namespaced(namespace, name)) => {
            pen.put_bare(Bare::StringName);
            pen.put_namespaced(namespace, name);
            behind(sound, tape, sizes::WITH_SPANS, None, pen)
        }
        Ok(AttributeCommand::Spread(e)) => {
            pen.put_over(WithExpression::SpreadProperty, e);
            Props {
                used: sizes::WITH_EXPRESSION,
                some: true,
                key: None,
            }
        }
        Ok(AttributeCommand::Literal(e)) => literal_attribute(&sound.context, e, tape, pen),
        Ok(AttributeCommand::End) => passed(tape.len(), None),
        Err(_) => passed(tape.len(), None),
    }
}

// The attributes up to the 1e.
#[cycle(lowering)]
fn attrs(sound: &Sound<'_>, form: Form, tape: &[u8], pen: &mut Pen<'_>) -> Props
    ensures lent { Lent pen.old pen.new }
    ensures within { (result.used ≤ length tape.now) × KeyWithin (length tape.now) result.key }
    ensures written { (f d : ℕ) (a : Attributes) (u : ℕ) → length tape.now < f → attributes_at f sound.now.context.text.now d tape.now ≡ done a u → AttributesWritten (context_of sound.now.context) (is_classic_form form) d tape.now a u pen.old pen.new result }
{
    // kept: a place is what is told here, of the end and of the last key, so it stays beside what is left
    let mut i: usize = 0;
    let mut some = false;
    let mut key = None;
    loop {
        let rest = &tape[i..];
        if starts_with(rest, codes::END_ATTRIBUTES) {
            return Props {
                used: i + sizes::BARE,
                some,
                key,
            };
        }
        if rest.is_empty() {
            return Props { used: i, some, key };
        }
        let step = attribute(sound, form, rest, pen);
        key = newer(i, step.key, key);
        some = some | step.some;
        i = i + step.used;
    }
}

// The child at the front, where the children don't end. What does not read is passed to its end.
#[cycle(lowering)]
fn transform_jsx_child(sound: &Sound<'_>, tape: &[u8], pen: &mut Pen<'_>) -> Items
    requires some { 1 ≤ length tape.now }
    requires not_over { starts_with 0x1f tape.now ≡ false }
    ensures lent { Lent pen.old pen.new }
    ensures moves { ChildMoves (length tape.now) result }
    ensures step { (f d : ℕ) (k : Children) (u : ℕ) → length tape.now < f → children_at f sound.now.context.text.now d tape.now ≡ done k u → ChildStep (context_of sound.now.context) d tape.now pen.old pen.new result f k u }
{
    match child_command_at(tape) {
        Ok(ChildCommand::Text(span)) => transform_jsx_text(sound, span, pen),
        Ok(ChildCommand::Expression(e)) => {
            pen.put_over(WithExpression::Expression, e);
            Items {
                used: sizes::WITH_EXPRESSION,
                count: 1,
                spread: false,
            }
        }
        Ok(ChildCommand::Empty) => unread(sizes::BARE),
        Ok(ChildCommand::Spread(e)) => {
            pen.put_over(WithExpression::SpreadItem, e);
            Items {
                used: sizes::WITH_EXPRESSION,
                count: 1,
                spread: true,
            }
        }
        Ok(ChildCommand::Element(place)) => {
            let inside = &tape[sizes::WITH_PLACE..];
            Items {
                used: sizes::WITH_PLACE + transform_jsx(sound, inside, place, pen),
                count: 1,
                spread: false,
            }
        }
        Ok(ChildCommand::Fragment(_)) => {
            let inside = &tape[sizes::WITH_PLACE..];
            Items {
                used: sizes::WITH_PLACE + fragment(sound, inside, pen),
                count: 1,
                spread: false,
            }
        }
        Ok(ChildCommand::End) => unread(tape.len()),
        Err(_) => unread(tape.len()),
    }
}

// The children up to the 1f.
#[cycle(lowering)]
fn children(sound: &Sound<'_>, tape: &[u8], pen: &mut Pen<'_>) -> Items
    ensures lent { Lent pen.old pen.new }
    ensures within { (result.used ≤ length tape.now) × (result.count ≤ length tape.now) }
    ensures written { (f d : ℕ) (k : Children) (u : ℕ) → length tape.now < f → children_at f sound.now.context.text.now d tape.now ≡ done k u → ChildrenWritten (context_of sound.now.context) k (lower_children (context_of sound.now.context) k) u pen.old pen.new result }
{
    let mut rest = tape;
    // kept: the children that survive are counted, not the turns
    let mut count: usize = 0;
    let mut spread = false;
    loop {
        if starts_with(rest, codes::END) {
            return Items {
                used: tape.len() - rest.len() + sizes::BARE,
                count,
                spread,
            };
        }
        if rest.is_empty() {
            return Items {
                used: tape.len(),
                count,
                spread,
            };
        }
        let step = transform_jsx_child(sound, rest, pen);
        count = count + step.count;
        spread = spread | step.spread;
        rest = &rest[step.used..];
    }
}

// The children of an automatic call and the end of its object. Where no child survives, the object's end takes the place of the children's begin.
#[cycle(lowering)]
fn inner(sound: &Sound<'_>, tape: &[u8], pen: &mut Pen<'_>) -> Items
    ensures lent { Lent pen.old pen.new }
    ensures within { (result.used ≤ length tape.now) × (result.count ≤ length tape.now) }
    ensures written { (f d : ℕ) (k : Children) (u : ℕ) → length tape.now < f → children_at f sound.now.context.text.now d tape.now ≡ done k u → ChildrenWritten (context_of sound.now.context) k (children_object (context_of sound.now.context) k) u pen.old pen.new result }
{
    let start = pen.at.calls;
    pen.put_bare(Bare::ChildrenBegin);
    let items = children(sound, tape, pen);
    if items.count == 0 {
        pen.at.calls = start;
        pen.put_bare(Bare::ObjectEnd);
        return items;
    }
    pen.put_byte(
        WithByte::ChildrenEnd,
        children_form(items.count, items.spread),
    );
    pen.put_bare(Bare::ObjectEnd);
    items
}

// The value of the last key, or what stands for none.
#[cycle(lowering)]
fn key_of(sound: &Sound<'_>, tape: &[u8], key: Option<usize>, pen: &mut Pen<'_>)
    requires { KeyWithin (length tape.now) key }
    ensures lent { Lent pen.old pen.new }
    ensures written { (d : ℕ) (os : List Output) → KeyAt (context_of sound.now.context) d tape.now (no_key (context_of sound.now.context)) key os → Produced os pen.old pen.new }
{
    match key {
        Some(place) => {
            pen.put_bare(Bare::Key);
            transform_jsx_attribute_value(sound, &tape[place..], pen);
        }
        None => no_key(&sound.context, pen),
    }
}

// An automatic call of an element whose name takes `at` bytes.
#[cycle(lowering)]
fn automatic(sound: &Sound<'_>, tape: &[u8], at: usize, place: Place, pen: &mut Pen<'_>) -> usize
    requires { at ≤ length tape.now }
    ensures lent { Lent pen.old pen.new }
    ensures used_in_bounds { result ≤ length tape.now }
    ensures written { (d f : ℕ) (n : Name) (a : Attributes) (v : ℕ) (k : Children) (w : ℕ) → Parts sound.now.context.text.now d tape.now f at n a v k w → Countable place → Written (automatic_element (context_of sound.now.context) place n a k) (at + v + w) pen.old pen.new result }
{
    pen.put_byte(WithByte::Call, Form::Automatic as u8);
    pen.put_bare(Bare::ObjectBegin);
    let props = attrs(sound, Form::Automatic, &tape[at..], pen);
    let from = at + props.used;
    let items = inner(sound, &tape[from..], pen);
    key_of(sound, &tape[at..], props.key, pen);
    static_children(&sound.context, items.count, pen);
    source_output(&sound.context, place, pen);
    self_output(&sound.context, pen);
    pen.put_bare(Bare::Tag);
    transform_element_name(&sound.context, tape, pen);
    closing(
        &sound.context,
        automatic_name(&sound.context, items.count),
        pen,
    );
    from + items.used
}

// The object of a classic call, or null in its place where there is no property.
#[cycle(lowering)]
fn or_null(sound: &Sound<'_>, tape: &[u8], place: Place, pen: &mut Pen<'_>) -> usize
    ensures lent { Lent pen.old pen.new }
    ensures used_in_bounds { result ≤ length tape.now }
    ensures written { (d f : ℕ) (a : Attributes) (u : ℕ) → length tape.now < f → attributes_at f sound.now.context.text.now d tape.now ≡ done a u → Countable place → Written (object_of (classic_properties (context_of sound.now.context) place a)) u pen.old pen.new result }
{
    let start = pen.at.calls;
    pen.put_bare(Bare::ObjectBegin);
    let props = attrs(sound, Form::Classic, tape, pen);
    self_output(&sound.context, pen);
    source_output(&sound.context, place, pen);
    if has_more(&sound.context, props.some) {
        pen.put_bare(Bare::ObjectEnd);
        return props.used;
    }
    pen.at.calls = start;
    pen.put_bare(Bare::Null);
    props.used
}

// The argument of a classic call behind the tag: a sole spread, an object or null.
#[cycle(lowering)]
fn argument(sound: &Sound<'_>, tape: &[u8], place: Place, pen: &mut Pen<'_>) -> usize
    ensures lent { Lent pen.old pen.new }
    ensures used_in_bounds { result ≤ length tape.now }
    ensures written { (d f : ℕ) (a : Attributes) (u : ℕ) → length tape.now < f → attributes_at f sound.now.context.text.now d tape.now ≡ done a u → Countable place → Written (lone_spread_or (context_of sound.now.context) a (object_of (classic_properties (context_of sound.now.context) place a))) u pen.old pen.new result }
{
    match lone_spread(&sound.context, tape) {
        Some(sole) => {
            pen.put_over(WithExpression::SoleSpread, sole.value);
            sole.used
        }
        None => or_null(sound, tape, place, pen),
    }
}

// A classic call of an element whose name takes `at` bytes.
#[cycle(lowering)]
fn create(sound: &Sound<'_>, tape: &[u8], at: usize, place: Place, pen: &mut Pen<'_>) -> usize
    requires { at ≤ length tape.now }
    ensures lent { Lent pen.old pen.new }
    ensures used_in_bounds { result ≤ length tape.now }
    ensures written { (d f : ℕ) (n : Name) (a : Attributes) (v : ℕ) (k : Children) (w : ℕ) → Parts sound.now.context.text.now d tape.now f at n a v k w → Countable place → Written (classic_call_of (context_of sound.now.context) place n a k) (at + v + w) pen.old pen.new result }
{
    pen.put_byte(WithByte::Call, Form::Classic as u8);
    let from = at + argument(sound, &tape[at..], place, pen);
    let items = children(sound, &tape[from..], pen);
    pen.put_bare(Bare::Tag);
    transform_element_name(&sound.context, tape, pen);
    closing(&sound.context, CREATE_ELEMENT, pen);
    from + items.used
}

// An element behind its 10 and place.
#[cycle(lowering)]
fn transform_jsx(sound: &Sound<'_>, tape: &[u8], place: Place, pen: &mut Pen<'_>) -> usize
    ensures lent { Lent pen.old pen.new }
    ensures used_in_bounds { result ≤ length tape.now }
    ensures written { (f d : ℕ) (n : Node) (u : ℕ) → suc (length tape.now) < f → element_at f sound.now.context.text.now d place tape.now ≡ done n u → Countable place → Written (lower_node (context_of sound.now.context) n) u pen.old pen.new result }
{
    let at = skip_name(tape);
    if is_classic_element(&sound.context, &tape[at..]) {
        return create(sound, tape, at, place, pen);
    }
    automatic(sound, tape, at, place, pen)
}

// A fragment behind its 11 and place.
#[cycle(lowering)]
fn fragment(sound: &Sound<'_>, tape: &[u8], pen: &mut Pen<'_>) -> usize
    ensures lent { Lent pen.old pen.new }
    ensures used_in_bounds { result ≤ length tape.now }
    ensures written { (f d : ℕ) (place : places.Place) (n : Node) (u : ℕ) → suc (length tape.now) < f → fragment_at f sound.now.context.text.now d place tape.now ≡ done n u → Written (lower_node (context_of sound.now.context) n) u pen.old pen.new result }
{
    if is_classic(sound.context.settings.mode) {
        return bare(sound, tape, pen);
    }
    bare_auto(sound, tape, pen)
}

// A classic call of a fragment.
#[cycle(lowering)]
fn bare(sound: &Sound<'_>, tape: &[u8], pen: &mut Pen<'_>) -> usize
    ensures lent { Lent pen.old pen.new }
    ensures used_in_bounds { result ≤ length tape.now }
    ensures written { (f d : ℕ) (k : Children) (u : ℕ) → length tape.now < f → children_at f sound.now.context.text.now d tape.now ≡ done k u → Written (classic_fragment (context_of sound.now.context) k) u pen.old pen.new result }
{
    pen.put_byte(WithByte::Call, Form::Classic as u8);
    pen.put_bare(Bare::Null);
    let items = children(sound, tape, pen);
    pen.put_bare(Bare::Tag);
    get_fragment(sound.context.settings.mode, pen);
    closing(&sound.context, CREATE_ELEMENT, pen);
    items.used
}

// An automatic call of a fragment.
#[cycle(lowering)]
fn bare_auto(sound: &Sound<'_>, tape: &[u8], pen: &mut Pen<'_>) -> usize
    ensures lent { Lent pen.old pen.new }
    ensures used_in_bounds { result ≤ length tape.now }
    ensures written { (f d : ℕ) (k : Children) (u : ℕ) → length tape.now < f → children_at f sound.now.context.text.now d tape.now ≡ done k u → Written (automatic_fragment (context_of sound.now.context) k) u pen.old pen.new result }
{
    pen.put_byte(WithByte::Call, Form::Automatic as u8);
    pen.put_bare(Bare::ObjectBegin);
    let items = inner(sound, tape, pen);
    no_key(&sound.context, pen);
    static_children(&sound.context, items.count, pen);
    pen.put_bare(Bare::Tag);
    get_fragment(sound.context.settings.mode, pen);
    closing(
        &sound.context,
        automatic_name(&sound.context, items.count),
        pen,
    );
    items.used
}

// The element or fragment that stands at the front of what follows a root's scopes.
fn transform_root(sound: &Sound<'_>, tape: &[u8], pen: &mut Pen<'_>)
    ensures lent { Lent pen.old pen.new }
    ensures written { (n : Node) → NodeAt sound.now.context.text.now tape.now n → Produced (lower_node (context_of sound.now.context) n) pen.old pen.new }
{
    match scope_command_at(true, tape) {
        Ok(ScopeCommand::Element(place)) => {
            transform_jsx(sound, &tape[sizes::WITH_PLACE..], place, pen);
        }
        Ok(ScopeCommand::Fragment(_)) => {
            fragment(sound, &tape[sizes::WITH_PLACE..], pen);
        }
        Ok(ScopeCommand::Scope(_)) | Err(_) => {}
    }
}

// A root that was checked: its calls and notices are written. From targets that are empty it counts.
pub fn lower(text: &[u8], settings: &Settings, tape: &[u8], pen: &mut Pen<'_>)
    requires text_len_bound { length text.now ≤ 65535 }
    requires text_value { first_ill text.now ≡ None }
    ensures lent { Lent pen.old pen.new }
    ensures written { (o : Root) (u : ℕ) → read_root text.now tape.now ≡ done o u → Produced (lower_root text.now settings.now o) pen.old pen.new }
{
    let head = root_head(tape);
    let sound = Sound {
        context: Context {
            text,
            settings,
            self_allowed: head.value,
        },
    };
    transform_root(&sound, &tape[head.used..], pen);
}
