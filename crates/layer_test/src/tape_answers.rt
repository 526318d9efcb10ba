// What the crate `tape` says of an operation's bytes: numbers and targets, the readers of commands, refusals.
use crate::making::{and_span, with_number, with_place, with_span};
use commands::error::CommandError;
use commands::opening::{OptionCommand, flags_command_at, option_command_at};
use commands::root::{
    AttributeCommand, ChildCommand, NameCommand, PropertyCommand, ScopeCommand, ValueCommand,
    attribute_command_at, child_command_at, heritage_command_at, member_command_at,
    name_command_at, property_command_at, scope_command_at, value_command_at,
};
use tape::numbers::Operand;
use tape::refusal::{Fault, Refusal};
use tape::target::Encode;
use text::spans::Span;
use vectors::answers::{Answer, named, no_values, values_of, with_bytes, with_value};
use vectors::values::{WORDS, letters_of};

pub fn answer(operation: &[u8], bytes: &[u8]) -> Answer {
    match operation {
        b"u16" => read_and_written::<u16>(bytes),
        b"u32" => read_and_written::<u32>(bytes),
        b"span" => read_and_written::<Span>(bytes),
        b"far" => far(bytes),
        _ => command(operation, bytes).unwrap_or_else(failed),
    }
}

// ---- numbers: the one that is read, then the bytes that are written of it

// An operand of up to four bytes, as values.
trait Valued: Operand + Encode + Copy {
    fn valued(self) -> Answer;
}

impl Valued for u16 {
    fn valued(self) -> Answer {
        with_value(no_values(), u64::from(self))
    }
}

impl Valued for u32 {
    fn valued(self) -> Answer {
        with_value(no_values(), u64::from(self))
    }
}

impl Valued for Span {
    fn valued(self) -> Answer {
        and_span(no_values(), self)
    }
}

fn read_and_written<T: Valued>(s: &[u8]) -> Answer {
    let size = T::SIZE;
    if s.len() < size {
        return named(b"short");
    }
    let x = T::read(s, 0);
    let mut space = [0xee; 4];
    let target = &mut space[..size.min(4)];
    x.encode(target, 0);
    with_bytes(x.valued(), target)
}

// ---- targets: the place after writing, then what the target holds

// The target's length (at most 10), the place, then what is put there.
fn in_target(operation: &[u8], s: &[u8]) -> Answer {
    let [length, at, bytes @ ..] = s else {
        return named(b"unknown");
    };
    let mut space = [0xee; 10];
    let Some(target) = space.get_mut(..usize::from(*length)) else {
        return named(b"long");
    };
    match put_operation(operation, target, usize::from(*at), bytes) {
        Some(next) => with_bytes(with_value(no_values(), next as u64), target),
        None => named(b"unknown"),
    }
}

// The place behind what was written, unless bytes are missing; it stays for an operation that is not known.
fn put_operation(operation: &[u8], target: &mut [u8], at: usize, s: &[u8]) -> Option<usize> {
    if operation == b"put".as_slice() {
        return Some(put_each(target, at, s));
    }
    match s {
        [] | [_] => None,
        [a, b] | [a, b, _] => match operation {
            b"put_two" => Some([*a, *b].encode(target, at)),
            b"put_u16" => Some(u16::read(s, 0).encode(target, at)),
            _ => Some(at),
        },
        _ => match operation {
            b"put_u32" => Some(u32::read(s, 0).encode(target, at)),
            b"put_span" => Some(Span::read(s, 0).encode(target, at)),
            _ => Some(at),
        },
    }
}

fn put_each(target: &mut [u8], at: usize, s: &[u8]) -> usize {
    let mut next = at;
    for b in s {
        next = (*b).encode(target, next);
    }
    next
}

// Counting stops at 2 ^ 63: the first byte says how far before that the other bytes are put, the answer how far the place after them is.
fn far(s: &[u8]) -> Answer {
    let Some((before, bytes)) = s.split_first() else {
        return named(b"short");
    };
    let end: usize = 0x8000_0000_0000_0000;
    let mut target = [0xee; 4];
    let next = put_each(&mut target, end - usize::from(*before), bytes);
    if end < next {
        return named(b"beyond");
    }
    with_value(no_values(), (end - next) as u64)
}

// ---- commands, or what is wrong with one

fn failed(error: CommandError) -> Answer {
    match error {
        CommandError::Wrong => named(b"wrong"),
        CommandError::Cut => named(b"cut"),
        CommandError::Bad => named(b"bad"),
    }
}

fn command(operation: &[u8], s: &[u8]) -> Result<Answer, CommandError> {
    match operation {
        b"flags" => Ok(with_number(b"flags", flags_command_at(s)? as u64)),
        b"option" => option(s),
        b"heritage" => Ok(with_number(b"heritage", heritage_command_at(s)? as u64)),
        b"scope" => scope(s),
        b"name" => name(s),
        b"member" => member(s),
        b"attribute" => attribute(s),
        b"property" => property(s),
        b"value" => value(s),
        b"child" => child(s),
        _ => Ok(in_target(operation, s)),
    }
}

// ---- commands of the opening tape

// The first byte is the last of 61 to 64 that has come.
fn option(s: &[u8]) -> Result<Answer, CommandError> {
    let Some((last, tape)) = s.split_first() else {
        return Ok(named(b"short"));
    };
    Ok(match option_command_at(*last, tape)? {
        None => named(b"end"),
        Some(OptionCommand::Pragma(p)) => with_span(b"pragma", p),
        Some(OptionCommand::PragmaFrag(p)) => with_span(b"pragmafrag", p),
        Some(OptionCommand::ImportSource(p)) => with_span(b"importsource", p),
        Some(OptionCommand::Comment(p)) => with_span(b"comment", p),
    })
}

// ---- commands of the root tape

// The first byte says whether a scope of kind 2 or 3 has come.
fn scope(s: &[u8]) -> Result<Answer, CommandError> {
    let Some((found, tape)) = s.split_first() else {
        return Ok(named(b"short"));
    };
    Ok(match scope_command_at(*found == 1, tape)? {
        ScopeCommand::Scope(kind) => with_number(b"scope", kind as u64),
        ScopeCommand::Element(p) => with_place(b"element", p),
        ScopeCommand::Fragment(p) => with_place(b"fragment", p),
    })
}

fn name(s: &[u8]) -> Result<Answer, CommandError> {
    Ok(match name_command_at(s)? {
        NameCommand::Plain(p) => with_span(b"plain", p),
        NameCommand::Identifier(p) => with_span(b"identifier", p),
        NameCommand::This => named(b"this"),
        NameCommand::Namespaced(p, q) => and_span(with_span(b"namespaced", p), q),
    })
}

fn member(s: &[u8]) -> Result<Answer, CommandError> {
    Ok(match member_command_at(s)? {
        Some(p) => with_span(b"member", p),
        None => named(b"other"),
    })
}

fn attribute(s: &[u8]) -> Result<Answer, CommandError> {
    Ok(match attribute_command_at(s)? {
        AttributeCommand::Plain(p) => with_span(b"plain", p),
        AttributeCommand::Namespaced(p, q) => and_span(with_span(b"namespaced", p), q),
        AttributeCommand::Spread(e) => with_number(b"spread", e as u64),
        AttributeCommand::Literal(e) => with_number(b"literal", e as u64),
        AttributeCommand::End => named(b"end"),
    })
}

fn property(s: &[u8]) -> Result<Answer, CommandError> {
    Ok(match property_command_at(s)? {
        PropertyCommand::Property(e) => with_number(b"property", e as u64),
        PropertyCommand::Named(e, p) => and_span(with_number(b"named", e as u64), p),
        PropertyCommand::End => named(b"end"),
    })
}

fn value(s: &[u8]) -> Result<Answer, CommandError> {
    Ok(match value_command_at(s)? {
        ValueCommand::Absent => named(b"absent"),
        ValueCommand::Text(p) => with_span(b"text", p),
        ValueCommand::Expression(e) => with_number(b"expression", e as u64),
        ValueCommand::Empty => named(b"empty"),
        ValueCommand::Element(p) => with_place(b"element", p),
        ValueCommand::Fragment(p) => with_place(b"fragment", p),
    })
}

fn child(s: &[u8]) -> Result<Answer, CommandError> {
    Ok(match child_command_at(s)? {
        ChildCommand::Text(p) => with_span(b"text", p),
        ChildCommand::Expression(e) => with_number(b"expression", e as u64),
        ChildCommand::Empty => named(b"empty"),
        ChildCommand::Spread(e) => with_number(b"spread", e as u64),
        ChildCommand::Element(p) => with_place(b"element", p),
        ChildCommand::Fragment(p) => with_place(b"fragment", p),
        ChildCommand::End => named(b"end"),
    })
}

// ---- refusals, by name and place

// Number and figure. A name is known by its value, that is by the letters that are read off it again: those of both cases are the same.
pub fn refusal(operands: &[u8]) -> Answer {
    let [name, at, ..] = values_of(operands).v;
    let mut letters = [0u8; 12];
    let start = if name < WORDS {
        letters.len()
    } else {
        letters_of(name, &mut letters)
    };
    match refusal_named(&letters[start..], at as usize) {
        Some(refusal) => with_value(
            with_value(no_values(), u64::from(refusal.number())),
            refusal.figure() as u64,
        ),
        None => named(b"unknown"),
    }
}

fn refusal_named(name: &[u8], at: usize) -> Option<Refusal> {
    match name {
        b"toolong" => Some(Refusal::TooLong),
        // an 8 counts as an x does
        b"notutfx" => Some(Refusal::NotUtf8(at)),
        b"pragmabyte" => Some(Refusal::PragmaByte(at)),
        b"bindings" => Some(Refusal::Bindings),
        b"space" => Some(Refusal::Space(at)),
        b"noticespace" => Some(Refusal::NoticeSpace(at)),
        b"forged" => Some(Refusal::Forged),
        _ => Some(Refusal::Tape(fault_named(name)?, at)),
    }
}

fn fault_named(name: &[u8]) -> Option<Fault> {
    match name {
        b"grammar" => Some(Fault::Grammar),
        b"outside" => Some(Fault::Outside),
        b"cuts" => Some(Fault::Cuts),
        b"emptyname" => Some(Fault::EmptyName),
        b"depth" => Some(Fault::Depth),
        b"reference" => Some(Fault::Reference),
        b"position" => Some(Fault::Position),
        _ => None,
    }
}
