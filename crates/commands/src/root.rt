// The commands of the root tape, a reader for each place where commands may stand. Each tests in the order of docs/TAPES.md, "Refusals": a
// command that may not stand there, operands cut off, an operand that is not allowed.
ghost use Rattle.std.specs.Prelude.{◌≡◌};
ghost use Rattle.commands.specs.Root.{place_at, heritage_of, scope_kind_of, is_function, heritage_command, scope_command, name_command, member_command, attribute_command, property_command, value_command, child_command};

use crate::codes;
use crate::error::{CommandError, operand, operand_pair};
use tape::numbers::Operand;
use text::spans::Span;

// Where an element or a fragment stands in the source, both numbers from 0.
#[derive(Clone, Copy)]
pub struct Place {
    pub line: u32,
    pub column: u32,
}

impl Operand for Place {
    ghost SIZE = { 8 };

    ghost value = { place_at };

    const SIZE: usize = 8;

    fn read(tape: &[u8], at: usize) -> Place {
        Place {
            line: u32::read(tape, at),
            column: u32::read(tape, at + 4),
        }
    }
}

// The nearest class body around a root: none, one without a superclass, one with one. On the tape they are 0, 1 and 2.
#[derive(Clone, Copy)]
pub enum Heritage {
    NoClass,
    Base,
    Derived,
}

impl TryFrom<u8> for Heritage {
    type Error = CommandError;

    ghost try_from_gives = { λ b r. r ≡ heritage_of b };

    fn try_from(b: u8) -> Result<Heritage, CommandError> {
        match b {
            0 => Ok(Heritage::NoClass),
            1 => Ok(Heritage::Base),
            2 => Ok(Heritage::Derived),
            _ => Err(CommandError::Bad),
        }
    }
}

// The kinds of scopes; `Function` is any but an arrow and a constructor. On the tape they are 0 to 3.
#[derive(Clone, Copy)]
pub enum ScopeKind {
    Block,
    Arrow,
    Constructor,
    Function,
}

impl TryFrom<u8> for ScopeKind {
    type Error = CommandError;

    ghost try_from_gives = { λ b r. r ≡ scope_kind_of b };

    fn try_from(b: u8) -> Result<ScopeKind, CommandError> {
        match b {
            0 => Ok(ScopeKind::Block),
            1 => Ok(ScopeKind::Arrow),
            2 => Ok(ScopeKind::Constructor),
            3 => Ok(ScopeKind::Function),
            _ => Err(CommandError::Bad),
        }
    }
}

impl ScopeKind {
    // Whether the scope has a `this` of its own.
    pub fn is_function(self) -> bool
        ensures { result ≡ is_function self }
    {
        matches!(self, ScopeKind::Constructor | ScopeKind::Function)
    }
}

// kept: an element and a fragment stand in three of these enums, since each place has its own list of commands and each reader its own order of tests
#[derive(Clone, Copy)]
pub enum ScopeCommand {
    Scope(ScopeKind),
    Element(Place),
    Fragment(Place),
}

#[derive(Clone, Copy)]
pub enum NameCommand {
    Plain(Span),
    Identifier(Span),
    This,
    Namespaced(Span, Span),
}

#[derive(Clone, Copy)]
pub enum AttributeCommand {
    Plain(Span),
    Namespaced(Span, Span),
    Spread(u16),
    Literal(u16),
    End,
}

#[derive(Clone, Copy)]
pub enum PropertyCommand {
    Property(u16),
    Named(u16, Span),
    End,
}

#[derive(Clone, Copy)]
pub enum ValueCommand {
    Absent,
    Text(Span),
    Expression(u16),
    Empty,
    Element(Place),
    Fragment(Place),
}

#[derive(Clone, Copy)]
pub enum ChildCommand {
    Text(Span),
    Expression(u16),
    Empty,
    Spread(u16),
    Element(Place),
    Fragment(Place),
    End,
}

#[tactic(auto, unfolding(crate::specs::Root::heritage_command))]
pub fn heritage_command_at(tape: &[u8]) -> Result<Heritage, CommandError>
    ensures { result ≡ heritage_command tape.now }
{
    match tape.split_first() {
        None => Err(CommandError::Cut),
        Some((&codes::HERITAGE, rest)) => Heritage::try_from(operand::<u8>(rest, 0)?),
        Some(_) => Err(CommandError::Wrong),
    }
}

// `found`: a constructor or another function has come.
#[tactic(auto, unfolding(crate::specs::Root::scope_command))]
pub fn scope_command_at(found: bool, tape: &[u8]) -> Result<ScopeCommand, CommandError>
    ensures { result ≡ scope_command found tape.now }
{
    let (&code, rest) = tape.split_first().ok_or(CommandError::Cut)?;
    match code {
        codes::SCOPE => {
            let kind = ScopeKind::try_from(operand::<u8>(rest, 0)?)?;
            Ok(ScopeCommand::Scope(kind))
        }
        codes::ELEMENT if found => Ok(ScopeCommand::Element(operand(rest, 0)?)),
        codes::FRAGMENT if found => Ok(ScopeCommand::Fragment(operand(rest, 0)?)),
        _ => Err(CommandError::Wrong),
    }
}

#[tactic(auto, unfolding(crate::specs::Root::name_command))]
pub fn name_command_at(tape: &[u8]) -> Result<NameCommand, CommandError>
    ensures { result ≡ name_command tape.now }
{
    let (&code, rest) = tape.split_first().ok_or(CommandError::Cut)?;
    match code {
        codes::TAG => Ok(NameCommand::Plain(operand(rest, 0)?)),
        codes::TAG_IDENTIFIER => Ok(NameCommand::Identifier(operand(rest, 0)?)),
        codes::TAG_THIS => Ok(NameCommand::This),
        codes::TAG_NAMESPACED => {
            let (namespace, name) = operand_pair(rest)?;
            Ok(NameCommand::Namespaced(namespace, name))
        }
        _ => Err(CommandError::Wrong),
    }
}

// A property of an identifier or of `this`; none where any other command ends the name.
#[tactic(auto, unfolding(crate::specs::Root::member_command))]
pub fn member_command_at(tape: &[u8]) -> Result<Option<Span>, CommandError>
    ensures { result ≡ member_command tape.now }
{
    match tape.split_first() {
        Some((&codes::TAG_MEMBER, rest)) => Ok(Some(operand(rest, 0)?)),
        _ => Ok(None),
    }
}

#[tactic(auto, unfolding(crate::specs::Root::attribute_command))]
pub fn attribute_command_at(tape: &[u8]) -> Result<AttributeCommand, CommandError>
    ensures { result ≡ attribute_command tape.now }
{
    let (&code, rest) = tape.split_first().ok_or(CommandError::Cut)?;
    match code {
        codes::ATTRIBUTE => Ok(AttributeCommand::Plain(operand(rest, 0)?)),
        codes::ATTRIBUTE_NAMESPACED => {
            let (namespace, name) = operand_pair(rest)?;
            Ok(AttributeCommand::Namespaced(namespace, name))
        }
        codes::SPREAD_ATTRIBUTE => Ok(AttributeCommand::Spread(operand(rest, 0)?)),
        codes::LITERAL => Ok(AttributeCommand::Literal(operand(rest, 0)?)),
        codes::END_ATTRIBUTES => Ok(AttributeCommand::End),
        _ => Err(CommandError::Wrong),
    }
}

#[tactic(auto, unfolding(crate::specs::Root::property_command))]
pub fn property_command_at(tape: &[u8]) -> Result<PropertyCommand, CommandError>
    ensures { result ≡ property_command tape.now }
{
    let (&code, rest) = tape.split_first().ok_or(CommandError::Cut)?;
    match code {
        codes::PROPERTY => Ok(PropertyCommand::Property(operand(rest, 0)?)),
        codes::NAMED_PROPERTY => {
            let (value, name) = operand_pair(rest)?;
            Ok(PropertyCommand::Named(value, name))
        }
        codes::END_LITERAL => Ok(PropertyCommand::End),
        _ => Err(CommandError::Wrong),
    }
}

#[tactic(auto, unfolding(crate::specs::Root::value_command))]
pub fn value_command_at(tape: &[u8]) -> Result<ValueCommand, CommandError>
    ensures { result ≡ value_command tape.now }
{
    let (&code, rest) = tape.split_first().ok_or(CommandError::Cut)?;
    match code {
        codes::NO_VALUE => Ok(ValueCommand::Absent),
        codes::STRING_VALUE => Ok(ValueCommand::Text(operand(rest, 0)?)),
        codes::CONTAINER => Ok(ValueCommand::Expression(operand(rest, 0)?)),
        codes::EMPTY_CONTAINER => Ok(ValueCommand::Empty),
        codes::ELEMENT => Ok(ValueCommand::Element(operand(rest, 0)?)),
        codes::FRAGMENT => Ok(ValueCommand::Fragment(operand(rest, 0)?)),
        _ => Err(CommandError::Wrong),
    }
}

#[tactic(auto, unfolding(crate::specs::Root::child_command))]
pub fn child_command_at(tape: &[u8]) -> Result<ChildCommand, CommandError>
    ensures { result ≡ child_command tape.now }
{
    let (&code, rest) = tape.split_first().ok_or(CommandError::Cut)?;
    match code {
        codes::TEXT => Ok(ChildCommand::Text(operand(rest, 0)?)),
        codes::CONTAINER => Ok(ChildCommand::Expression(operand(rest, 0)?)),
        codes::EMPTY_CONTAINER => Ok(ChildCommand::Empty),
        codes::SPREAD_CHILD => Ok(ChildCommand::Spread(operand(rest, 0)?)),
        codes::ELEMENT => Ok(ChildCommand::Element(operand(rest, 0)?)),
        codes::FRAGMENT => Ok(ChildCommand::Fragment(operand(rest, 0)?)),
        codes::END => Ok(ChildCommand::End),
        _ => Err(CommandError::Wrong),
    }
}
