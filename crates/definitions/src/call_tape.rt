// The commands of the call tape by their operands: docs/TAPES.md says what each means.
ghost use Rattle.std.specs.Prelude.{◌≡◌, ℕ};
ghost use Rattle.definitions.specs.Calls.{bare_code, byte_code, expression_code, span_code};

// A command by the byte that it begins with.
// kept: `From<Bare> for u8` and three more would be as many impls, each with the same law, and `u8::from(..)` at each call where this reads `.code()`
pub trait Coded {
    ghost code: { Self → ℕ };

    fn code(self) -> u8
        ensures { result ≡ code self };
}

// No operand.
#[derive(Clone, Copy)]
pub enum Bare {
    ObjectBegin = 0x81,
    ObjectEnd = 0x82,
    StringName = 0x84,
    Null = 0x88,
    StringBegin = 0x8a,
    Space = 0x8c,
    StringEnd = 0x8d,
    Colon = 0x8e,
    LiteralTrue = 0x90,
    LiteralFalse = 0x91,
    VoidZero = 0x92,
    This = 0x93,
    ChildrenBegin = 0x9a,
    Key = 0x9d,
    Tag = 0x9e,
    Callee = 0x9f,
    SelfProperty = 0xa2,
}

impl Coded for Bare {
    ghost code = { bare_code };

    #[tactic(auto, unfolding(crate::specs::Calls::bare_code))]
    fn code(self) -> u8 {
        self as u8
    }
}

// A byte.
#[derive(Clone, Copy)]
pub enum WithByte {
    Call = 0x80,
    Pragma = 0x98,
    Member = 0x99,
    ChildrenEnd = 0x9b,
    CallEnd = 0xa0,
}

impl Coded for WithByte {
    ghost code = { byte_code };

    #[tactic(auto, unfolding(crate::specs::Calls::byte_code))]
    fn code(self) -> u8 {
        self as u8
    }
}

// An expression of the host's.
#[derive(Clone, Copy)]
pub enum WithExpression {
    SpreadProperty = 0x86,
    Carried = 0x87,
    SoleSpread = 0x89,
    Expression = 0x94,
    SpreadItem = 0x9c,
}

impl Coded for WithExpression {
    ghost code = { expression_code };

    #[tactic(auto, unfolding(crate::specs::Calls::expression_code))]
    fn code(self) -> u8 {
        self as u8
    }
}

// A span.
#[derive(Clone, Copy)]
pub enum WithSpan {
    Name = 0x83,
    Piece = 0x8b,
    Identifier = 0x97,
    MemberName = 0xa3,
}

impl Coded for WithSpan {
    ghost code = { span_code };

    #[tactic(auto, unfolding(crate::specs::Calls::span_code))]
    fn code(self) -> u8 {
        self as u8
    }
}

// A binding; with a line and a column.
// kept: one command for each of these kinds of operands: an enum of one variant would only be turned back into its byte
pub const BINDING: u8 = 0x96;

pub const SOURCE: u8 = 0xa1;
