// The pen: both targets and how far writing has come.
ghost use Rattle.std.specs.Prelude.{◌≡◌, ◌+◌, ◌<◌, [], ◌∷◌, unwrap_or};
ghost use Rattle.definitions.specs.declared.records.Import.TheVariants.{FileName};
ghost use Rattle.definitions.specs.Calls.{source};
ghost use Rattle.definitions.specs.Lowering.{emit, put, put_byte, put_over, put_span, put_binding};
ghost use Rattle.store.specs.Adding.{added};
ghost use Rattle.pen.specs.Emitting.{Lent, WroteCall, WroteNotice, Produced, numbered_pen};

use commands::root::Place;
use definitions::call_tape;
use definitions::call_tape::{Bare, Coded, WithByte, WithExpression, WithSpan};
use definitions::records::Import;
use store::module_imports::Store;
use tape::target::Encode;
use text::spans::Span;

// What is bound, whether a binding found no number, and where writing goes on in the targets.
#[derive(Clone, Copy)]
pub struct Progress {
    pub store: Store,
    // kept: numbers run out seldom, and counting goes on: an `Option` of the store would be matched at each binding
    pub full: bool,
    pub notices: usize,
    pub calls: usize,
}

// The targets, and how far they have come.
#[derive(Drop)]
pub struct Pen<'a> {
    pub calls: &'a mut [u8],
    pub notices: &'a mut [u8],
    pub at: Progress,
}

impl<'a> Pen<'a> {
    // Bytes behind the calls, whatever they are.
    pub fn put_call<T: Encode>(&mut self, x: T)
        ensures { WroteCall (T.bytes x) self.old self.new }
    {
        self.at.calls = x.encode(self.calls, self.at.calls);
    }

    // Bytes behind the notices.
    pub(crate) fn put_notice<T: Encode>(&mut self, x: T)
        ensures { WroteNotice (T.bytes x) self.old self.new }
    {
        self.at.notices = x.encode(self.notices, self.at.notices);
    }

    // A command with no operand.
    pub fn put_bare(&mut self, bare: Bare)
        ensures notices_stay { self.new.notices.now ≡ self.old.notices.now }
        ensures written { Produced (put bare) self.old self.new }
    {
        self.put_call(bare.code());
    }

    // A command with a byte.
    pub fn put_byte(&mut self, command: WithByte, n: u8)
        ensures notices_stay { self.new.notices.now ≡ self.old.notices.now }
        ensures written { Produced (put_byte command n) self.old self.new }
    {
        self.put_call([command.code(), n]);
    }

    // A command with an expression of the host's.
    pub fn put_over(&mut self, command: WithExpression, e: u16)
        ensures notices_stay { self.new.notices.now ≡ self.old.notices.now }
        ensures written { Produced (put_over command e) self.old self.new }
    {
        let code = command.code();
        self.put_call(code);
        self.put_call(e);
    }

    // A command with a span.
    pub fn put_spanned(&mut self, command: WithSpan, span: Span)
        ensures notices_stay { self.new.notices.now ≡ self.old.notices.now }
        ensures written { Produced (put_span command span) self.old self.new }
    {
        let code = command.code();
        self.put_call(code);
        self.put_call(span);
    }

    // The number of an import. Where there is none left, any byte stands in its place and counting goes on.
    fn number_of(&mut self, import: Import) -> u8
        ensures number { result ≡ unwrap_or (added self.old.at.store import).number 0 }
        ensures after { self.new ≡ numbered_pen self.old import }
    {
        let number = self.at.store.add_import(import);
        self.at.full = self.at.full | number.is_none();
        number.unwrap_or(0)
    }

    // A binding.
    pub fn put_binding(&mut self, import: Import)
        ensures notices_stay { self.new.notices.now ≡ self.old.notices.now }
        ensures written { Produced (put_binding import) self.old self.new }
    {
        let number = self.number_of(import);
        self.put_call([call_tape::BINDING, number]);
    }

    // The file name's binding with a line and a column, which count from 0 on the root tape and from 1 on the call tape. The root tape's check
    // has refused the greatest number, so the sums don't wrap.
    pub fn put_source(&mut self, place: Place)
        ensures lent { Lent self.old self.new }
        ensures notices_stay { self.new.notices.now ≡ self.old.notices.now }
        ensures written { place.line < 4294967295 → place.column < 4294967295 → Produced (emit (source FileName (record { line = place.line + 1; column = place.column + 1 })) ∷ []) self.old self.new }
    {
        let number = self.number_of(Import::FileName);
        self.put_call([call_tape::SOURCE, number]);
        self.put_call(place.line.wrapping_add(1));
        self.put_call(place.column.wrapping_add(1));
    }
}
