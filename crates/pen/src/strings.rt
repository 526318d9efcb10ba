// Strings of the call tape (jsx_impl.rs).
ghost use Rattle.std.specs.Prelude.{◌≡◌};
ghost use Rattle.definitions.specs.Lowering.{piece, quoted, colonized};
ghost use Rattle.pen.specs.Emitting.{Produced};

use crate::pen::Pen;
use definitions::call_tape::{Bare, WithSpan};
use text::spans::Span;

impl<'a> Pen<'a> {
    // A piece of a string: a span, or nothing where it is empty.
    pub fn put_piece(&mut self, span: Span)
        ensures notices_stay { self.new.notices.now ≡ self.old.notices.now }
        ensures written { Produced (piece span) self.old self.new }
    {
        if span.len == 0 {
            return;
        }
        self.put_spanned(WithSpan::Piece, span);
    }

    // A string of one span.
    pub fn put_string(&mut self, span: Span)
        ensures notices_stay { self.new.notices.now ≡ self.old.notices.now }
        ensures written { Produced (quoted (piece span)) self.old self.new }
    {
        self.put_bare(Bare::StringBegin);
        self.put_piece(span);
        self.put_bare(Bare::StringEnd);
    }

    // A string of a namespace, a colon and a name.
    pub fn put_namespaced(&mut self, namespace: Span, name: Span)
        ensures notices_stay { self.new.notices.now ≡ self.old.notices.now }
        ensures written { Produced (colonized namespace name) self.old self.new }
    {
        self.put_bare(Bare::StringBegin);
        self.put_piece(namespace);
        self.put_bare(Bare::Colon);
        self.put_piece(name);
        self.put_bare(Bare::StringEnd)
    }
}
