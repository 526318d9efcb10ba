// Notices (diagnostics.rs).
ghost use Rattle.std.specs.Prelude.{◌≡◌, [], ◌∷◌};
ghost use Rattle.definitions.specs.Calls.{valueless_key, namespaced_tag};
ghost use Rattle.definitions.specs.Lowering.{notify};
ghost use Rattle.pen.specs.Emitting.{Produced};

use crate::pen::Pen;
use definitions::record_tape;
use text::spans::Span;

impl<'a> Pen<'a> {
    // A key without a value.
    pub fn valueless_key(&mut self, span: Span)
        ensures notice { Produced (notify (valueless_key span) ∷ []) self.old self.new }
        ensures calls_stay { self.new.calls.now ≡ self.old.calls.now }
    {
        self.put_notice(record_tape::VALUELESS_KEY);
        self.put_notice(span);
    }

    // A tag with a namespace, under `throw_if_namespace`.
    pub fn namespace_does_not_support(&mut self, namespace: Span, name: Span)
        ensures notice { Produced (notify (namespaced_tag namespace name) ∷ []) self.old self.new }
        ensures calls_stay { self.new.calls.now ≡ self.old.calls.now }
    {
        self.put_notice(record_tape::NAMESPACED_TAG);
        self.put_notice(namespace);
        self.put_notice(name);
    }
}
