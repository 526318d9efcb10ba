// `__self` (jsx_self.rs): `this`, where a constructor of a class that extends another does not forbid it.
ghost use Rattle.std.specs.Prelude.{◌≡◌, Bool, false, not, ◌||◌, List, ℕ, ◌≤◌, ◌<◌, length};
ghost use Rattle.definitions.specs.Judging.{done};
ghost use Rattle.definitions.specs.Tree.{Root};
ghost use Rattle.definitions.specs.Reading.{Scoped, scopes_at, read_root};
ghost use Rattle.definitions.specs.Lowering.{self_output, no_super_class};
ghost use Rattle.pen.specs.Emitting.{Lent, Produced};
ghost use Rattle.emit.specs.Contexts.{over_other_text};
ghost use Rattle.emit.specs.Heads.{is_constructor, ScopesOf, HeadOf};

use crate::context::Context;
use crate::used::Used;
use commands::root::{Heritage, ScopeCommand, ScopeKind, heritage_command_at, scope_command_at};
use commands::sizes;
use definitions::call_tape::Bare;
use pen::pen::Pen;

fn is_constructor(kind: ScopeKind) -> bool
    ensures { result ≡ is_constructor kind }
{
    matches!(kind, ScopeKind::Constructor)
}

// Whether the first scope that is no block and no arrow is a constructor. The scopes stand at the front of `tape`. Of a tape that does not read
// nothing is promised but that no more than the tape is used.
fn is_inside_constructor(tape: &[u8]) -> Used<bool>
    ensures used_in_bounds { result.used ≤ length tape.now }
    ensures scopes { (text : List ℕ) (f : ℕ) (s : Scoped) (u : ℕ) → length tape.now < f → scopes_at f text false tape.now ≡ done s u → ScopesOf text tape.now s result }
{
    let mut known = false;
    let mut inside = false;
    let mut rest = tape;
    loop {
        match scope_command_at(known, rest) {
            Ok(ScopeCommand::Scope(kind)) => {
                inside |= !known & is_constructor(kind);
                known |= kind.is_function();
                rest = &rest[sizes::WITH_KIND..];
            }
            Ok(ScopeCommand::Element(_)) => break,
            Ok(ScopeCommand::Fragment(_)) => break,
            Err(_) => break,
        }
    }
    Used {
        value: inside,
        used: tape.len() - rest.len(),
    }
}

// The nearest class body has no heritage, or there is none.
fn has_no_super_class(heritage: Heritage) -> bool
    ensures { result ≡ no_super_class heritage }
{
    !matches!(heritage, Heritage::Derived)
}

// In a constructor, `this` is not there before `super` is called.
fn can_add_self_attribute(inside: bool, heritage: Heritage) -> bool
    ensures { result ≡ (not inside || no_super_class heritage) }
{
    !inside | has_no_super_class(heritage)
}

// Whether `this` can be used where a root stands, and how many bytes of its tape come before its element or fragment. Of a tape that does not read
// nothing is promised but that no more than the tape is used.
pub fn root_head(tape: &[u8]) -> Used<bool>
    ensures used_in_bounds { result.used ≤ length tape.now }
    ensures head { (text : List ℕ) (o : Root) (u : ℕ) → read_root text tape.now ≡ done o u → HeadOf text tape.now o result }
{
    let Ok(heritage) = heritage_command_at(tape) else {
        return Used {
            value: false,
            used: 0,
        };
    };
    let scopes = is_inside_constructor(&tape[sizes::WITH_KIND..]);
    Used {
        value: can_add_self_attribute(scopes.value, heritage),
        used: sizes::WITH_KIND + scopes.used,
    }
}

// `this`, if the plugin is on and `this` can be used where the element stands.
pub fn self_output(context: &Context<'_>, pen: &mut Pen<'_>)
    ensures lent { Lent pen.old pen.new }
    ensures notices_stay { pen.new.notices.now ≡ pen.old.notices.now }
    ensures written { (t : List ℕ) → Produced (self_output (over_other_text context.now t)) pen.old pen.new }
{
    if context.settings.options.flags.self_plugin & context.self_allowed {
        pen.put_bare(Bare::SelfProperty);
    }
}
