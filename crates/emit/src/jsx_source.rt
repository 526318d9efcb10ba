// `__source` (jsx_source.rs).
ghost use Rattle.std.specs.Prelude.{◌≡◌, Bool, List, ℕ, ◌<◌};
ghost use Rattle.definitions.specs.Lowering.{source_output};
ghost use Rattle.pen.specs.Emitting.{Lent, Produced};
ghost use Rattle.emit.specs.Contexts.{over_settings};

use crate::context::Context;
use commands::root::Place;
use pen::pen::Pen;

// Where the element stands, if the plugin is on.
pub fn source_output(context: &Context<'_>, place: Place, pen: &mut Pen<'_>)
    ensures lent { Lent pen.old pen.new }
    ensures notices_stay { pen.new.notices.now ≡ pen.old.notices.now }
    ensures written { (t : List ℕ) (b : Bool) → place.line < 4294967295 → place.column < 4294967295 → Produced (source_output (over_settings context.now t b) place) pen.old pen.new }
{
    if context.settings.options.flags.source_plugin {
        pen.put_source(place);
    }
}
