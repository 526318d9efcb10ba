// The number of a thing among the records.
ghost use Rattle.std.specs.Prelude.{◌≡◌};
ghost use Rattle.definitions.specs.States.{imports};
ghost use Rattle.records.specs.Numbers.{place_of};

use definitions::records::{Import, Record};

// The place of the first record that binds the thing.
pub fn number_in(records: &[Record], import: Import) -> Option<usize>
    ensures { result ≡ place_of (imports records.now) import }
{
    records.iter().position(|r| r.import == import)
}
