// The groups of the record tape: one for each source, in order of first use.
ghost use Rattle.std.specs.Prelude.{◌≡◌, true, [], ◌<◌};
ghost use Rattle.definitions.specs.Records.{with_group, grouped_by, groups_from};
ghost use Rattle.records.specs.Grouping.{sources_of, Apart, Are, known_source, known_sources};

use definitions::records::{IMPORT_SOURCE, Import, Record};

// The sources of the groups, in their order. There are two sources, so there are at most two groups.
#[derive(Clone, Copy)]
pub enum Groups {
    Empty,
    One(u8),
    Two(u8, u8),
}

// `add_import` of module_imports.rs: a source that has no group gets one behind the others, and `front` puts its group first.
#[tactic(auto, using(crate::proofs::Grouping::group_first, crate::proofs::Grouping::group_again, crate::proofs::Grouping::group_new, crate::proofs::Grouping::group_two), unfolding(crate::specs::Grouping::sources_of, crate::specs::Grouping::Apart))]
fn with_group(groups: Groups, source: u8, front: bool) -> Groups
    requires { (source < 2) × Apart groups }
    ensures { Are result (with_group front source (sources_of groups)) }
{
    match groups {
        Groups::Empty => Groups::One(source),
        Groups::One(s) if s == source => groups,
        Groups::One(s) if front => Groups::Two(source, s),
        Groups::One(s) => Groups::Two(s, source),
        Groups::Two(s, t) if front && t == source => Groups::Two(t, s),
        Groups::Two(_, _) => groups,
    }
}

// A script requires the import source in front; the file name stands in no group.
#[tactic(auto, unfolding(definitions::specs::Records::grouped_by, crate::specs::Grouping::known_source))]
fn grouped_by(groups: Groups, import: Import) -> Groups
    requires { (known_source import ≡ true) × Apart groups }
    ensures { Are result (grouped_by (sources_of groups) import) }
{
    match import {
        Import::Named(source, _) => with_group(groups, source, false),
        Import::Default(source) => with_group(groups, source, source == IMPORT_SOURCE),
        Import::FileName => groups,
    }
}

// The groups of the records.
#[tactic(auto, using(crate::proofs::Grouping::known_next, crate::proofs::Grouping::groups_end), unfolding(crate::specs::Grouping::sources_of, crate::specs::Grouping::Apart))]
pub fn groups_of(records: &[Record]) -> Groups
    requires { known_sources records.now ≡ true }
    ensures { sources_of result ≡ groups_from [] records.now }
{
    let mut groups = Groups::Empty;
    for bound in records {
        groups = grouped_by(groups, bound.import);
    }
    groups
}
