// Writing the record tape. The same code counts, where the target has no room, and writes.
ghost use Rattle.std.specs.Prelude.{◌≡◌, true, ◌∷◌, ◌≤◌, length};
ghost use Rattle.tape.specs.Targets.{Wrote};
ghost use Rattle.definitions.specs.Records.{entry_in, file_name_entry, entries_in, group_tape, place_in, record_tape};
ghost use Rattle.definitions.specs.Entries.{judge_tape, records_answer, records_target};
ghost use Rattle.records.specs.Grouping.{sources_of, known_sources};
ghost use Rattle.records.specs.Tape.{tape_of};

use crate::groups::{Groups, groups_of};
use definitions::options::Mode;
use definitions::record_tape::{DEFAULT, FILE_NAME, GROUP, NAMED};
use definitions::records::{Import, Record};
use tape::refusal::Refusal;
use tape::target::{Encode, write_fitting};

// B1 name, binding or B2 binding, where the thing is of this source.
#[tactic(auto, unfolding(definitions::specs::Records::entry_in))]
fn put_in_group(source: u8, bound: Record, out: &mut [u8], at: usize) -> usize
    ensures { Wrote out.old out.new at result (entry_in source bound.import bound.binding) }
{
    match bound.import {
        Import::Named(of, name) if of == source => [NAMED, name, bound.binding].encode(out, at),
        Import::Default(of) if of == source => [DEFAULT, bound.binding].encode(out, at),
        _ => ().encode(out, at),
    }
}

// B0 source, then the group's entries.
#[tactic(auto, unfolding(definitions::specs::Records::entries_in))]
fn put_group(source: u8, records: &[Record], out: &mut [u8], at: usize) -> usize
    ensures { Wrote out.old out.new at result (0xb0 ∷ source ∷ entries_in source records.now) }
{
    let mut end = [GROUP, source].encode(out, at);
    for bound in records {
        end = put_in_group(source, *bound, out, end);
    }
    end
}

#[tactic(auto, unfolding(definitions::specs::Records::group_tape, crate::specs::Grouping::sources_of))]
fn put_groups(groups: Groups, records: &[Record], out: &mut [u8], at: usize) -> usize
    ensures { Wrote out.old out.new at result (group_tape records.now (sources_of groups)) }
{
    match groups {
        Groups::Empty => ().encode(out, at),
        Groups::One(s) => put_group(s, records, out, at),
        Groups::Two(s, t) => {
            let next = put_group(s, records, out, at);
            put_group(t, records, out, next)
        }
    }
}

// `insert_filename_var_statement`: the file name stands before a module's imports, and after a script's requires.
#[tactic(auto, unfolding(definitions::specs::Records::place_in))]
fn place_in(mode: Mode) -> u8
    ensures { result ≡ place_in mode }
{
    u8::from(mode == Mode::Script)
}

// B3 binding, place, where the thing is the file name.
#[tactic(auto, unfolding(definitions::specs::Records::file_name_entry))]
fn put_file_name(place: u8, bound: Record, out: &mut [u8], at: usize) -> usize
    ensures { Wrote out.old out.new at result (file_name_entry place bound.import bound.binding) }
{
    match bound.import {
        Import::FileName => [FILE_NAME, bound.binding, place].encode(out, at),
        Import::Named(_, _) | Import::Default(_) => ().encode(out, at),
    }
}

// The tape of the records, whose groups these are: the file name is last.
#[tactic(auto, unfolding(definitions::specs::Records::file_name_tape, crate::specs::Tape::tape_of))]
fn put_tape(mode: Mode, groups: Groups, records: &[Record], out: &mut [u8]) -> usize
    ensures { Wrote out.old out.new 0 result (tape_of mode groups records.now) }
{
    let place = place_in(mode);
    let mut end = put_groups(groups, records, out, 0);
    for bound in records {
        end = put_file_name(place, *bound, out, end);
    }
    end
}

// The record tape of the records into the target, if it has room for all of it.
pub fn write_tape(mode: Mode, records: &[Record], target: &mut [u8]) -> Result<usize, Refusal>
    requires { (length records.now ≤ 8) × (known_sources records.now ≡ true) }
    ensures value { result ≡ records_answer (judge_tape (record_tape mode records.now) (length target.old)) }
    ensures target_after { target.new ≡ records_target target.old (judge_tape (record_tape mode records.now) (length target.old)) }
{
    let groups = groups_of(records);
    write_fitting(target, |out| put_tape(mode, groups, records, out))
}
