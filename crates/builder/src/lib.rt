// The builder of fixup indexes. A file is checked as a load checks it, with its map; then it is walked twice more: once to see how long its index is,
// and, where that fits, once to write it. Nothing is written into the room before that is known.
#![tactic(auto)]

ghost use Rattle.std.specs.Prelude.{true, Ok, [], ◌∷◌, ◌≡◌, ◌+◌, ◌*◌, ◌/◌, ◌<◌, ◌≤◌, length};
ghost use Rattle.words.specs.Runs.{put};
ghost use Rattle.answer.specs.Report.{IsAccepted};
ghost use Rattle.events.specs.Events.{marks, blank};
ghost use Rattle.fields.specs.Fields.{item_size, fields_of};
ghost use Rattle.pieces.specs.Pieces.{bases_of};
ghost use Rattle.pieces.specs.AtBases.{EndsBy};
ghost use Rattle.acx.specs.Call.{load};
ghost use Rattle.acx.specs.Walk.{reported};
ghost use Rattle.entries.specs.Bytes.{version, fixup_bytes, code_bytes, end_bytes, with_length};
ghost use Rattle.records.specs.Types.{flag_of, address_in};
ghost use Rattle.builder.specs.Build.{sized, Built};
ghost use Rattle.builder.specs.Parts.{bytes_of, with_low, bare, brings, front_after, closed, room_with, Sound};

use answer::{Acceptance, Fault, Outcome};
use events::Buffer;
use fields::{Field, Fixup};
use pieces::{Bases, Site};
use records::{Entry, Kind, Record};
use words::File;

// How far the room is filled: where the last entry begins, and where the next one would. (The room is lent: no heap.)
#[derive(Clone, Copy)]
pub struct Front {
    pub entry: usize,
    pub used: usize,
}

// Builds the index of a file into the room `index`, with the map of a load. Refuses as a load does; then where the index would not fit.
#[tactic(auto, using(crate::proofs::Building::right_sizes))]
pub fn build(form: u32, file: &[u8], site: Site, map: &mut [u8], index: &mut [u8]) -> Outcome
    ensures { Built form (bases_of site) file.now (sized map.old index.old) map.old index.old result map.new index.new }
{
    let Some(map) = map.as_mut_array() else {
        return answer::refused(Fault::WrongBuffer, 0);
    };
    let Some(index) = index.as_mut_array() else {
        return answer::refused(Fault::WrongBuffer, 0);
    };
    build_sized(form, file, site, map, index)
}

// Builds with the right buffers. A check leaves the memory lent to it alone, so the room stands in for it.
fn build_sized(form: u32, file: &[u8], site: Site, map: &mut Buffer, index: &mut Buffer) -> Outcome
    ensures { Built form (bases_of site) file.now true map.old index.old result map.new index.new }
{
    let checked = acx::walk_call(form, file, site, false, index, map);
    if checked.is_err() {
        words::fill(map, 0);
        return checked;
    }
    let bases = site.bases();
    // An accepted file is not too long.
    let file = File::new(file).unwrap();
    build_checked(form, &file, bases, checked, map, index)
}

// Builds where the file is accepted, with the outcome and the map of its check. (`IsAccepted` is asked by three private functions, about arguments
// that none of them changes; the form is a number, as the definition `load` takes it.)
fn build_checked(
    form: u32,
    file: &File,
    bases: Bases,
    checked: Outcome,
    marked: &mut Buffer,
    index: &mut Buffer,
) -> Outcome
    requires { IsAccepted (reported bases (load form bases file.now)).answer × (checked ≡ (reported bases (load form bases file.now)).answer) × (marked.old ≡ marks (load form bases file.now).events blank) }
    ensures { Built form bases file.now true marked.old index.old result marked.new index.new }
{
    let length = index_length(form, file, bases);
    if events::MEMORY < length {
        words::fill(marked, 0);
        return answer::refused(Fault::IndexTooLong, 0);
    }
    write_index(form, file, bases, index);
    with_low(checked, length as u32)
}

// An outcome with the number of bytes used.
fn with_low(outcome: Outcome, low: u32) -> Outcome
    ensures { result ≡ with_low low outcome }
{
    outcome.map(|accepted| Acceptance { low, ..accepted })
}

// How long the index of an accepted file is: each of its records can be read.
fn index_length(form: u32, file: &File, bases: Bases) -> usize
    requires { IsAccepted (reported bases (load form bases file.now)).answer }
    ensures { (result ≡ length (bytes_of (load form bases file.now).answer)) × (result < 4294967296) }
{
    let at = acx::opening_size(acx::form_of(form));
    let mut cursor = acx::first_cursor(at);
    let mut used = 1;
    loop {
        let found = records::read(file, cursor.at, cursor.last).unwrap();
        used += entry_size(found);
        if let Record::End { .. } = found {
            return used;
        }
        cursor = acx::advance(bases, cursor, Ok(found));
    }
}

// How many bytes of the index a record brings.
fn entry_size(found: Record) -> usize
    requires { EndsBy 65536 (Ok found) }
    ensures { (result ≡ brings found) × (result ≤ 196608) }
{
    match found {
        Record::Fixups { fixup, size, .. } => 3 * (size / fields::item_size(fixup)),
        Record::Code { .. } | Record::End { .. } => 6,
    }
}

// Writes the index of an accepted file into the room: record by record, with every entry closed behind it.
fn write_index(form: u32, file: &File, bases: Bases, index: &mut Buffer)
    requires { IsAccepted (reported bases (load form bases file.now)).answer × (length (bytes_of (load form bases file.now).answer) ≤ 65536) }
    ensures { index.new ≡ put blank 0 (bytes_of (load form bases file.now).answer) }
{
    let at = acx::opening_size(acx::form_of(form));
    let mut cursor = acx::first_cursor(at);
    let mut front = Front { entry: 1, used: 1 };
    open_index(index);
    loop {
        let found = records::read(file, cursor.at, cursor.last).unwrap();
        if let Record::End { entry, .. } = found {
            write_end(entry, front.used, index);
            return;
        }
        write_record(file, cursor.at, cursor.last, found, front, index);
        front = next_front(front, found);
        cursor = acx::advance(bases, cursor, Ok(found));
    }
}

// Clears the room and puts the version at its front.
fn open_index(index: &mut Buffer)
    ensures { index.new ≡ put blank 0 (version ∷ []) }
{
    words::fill(index, 0);
    index[0] = entries::VERSION;
}

// How far the room is filled behind a record.
fn next_front(front: Front, found: Record) -> Front
    requires { EndsBy 65536 (Ok found) × (front.used ≤ 65536) }
    ensures { result ≡ front_after front found }
{
    let used = front.used + entry_size(found);
    match found {
        Record::Code { .. } => Front {
            entry: front.used,
            used,
        },
        Record::Fixups { .. } => Front { used, ..front },
        Record::End { .. } => front,
    }
}

// Writes what the record at `at` of the file brings, behind the last code record: fixups stand only behind one, whose kind they take.
#[tactic(auto, using(crate::proofs::Writing::writes_code, crate::proofs::Writing::writes_fixups, words::proofs::Runs::length_part), unfolding(crate::specs::Parts::room_with))]
fn write_record(
    file: &File,
    at: usize,
    last: Option<Kind>,
    found: Record,
    front: Front,
    index: &mut Buffer,
)
    requires { Sound file.now at front found × (front.used + brings found ≤ 65536) }
    ensures { index.new ≡ room_with file.now last front index.old found }
{
    prove!(file.len() <= events::FILE);
    match found {
        Record::Code { kind, address, .. } => write_code(
            kind,
            address,
            file.byte(at + 1) - 2,
            front.used,
            index,
        ),
        Record::Fixups { fixup, from, size } => write_fixups(
            file.part(from, size),
            last.unwrap_or(Kind::Main),
            fixup,
            front,
            index,
        ),
        Record::End { .. } => {}
    }
}

// Writes the entry of a code record without fixups.
#[tactic(auto, using(crate::proofs::Writing::code_stored))]
fn write_code(kind: Kind, address: u16, size: u8, at: usize, index: &mut Buffer)
    requires { at + 6 ≤ length index.old }
    ensures { index.new ≡ put index.old at (with_length (code_bytes (bare kind address size))) }
{
    words::put_big_word(index, at, 4);
    index[at + 2] = records::code_type(kind);
    words::put_big_word(index, at + 3, address);
    index[at + 5] = size;
}

// Adds the fixups that the items of a record list to the last entry: their bytes behind it, and its length anew.
#[tactic(auto, using(crate::proofs::Writing::closes, fields::proofs::Listing::item_some))]
fn write_fixups(items: &[u8], kind: Kind, fixup: Fixup, front: Front, index: &mut Buffer)
    requires { (front.entry + 2 ≤ front.used) × (front.used + 3 * (length items.now / item_size fixup) ≤ 65536) }
    ensures { index.new ≡ closed kind fixup items.now front index.old }
{
    write_items(items, kind, fixup, front.used, index);
    let used = front.used + 3 * (items.len() / fields::item_size(fixup));
    let length = used - front.entry - 2;
    words::put_big_word(index, front.entry, length as u16);
}

// Writes the fixups that the items of a record list, one by one.
fn write_items(items: &[u8], kind: Kind, fixup: Fixup, at: usize, index: &mut Buffer)
    requires { at + 3 * (length items.now / item_size fixup) ≤ length index.old }
    ensures { index.new ≡ put index.old at (fixup_bytes kind (fields_of fixup items.now)) }
{
    for (i, item) in items.chunks_exact(fields::item_size(fixup)).enumerate() {
        write_field(kind, fields::field_at(item, 0, fixup), at + 3 * i, index);
    }
}

// Writes one fixup: its kind, its index and its LSB.
#[tactic(auto, using(crate::proofs::Writing::field_stored))]
fn write_field(kind: Kind, field: Field, at: usize, index: &mut Buffer)
    requires { (field.index < 256) × (field.lsb < 256) × (at + 3 ≤ length index.old) }
    ensures { index.new ≡ put index.old at (fixup_bytes kind (field ∷ [])) }
{
    let fixup = field.fixup;
    index[at] = records::fixup_type(kind, fixup);
    index[at + 1] = field.index as u8;
    index[at + 2] = field.lsb as u8;
}

// Writes the entry of the end record.
#[tactic(auto, using(crate::proofs::Writing::end_stored))]
fn write_end(entry: Entry, at: usize, index: &mut Buffer)
    requires { at + 6 ≤ length index.old }
    ensures { index.new ≡ put index.old at (with_length (end_bytes entry)) }
{
    words::put_big_word(index, at, 4);
    index[at + 2] = records::END_TYPE;
    index[at + 3] = flag(entry);
    words::put_big_word(index, at + 4, address_in(entry));
}

// The flag of an entry: `as` takes no variant that has a field.
fn flag(entry: Entry) -> u8
    ensures { result ≡ flag_of entry }
{
    match entry {
        Entry::Nowhere => 0,
        Entry::Fixed(_) => 1,
        Entry::Relative(_) => 2,
    }
}

// The address of an entry, zero where it has none.
fn address_in(entry: Entry) -> u16
    ensures { result ≡ address_in entry }
{
    match entry {
        Entry::Nowhere => 0,
        Entry::Fixed(address) | Entry::Relative(address) => address,
    }
}
