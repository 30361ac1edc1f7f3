// A fixup index, entry by entry, checked at a pair of bases over a lent map. No memory is looked at: an index has no code.
#![tactic(auto)]

ghost use Rattle.std.specs.Prelude.{◌≡◌, ◌+◌, ◌%◌, ◌≤◌, length};
ghost use Rattle.acx.specs.Walk.{reported};
ghost use Rattle.answer.specs.Report.{Outcome};
ghost use Rattle.events.specs.Events.{blank, Check, Noted};
ghost use Rattle.pieces.specs.Pieces.{bases_of};
ghost use Rattle.index.specs.Walk.{fixing, coding, applied, judged, indexed};
ghost use Rattle.index.specs.Cursor.{first_cursor, advanced, Lies};

use answer::{Fault, Outcome};
use entries::IndexEntry;
use events::{Buffer, Check};
use pieces::{Bases, Site};
use records::Kind;
use words::File;

// An index has no form: in the ranges of its bases it goes by any. (A number, as `acx::in_range` takes what C gives.)
const FORMLESS: u32 = 0;

// Where a walk stands: the next entry's offset; what was placed and adjusted so far. (What is counted is bounded by the walk, not by the type:
// `advance` makes the next one from any.)
#[derive(Clone, Copy)]
pub struct Cursor {
    pub at: usize,
    pub placed: usize,
    pub adjusted: usize,
}

// Checks an index at a pair of bases: the settings, then the index's length, then the index. Leaves the map with the marks up to the end or the fault.
#[tactic(auto, using(events::proofs::Events::cleared), unfolding(crate::specs::Walk::indexed, answer::specs::Checks::need, events::specs::Events::marks))]
pub fn walk_call(index: &[u8], site: Site, map: &mut Buffer) -> Outcome
    ensures { Noted Outcome (reported (bases_of site) (indexed (bases_of site) index.now)) blank result map.new }
{
    words::fill(map, 0);
    if !acx::in_range(FORMLESS, site) {
        return answer::refused(Fault::SettingOutOfRange, 0);
    }
    let Some(index) = File::new(index) else {
        return answer::refused(Fault::FileTooLong, 0);
    };
    let bases = site.bases();
    walk(&index, bases, map)
}

// Walks an index over a clear map: its version, then its entries.
#[tactic(auto, using(crate::proofs::Going::going_first), unfolding(crate::specs::Walk::judged, answer::specs::Checks::need, events::specs::Events::marks))]
fn walk(index: &File, bases: Bases, map: &mut Buffer) -> Outcome
    requires { map.old ≡ blank }
    ensures { Noted Outcome (reported bases (judged index.now bases)) blank result map.new }
{
    if index.len() < 1 {
        return answer::refused(Fault::CutShort, 0);
    }
    if index.byte(0) != entries::VERSION {
        return answer::refused(Fault::WrongVersion, 0);
    }
    let mut cursor = first_cursor();
    loop {
        let found = match entries::read(index, cursor.at) {
            Ok(found) => found,
            // (no `?`: the offset is the entry's, so `map_err` would take a closure over the cursor)
            Err(fault) => return answer::refused(fault, cursor.at),
        };
        // (as above)
        if let Err(failure) = apply(index, cursor.at, bases, found, map) {
            return answer::refused(failure.fault, cursor.at);
        }
        if let IndexEntry::End { entry, .. } = found {
            return acx::accepted(bases, entry, cursor.placed, cursor.adjusted);
        }
        cursor = advance(cursor, found);
    }
}

// The cursor before the first entry.
fn first_cursor() -> Cursor
    ensures { result ≡ first_cursor }
{
    Cursor {
        at: 1,
        placed: 0,
        adjusted: 0,
    }
}

// The cursor after an entry that passed.
fn advance(cursor: Cursor, found: IndexEntry) -> Cursor
    requires { (cursor.placed ≤ 16777216) × (cursor.adjusted ≤ 65536) × Lies 65536 found }
    ensures { result ≡ advanced cursor found }
{
    match found {
        IndexEntry::Code {
            size,
            from,
            length,
            ..
        } => Cursor {
            at: from + length,
            placed: cursor.placed + size,
            adjusted: cursor.adjusted + length / 3,
        },
        IndexEntry::End { .. } => cursor,
    }
}

// Checks the entry at `at` at the bases and marks it in the map.
#[tactic(auto, using(words::proofs::Runs::length_part, crate::proofs::Applying::ending_noted), unfolding(crate::specs::Walk::applied))]
fn apply(index: &File, at: usize, bases: Bases, found: IndexEntry, map: &mut Buffer) -> Check
    requires { Lies (length index.now) found }
    ensures { Noted Check (applied index.now at bases found map.old) map.old result map.new }
{
    match found {
        IndexEntry::Code {
            kind,
            address,
            size,
            from,
            length,
        } => mark_entry(
            index.part(from, length),
            at,
            bases,
            kind,
            address,
            size,
            map,
        ),
        IndexEntry::End { entry, next } => pieces::end(at, bases, entry, next, index.len()),
    }
}

// Marks `size` code bytes of a kind at their place, and then their fields, which the items list.
fn mark_entry(
    items: &[u8],
    at: usize,
    bases: Bases,
    kind: Kind,
    address: u16,
    size: usize,
    map: &mut Buffer,
) -> Check
    requires { (size ≤ 253) × (length items.now % 3 ≡ 0) }
    ensures { Noted Check (coding at bases kind address size items.now map.old) map.old result map.new }
{
    let place = pieces::place_of(bases, kind, address);
    pieces::mark_code(at, place, size, pieces::limit(kind), map)?;
    mark_fixups(items, at, kind, place, size, map)
}

// Marks the fields of `size` code bytes of a kind at `place` that the items list, one by one.
fn mark_fixups(
    items: &[u8],
    at: usize,
    kind: Kind,
    place: usize,
    size: usize,
    map: &mut Buffer,
) -> Check
    requires { (length items.now % 3 ≡ 0) × (place + size ≤ 65536) }
    ensures { (bases : Bases) → Noted Check (fixing at bases kind place size items.now map.old) map.old result map.new }
{
    for item in items.chunks_exact(3) {
        mark_fixup(item, at, kind, place, size, map)?;
    }
    Ok(())
}

// Marks the field of `size` code bytes of a kind at `place` that an item lists.
#[tactic(auto, using(crate::proofs::Fixing::item_unsuited))]
fn mark_fixup(
    item: &[u8],
    at: usize,
    kind: Kind,
    place: usize,
    size: usize,
    map: &mut Buffer,
) -> Check
    requires { (length item.now ≡ 3) × (place + size ≤ 65536) }
    ensures { (bases : Bases) → Noted Check (fixing at bases kind place size item.now map.old) map.old result map.new }
{
    let Some(field) = entries::listed_at(item, 0, kind) else {
        return Err(Fault::FixupUnsuited.at(at));
    };
    pieces::mark_field(field, at, place, size, map)
}
