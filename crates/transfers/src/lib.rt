// The bytes of a handler taken from their old places to the new ones, by way of the scratch: all at once, so that old and new places may
// overlap in any way. They are gathered from memory into the scratch, where they lie at their new places and have their fields adjusted, and
// only then go into memory. `old` and `new` stay two parameters: at each place the names say which bases are meant.
#![tactic(auto)]

ghost use Rattle.std.specs.Prelude.{[], ◌∷◌, ◌≡◌, ◌+◌, ◌≤◌, length};
ghost use Rattle.words.specs.Numbers.{on, off, change};
ghost use Rattle.words.specs.Runs.{part, put};
ghost use Rattle.events.specs.Lists.{Each};
ghost use Rattle.events.specs.Events.{blank};
ghost use Rattle.fields.specs.Fields.{fields_of};
ghost use Rattle.entries.specs.Entries.{fields_to};
ghost use Rattle.pieces.specs.Pieces.{width, edited};
ghost use Rattle.pieces.specs.Places.{Inside};
ghost use Rattle.moves.specs.Move.{shift, transfer, moved};
ghost use Rattle.moves.specs.Sources.{source_of, file_in, the_index, judged_at};
ghost use Rattle.moves.specs.Call.{ruling_of, Allows, pieces_of, map_by};
ghost use Rattle.index.specs.Walk.{outline_of};
ghost use Rattle.transfers.specs.Scratch.{scratch_with, Sound, Movable, Overlaid};

use acx::Cursor;
use entries::IndexEntry;
use events::Buffer;
use fields::{Field, Fixup};
use moves::Format;
use pieces::Bases;
use records::{Kind, Record};
use words::File;

// Carries the handler's bytes by way of the scratch, over the map of its file or index at the new bases.
pub fn carry(
    format: Format,
    bytes: &[u8],
    old: Bases,
    new: Bases,
    map: &Buffer,
    memory: &mut Buffer,
    scratch: &mut Buffer,
)
    requires { Allows (ruling_of (source_of format bytes.now) old new) × (map.now ≡ map_by (judged_at (source_of format bytes.now) new) (ruling_of (source_of format bytes.now) old new)) }
    ensures { (memory.new ≡ moved old new (pieces_of (ruling_of (source_of format bytes.now) old new)) memory.old) × (scratch.new ≡ blank) }
{
    gather(format, bytes, old, new, memory, scratch);
    commit(map, scratch, memory);
    words::fill(scratch, 0);
}

// Puts the scratch's bytes into memory, at every address that the map marks.
#[tactic(auto, using(crate::proofs::Overlay::overlaying_marked, crate::proofs::Overlay::overlaying_clear))]
fn commit(map: &Buffer, scratch: &Buffer, memory: &mut Buffer)
    ensures { Overlaid map.now scratch.now memory.old memory.new }
{
    for (x, byte) in memory.iter_mut().enumerate() {
        if map[x] != 0 {
            *byte = scratch[x];
        }
    }
}

// Gathers the pieces from their old places in memory into the scratch, at their new places and adjusted. Where a move is allowed, the bytes are not
// too many for a file.
fn gather(
    format: Format,
    bytes: &[u8],
    old: Bases,
    new: Bases,
    memory: &Buffer,
    scratch: &mut Buffer,
)
    requires { Allows (ruling_of (source_of format bytes.now) old new) }
    ensures { scratch.new ≡ transfer old new (pieces_of (ruling_of (source_of format bytes.now) old new)) memory.now scratch.old }
{
    let file = File::new(bytes).unwrap();
    match format {
        Format::File(form) => gather_file(form, &file, old, new, memory, scratch),
        Format::Index => gather_index(&file, old, new, memory, scratch),
    }
}

// (Not one function with `gather_index`: a record is read after the kind of the one before it, and by two cursors.)
// Gathers the pieces of a file: record by record, with a cursor for each pair of bases. Where a move is allowed, no record is at fault.
#[tactic(auto, using(crate::proofs::Gathering::gathering_onward, crate::proofs::Gathering::gathering_on))]
fn gather_file(
    form: u32,
    file: &File,
    old: Bases,
    new: Bases,
    memory: &Buffer,
    scratch: &mut Buffer,
)
    requires { Allows (ruling_of (file_in form file.now) old new) }
    ensures { scratch.new ≡ transfer old new (pieces_of (ruling_of (file_in form file.now) old new)) memory.now scratch.old }
{
    let at = acx::opening_size(acx::form_of(form));
    let mut source = acx::first_cursor(at);
    let mut target = acx::first_cursor(at);
    while let Ok(found) = records::read(file, source.at, source.last) {
        if let Record::End { .. } = found {
            return;
        }
        source = acx::advance(old, source, Ok(found));
        target = acx::advance(new, target, Ok(found));
        gather_record(file, found, old, new, source, target, memory, scratch);
    }
}

// Gathers in the scratch what a record brings: its code from memory, or a change of the fields that it lists.
#[tactic(auto, using(crate::proofs::Gathering::gathers_inside, crate::proofs::Gathering::gathers_code, crate::proofs::Gathering::gathers_fields, crate::proofs::Gathering::gathers_end, crate::proofs::Gathering::gathers_sound))]
fn gather_record(
    file: &File,
    found: Record,
    old: Bases,
    new: Bases,
    source: Cursor,
    target: Cursor,
    memory: &[u8],
    scratch: &mut [u8],
)
    requires { Sound file.now target.size found × (source.place + source.size ≤ length memory.now) × (target.place + target.size ≤ length scratch.old) × (source.size ≡ target.size) }
    ensures { scratch.new ≡ scratch_with file.now old new source target memory.now scratch.old found }
{
    match found {
        Record::Code { .. } => take_code(source.place, target.place, target.size, memory, scratch),
        Record::Fixups { fixup, from, size } => {
            let begin = target.place;
            let end = begin + target.size;
            shift_fields(
                file.part(from, size),
                fixup,
                old,
                new,
                &mut scratch[begin..end],
            );
        }
        Record::End { .. } => {}
    }
}

// Gathers the pieces of an index: entry by entry, up to the end entry. Where a move is allowed, no entry is at fault.
#[tactic(auto, using(crate::proofs::Entries::gathering_on))]
fn gather_index(index: &File, old: Bases, new: Bases, memory: &Buffer, scratch: &mut Buffer)
    requires { Allows (ruling_of (the_index index.now) old new) }
    ensures { scratch.new ≡ transfer old new (pieces_of (ruling_of (the_index index.now) old new)) memory.now scratch.old }
{
    let mut at = 1;
    while let Ok(
        IndexEntry::Code {
            kind,
            address,
            size,
            from,
            length,
        },
    ) = entries::read(index, at)
    {
        gather_entry(
            index.part(from, length),
            kind,
            address,
            size,
            old,
            new,
            memory,
            scratch,
        );
        at = from + length;
    }
}

// Gathers in the scratch what a code entry brings: `size` code bytes of a kind from memory, with the fields changed that its items list.
#[tactic(auto, using(crate::proofs::Entries::entry_lent, crate::proofs::Entries::entry_moved))]
fn gather_entry(
    items: &[u8],
    kind: Kind,
    address: u16,
    size: usize,
    old: Bases,
    new: Bases,
    memory: &Buffer,
    scratch: &mut Buffer,
)
    requires { Movable old new (outline_of kind address size items.now) }
    ensures { scratch.new ≡ transfer old new (outline_of kind address size items.now ∷ []) memory.now scratch.old }
{
    let place = pieces::place_of(old, kind, address);
    let begin = pieces::place_of(new, kind, address);
    take_code(place, begin, size, memory, scratch);
    let end = begin + size;
    shift_listed(items, kind, old, new, &mut scratch[begin..end]);
}

// Copies `size` code bytes from `place` in memory to `to` in the scratch.
#[tactic(auto, using(crate::proofs::Gathering::taken))]
fn take_code(place: usize, to: usize, size: usize, memory: &[u8], scratch: &mut [u8])
    requires { (place + size ≤ length memory.now) × (to + size ≤ length scratch.old) }
    ensures { scratch.new ≡ put scratch.old to (part memory.now place size) }
{
    let end = place + size;
    let past = to + size;
    words::copy(&mut scratch[to..past], &memory[place..end]);
}

// Shifts the fields that a fixup record lists, one by one: the amounts of the old bases off, those of the new on. (Not one function with `shift_listed`: a
// record has its kind once, an entry one with each item; what reads an item would be a closure, with its contract in every caller's.)
#[tactic(auto, using(fields::proofs::Listing::item_none, crate::proofs::Shifting::shifting_end))]
fn shift_fields(items: &[u8], fixup: Fixup, old: Bases, new: Bases, code: &mut [u8])
    requires { Each (Inside (length code.old)) (fields_of fixup items.now) }
    ensures { code.new ≡ edited (shift old new) (fields_of fixup items.now) code.old }
{
    for item in items.chunks_exact(fields::item_size(fixup)) {
        let field = fields::field_at(item, 0, fixup);
        shift_field(
            code,
            field,
            pieces::amount(old, field),
            pieces::amount(new, field),
        );
    }
}

// Shifts the fields that the fixups of an entry list, after code of a kind, one by one.
#[tactic(auto, using(entries::proofs::Listing::none_listed, crate::proofs::Shifting::shifting_end))]
fn shift_listed(items: &[u8], kind: Kind, old: Bases, new: Bases, code: &mut [u8])
    requires { Each (Inside (length code.old)) (fields_to kind items.now) }
    ensures { code.new ≡ edited (shift old new) (fields_to kind items.now) code.old }
{
    for item in items.chunks_exact(3) {
        let Some(field) = entries::listed_at(item, 0, kind) else {
            return;
        };
        shift_field(
            code,
            field,
            pieces::amount(old, field),
            pieces::amount(new, field),
        );
    }
}

// Takes one amount off a field of the code and puts another on.
fn shift_field(code: &mut [u8], field: Field, old: u16, new: u16)
    requires { Inside (length code.old) field }
    ensures { code.new ≡ change (width field) (λ v. on (width field) new (off (width field) old v)) code.old field.index }
{
    let width = fields::width(field.fixup);
    words::take_off(code, field.index, width, old);
    words::add(code, field.index, width, new);
}
