// The pieces of a handler at a pair of bases: where code goes and what is put on a field; what was read of a file, a
// record or the fault for which it is none, checked against the map and carried out.
#![tactic(auto)]

ghost use Rattle.std.specs.Prelude.{[], ◌∷◌, ◌≡◌, ◌+◌, ◌<◌, ◌≤◌, length, replicate};
ghost use Rattle.answer.specs.Report.{address as address_of};
ghost use Rattle.events.specs.Events.{place as placement, play_if, Check, Noted, Did};
ghost use Rattle.fields.specs.Fields.{item_size, fields_of};
ghost use Rattle.pieces.specs.Pieces.{bases_of, place_at, limit_of, amount_of, adjustment};
ghost use Rattle.pieces.specs.Places.{Inside};
ghost use Rattle.pieces.specs.AtBases.{placing, adjusting, ending, start_of, EndsBy, applied};

use answer::{Failure, Fault};
use events::{Buffer, Check};
use fields::{Field, Fixup};
use records::{Entry, Kind, Record};
use words::File;

// Where zero page ends.
const ZERO_PAGE: usize = 256;

// What the addresses of relocatable records count from.
#[derive(Clone, Copy)]
pub struct Bases {
    pub main: u16,
    pub zero: u16,
}

// A pair of bases as a call asks for it, in its range or not.
#[derive(Clone, Copy)]
pub struct Site {
    pub main: u32,
    pub zero: u32,
}

impl Site {
    // The bases of a site that is in its range.
    pub fn bases(self) -> Bases
        requires { (self.main ≤ 65535) × (self.zero ≤ 65535) }
        ensures { result ≡ bases_of self }
    {
        Bases {
            main: self.main as u16,
            zero: self.zero as u16,
        }
    }
}

// Checks what was read at `at` of the file at the bases and carries it out, where the last code record before it has `size` bytes at `place`: a record, or
// the fault for which it is none, which is handed on.
#[tactic(auto, using(words::proofs::Runs::length_part, crate::proofs::Applying::ending_none), unfolding(crate::specs::AtBases::applied, events::specs::Events::play, events::specs::Events::marks))]
pub fn apply(
    file: &File,
    at: usize,
    bases: Bases,
    place: usize,
    size: usize,
    found: Result<Record, Failure>,
    write: bool,
    memory: &mut Buffer,
    map: &mut Buffer,
) -> Check
    requires { (at ≤ length file.now) × EndsBy (length file.now) found × (place + size ≤ 65536) }
    ensures { Did Check (applied file.now at bases place size found map.old) write memory.old map.old result memory.new map.new }
{
    let length = file.len();
    match found? {
        Record::Code {
            kind,
            address,
            from,
            size: count,
        } => {
            let code = file.part(from, count);
            let to = place_of(bases, kind, address);
            place_code(code, at + 2, to, limit(kind), write, memory, map)
        }
        Record::Fixups {
            fixup,
            from,
            size: count,
        } => {
            let items = file.part(from, count);
            adjust_fields(items, from, fixup, bases, place, size, write, memory, map)
        }
        Record::End { entry, next } => end(at + 2, bases, entry, next, length),
    }
}

// What is put on a field.
#[tactic(auto, unfolding(crate::specs::Pieces::amount_of))]
pub fn amount(bases: Bases, field: Field) -> u16
    requires { field.lsb < 256 }
    ensures { result ≡ amount_of bases field }
{
    match field.fixup {
        Fixup::LowByte | Fixup::Word => bases.main,
        Fixup::ZeroPageByte => bases.zero,
        Fixup::HighByte => ((field.lsb + bases.main as usize) / 256) as u16,
    }
}

// Where code of a kind goes.
pub fn place_of(bases: Bases, kind: Kind, address: u16) -> usize
    ensures { (result ≡ place_at bases kind address) × (result ≤ 131070) }
{
    match kind {
        Kind::Main => bases.main as usize + address as usize,
        Kind::ZeroPage => bases.zero as usize + address as usize,
        Kind::Absolute => address as usize,
    }
}

// Where the program starts, where the end record passed.
pub fn start(bases: Bases, entry: Entry) -> Option<u16>
    requires { address_of (start_of bases entry) ≤ 65535 }
    ensures { result ≡ start_of bases entry }
{
    let sum = start_address(bases, entry);
    match entry {
        Entry::Nowhere => None,
        Entry::Fixed(_) | Entry::Relative(_) => Some(sum as u16),
    }
}

// Where code of a kind has to end.
pub fn limit(kind: Kind) -> usize
    ensures { (result ≡ limit_of kind) × (result ≤ 65536) }
{
    match kind {
        Kind::Main | Kind::Absolute => events::MEMORY,
        Kind::ZeroPage => ZERO_PAGE,
    }
}

// Places code whose address stands at `at`, if it ends within its limit and no address there is placed already.
fn place_code(
    code: &[u8],
    at: usize,
    place: usize,
    limit: usize,
    write: bool,
    memory: &mut Buffer,
    map: &mut Buffer,
) -> Check
    requires { (place ≤ 131070) × (length code.now ≤ 65536) × (limit ≤ 65536) }
    ensures { Did Check (placing at place limit code.now map.old) write memory.old map.old result memory.new map.new }
{
    mark_code(at, place, code.len(), limit, map)?;
    write_code(code, place, write, memory);
    Ok(())
}

// Marks `size` code bytes at `place` in the map, whose address stands at `at`, if they end within their limit and no address there is placed
// already. Of code only the length is looked at.
#[tactic(auto, using(crate::proofs::Checks::placing_high, crate::proofs::Checks::placing_taken, crate::proofs::Checks::placing_marked, events::proofs::Events::length_run))]
pub fn mark_code(at: usize, place: usize, size: usize, limit: usize, map: &mut Buffer) -> Check
    requires { (place ≤ 131070) × (size ≤ 65536) × (limit ≤ 65536) }
    ensures { Noted Check (placing at place limit (replicate size 0) map.old) map.old result map.new }
{
    let end = place + size;
    if limit < end {
        return Err(Fault::DoesNotFit.at(at));
    }
    if !words::is_zero(&map[place..end]) {
        return Err(Fault::PiecesOverlap.at(at));
    }
    words::fill(&mut map[place..end], events::PLACED);
    Ok(())
}

// Writes code at `place` in memory, where `write` is true.
#[tactic(auto, using(events::proofs::Events::copied))]
fn write_code(code: &[u8], place: usize, write: bool, memory: &mut [u8])
    requires { place + length code.now ≤ length memory.old }
    ensures { memory.new ≡ play_if write (placement place code.now ∷ []) memory.old }
{
    if write {
        let end = place + code.len();
        words::copy(&mut memory[place..end], code);
    }
}

// Adjusts the fields of the `size` code bytes at `place` that a fixup record lists, one by one. Its items stand from `from` on.
fn adjust_fields(
    items: &[u8],
    from: usize,
    fixup: Fixup,
    bases: Bases,
    place: usize,
    size: usize,
    write: bool,
    memory: &mut Buffer,
    map: &mut Buffer,
) -> Check
    requires { (from + length items.now ≤ 65536) × (place + size ≤ 65536) }
    ensures { Did Check (adjusting from (item_size fixup) bases place size (fields_of fixup items.now) map.old) write memory.old map.old result memory.new map.new }
{
    let step = fields::item_size(fixup);
    for (i, item) in items.chunks_exact(step).enumerate() {
        let field = fields::field_at(item, 0, fixup);
        adjust_field(
            field,
            from + i * step,
            bases,
            place,
            size,
            write,
            memory,
            map,
        )?;
    }
    Ok(())
}

// Adjusts a field of the `size` code bytes at `place`, if it lies inside and no byte of it was adjusted before. The item that lists it stands
// at `at` (of one field it does not matter how far apart items stand).
fn adjust_field(
    field: Field,
    at: usize,
    bases: Bases,
    place: usize,
    size: usize,
    write: bool,
    memory: &mut Buffer,
    map: &mut Buffer,
) -> Check
    requires { (field.index < 256) × (field.lsb < 256) × (place + size ≤ 65536) }
    ensures { Did Check (adjusting at 0 bases place size (field ∷ []) map.old) write memory.old map.old result memory.new map.new }
{
    mark_field(field, at, place, size, map)?;
    write_field(field, bases, place, size, write, memory);
    Ok(())
}

// Marks a field of the `size` code bytes at `place` in the map, if it lies inside and no byte of it was adjusted before. The item that lists it
// stands at `at`. No base is looked at.
#[tactic(auto, using(crate::proofs::Checks::adjusting_outside, crate::proofs::Checks::adjusting_twice, crate::proofs::Checks::adjusting_marked))]
pub fn mark_field(field: Field, at: usize, place: usize, size: usize, map: &mut Buffer) -> Check
    requires { (field.index < 256) × (place + size ≤ 65536) }
    ensures { (bases : Bases) → Noted Check (adjusting at 0 bases place size (field ∷ []) map.old) map.old result map.new }
{
    let width = fields::width(field.fixup);
    if size < field.index + width {
        return Err(Fault::FieldNotLoaded.at(at));
    }
    let address = place + field.index;
    let past = address + width;
    if words::contains(&map[address..past], events::ADJUSTED) {
        return Err(Fault::AdjustedTwice.at(at));
    }
    words::fill(&mut map[address..past], events::ADJUSTED);
    Ok(())
}

// Adjusts a field of the `size` code bytes at `place` in memory, where `write` is true.
#[tactic(auto, using(crate::proofs::Checks::added))]
fn write_field(
    field: Field,
    bases: Bases,
    place: usize,
    size: usize,
    write: bool,
    memory: &mut [u8],
)
    requires { (field.lsb < 256) × Inside size field × (place + size ≤ length memory.old) }
    ensures { memory.new ≡ play_if write (adjustment bases place field ∷ []) memory.old }
{
    if write {
        let width = fields::width(field.fixup);
        let end = place + size;
        words::add(
            &mut memory[place..end],
            field.index,
            width,
            amount(bases, field),
        );
    }
}

// Checks the end record, whose address stands at `at`, and which ends at `next` of a file of `length` bytes.
#[tactic(auto, unfolding(crate::specs::AtBases::ending, answer::specs::Checks::need))]
pub fn end(at: usize, bases: Bases, entry: Entry, next: usize, length: usize) -> Check
    ensures { result ≡ (ending at bases entry next length).answer }
{
    let address = start_address(bases, entry);
    if 65535 < address {
        return Err(Fault::StartTooHigh.at(at));
    }
    if next < length {
        return Err(Fault::BytesAfterEnd.at(next));
    }
    Ok(())
}

// Where the end record lets the program start, as a sum.
fn start_address(bases: Bases, entry: Entry) -> usize
    ensures { result ≡ address_of (start_of bases entry) }
{
    match entry {
        Entry::Nowhere => 0,
        Entry::Fixed(address) => address as usize,
        Entry::Relative(address) => bases.main as usize + address as usize,
    }
}
