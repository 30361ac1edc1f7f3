// The ACX loader: the records of a file checked and carried out at a pair of bases, over a lent memory and map.
// A file is walked twice. The first walk only checks it, and marks the map as it goes; the second also writes memory. So a refusal has
// touched no byte of memory.
#![tactic(auto)]

ghost use Rattle.std.specs.Prelude.{true, ◌≡◌, ◌≤◌, ◌<◌, length};
ghost use Rattle.answer.specs.Report.{Outcome, acceptance, address as address_of};
ghost use Rattle.events.specs.Events.{blank, Check, Did};
ghost use Rattle.pieces.specs.Pieces.{bases_of};
ghost use Rattle.pieces.specs.AtBases.{start_of, EndsBy};
ghost use Rattle.acx.specs.Walk.{records_of, opening as opening_of, opening_size, judged, reported};
ghost use Rattle.acx.specs.Cursor.{first_cursor, advanced};
ghost use Rattle.acx.specs.Call.{form_of, in_range, sized, load as load_of, Loaded};

use answer::{Acceptance, Failure, Fault, Outcome};
use events::{Buffer, Check};
use pieces::{Bases, Site};
use records::{Entry, Kind, Record};
use words::File;

// Disk form has an opening, device form none.
#[derive(Clone, Copy)]
pub enum Form {
    Disk,
    Device,
}

// Where a walk stands: the next record's offset; the last code record, its place and its size; what was placed and adjusted so far. (A type
// for place and size that kept both within memory would ask more of `advance`, which makes them.)
#[derive(Clone, Copy)]
pub struct Cursor {
    pub at: usize,
    pub last: Option<Kind>,
    pub place: usize,
    pub size: usize,
    pub placed: usize,
    pub adjusted: usize,
}

// Loads a file. Refuses with the first fault; memory is then as it was.
#[tactic(auto, using(crate::proofs::Calling::loaded_sized))]
pub fn load(form: u32, file: &[u8], site: Site, memory: &mut [u8], map: &mut [u8]) -> Outcome
    ensures { Loaded form (bases_of site) file.now (sized memory.old map.old) memory.old map.old result memory.new map.new }
{
    let Some(memory) = memory.as_mut_array() else {
        return answer::refused(Fault::WrongBuffer, 0);
    };
    let Some(map) = map.as_mut_array() else {
        return answer::refused(Fault::WrongBuffer, 0);
    };
    load_sized(form, file, site, memory, map)
}

// Checks a load, and carries it out where `write` is true: the settings, then the file's length, then the file. Leaves the map with the marks
// up to the end or the fault.
#[tactic(auto, using(events::proofs::Events::cleared), unfolding(crate::specs::Call::load, answer::specs::Checks::need, events::specs::Events::play, events::specs::Events::marks))]
pub fn walk_call(
    form: u32,
    file: &[u8],
    site: Site,
    write: bool,
    memory: &mut Buffer,
    map: &mut Buffer,
) -> Outcome
    ensures { Did Outcome (reported (bases_of site) (load_of form (bases_of site) file.now)) write memory.old blank result memory.new map.new }
{
    words::fill(map, 0);
    if !in_range(form, site) {
        return answer::refused(Fault::SettingOutOfRange, 0);
    }
    let Some(file) = File::new(file) else {
        return answer::refused(Fault::FileTooLong, 0);
    };
    let bases = site.bases();
    walk_file(form_of(form), &file, bases, write, memory, map)
}

// The form of a call, whose number C gives and `in_range` looks at: `TryFrom` would have an error that can't come.
pub fn form_of(form: u32) -> Form
    ensures { result ≡ form_of form }
{
    match form {
        0 => Form::Disk,
        _ => Form::Device,
    }
}

// Where the records begin.
pub fn opening_size(form: Form) -> usize
    ensures { result ≡ opening_size form }
{
    match form {
        Form::Disk => 2,
        Form::Device => 0,
    }
}

// The cursor of a walk that begins at `at`.
pub fn first_cursor(at: usize) -> Cursor
    ensures { result ≡ first_cursor at }
{
    Cursor {
        at,
        last: None,
        place: 0,
        size: 0,
        placed: 0,
        adjusted: 0,
    }
}

// The cursor after what was read: behind a record that passed; at the end record, or at a fault, where it was. (`EndsBy` is asked here: a record does
// not hold its file.)
#[tactic(auto, using(fields::proofs::Listing::item_some))]
pub fn advance(bases: Bases, cursor: Cursor, found: Result<Record, Failure>) -> Cursor
    requires { (cursor.placed ≤ 65536) × (cursor.adjusted ≤ 65536) × EndsBy 65536 found }
    ensures { result ≡ advanced bases cursor found }
{
    match found {
        Ok(
            Record::Code {
                kind,
                address,
                from,
                size,
            },
        ) => Cursor {
            at: from + size,
            last: Some(kind),
            place: pieces::place_of(bases, kind, address),
            size,
            placed: cursor.placed + size,
            ..cursor
        },
        Ok(Record::Fixups { fixup, from, size }) => Cursor {
            at: from + size,
            adjusted: cursor.adjusted + size / fields::item_size(fixup),
            ..cursor
        },
        Ok(Record::End { .. }) | Err(_) => cursor,
    }
}

// Loads a file with the right buffers: checks it first, and writes only where nothing is refused.
fn load_sized(form: u32, file: &[u8], site: Site, memory: &mut Buffer, map: &mut Buffer) -> Outcome
    ensures { Loaded form (bases_of site) file.now true memory.old map.old result memory.new map.new }
{
    let checked = walk_call(form, file, site, false, memory, map);
    if checked.is_err() {
        words::fill(map, 0);
        return checked;
    }
    walk_call(form, file, site, true, memory, map)
}

// Whether the settings of a call are in their ranges.
pub fn in_range(form: u32, site: Site) -> bool
    ensures { result ≡ in_range form (bases_of site) }
{
    form <= 1 && site.main <= 65535 && site.zero <= 255
}

// Walks a file over a clear map: its opening, then its records.
#[tactic(auto, using(crate::proofs::Walking::opening_fits), unfolding(crate::specs::Walk::judged, events::specs::Events::play, events::specs::Events::marks))]
fn walk_file(
    form: Form,
    file: &File,
    bases: Bases,
    write: bool,
    memory: &mut Buffer,
    map: &mut Buffer,
) -> Outcome
    requires { map.old ≡ blank }
    ensures { Did Outcome (reported bases (judged form file.now bases)) write memory.old blank result memory.new map.new }
{
    // Of a file so short every offset has room in an answer.
    prove!(file.len() <= events::FILE);
    opening(form, file).map_err(answer::refusal_of)?;
    walk(file, opening_size(form), bases, write, memory, map)
}

// Checks that the file opens as its form says.
#[tactic(auto, unfolding(crate::specs::Walk::opening, answer::specs::Checks::need))]
fn opening(form: Form, file: &File) -> Check
    ensures { result ≡ opening_of form file.now }
{
    match form {
        Form::Disk => {
            answer::present(file, 0, 2)?;
            if file.word(0) != 0xFFF0 {
                return Err(Fault::WrongOpening.at(0));
            }
            Ok(())
        }
        Form::Device => Ok(()),
    }
}

// Walks all records from `at` on, over a clear map. (Not one function with the walk of `index`: an entry has no memory to write, and its faults no offset.)
fn walk(
    file: &File,
    at: usize,
    bases: Bases,
    write: bool,
    memory: &mut Buffer,
    map: &mut Buffer,
) -> Outcome
    requires { (at ≤ length file.now) × (map.old ≡ blank) }
    ensures { Did Outcome (reported bases (records_of file.now bases at)) write memory.old blank result memory.new map.new }
{
    // Of a file so short every offset and count has room in an answer.
    prove!(file.len() <= events::FILE);
    let mut cursor = first_cursor(at);
    loop {
        let found = records::read(file, cursor.at, cursor.last);
        pieces::apply(
            file,
            cursor.at,
            bases,
            cursor.place,
            cursor.size,
            found,
            write,
            memory,
            map,
        )
        .map_err(answer::refusal_of)?;
        if let Ok(Record::End { entry, .. }) = found {
            return accepted(bases, entry, cursor.placed, cursor.adjusted);
        }
        cursor = advance(bases, cursor, found);
    }
}

// The acceptance of a file or an index that ends with an entry, after so many bytes placed and fields adjusted.
pub fn accepted(bases: Bases, entry: Entry, placed: usize, adjusted: usize) -> Outcome
    requires { (address_of (start_of bases entry) ≤ 65535) × (placed < 4294967296) × (adjusted < 4294967296) }
    ensures { result ≡ acceptance (start_of bases entry) placed adjusted 0 0 }
{
    Ok(Acceptance {
        start: pieces::start(bases, entry),
        placed: placed as u32,
        adjusted: adjusted as u32,
        new_names: 0,
        low: 0,
    })
}
