// ACX records, read with no base in mind: what stands at an offset of a file.
// Where a record goes and whether it fits is the business of the crates `pieces` and `acx`.
#![tactic(auto)]

ghost use Rattle.std.specs.Prelude.{◌≡◌, ◌+◌, ◌<◌, ◌≤◌, length};
ghost use Rattle.records.specs.Types.{code_type, fixup_type};
ghost use Rattle.records.specs.Records.{type_of, entry_of, suits as suits_of, length_allowed, read_code, read_fixups, read_end, read as read_of};

use answer::{Failure, Fault};
use fields::Fixup;
use words::File;

// What a code record's address counts from: the main base, the zero-page base, or nothing. Each has the number of its type.
#[derive(Clone, Copy)]
pub enum Kind {
    Main = 0x00,
    ZeroPage = 0x0A,
    Absolute = 0x01,
}

// Where an end record lets the program start: the three values of its flag, so no `Option`.
#[derive(Clone, Copy)]
pub enum Entry {
    Nowhere,
    Fixed(u16),
    Relative(u16),
}

// The type byte of an end record.
pub const END_TYPE: u8 = 0x0B;

// What a record's type byte says. Fixups have the relocatable code that they are for; `suits` says what they may follow.
#[derive(Clone, Copy)]
pub enum RecordType {
    Code(Kind),
    Fixups(Kind, Fixup),
    End,
}

// A record: its code bytes or its items are the `size` bytes of the file from `from` on, and the next record begins after them.
#[derive(Clone, Copy)]
pub enum Record {
    Code {
        kind: Kind,
        address: u16,
        from: usize,
        size: usize,
    },
    Fixups {
        fixup: Fixup,
        from: usize,
        size: usize,
    },
    End {
        entry: Entry,
        next: usize,
    },
}

// Reads the record at `at`, where the last code record before it is of the kind `last`, or there is none. A failure has the offset of the first byte at fault.
#[tactic(auto, unfolding(crate::specs::Records::read, answer::specs::Checks::need))]
pub fn read(file: &File, at: usize, last: Option<Kind>) -> Result<Record, Failure>
    ensures { result ≡ read_of file.now at last }
{
    // (no `present`: the offset may lie past the end)
    if file.len() <= at {
        return Err(Fault::CutShort.at(file.len()));
    }
    match type_of(file.byte(at)) {
        Some(RecordType::Code(kind)) => read_code(file, at, kind),
        Some(RecordType::Fixups(kind, fixup)) => read_fixups(file, at, last, kind, fixup),
        Some(RecordType::End) => read_end(file, at),
        None => Err(Fault::NotKnown.at(at)),
    }
}

// What a type byte says, if it is one. A function of the definition's name: no `?` meets it, so `TryFrom` would only rename it.
pub fn type_of(byte: u8) -> Option<RecordType>
    ensures { result ≡ type_of byte }
{
    Some(match byte {
        0 => RecordType::Code(Kind::Main),
        1 => RecordType::Code(Kind::Absolute),
        2 => RecordType::Fixups(Kind::Main, Fixup::LowByte),
        3 => RecordType::Fixups(Kind::ZeroPage, Fixup::LowByte),
        4 => RecordType::Fixups(Kind::Main, Fixup::ZeroPageByte),
        5 => RecordType::Fixups(Kind::ZeroPage, Fixup::ZeroPageByte),
        6 => RecordType::Fixups(Kind::Main, Fixup::Word),
        7 => RecordType::Fixups(Kind::ZeroPage, Fixup::Word),
        8 => RecordType::Fixups(Kind::Main, Fixup::HighByte),
        9 => RecordType::Fixups(Kind::ZeroPage, Fixup::HighByte),
        10 => RecordType::Code(Kind::ZeroPage),
        11 => RecordType::End,
        _ => return None,
    })
}

// The type byte of code of a kind.
pub fn code_type(kind: Kind) -> u8
    ensures { result ≡ code_type kind }
{
    kind as u8
}

// The type byte of a fixup after code of a kind.
pub fn fixup_type(kind: Kind, fixup: Fixup) -> u8
    ensures { result ≡ fixup_type kind fixup }
{
    match kind {
        Kind::Main | Kind::Absolute => fixup as u8,
        Kind::ZeroPage => fixup as u8 + 1,
    }
}

// Reads a code record.
#[tactic(auto, unfolding(crate::specs::Records::read_code, answer::specs::Checks::need))]
fn read_code(file: &File, at: usize, kind: Kind) -> Result<Record, Failure>
    requires { at < length file.now }
    ensures { result ≡ read_code file.now at kind }
{
    answer::present(file, at, 2)?;
    let length = file.byte(at + 1) as usize;
    if length < 2 {
        return Err(Fault::LengthNotAllowed.at(at + 1));
    }
    answer::present(file, at, 2 + length)?;
    Ok(Record::Code {
        kind,
        address: file.word(at + 2),
        from: at + 4,
        size: length - 2,
    })
}

// Reads a fixup record for the code records of a kind.
#[tactic(auto, unfolding(crate::specs::Records::read_fixups, crate::specs::Records::read_items, answer::specs::Checks::need))]
fn read_fixups(
    file: &File,
    at: usize,
    last: Option<Kind>,
    kind: Kind,
    fixup: Fixup,
) -> Result<Record, Failure>
    requires { at < length file.now }
    ensures { result ≡ read_fixups file.now at last kind fixup }
{
    answer::present(file, at, 2)?;
    if !suits(kind, last) {
        return Err(Fault::FixupUnsuited.at(at));
    }
    let length = file.byte(at + 1) as usize;
    if !length_allowed(fixup, length) {
        return Err(Fault::LengthNotAllowed.at(at + 1));
    }
    answer::present(file, at, 2 + length)?;
    Ok(Record::Fixups {
        fixup,
        from: at + 2,
        size: length,
    })
}

// Whether a fixup for code of a kind may follow the last code record. Those for main code serve absolute code too.
pub fn suits(kind: Kind, last: Option<Kind>) -> bool
    ensures { result ≡ suits_of kind last }
{
    matches!(
        (kind, last),
        (Kind::Main, Some(Kind::Main | Kind::Absolute)) | (Kind::ZeroPage, Some(Kind::ZeroPage))
    )
}

// Whether a fixup record may have this length.
fn length_allowed(fixup: Fixup, length: usize) -> bool
    ensures { result ≡ length_allowed fixup length }
{
    match fixup {
        Fixup::LowByte | Fixup::ZeroPageByte | Fixup::Word => 1 <= length && length <= 253,
        Fixup::HighByte => length % 2 == 0 && length <= 254,
    }
}

// Reads the end record.
#[tactic(auto, unfolding(crate::specs::Records::read_end, answer::specs::Checks::need))]
fn read_end(file: &File, at: usize) -> Result<Record, Failure>
    requires { at < length file.now }
    ensures { result ≡ read_end file.now at }
{
    answer::present(file, at, 4)?;
    let flag = file.byte(at + 1);
    if 2 < flag {
        return Err(Fault::NotKnown.at(at + 1));
    }
    let address = file.word(at + 2);
    Ok(Record::End {
        entry: entry_of(flag, address),
        next: at + 4,
    })
}

// The entry that a flag says, of an address: of the two, so no `From`.
pub fn entry_of(flag: u8, address: u16) -> Entry
    ensures { result ≡ entry_of flag address }
{
    match flag {
        1 => Entry::Fixed(address),
        2 => Entry::Relative(address),
        _ => Entry::Nowhere,
    }
}
