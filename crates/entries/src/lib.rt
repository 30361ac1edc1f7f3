// Entries of a fixup index, read with no base in mind: what stands at an offset of the index, and which field a fixup of an entry lists.
#![tactic(auto)]

ghost use Rattle.std.specs.Prelude.{◌≡◌, ◌+◌, ◌≤◌, length, get_or};
ghost use Rattle.records.specs.Records.{type_of};
ghost use Rattle.entries.specs.Entries.{read_code, read_end, read as read_of, lsb_for, listed, InBytes};

use answer::Fault;
use fields::{Field, Fixup};
use records::{Entry, Kind, RecordType};
use words::File;

// The first byte of an index.
pub const VERSION: u8 = 1;

// An entry: a code record of `size` code bytes, whose fixups are the `length` bytes of the index from `from` on; or the end record, with the offset
// after it.
#[derive(Clone, Copy)]
pub enum IndexEntry {
    Code {
        kind: Kind,
        address: u16,
        size: usize,
        from: usize,
        length: usize,
    },
    End {
        entry: Entry,
        next: usize,
    },
}

// Reads the entry at `at`, or says what is wrong with it.
#[tactic(auto, unfolding(crate::specs::Entries::read, answer::specs::Checks::need))]
pub fn read(index: &File, at: usize) -> Result<IndexEntry, Fault>
    requires { at ≤ length index.now }
    ensures { result ≡ read_of index.now at }
{
    // (no `present`, here and below: the faults of an index have no offset)
    if index.len() < at + 2 {
        return Err(Fault::CutShort);
    }
    let length = index.big_word(at) as usize;
    if index.len() < at + 2 + length {
        return Err(Fault::CutShort);
    }
    if length < 1 {
        return Err(Fault::LengthNotAllowed);
    }
    match records::type_of(index.byte(at + 2)) {
        Some(RecordType::Code(kind)) => read_code(index, at, length, kind),
        Some(RecordType::End) => read_end(index, at, length),
        Some(RecordType::Fixups(_, _)) | None => Err(Fault::NotKnown),
    }
}

// Reads a code record whose entry has `count` bytes after its length.
#[tactic(auto, unfolding(crate::specs::Entries::read_code, answer::specs::Checks::need))]
fn read_code(index: &File, at: usize, count: usize, kind: Kind) -> Result<IndexEntry, Fault>
    requires { at + 2 + count ≤ length index.now }
    ensures { result ≡ read_code index.now at count kind }
{
    prove!(index.len() <= events::FILE);
    if count < 4 || count % 3 != 1 {
        return Err(Fault::LengthNotAllowed);
    }
    let size = index.byte(at + 5) as usize;
    if 253 < size {
        return Err(Fault::LengthNotAllowed);
    }
    Ok(IndexEntry::Code {
        kind,
        address: index.big_word(at + 3),
        size,
        from: at + 6,
        length: count - 4,
    })
}

// Reads an end record whose entry has `count` bytes after its length.
#[tactic(auto, unfolding(crate::specs::Entries::read_end, answer::specs::Checks::need))]
fn read_end(index: &File, at: usize, count: usize) -> Result<IndexEntry, Fault>
    requires { at + 2 + count ≤ length index.now }
    ensures { result ≡ read_end index.now at count }
{
    prove!(index.len() <= events::FILE);
    if count != 4 {
        return Err(Fault::LengthNotAllowed);
    }
    let flag = index.byte(at + 3);
    if 2 < flag {
        return Err(Fault::NotKnown);
    }
    let address = index.big_word(at + 4);
    Ok(IndexEntry::End {
        entry: records::entry_of(flag, address),
        next: at + 6,
    })
}

// The field that the fixup at `at` of an entry's fixups lists, after code of a kind; none where its kind does not suit the code.
#[tactic(auto, using(crate::proofs::Reading::lsb_below), unfolding(answer::specs::Checks::pick))]
pub fn listed_at(items: &[u8], at: usize, kind: Kind) -> Option<Field>
    requires { at + 3 ≤ length items.now }
    ensures { (result ≡ listed kind (type_of (get_or items.now at 0)) (get_or items.now (at + 1) 0) (get_or items.now (at + 2) 0)) × InBytes result }
{
    let Some(RecordType::Fixups(of, fixup)) = records::type_of(items[at]) else {
        return None;
    };
    if !records::suits(of, Some(kind)) {
        return None;
    }
    Some(Field {
        fixup,
        index: items[at + 1] as usize,
        lsb: lsb_for(fixup, items[at + 2] as usize),
    })
}

// The LSB that a fixup uses, else zero.
fn lsb_for(fixup: Fixup, lsb: usize) -> usize
    ensures { result ≡ lsb_for fixup lsb }
{
    match fixup {
        Fixup::LowByte | Fixup::ZeroPageByte | Fixup::Word => 0,
        Fixup::HighByte => lsb,
    }
}
