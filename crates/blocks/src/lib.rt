// The blocks of an SDX file, read: what the block at a cursor says, or its first fault.
#![tactic(auto)]

ghost use Rattle.std.specs.Prelude.{◌≡◌, ◌≤◌, length, IfOk};
ghost use Rattle.blocks.specs.Blocks.{read_plain, data_size, read_relocatable, read_update, read_names, read_new_name, read as read_of, amount_of};
ghost use Rattle.blocks.specs.Bounds.{Packed, Listed, InMemory};

use answer::{Failure, Fault};
use items::Slot;
use names::Definition;
use words::File;

// The most relocatable blocks of a file.
const BLOCKS: usize = 7;

// The most new names of a file.
const NEW_NAMES: usize = 32;

// The lowest marker.
pub const FIRST_MARKER: u16 = 0xFFFA;

// Where a walk through the blocks stands: the next block's offset, low, the relocatable blocks and the new names so far, and the blocks by
// their numbers. (The rooms for new names are lent, with no heap, so their number stands here.)
#[derive(Clone, Copy)]
pub struct Cursor {
    pub at: usize,
    pub low: u16,
    pub count: usize,
    pub named: usize,
    pub table: [Option<Slot>; 8],
}

// What the words of an update body grow by: the address of a block less its offset, or that of a name, lent or the file's own.
#[derive(Clone, Copy)]
pub enum Source {
    Number(usize),
    LentName(usize),
    OwnName(usize),
}

// What a block says: data for an address; data, or an empty room, for low; a body; or a new name with its address.
#[derive(Clone, Copy)]
pub enum Block {
    Plain {
        address: u16,
        from: usize,
        size: usize,
    },
    // (a flag: it says only whether the bytes are in the file, so an Option in its place would hold nothing)
    Relocatable {
        reserves: bool,
        number: usize,
        offset: u16,
        from: usize,
        size: u16,
    },
    Update {
        source: Source,
        from: usize,
    },
    NewName {
        from: usize,
        address: u16,
    },
}

// The block at the cursor.
#[tactic(auto, using(crate::proofs::Reading::in_memory, crate::proofs::Reading::names_in_memory, crate::proofs::Reading::new_name_in_memory, crate::proofs::Reading::update_in_memory, crate::proofs::Reading::relocatable_in_memory), unfolding(crate::specs::Blocks::read, answer::specs::Checks::need, answer::specs::Checks::pick))]
pub fn read(
    file: &File,
    high: u16,
    lent: &[u8],
    own: &[u8],
    cursor: Cursor,
) -> Result<Block, Failure>
    requires { (cursor.at ≤ length file.now) × Packed cursor.table }
    ensures value { result ≡ read_of file.now high lent.now own.now cursor }
    ensures in_memory { IfOk result InMemory }
{
    let at = cursor.at;
    answer::present(file, at, 2)?;
    let word = file.word(at);
    if word < FIRST_MARKER {
        return read_plain(file, at);
    }
    match word {
        0xFFFB => read_names(file, lent, own, cursor),
        0xFFFC => read_new_name(file, cursor),
        0xFFFD => read_update(file, cursor),
        0xFFFE => read_relocatable(file, high, cursor),
        _ => read_plain(file, at + 2),
    }
}

// What the words of a body grow by.
#[tactic(auto, using(crate::proofs::Reading::less_offset))]
pub fn amount(source: Source, table: [Option<Slot>; 8], lent: &[u16], own: &[u16]) -> u16
    requires { Listed (length lent.now) (length own.now) source }
    ensures { result ≡ amount_of table lent.now own.now source }
{
    match source {
        Source::Number(number) => match table[number] {
            None => 0,
            Some(slot) => slot.address.wrapping_sub(slot.offset),
        },
        Source::LentName(index) => lent[index],
        Source::OwnName(index) => own[index],
    }
}

// A plain block, whose start stands at `at`.
#[tactic(auto, using(crate::proofs::Reading::in_memory), unfolding(crate::specs::Blocks::read_plain, answer::specs::Checks::need))]
fn read_plain(file: &File, at: usize) -> Result<Block, Failure>
    requires { at ≤ length file.now }
    ensures value { result ≡ read_plain file.now at }
    ensures in_memory { IfOk result InMemory }
{
    answer::present(file, at, 4)?;
    let from = at + 4;
    let address = file.word(at);
    let last = file.word(at + 2);
    // (no `checked_sub`: it would answer an `Option`, to which the fault's offset has to be added all the same)
    if last < address {
        return Err(Fault::LengthNotAllowed.at(at + 2));
    }
    let size = (last - address) as usize + 1;
    answer::present(file, from, size)?;
    Ok(Block::Plain {
        address,
        from,
        size,
    })
}

// FFFE: a relocatable block, with data or only reserving.
#[tactic(auto, unfolding(crate::specs::Blocks::read_relocatable, crate::specs::Blocks::read_room, answer::specs::Checks::need, items::specs::Items::slot_at))]
fn read_relocatable(file: &File, high: u16, cursor: Cursor) -> Result<Block, Failure>
    requires { cursor.at ≤ length file.now }
    ensures { result ≡ read_relocatable file.now high cursor }
{
    let at = cursor.at;
    answer::present(file, at, 8)?;
    let number = file.byte(at + 2) as usize;
    if items::LAST_NUMBER < number {
        return Err(Fault::NotKnown.at(at + 2));
    }
    let reserves = match file.byte(at + 3) {
        0 => false,
        0x80 => true,
        _ => return Err(Fault::NotKnown.at(at + 3)),
    };
    if cursor.table[number].is_some() || BLOCKS <= cursor.count {
        return Err(Fault::BlockTaken.at(at + 2));
    }
    let from = at + 8;
    let size = file.word(at + 6);
    answer::present(file, from, data_size(reserves, size))?;
    if (high as usize) < cursor.low as usize + size as usize {
        return Err(Fault::DoesNotFit.at(at + 6));
    }
    Ok(Block::Relocatable {
        reserves,
        number,
        offset: file.word(at + 4),
        from,
        size,
    })
}

// FFFD: words that grow by a block's address less its offset.
#[tactic(auto, unfolding(crate::specs::Blocks::read_update, answer::specs::Checks::need, items::specs::Items::slot_at))]
fn read_update(file: &File, cursor: Cursor) -> Result<Block, Failure>
    requires { cursor.at ≤ length file.now }
    ensures { result ≡ read_update file.now cursor }
{
    let at = cursor.at;
    answer::present(file, at, 5)?;
    let number = file.byte(at + 2) as usize;
    if items::LAST_NUMBER < number {
        return Err(Fault::NotKnown.at(at + 2));
    }
    if cursor.table[number].is_none() {
        return Err(Fault::BlockMissing.at(at + 2));
    }
    Ok(Block::Update {
        source: Source::Number(number),
        from: at + 5,
    })
}

// FFFB: words that grow by the address of a name.
#[tactic(auto, using(words::proofs::Runs::length_part), unfolding(crate::specs::Blocks::read_names, answer::specs::Checks::need))]
fn read_names(file: &File, lent: &[u8], own: &[u8], cursor: Cursor) -> Result<Block, Failure>
    requires { cursor.at ≤ length file.now }
    ensures { result ≡ read_names file.now lent.now own.now cursor }
{
    let at = cursor.at;
    answer::present(file, at, 12)?;
    let from = at + 12;
    match names::look_up(own, lent, file.part(at + 2, names::NAME)) {
        None => Err(Fault::NameUnknown.at(at + 2)),
        Some(Definition::Own(index)) => Ok(Block::Update {
            source: Source::OwnName(index),
            from,
        }),
        Some(Definition::Lent(index)) => Ok(Block::Update {
            source: Source::LentName(index),
            from,
        }),
    }
}

// FFFC: a new name for an address inside a block.
#[tactic(auto, unfolding(crate::specs::Blocks::read_new_name, crate::specs::Blocks::read_address, answer::specs::Checks::need, items::specs::Items::slot_at))]
fn read_new_name(file: &File, cursor: Cursor) -> Result<Block, Failure>
    requires { (cursor.at ≤ length file.now) × Packed cursor.table }
    ensures { result ≡ read_new_name file.now cursor }
{
    let at = cursor.at;
    answer::present(file, at, 13)?;
    let number = file.byte(at + 2) as usize;
    if items::LAST_NUMBER < number {
        return Err(Fault::NotKnown.at(at + 2));
    }
    let Some(slot) = cursor.table[number] else {
        return Err(Fault::BlockMissing.at(at + 2));
    };
    let offset = file.word(at + 3);
    let above = offset.checked_sub(slot.offset);
    let Some(inside) = above.filter(|inside| *inside < slot.size) else {
        return Err(Fault::NameOutsideBlock.at(at + 3));
    };
    if NEW_NAMES <= cursor.named {
        return Err(Fault::TooManyNames.at(at + 5));
    }
    Ok(Block::NewName {
        from: at + 5,
        address: slot.address + inside,
    })
}

// The bytes that a relocatable block has in the file.
pub fn data_size(reserves: bool, size: u16) -> usize
    ensures { (result ≡ data_size reserves size) × (result ≤ 65535) }
{
    if reserves {
        return 0;
    }
    size as usize
}
