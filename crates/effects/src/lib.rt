// What was read of an SDX file, a block or the fault for which it is none, carried out: data placed, room reserved, words adjusted, a new name stored;
// and the cursor after it.
#![tactic(auto)]

ghost use Rattle.std.specs.Prelude.{◌≡◌, ◌+◌, ◌<◌, ◌≤◌, length, IfOk};
ghost use Rattle.blocks.specs.Blocks.{data_size};
ghost use Rattle.blocks.specs.Bounds.{InMemory, Fits};
ghost use Rattle.events.specs.Events.{Did};
ghost use Rattle.updates.specs.Bodies.{Ended, ended};
ghost use Rattle.effects.specs.Effects.{placing, placing_relocatable, applied, first_cursor, moved_on, with_block, advanced, placed_by};
ghost use Rattle.effects.specs.Parts.{NameFits, RoomFits, NameStored};

use answer::Failure;
use blocks::{Block, Cursor};
use events::Buffer;
use items::Slot;
use updates::Done;
use words::File;

// The buffers for new names: their bytes, and their addresses.
pub const NAMES: usize = 256;

pub const ADDRESSES: usize = 32;

// The cursor before the first block.
pub fn first_cursor(low: u16) -> Cursor
    ensures { result ≡ first_cursor low }
{
    Cursor {
        at: 0,
        low,
        count: 0,
        named: 0,
        table: [None; 8],
    }
}

// Applies a block: carries it out in the map and, where `write` is true, in memory. A fault is handed on.
#[tactic(auto, unfolding(events::specs::Events::adjusted_in, events::specs::Events::play, events::specs::Events::marks))]
pub fn apply(
    file: &File,
    found: Result<Block, Failure>,
    cursor: Cursor,
    lent: &[u16],
    own: &[u16],
    write: bool,
    memory: &mut Buffer,
    map: &mut Buffer,
) -> Result<Done, Failure>
    requires { IfOk found InMemory × IfOk found (Fits (length file.now) cursor (length lent.now) (length own.now)) }
    ensures { Did Ended (ended (applied file.now lent.now own.now cursor found map.old)) write memory.old map.old result memory.new map.new }
{
    // The file is limited, and so is the offset behind what is read of it.
    prove!(file.len() <= events::FILE);
    match found? {
        Block::Plain {
            address,
            from,
            size,
        } => place(file, from, size, address as usize, write, memory, map),
        Block::Relocatable {
            reserves,
            from,
            size,
            ..
        } => place_relocatable(file, from, size, reserves, cursor.low, write, memory, map),
        Block::Update { source, from } => {
            let amount = blocks::amount(source, cursor.table, lent, own);
            updates::body(file, cursor.table, amount, from, write, memory, map)
        }
        Block::NewName { from, .. } => Ok(Done {
            next: from + names::NAME,
            adjusted: 0,
        }),
    }
}

// Stores the name that a block brings, behind those before it.
#[tactic(auto, using(crate::proofs::Applying::stored_name, words::proofs::Lent::lent_is), unfolding(words::specs::Runs::put))]
pub fn store_name(
    file: &[u8],
    found: Result<Block, Failure>,
    named: usize,
    new_names: &mut [u8; NAMES],
    new_addresses: &mut [u16; ADDRESSES],
)
    requires { NameFits (length file.now) named found }
    ensures { NameStored file.now found named new_names.old new_addresses.old new_names.new new_addresses.new }
{
    if let Ok(Block::NewName { from, address }) = found {
        let start = names::NAME * named;
        let stop = start + names::NAME;
        words::copy(&mut new_names[start..stop], &file[from..from + names::NAME]);
        new_addresses[named] = address;
    }
}

// The bytes that a block places.
pub fn placed_by(found: Result<Block, Failure>) -> usize
    ensures { result ≡ placed_by found }
{
    match found {
        Ok(Block::Plain { size, .. }) => size,
        Ok(Block::Relocatable { reserves, size, .. }) => blocks::data_size(reserves, size),
        Ok(Block::Update { .. } | Block::NewName { .. }) | Err(_) => 0,
    }
}

// The cursor after a block that ends at `next`; as it was, after what is no block.
pub fn advance(cursor: Cursor, found: Result<Block, Failure>, next: usize) -> Cursor
    requires { (cursor.count ≤ 65536) × (cursor.named ≤ 65536) × RoomFits cursor.low found }
    ensures { result ≡ advanced cursor found next }
{
    match found {
        Ok(Block::Plain { .. } | Block::Update { .. }) => pass(cursor, next, cursor.named),
        Ok(
            Block::Relocatable {
                number,
                offset,
                size,
                ..
            },
        ) => add_block(cursor, number, offset, size, next),
        Ok(Block::NewName { .. }) => pass(cursor, next, cursor.named + 1),
        Err(_) => cursor,
    }
}

// Places so many bytes of the file at an address.
#[tactic(auto, using(words::proofs::Runs::length_part), unfolding(events::specs::Events::adjusted_in))]
fn place(
    file: &File,
    from: usize,
    size: usize,
    address: usize,
    write: bool,
    memory: &mut Buffer,
    map: &mut Buffer,
) -> Result<Done, Failure>
    requires { (from + size ≤ length file.now) × (address + size ≤ 65536) }
    ensures { Did Ended (ended (placing file.now address from size)) write memory.old map.old result memory.new map.new }
{
    // (as in `apply`)
    prove!(file.len() <= events::FILE);
    events::place(file.part(from, size), address, write, memory, map);
    Ok(Done {
        next: from + size,
        adjusted: 0,
    })
}

// Places the data of a relocatable block at low, or only reserves room for it there.
#[tactic(auto, unfolding(events::specs::Events::adjusted_in, events::specs::Events::play))]
fn place_relocatable(
    file: &File,
    from: usize,
    size: u16,
    reserves: bool,
    low: u16,
    write: bool,
    memory: &mut Buffer,
    map: &mut Buffer,
) -> Result<Done, Failure>
    requires { (from + data_size reserves size ≤ length file.now) × (low + size ≤ 65535) }
    ensures { Did Ended (ended (placing_relocatable reserves file.now low from size)) write memory.old map.old result memory.new map.new }
{
    if reserves {
        events::reserve(low as usize, size as usize, map);
        return Ok(Done {
            next: from,
            adjusted: 0,
        });
    }
    place(file, from, size as usize, low as usize, write, memory, map)
}

// The cursor at another offset, with so many new names.
fn pass(cursor: Cursor, next: usize, named: usize) -> Cursor
    ensures { result ≡ moved_on cursor next named }
{
    Cursor {
        at: next,
        named,
        ..cursor
    }
}

// The cursor with a block more, which lies at low.
fn add_block(cursor: Cursor, number: usize, offset: u16, size: u16, next: usize) -> Cursor
    requires { (cursor.count ≤ 65536) × (cursor.low + size ≤ 65535) × (number < 8) }
    ensures { result ≡ with_block cursor number offset size next }
{
    let mut table = cursor.table;
    table[number] = Some(Slot {
        address: cursor.low,
        offset,
        size,
    });
    Cursor {
        at: next,
        low: cursor.low + size,
        count: cursor.count + 1,
        table,
        ..cursor
    }
}
