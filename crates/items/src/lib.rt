// One item of an SDX update body, read with no map in mind: it moves a counter through memory, or lists the word there, or ends the body.
#![tactic(auto)]

ghost use Rattle.std.specs.Prelude.{◌≡◌, ◌≤◌, length};
ghost use Rattle.items.specs.Items.{adding, setting, setting_to_block, skipping, read as read_of};

use answer::{Failure, Fault};
use words::File;

// The highest block number.
pub const LAST_NUMBER: usize = 7;

// What FF adds to the counter.
const SKIP: u16 = 250;

// The slot of a relocatable block: its address, its offset and its size.
#[derive(Clone, Copy)]
pub struct Slot {
    pub address: u16,
    pub offset: u16,
    pub size: u16,
}

// What an item says: the body's end, a counter that only moves, or one where a word is adjusted, and where the next item begins.
#[derive(Clone, Copy)]
pub enum Item {
    End(usize),
    Move { counter: u16, next: usize },
    Adjust { counter: u16, next: usize },
}

// The item at `at`.
#[tactic(auto, unfolding(crate::specs::Items::read, answer::specs::Checks::need, answer::specs::Checks::pick))]
pub fn read(
    file: &File,
    table: [Option<Slot>; 8],
    at: usize,
    counter: Option<u16>,
) -> Result<Item, Failure>
    ensures { result ≡ read_of file.now table at counter }
{
    // (no `present`: the offset may lie past the end)
    if file.len() <= at {
        return Err(Fault::CutShort.at(file.len()));
    }
    match file.byte(at) {
        amount @ 0..=251 => add(at, amount, counter),
        252 => Ok(Item::End(at + 1)),
        253 => set(file, at),
        254 => set_to_block(file, table, at),
        255 => skip(at, counter),
    }
}

// 00 to FB: the amount on the counter, where a word is then adjusted.
#[tactic(auto, unfolding(crate::specs::Items::adding, answer::specs::Checks::need))]
fn add(at: usize, amount: u8, counter: Option<u16>) -> Result<Item, Failure>
    requires { at ≤ 65536 }
    ensures { result ≡ adding at amount counter }
{
    let unusable = Fault::CounterUnusable.at(at);
    // (no `checked_add` and `filter`: a body of sums takes half as long with a plain sum and a branch)
    let to = counter.ok_or(unusable)? as usize + amount as usize;
    if 65534 < to {
        return Err(unusable);
    }
    Ok(Item::Adjust {
        counter: to as u16,
        next: at + 1,
    })
}

// FD: the counter set by a word, and the word there adjusted.
#[tactic(auto, unfolding(crate::specs::Items::setting, answer::specs::Checks::need))]
fn set(file: &File, at: usize) -> Result<Item, Failure>
    requires { at ≤ length file.now }
    ensures { result ≡ setting file.now at }
{
    answer::present(file, at, 3)?;
    let counter = file.word(at + 1);
    if 65534 < counter {
        return Err(Fault::CounterUnusable.at(at));
    }
    Ok(Item::Adjust {
        counter,
        next: at + 3,
    })
}

// FE: the counter set to the address of a block.
#[tactic(auto, unfolding(crate::specs::Items::setting_to_block, answer::specs::Checks::need))]
fn set_to_block(file: &File, table: [Option<Slot>; 8], at: usize) -> Result<Item, Failure>
    requires { at ≤ length file.now }
    ensures { result ≡ setting_to_block file.now table at }
{
    answer::present(file, at, 2)?;
    let number = file.byte(at + 1) as usize;
    if LAST_NUMBER < number {
        return Err(Fault::NotKnown.at(at));
    }
    let Some(slot) = table[number] else {
        return Err(Fault::BlockMissing.at(at));
    };
    Ok(Item::Move {
        counter: slot.address,
        next: at + 2,
    })
}

// FF: the counter further on.
#[tactic(auto, unfolding(crate::specs::Items::skipping, answer::specs::Checks::need))]
fn skip(at: usize, counter: Option<u16>) -> Result<Item, Failure>
    requires { at ≤ 65536 }
    ensures { result ≡ skipping at counter }
{
    let unusable = Fault::CounterUnusable.at(at);
    let to = counter.ok_or(unusable)?.checked_add(SKIP).ok_or(unusable)?;
    Ok(Item::Move {
        counter: to,
        next: at + 1,
    })
}
