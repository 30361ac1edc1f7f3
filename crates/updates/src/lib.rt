// Update bodies: the items that move a counter through memory and adjust the words there, over a lent memory and map.
#![tactic(auto)]

ghost use Rattle.std.specs.Prelude.{◌≡◌, ℕ, ◌+◌, ◌≤◌, length};
ghost use Rattle.events.specs.Events.{Did, Check};
ghost use Rattle.items.specs.declared.Item.TheVariants.{Adjust};
ghost use Rattle.updates.specs.Bodies.{is_loaded, word_loaded, adjusting, applied, Ended, body as body_of, ended};
ghost use Rattle.updates.specs.Cursor.{first_cursor, advanced};

use answer::{Failure, Fault};
use events::{Buffer, Check};
use items::{Item, Slot};
use words::File;

// What a body comes to that ends at its FC: the offset after it, and the number of words adjusted.
#[derive(Clone, Copy)]
pub struct Done {
    pub next: usize,
    pub adjusted: usize,
}

// Where a body stands: the next item's offset, the counter, and the words adjusted so far. (What is counted is bounded by the walk, not by the type.)
#[derive(Clone, Copy)]
pub struct Cursor {
    pub at: usize,
    pub counter: Option<u16>,
    pub adjusted: usize,
}

// Carries out a body from its first item, which begins at `at`: each word that it lists grows by the amount.
pub fn body(
    file: &File,
    table: [Option<Slot>; 8],
    amount: u16,
    at: usize,
    write: bool,
    memory: &mut Buffer,
    map: &mut Buffer,
) -> Result<Done, Failure>
    requires { at ≤ length file.now }
    ensures { Did Ended (ended (body_of file.now table amount at map.old)) write memory.old map.old result memory.new map.new }
{
    // The file is limited, and so is what is counted.
    prove!(file.len() <= events::FILE);
    let mut cursor = first_cursor(at);
    loop {
        let item = items::read(file, table, cursor.at, cursor.counter)?;
        apply(item, cursor.at, amount, write, memory, map)?;
        if let Item::End(next) = item {
            return Ok(Done {
                next,
                adjusted: cursor.adjusted,
            });
        }
        cursor = advance(cursor, item);
    }
}

// Whether the word at `at` is marked as loaded, in both bytes.
pub fn word_loaded(map: &[u8], at: usize) -> bool
    requires { at + 2 ≤ length map.now }
    ensures { result ≡ word_loaded map.now at }
{
    is_loaded(map[at]) && is_loaded(map[at + 1])
}

// Whether a mark is that of a loaded byte: placed, or adjusted since.
fn is_loaded(mark: u8) -> bool
    ensures { result ≡ is_loaded mark }
{
    matches!(mark, events::PLACED | events::ADJUSTED)
}

// Carries out the item at `at`.
#[tactic(auto, unfolding(events::specs::Events::play, events::specs::Events::marks))]
fn apply(
    item: Item,
    at: usize,
    amount: u16,
    write: bool,
    memory: &mut Buffer,
    map: &mut Buffer,
) -> Check
    requires { (counter next : ℕ) → item ≡ Adjust counter next → counter ≤ 65534 }
    ensures { Did Check (applied at amount item map.old) write memory.old map.old result memory.new map.new }
{
    match item {
        Item::End(next) => Ok(()),
        Item::Move { counter, next } => Ok(()),
        Item::Adjust { counter, next } => {
            adjust(counter as usize, at, amount, write, memory, map)
        }
    }
}

// Adjusts the word at an address, if it is loaded (12) and not adjusted since (13). The item that lists it stands at `at`.
#[tactic(auto, using(words::proofs::Lent::lent_is), unfolding(crate::specs::Bodies::adjusting, answer::specs::Checks::need, events::specs::Events::play, events::specs::Events::marks))]
fn adjust(
    address: usize,
    at: usize,
    amount: u16,
    write: bool,
    memory: &mut Buffer,
    map: &mut Buffer,
) -> Check
    requires { address ≤ 65534 }
    ensures { Did Check (adjusting at amount address map.old) write memory.old map.old result memory.new map.new }
{
    if !word_loaded(map, address) {
        return Err(Fault::FieldNotLoaded.at(at));
    }
    let end = address + 2;
    if words::contains(&map[address..end], events::ADJUSTED) {
        return Err(Fault::AdjustedTwice.at(at));
    }
    events::adjust_word(address, amount, write, memory, map);
    Ok(())
}

// The cursor of a body that begins at `at`.
fn first_cursor(at: usize) -> Cursor
    ensures { result ≡ first_cursor at }
{
    Cursor {
        at,
        counter: None,
        adjusted: 0,
    }
}

// The cursor after an item that passed and is not the last.
fn advance(cursor: Cursor, item: Item) -> Cursor
    requires { cursor.adjusted ≤ 65536 }
    ensures { result ≡ advanced cursor item }
{
    match item {
        Item::End(next) => cursor,
        Item::Move { counter, next } => Cursor {
            at: next,
            counter: Some(counter),
            ..cursor
        },
        Item::Adjust { counter, next } => Cursor {
            at: next,
            counter: Some(counter),
            adjusted: cursor.adjusted + 1,
        },
    }
}
