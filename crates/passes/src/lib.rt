// A pass over all blocks of an SDX file. The first only checks: it marks the map as it goes, and has buffers of its own for new names. The second
// also writes memory and the new-name buffers that are lent. So a refusal has touched neither.
#![tactic(auto)]

ghost use Rattle.std.specs.Prelude.{◌≡◌, ◌*◌, ◌≤◌, length};
ghost use Rattle.events.specs.Events.{blank};
ghost use Rattle.passes.specs.Walk.{inputs, blocks_of};
ghost use Rattle.passes.specs.Buffers.{buffers, start_in};
ghost use Rattle.passes.specs.Parts.{totals, Walked, Checked, Reported};

use answer::{Acceptance, Failure, Outcome};
use blocks::Cursor;
pub use effects::{ADDRESSES, NAMES};
use events::Buffer;
use std::marker::Model;
use words::File;

// Where a program's start stands.
const START: usize = 0x02E0;

// What a load reads beside its file: the known names, eight bytes each, beside as many addresses; low and high. In a contract it is the
// record of these four.
#[derive(Drop)]
pub struct Inputs<'a> {
    names: &'a [u8],
    addresses: &'a [u16],
    low: u16,
    high: u16,
}

impl<'a> Model for Inputs<'a> {
    ghost use Rattle.std.specs.Prelude.{◌≡◌, ◌*◌, length};
    ghost use Rattle.passes.specs.Walk.{Inputs as Given, inputs};

    ghost Value = { Given };

    ghost view = { λ g. inputs g.names.now g.addresses.now g.low g.high };

    ghost invariant = { λ g. length g.names.now ≡ 8 * length g.addresses.now };
}

impl<'a> Inputs<'a> {
    // These four as one.
    pub fn new(names: &'a [u8], addresses: &'a [u16], low: u16, high: u16) -> Inputs<'a>
        requires { length names.now ≡ 8 * length addresses.now }
        ensures { result ≡ inputs names.now addresses.now low high }
    {
        Inputs {
            names,
            addresses,
            low,
            high,
        }
    }
}

// What a walk to the file's end comes to: the number of new names, the bytes placed, the fields adjusted, and low. (Low is last, for speed: a fault, which comes in
// place of these, begins where the first of them does, and would be a number of 16 bits there in the loop of a body.)
#[derive(Clone, Copy)]
pub struct Totals {
    pub named: usize,
    pub placed: usize,
    pub adjusted: usize,
    pub low: u16,
}

// How a walk ends: at the file's end, or with a fault at an offset.
pub type WalkEnd = Result<Totals, Failure>;

// Goes through all blocks and only checks them, with buffers of its own for new names. The map is clear again after it.
#[tactic(auto, using(crate::proofs::Finishing::checked_as, events::proofs::Events::cleared))]
pub fn check(file: &File, lent: &Inputs, memory: &mut Buffer, map: &mut Buffer) -> WalkEnd
    requires { map.old ≡ blank }
    ensures { Checked (blocks_of file.now lent.now) memory.old result memory.new map.new }
{
    let mut names = [0u8; NAMES];
    let mut addresses = [0u16; ADDRESSES];
    let walked = walk(file, lent, false, memory, map, &mut names, &mut addresses);
    map.fill(0);
    walked
}

// Goes through all blocks of a file, over a clear map. `write` decides whether memory is written too; new names go to the buffers lent for them, behind
// those before them.
pub fn walk(
    file: &File,
    lent: &Inputs,
    write: bool,
    memory: &mut Buffer,
    map: &mut Buffer,
    new_names: &mut [u8; NAMES],
    new_addresses: &mut [u16; ADDRESSES],
) -> WalkEnd
    requires { map.old ≡ blank }
    ensures { Walked (blocks_of file.now lent.now) write (buffers memory.old map.old new_names.old new_addresses.old) result (buffers memory.new map.new new_names.new new_addresses.new) }
{
    let end = file.len();
    let mut cursor = effects::first_cursor(lent.low);
    let mut bytes = 0;
    let mut fields = 0;
    loop {
        if cursor.at == end {
            return Ok(total(cursor, bytes, fields));
        }
        let named = cursor.named;
        let size = names::NAME * named;
        let found = blocks::read(file, lent.high, lent.names, &new_names[0..size], cursor)?;
        let block = Ok(found);
        let own = &new_addresses[0..named];
        let done = effects::apply(file, block, cursor, lent.addresses, own, write, memory, map)?;
        // (`store_name` takes the bytes of a file of any length)
        let all = file.part(0, end);
        effects::store_name(all, block, named, new_names, new_addresses);
        bytes += effects::placed_by(block);
        fields += done.adjusted;
        cursor = effects::advance(cursor, block, done.next);
    }
}

// Reports the acceptance of a file whose blocks are carried out, and clears the rest of the buffers for new names.
#[tactic(auto, using(crate::proofs::Finishing::reported_as, crate::proofs::Finishing::rest_cleared))]
pub fn finish(
    totals: Totals,
    memory: &Buffer,
    map: &Buffer,
    new_names: &mut [u8; NAMES],
    new_addresses: &mut [u16; ADDRESSES],
) -> Outcome
    requires { (totals.named ≤ 32) × (totals.placed ≤ 65536) × (totals.adjusted ≤ 65536) }
    ensures { Reported totals (buffers memory.now map.now new_names.old new_addresses.old) result new_names.new new_addresses.new }
{
    let named = totals.named;
    let size = names::NAME * named;
    new_names[size..NAMES].fill(0);
    new_addresses[named..ADDRESSES].fill(0);
    Ok(Acceptance {
        start: start(memory, map),
        placed: totals.placed as u32,
        adjusted: totals.adjusted as u32,
        new_names: named as u32,
        low: totals.low as u32,
    })
}

// What a walk comes to that has reached the file's end.
fn total(cursor: Cursor, placed: usize, adjusted: usize) -> Totals
    ensures { result ≡ totals cursor.low cursor.named placed adjusted }
{
    Totals {
        low: cursor.low,
        named: cursor.named,
        placed,
        adjusted,
    }
}

// Where the program starts: the word at its place, if it is loaded.
#[tactic(auto, unfolding(crate::specs::Buffers::start_in, answer::specs::Checks::pick))]
fn start(memory: &Buffer, map: &Buffer) -> Option<u16>
    ensures { result ≡ start_in map.now memory.now }
{
    if updates::word_loaded(map, START) {
        Some(words::word_at(memory, START))
    } else {
        None
    }
}
