// The events of a load carried out, in the map and, where `write` is true, in memory: bytes placed, addresses reserved, words adjusted.
// It knows no file format.
#![tactic(auto)]

ghost use Rattle.std.specs.Prelude.{[], ◌∷◌, ◌≡◌, ◌+◌, ◌≤◌, length};
ghost use Rattle.events.specs.Events.{place as place_of, reserve as reserve_of, adjust, marks, Reached};

use answer::Failure;

// The length of memory and of the map.
pub const MEMORY: usize = 65536;

// What is lent with a byte for each address: memory, the map, the scratch, the room for an index. Memory, the map and `write` stay parameters side by
// side: a method of a struct of the borrows that lends them on has no generated proof (tried), and so do the rooms for
// new names. (That a map is blank is of a moment, so it stays in contracts.)
pub type Buffer = [u8; MEMORY];

// The most bytes that a file has.
pub const FILE: usize = 65536;

// The marks of the map. Numbers, since the map is a buffer of bytes that C lends.
pub const PLACED: u8 = 1;

pub const RESERVED: u8 = 2;

pub const ADJUSTED: u8 = 3;

// What became of a part of the work: it passed, or failed with a fault at an offset of the file.
pub type Check = Result<(), Failure>;

// Places bytes from `at` on. `write` is a flag here and above: a closure for what is done to memory would be passed on as often, and `play_if` says it in a word.
pub fn place(bytes: &[u8], at: usize, write: bool, memory: &mut [u8], map: &mut [u8])
    requires { (at + length bytes.now ≤ length memory.old) × (at + length bytes.now ≤ length map.old) }
    ensures { Reached (place_of at bytes.now ∷ []) write memory.old map.old memory.new map.new }
{
    let end = at + bytes.len();
    words::fill(&mut map[at..end], PLACED);
    if write {
        words::copy(&mut memory[at..end], bytes);
    }
}

// Reserves so many addresses from `at` on: memory is not looked at.
pub fn reserve(at: usize, size: usize, map: &mut [u8])
    requires { at + size ≤ length map.old }
    ensures { map.new ≡ marks (reserve_of at size ∷ []) map.old }
{
    let end = at + size;
    words::fill(&mut map[at..end], RESERVED);
}

// Adjusts the word at `at` by the amount.
pub fn adjust_word(at: usize, amount: u16, write: bool, memory: &mut [u8], map: &mut [u8])
    requires { (at + 2 ≤ length memory.old) × (at + 2 ≤ length map.old) }
    ensures { Reached (adjust 2 at amount ∷ []) write memory.old map.old memory.new map.new }
{
    let end = at + 2;
    words::fill(&mut map[at..end], ADJUSTED);
    if write {
        words::add(memory, at, 2, amount);
    }
}
