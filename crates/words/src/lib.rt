// Bytes and words in a buffer: reading, storing, filling, copying, adjusting. Words are low byte first, but for `big_word_at` and `put_big_word`.
// A leaf: it knows no file format. Each `requires` is a bound that the caller has looked at; the crates above know these functions only by
// what they promise, in the terms of specs/.
#![tactic(auto)]

mod file;

ghost use Rattle.std.specs.Prelude.{◌≡◌, ◌+◌, ◌*◌, ◌/◌, ◌^◌, ◌<◌, ◌≤◌, length, replicate};
ghost use Rattle.words.specs.Runs.{put, all_zero, contains as contains_of};
ghost use Rattle.words.specs.Numbers.{value, store, big_value, big_store, on, off, change, encoded, decoded};

pub use file::File;

// A byte as a `usize`. (Kept as a public function: `as usize` needs no bound any more.)
pub fn wide(byte: u8) -> usize
    ensures { (result ≡ byte) × (result < 256) }
{
    byte as usize
}

// The word at `at`. (This and the one below stay apart: `from_le_bytes` and `from_be_bytes` are of each type, with no trait.)
#[tactic(auto, using(crate::proofs::Numbers::value_word))]
pub fn word_at(bytes: &[u8], at: usize) -> u16
    requires { at + 2 ≤ length bytes.now }
    ensures { result ≡ value 2 bytes.now at }
{
    u16::from_le_bytes([bytes[at], bytes[at + 1]])
}

// The word at `at`, high byte first.
#[tactic(auto, using(crate::proofs::Big::big_value_word))]
pub fn big_word_at(bytes: &[u8], at: usize) -> u16
    requires { at + 2 ≤ length bytes.now }
    ensures { result ≡ big_value 2 bytes.now at }
{
    u16::from_be_bytes([bytes[at], bytes[at + 1]])
}

// Whether every byte is zero.
pub fn is_zero(bytes: &[u8]) -> bool
    ensures { result ≡ all_zero bytes.now }
{
    bytes.iter().all(|byte| *byte == 0)
}

// Whether one of the bytes is `byte`.
pub fn contains(bytes: &[u8], byte: u8) -> bool
    ensures { result ≡ contains_of byte bytes.now }
{
    bytes.contains(&byte)
}

// Puts the word into the two bytes at `at`, in which it has room. (This and the two below stay apart: the library has `to_le_bytes` and `to_be_bytes` for each
// type, and no trait for them.)
pub fn put_word(bytes: &mut [u8], at: usize, word: u16)
    requires { at + 2 ≤ length bytes.old }
    ensures { (bytes.new ≡ store 2 bytes.old at word) × (word < 256 ^ 2) }
{
    bytes[at..at + 2].copy_from_slice(&word.to_le_bytes());
}

// Puts the word into the two bytes at `at`, in which it has room, high byte first.
pub fn put_big_word(bytes: &mut [u8], at: usize, word: u16)
    requires { at + 2 ≤ length bytes.old }
    ensures { (bytes.new ≡ big_store 2 bytes.old at word) × (word < 256 ^ 2) }
{
    bytes[at..at + 2].copy_from_slice(&word.to_be_bytes());
}

// Puts the number into the four bytes at `at`, in which it has room.
pub fn put_number(bytes: &mut [u8], at: usize, number: u32)
    requires { at + 4 ≤ length bytes.old }
    ensures { (bytes.new ≡ store 4 bytes.old at number) × (number < 256 ^ 4) }
{
    bytes[at..at + 4].copy_from_slice(&number.to_le_bytes());
}

// Puts the words of a list of byte pairs at the front of `words`. By index: a zip over `iter_mut` leaves nothing known of the words.
#[tactic(auto, using(crate::proofs::Turns::decode_more), unfolding(crate::specs::Numbers::decoded, crate::specs::Runs::put))]
pub fn decode_words(words: &mut [u16], bytes: &[u8])
    requires { length bytes.now / 2 ≤ length words.old }
    ensures { words.new ≡ put words.old 0 (decoded 2 (length bytes.now / 2) bytes.now) }
{
    for i in 0..bytes.len() / 2 {
        words[i] = word_at(bytes, 2 * i);
    }
}

// Puts all words into a list of byte pairs, from which they read back.
#[tactic(auto, using(crate::proofs::Turns::encode_more), unfolding(crate::specs::Numbers::encoded))]
pub fn encode_words(bytes: &mut [u8], words: &[u16])
    requires { length bytes.old ≡ 2 * length words.now }
    ensures { (bytes.new ≡ encoded 2 words.now) × (decoded 2 (length words.now) bytes.new ≡ words.now) }
{
    for (i, word) in words.iter().enumerate() {
        put_word(bytes, 2 * i, *word);
    }
}

// Puts the same byte everywhere. Of bytes alone: for any `T: Copy` the library's `fill` asks for more than `Copy`.
pub fn fill(bytes: &mut [u8], byte: u8)
    ensures { bytes.new ≡ replicate (length bytes.old) byte }
{
    bytes.fill(byte);
}

// Puts all of `from` into a run as long. (Not by `copy_from_slice`: for a run of any length it calls C's `memmove`, which the library for C would then need
// from outside.)
#[tactic(auto, using(crate::proofs::Turns::copy_more, crate::proofs::Turns::copy_all))]
pub fn copy(to: &mut [u8], from: &[u8])
    requires { length from.now ≡ length to.old }
    ensures { to.new ≡ from.now }
{
    for (i, byte) in from.iter().enumerate() {
        to[i] = *byte;
    }
}

// Adds the amount to the number of `width` bytes at `at`, a byte or a word: "modulo 65,536 for words, 256 for bytes".
pub fn add(bytes: &mut [u8], at: usize, width: usize, amount: u16)
    requires { (at + width ≤ length bytes.old) × (1 ≤ width) × (width ≤ 2) }
    ensures { bytes.new ≡ change width (on width amount) bytes.old at }
{
    // Two widths, of two types: a closure for each would be no shorter than its line.
    if width == 1 {
        bytes[at] = bytes[at].wrapping_add((amount % 256) as u8);
        return;
    }
    let word = word_at(bytes, at);
    put_word(bytes, at, word.wrapping_add(amount));
}

// Takes the amount off the number of `width` bytes at `at`, likewise: adds what makes 65,536 of the amount.
pub fn take_off(bytes: &mut [u8], at: usize, width: usize, amount: u16)
    requires { (at + width ≤ length bytes.old) × (1 ≤ width) × (width ≤ 2) }
    ensures { bytes.new ≡ change width (off width amount) bytes.old at }
{
    add(bytes, at, width, amount.wrapping_neg());
}
