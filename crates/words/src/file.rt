// The bytes of a file, of which no format is known here.

ghost use Rattle.std.specs.Prelude.{◌≡◌, ◌+◌, ◌-◌, ◌<◌, ◌≤◌, ◌↔◌, length, slice_index, IsNone, IfSome};
ghost use Rattle.words.specs.Runs.{part as part_of};
ghost use Rattle.words.specs.Numbers.{value, big_value};

use std::marker::Model;

// The most bytes that a file has.
const LIMIT: usize = 65536;

// The bytes of a file, at most `LIMIT`. In a contract it is the list of its bytes. (An offset within it stays a parameter:
// a type of both would hide the file from what reads it twice.)
#[derive(Drop)]
pub struct File<'a> {
    bytes: &'a [u8],
}

impl<'a> Model for File<'a> {
    ghost use Rattle.std.specs.Prelude.{ℕ, List, ◌≤◌, length};

    ghost Value = { List ℕ };

    ghost view = { λ f. f.bytes.now };

    ghost invariant = { λ f. length f.bytes.now ≤ 65536 };
}

impl<'a> File<'a> {
    // The file of these bytes, unless they are too many.
    pub fn new(bytes: &'a [u8]) -> Option<File<'a>>
        ensures too_long { IsNone result ↔ (65536 < length bytes.now) }
        ensures same { IfSome result (λ file. file ≡ bytes.now) }
    {
        if LIMIT < bytes.len() {
            return None;
        }
        Some(File { bytes })
    }

    // How many bytes it has.
    pub fn len(&self) -> usize
        ensures length { result ≡ length self.now }
        ensures limited { result ≤ 65536 }
    {
        self.bytes.len()
    }

    // The byte at `at`.
    pub fn byte(&self, at: usize) -> u8
        requires { at < length self.now }
        ensures { result ≡ slice_index self.now at }
    {
        self.bytes[at]
    }

    // The word at `at`.
    pub fn word(&self, at: usize) -> u16
        requires { at + 2 ≤ length self.now }
        ensures { result ≡ value 2 self.now at }
    {
        super::word_at(self.bytes, at)
    }

    // The word at `at`, high byte first.
    pub fn big_word(&self, at: usize) -> u16
        requires { at + 2 ≤ length self.now }
        ensures { result ≡ big_value 2 self.now at }
    {
        super::big_word_at(self.bytes, at)
    }

    // The `size` bytes from `from` on.
    #[tactic(auto, unfolding(crate::specs::Runs::part))]
    pub fn part(&self, from: usize, size: usize) -> &[u8]
        requires { from + size ≤ length self.now }
        ensures { result.now ≡ part_of self.now from size }
    {
        &self.bytes[from..from + size]
    }
}
