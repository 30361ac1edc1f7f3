// An SDX load whose address lists are byte pairs, low byte first, as C lends them. It takes whatever comes.
// The new addresses go into words of its own, and from there into the lent pairs only where the load was accepted: so a refusal has not touched
// them.
#![tactic(auto)]

ghost use Rattle.std.specs.Prelude.{Bool, ◌≡◌, ◌≤◌, length};
ghost use Rattle.passes.specs.Buffers.{buffers};
ghost use Rattle.passes.specs.Walk.{inputs};
ghost use Rattle.pairs.specs.Pairs.{paired, Loads};

use answer::{Fault, Outcome};

// The buffer for the pairs of new addresses.
const PAIRS: usize = 2 * passes::ADDRESSES;

// Loads a file. Refuses with the first fault; memory and the buffers for new names are then as they were.
pub fn load(
    file: &[u8],
    low: u32,
    high: u32,
    known_names: &[u8],
    known_addresses: &[u8],
    memory: &mut [u8],
    map: &mut [u8],
    new_names: &mut [u8],
    new_addresses: &mut [u8],
) -> Outcome
    ensures { Loads file.now (inputs known_names.now known_addresses.now low high) Bool.true (buffers memory.old map.old new_names.old new_addresses.old) result (buffers memory.new map.new new_names.new new_addresses.new) }
{
    let size = known_addresses.len();
    if size % 2 != 0 {
        return answer::refused(Fault::WrongBuffer, 0);
    }
    if 2 * sdx::KNOWN < size {
        return answer::refused(Fault::WrongBuffer, 0);
    }
    let Some(new_addresses) = new_addresses.as_mut_array() else {
        return answer::refused(Fault::WrongBuffer, 0);
    };
    load_words(
        file,
        low,
        high,
        known_names,
        known_addresses,
        memory,
        map,
        new_names,
        new_addresses,
    )
}

// Loads it over the words of the pairs. On an acceptance the new addresses go back as pairs.
fn load_words(
    file: &[u8],
    low: u32,
    high: u32,
    known_names: &[u8],
    known_addresses: &[u8],
    memory: &mut [u8],
    map: &mut [u8],
    new_names: &mut [u8],
    new_addresses: &mut [u8; PAIRS],
) -> Outcome
    requires { (paired known_addresses.now ≡ Bool.true) × (length known_addresses.now ≤ 512) }
    ensures { Loads file.now (inputs known_names.now known_addresses.now low high) Bool.true (buffers memory.old map.old new_names.old new_addresses.old) result (buffers memory.new map.new new_names.new new_addresses.new) }
{
    let mut known = [0u16; sdx::KNOWN];
    words::decode_words(&mut known, known_addresses);
    let count = known_addresses.len() / 2;
    let mut new = [0u16; passes::ADDRESSES];
    let outcome = sdx::load(
        file,
        low,
        high,
        known_names,
        &known[..count],
        memory,
        map,
        new_names,
        &mut new,
    );
    if outcome.is_ok() {
        words::encode_words(new_addresses, &new);
    }
    outcome
}
