// The SDX loader: the buffers, the settings, the file's length and its opening checked, and then its blocks loaded between low and high.
#![tactic(auto)]

ghost use Rattle.std.specs.Prelude.{true, [], ◌≡◌, ◌*◌, length, Ok, Err, IfOk, IfErr};
ghost use Rattle.events.specs.Events.{blank};
ghost use Rattle.passes.specs.Walk.{inputs};
ghost use Rattle.passes.specs.Buffers.{buffers};
ghost use Rattle.sdx.specs.Call.{in_range, listed, sized, opening as opening_of, admitting, Loaded};

use answer::{Failure, Fault, Outcome};
use events::{Buffer, Check};
use passes::{ADDRESSES, Inputs, NAMES};
use words::File;

// The most names that are lent.
pub const KNOWN: usize = 256;

// Loads a file. Refuses with the first fault; memory and the buffers for new names are then as they were.
#[tactic(auto, using(crate::proofs::Calling::all_sizes))]
pub fn load(
    file: &[u8],
    low: u32,
    high: u32,
    known_names: &[u8],
    known_addresses: &[u16],
    memory: &mut [u8],
    map: &mut [u8],
    new_names: &mut [u8],
    new_addresses: &mut [u16],
) -> Outcome
    ensures { Loaded file.now (inputs known_names.now known_addresses.now low high) (sized (inputs known_names.now known_addresses.now low high) (buffers memory.old map.old new_names.old new_addresses.old)) (buffers memory.old map.old new_names.old new_addresses.old) result (buffers memory.new map.new new_names.new new_addresses.new) }
{
    let wrong = answer::refused(Fault::WrongBuffer, 0);
    if !is_listed(known_names, known_addresses) {
        return wrong;
    }
    let Some(memory) = memory.as_mut_array() else {
        return wrong;
    };
    let Some(map) = map.as_mut_array() else {
        return wrong;
    };
    let Some(new_names) = new_names.as_mut_array() else {
        return wrong;
    };
    let Some(new_addresses) = new_addresses.as_mut_array() else {
        return wrong;
    };
    load_sized(
        file,
        low,
        high,
        known_names,
        known_addresses,
        memory,
        map,
        new_names,
        new_addresses,
    )
}

// Whether the known names have eight bytes each, beside as many addresses, and are not too many.
fn is_listed(known_names: &[u8], known_addresses: &[u16]) -> bool
    ensures { result ≡ listed (inputs known_names.now known_addresses.now 0 0) }
{
    known_addresses.len() <= KNOWN && known_names.len() == names::NAME * known_addresses.len()
}

// (The four of `Inputs` come one by one, as C gives them: they are one value once their ranges are known.)
// Loads a file with the right buffers: clears the map, and checks what comes before the first block.
#[tactic(auto, using(events::proofs::Events::cleared), unfolding(crate::specs::Call::admitting))]
fn load_sized(
    file: &[u8],
    low: u32,
    high: u32,
    known_names: &[u8],
    known_addresses: &[u16],
    memory: &mut Buffer,
    map: &mut Buffer,
    new_names: &mut [u8; NAMES],
    new_addresses: &mut [u16; ADDRESSES],
) -> Outcome
    requires { length known_names.now ≡ 8 * length known_addresses.now }
    ensures { Loaded file.now (inputs known_names.now known_addresses.now low high) true (buffers memory.old map.old new_names.old new_addresses.old) result (buffers memory.new map.new new_names.new new_addresses.new) }
{
    map.fill(0);
    let file = admit(file, low, high).map_err(answer::refusal_of)?;
    let lent = Inputs::new(known_names, known_addresses, low as u16, high as u16);
    load_blocks(&file, &lent, memory, map, new_names, new_addresses)
}

// Checks what comes before the first block: the settings, the file's length, its opening. Answers the file.
#[tactic(auto, unfolding(crate::specs::Call::admitting, answer::specs::Checks::need))]
fn admit<'a>(bytes: &'a [u8], low: u32, high: u32) -> Result<File<'a>, Failure>
    ensures ok { IfOk result (λ file. (file ≡ bytes.now) × (admitting bytes.now (inputs [] [] low high) ≡ Ok tt)) }
    ensures err { IfErr result (λ e. admitting bytes.now (inputs [] [] low high) ≡ Err e) }
{
    if !in_range(low, high) {
        return Err(Fault::SettingOutOfRange.at(0));
    }
    let Some(file) = File::new(bytes) else {
        return Err(Fault::FileTooLong.at(0));
    };
    opening(&file)?;
    Ok(file)
}

// Whether the settings of a call are in their ranges.
fn in_range(low: u32, high: u32) -> bool
    ensures { result ≡ in_range (inputs [] [] low high) }
{
    low <= high && high <= 65535
}

// Whether the file opens with a marker.
#[tactic(auto, unfolding(crate::specs::Call::opening, answer::specs::Checks::need))]
fn opening(file: &File) -> Check
    ensures { result ≡ opening_of file.now }
{
    answer::present(file, 0, 2)?;
    if file.word(0) < blocks::FIRST_MARKER {
        return Err(Fault::WrongOpening.at(0));
    }
    Ok(())
}

// Loads the blocks of a file, over a clear map: checks them first, and carries them out only where nothing is refused.
fn load_blocks(
    file: &File,
    lent: &Inputs,
    memory: &mut Buffer,
    map: &mut Buffer,
    new_names: &mut [u8; NAMES],
    new_addresses: &mut [u16; ADDRESSES],
) -> Outcome
    requires { (map.old ≡ blank) × (admitting file.now lent.now ≡ Ok tt) }
    ensures { Loaded file.now lent.now true (buffers memory.old map.old new_names.old new_addresses.old) result (buffers memory.new map.new new_names.new new_addresses.new) }
{
    let totals = passes::check(file, lent, memory, map).map_err(answer::refusal_of)?;
    let again = passes::walk(file, lent, true, memory, map, new_names, new_addresses);
    passes::finish(totals, memory, map, new_names, new_addresses)
}
