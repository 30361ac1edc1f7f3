// The calls that C makes, on byte buffers: each is a call of a loader, of the mover or of the builder that also writes the answer.
// They take whatever comes. The answer's length is looked at first: where it is wrong, nothing is done and nothing written.
#![tactic(auto)]

ghost use Rattle.std.specs.Prelude.{◌≡◌, length};
ghost use Rattle.pieces.specs.Pieces.{bases_at};
ghost use Rattle.moves.specs.Call.{call_of};
ghost use Rattle.moves.specs.Sources.{source_of, file_in, the_index};
ghost use Rattle.answer.specs.Report.{answer_length};
ghost use Rattle.passes.specs.Buffers.{buffers};
ghost use Rattle.passes.specs.Walk.{inputs};
ghost use Rattle.calls.specs.Answer.{answer_sized, Answered};
ghost use Rattle.calls.specs.Acx.{default_bases, Called as AcxCalled};
ghost use Rattle.calls.specs.Build.{Called as BuildCalled};
ghost use Rattle.calls.specs.Move.{Called as MoveCalled};
ghost use Rattle.calls.specs.Sdx.{default_inputs, Called as SdxCalled};

use answer::{Fault, Outcome};
use moves::Format;
use pieces::Site;

// The length of the answer.
const ANSWER: usize = 36;

// The settings of the short calls.
const DEFAULT_MAIN_BASE: u32 = 9216;

const DEFAULT_ZERO_BASE: u32 = 128;

const DEFAULT_LOW: u32 = 7936;

const DEFAULT_HIGH: u32 = 39936;

// Loads an ACX file at its bases.
pub fn acx_load(
    form: u32,
    file: &[u8],
    main_base: u32,
    zero_base: u32,
    memory: &mut [u8],
    map: &mut [u8],
    answer: &mut [u8],
) -> u32
    ensures { AcxCalled form (bases_at main_base zero_base) file.now memory.old map.old answer.old result memory.new map.new answer.new }
{
    if answer.len() != ANSWER {
        return answer::fault_number(Fault::WrongBuffer);
    }
    let site = Site {
        main: main_base,
        zero: zero_base,
    };
    let outcome = acx::load(form, file, site, memory, map);
    write_answer(outcome, answer)
}

// Loads an ACX file at the default bases.
pub fn acx_load_default(
    form: u32,
    file: &[u8],
    memory: &mut [u8],
    map: &mut [u8],
    answer: &mut [u8],
) -> u32
    ensures { AcxCalled form default_bases file.now memory.old map.old answer.old result memory.new map.new answer.new }
{
    acx_load(
        form,
        file,
        DEFAULT_MAIN_BASE,
        DEFAULT_ZERO_BASE,
        memory,
        map,
        answer,
    )
}

// Moves an ACX handler from its old bases to the new ones.
pub fn acx_move(
    form: u32,
    file: &[u8],
    old_main: u32,
    old_zero: u32,
    new_main: u32,
    new_zero: u32,
    memory: &mut [u8],
    map: &mut [u8],
    scratch: &mut [u8],
    answer: &mut [u8],
) -> u32
    ensures { MoveCalled (call_of (file_in form file.now) (bases_at old_main old_zero) (bases_at new_main new_zero) map.old scratch.old (answer_sized answer.old)) memory.old answer.old result memory.new map.new scratch.new answer.new }
{
    move_by(
        Format::File(form),
        file,
        old_main,
        old_zero,
        new_main,
        new_zero,
        memory,
        map,
        scratch,
        answer,
    )
}

// Moves an ACX handler by an index from its old bases to the new ones.
pub fn index_move(
    index: &[u8],
    old_main: u32,
    old_zero: u32,
    new_main: u32,
    new_zero: u32,
    memory: &mut [u8],
    map: &mut [u8],
    scratch: &mut [u8],
    answer: &mut [u8],
) -> u32
    ensures { MoveCalled (call_of (the_index index.now) (bases_at old_main old_zero) (bases_at new_main new_zero) map.old scratch.old (answer_sized answer.old)) memory.old answer.old result memory.new map.new scratch.new answer.new }
{
    move_by(
        Format::Index,
        index,
        old_main,
        old_zero,
        new_main,
        new_zero,
        memory,
        map,
        scratch,
        answer,
    )
}

// Builds the index of an ACX file.
pub fn index_build(
    form: u32,
    file: &[u8],
    main_base: u32,
    zero_base: u32,
    map: &mut [u8],
    index: &mut [u8],
    answer: &mut [u8],
) -> u32
    ensures { BuildCalled form (bases_at main_base zero_base) file.now map.old index.old answer.old result map.new index.new answer.new }
{
    if answer.len() != ANSWER {
        return answer::fault_number(Fault::WrongBuffer);
    }
    let site = Site {
        main: main_base,
        zero: zero_base,
    };
    let outcome = builder::build(form, file, site, map, index);
    write_answer(outcome, answer)
}

// Loads an SDX file between low and high.
pub fn sdx_load(
    file: &[u8],
    low: u32,
    high: u32,
    known_names: &[u8],
    known_addresses: &[u8],
    memory: &mut [u8],
    map: &mut [u8],
    new_names: &mut [u8],
    new_addresses: &mut [u8],
    answer: &mut [u8],
) -> u32
    ensures { SdxCalled file.now (inputs known_names.now known_addresses.now low high) (buffers memory.old map.old new_names.old new_addresses.old) answer.old result (buffers memory.new map.new new_names.new new_addresses.new) answer.new }
{
    if answer.len() != ANSWER {
        return answer::fault_number(Fault::WrongBuffer);
    }
    let outcome = pairs::load(
        file,
        low,
        high,
        known_names,
        known_addresses,
        memory,
        map,
        new_names,
        new_addresses,
    );
    write_answer(outcome, answer)
}

// Loads an SDX file between the default low and high.
pub fn sdx_load_default(
    file: &[u8],
    known_names: &[u8],
    known_addresses: &[u8],
    memory: &mut [u8],
    map: &mut [u8],
    new_names: &mut [u8],
    new_addresses: &mut [u8],
    answer: &mut [u8],
) -> u32
    ensures { SdxCalled file.now (default_inputs known_names.now known_addresses.now) (buffers memory.old map.old new_names.old new_addresses.old) answer.old result (buffers memory.new map.new new_names.new new_addresses.new) answer.new }
{
    sdx_load(
        file,
        DEFAULT_LOW,
        DEFAULT_HIGH,
        known_names,
        known_addresses,
        memory,
        map,
        new_names,
        new_addresses,
        answer,
    )
}

// Moves an ACX handler by a file or an index.
fn move_by(
    format: Format,
    bytes: &[u8],
    old_main: u32,
    old_zero: u32,
    new_main: u32,
    new_zero: u32,
    memory: &mut [u8],
    map: &mut [u8],
    scratch: &mut [u8],
    answer: &mut [u8],
) -> u32
    ensures { MoveCalled (call_of (source_of format bytes.now) (bases_at old_main old_zero) (bases_at new_main new_zero) map.old scratch.old (answer_sized answer.old)) memory.old answer.old result memory.new map.new scratch.new answer.new }
{
    if answer.len() != ANSWER {
        return answer::fault_number(Fault::WrongBuffer);
    }
    let old = Site {
        main: old_main,
        zero: old_zero,
    };
    let new = Site {
        main: new_main,
        zero: new_zero,
    };
    let outcome = mover::move_handler(format, bytes, old, new, memory, map, scratch);
    write_answer(outcome, answer)
}

// Writes the answer of an outcome, and gives its number.
fn write_answer(outcome: Outcome, answer: &mut [u8]) -> u32
    requires { length answer.old ≡ answer_length }
    ensures { Answered outcome answer.old result answer.new }
{
    answer::write(outcome, answer);
    answer::number(outcome)
}
