// The functions that C calls, as include/tekoweapa.h declares them, and nothing else: each hands its buffers on.
#![tactic(auto)]

ghost use Rattle.pieces.specs.Pieces.{bases_at};
ghost use Rattle.moves.specs.Call.{call_of};
ghost use Rattle.moves.specs.Sources.{file_in, the_index};
ghost use Rattle.passes.specs.Buffers.{buffers};
ghost use Rattle.passes.specs.Walk.{inputs};
ghost use Rattle.calls.specs.Acx.{default_bases, Called as AcxCalled};
ghost use Rattle.calls.specs.Answer.{answer_sized};
ghost use Rattle.calls.specs.Build.{Called as BuildCalled};
ghost use Rattle.calls.specs.Move.{Called as MoveCalled};
ghost use Rattle.calls.specs.Sdx.{default_inputs, Called as SdxCalled};

// Loads an SDX file between low and high.
#[unsafe(no_mangle)]
pub extern "C" fn tkw_sdx_load(
    file: &[u8],
    low: u32,
    high: u32,
    known_names: &[u8],
    known_addresses: &[u8],
    memory: &mut [u8],
    map: &mut [u8],
    new_names: &mut [u8],
    new_addresses: &mut [u8],
    answer: &mut [u8],
) -> u32
    ensures { SdxCalled file.now (inputs known_names.now known_addresses.now low high) (buffers memory.old map.old new_names.old new_addresses.old) answer.old result (buffers memory.new map.new new_names.new new_addresses.new) answer.new }
{
    calls::sdx_load(
        file,
        low,
        high,
        known_names,
        known_addresses,
        memory,
        map,
        new_names,
        new_addresses,
        answer,
    )
}

// Loads an SDX file between the default low and high.
#[unsafe(no_mangle)]
pub extern "C" fn tkw_sdx_load_default(
    file: &[u8],
    known_names: &[u8],
    known_addresses: &[u8],
    memory: &mut [u8],
    map: &mut [u8],
    new_names: &mut [u8],
    new_addresses: &mut [u8],
    answer: &mut [u8],
) -> u32
    ensures { SdxCalled file.now (default_inputs known_names.now known_addresses.now) (buffers memory.old map.old new_names.old new_addresses.old) answer.old result (buffers memory.new map.new new_names.new new_addresses.new) answer.new }
{
    calls::sdx_load_default(
        file,
        known_names,
        known_addresses,
        memory,
        map,
        new_names,
        new_addresses,
        answer,
    )
}

// Loads an ACX file at its bases.
#[unsafe(no_mangle)]
pub extern "C" fn tkw_acx_load(
    form: u32,
    file: &[u8],
    main_base: u32,
    zero_base: u32,
    memory: &mut [u8],
    map: &mut [u8],
    answer: &mut [u8],
) -> u32
    ensures { AcxCalled form (bases_at main_base zero_base) file.now memory.old map.old answer.old result memory.new map.new answer.new }
{
    calls::acx_load(form, file, main_base, zero_base, memory, map, answer)
}

// Loads an ACX file at the default bases.
#[unsafe(no_mangle)]
pub extern "C" fn tkw_acx_load_default(
    form: u32,
    file: &[u8],
    memory: &mut [u8],
    map: &mut [u8],
    answer: &mut [u8],
) -> u32
    ensures { AcxCalled form default_bases file.now memory.old map.old answer.old result memory.new map.new answer.new }
{
    calls::acx_load_default(form, file, memory, map, answer)
}

// Moves an ACX handler from its old bases to the new ones.
#[unsafe(no_mangle)]
pub extern "C" fn tkw_acx_move(
    form: u32,
    file: &[u8],
    old_main: u32,
    old_zero: u32,
    new_main: u32,
    new_zero: u32,
    memory: &mut [u8],
    map: &mut [u8],
    scratch: &mut [u8],
    answer: &mut [u8],
) -> u32
    ensures { MoveCalled (call_of (file_in form file.now) (bases_at old_main old_zero) (bases_at new_main new_zero) map.old scratch.old (answer_sized answer.old)) memory.old answer.old result memory.new map.new scratch.new answer.new }
{
    calls::acx_move(
        form, file, old_main, old_zero, new_main, new_zero, memory, map, scratch, answer,
    )
}

// Builds the index of an ACX file.
#[unsafe(no_mangle)]
pub extern "C" fn tkw_index_build(
    form: u32,
    file: &[u8],
    main_base: u32,
    zero_base: u32,
    map: &mut [u8],
    index: &mut [u8],
    answer: &mut [u8],
) -> u32
    ensures { BuildCalled form (bases_at main_base zero_base) file.now map.old index.old answer.old result map.new index.new answer.new }
{
    calls::index_build(form, file, main_base, zero_base, map, index, answer)
}

// Moves an ACX handler by an index from its old bases to the new ones.
#[unsafe(no_mangle)]
pub extern "C" fn tkw_index_move(
    index: &[u8],
    old_main: u32,
    old_zero: u32,
    new_main: u32,
    new_zero: u32,
    memory: &mut [u8],
    map: &mut [u8],
    scratch: &mut [u8],
    answer: &mut [u8],
) -> u32
    ensures { MoveCalled (call_of (the_index index.now) (bases_at old_main old_zero) (bases_at new_main new_zero) map.old scratch.old (answer_sized answer.old)) memory.old answer.old result memory.new map.new scratch.new answer.new }
{
    calls::index_move(
        index, old_main, old_zero, new_main, new_zero, memory, map, scratch, answer,
    )
}
