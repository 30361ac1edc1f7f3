// Runs the loaders at the edges that document 01 marks "Run, not proved", on both sides of each, and prints their answers. The file `stdout`
// holds what was printed, once it was read beside the document.
#![tactic(auto)]

ghost use Rattle.std.specs.Prelude.{◌≡◌, IfOk};
ghost use Rattle.answer.specs.Report.{numbers_of};
ghost use Rattle.edges.specs.Edges.{sdx_numbers, acx_numbers};

use answer::{Numbers, Outcome};
use pieces::Site;
use std::io;

// Low and high where a case does not turn on them.
const LOW: u32 = 7936;

const HIGH: u32 = 39936;

// The bases, likewise.
const MAIN_BASE: u32 = 8192;

const ZERO_BASE: u32 = 128;

// An SDX file, loaded between low and high.
struct SdxCase {
    name: &'static str,
    file: &'static [u8],
    low: u32,
    high: u32,
}

// An ACX file in device form, loaded at a main base.
struct AcxCase {
    name: &'static str,
    file: &'static [u8],
    main_base: u32,
}

static SDX: [SdxCase; 12] = [
    // "high equal to low + length and one less": a relocatable block of three bytes.
    SdxCase {
        name: "high = low + length",
        file: b"\xFE\xFF\x01\x00\x00\x10\x03\x00\x4C\x00\x10",
        low: 7936,
        high: 7939,
    },
    SdxCase {
        name: "high = low + length - 1",
        file: b"\xFE\xFF\x01\x00\x00\x10\x03\x00\x4C\x00\x10",
        low: 7936,
        high: 7938,
    },
    // "plain end 65,535": a plain block on the last two bytes of memory.
    SdxCase {
        name: "plain start 65534, end 65535",
        file: b"\xFF\xFF\xFE\xFF\xFF\xFF\x01\x02",
        low: LOW,
        high: HIGH,
    },
    // The same: one on the last byte alone.
    SdxCase {
        name: "plain start 65535, end 65535",
        file: b"\xFF\xFF\xFF\xFF\xFF\xFF\x01",
        low: LOW,
        high: HIGH,
    },
    // "plain end 65,535" and one less: a start of 65,535, an end of 65,534.
    SdxCase {
        name: "plain start 65535, end 65534",
        file: b"\xFF\xFF\xFF\xFF\xFE\xFF\x01",
        low: LOW,
        high: HIGH,
    },
    // "plain end 65,535": the last two bytes of memory, but one byte of data.
    SdxCase {
        name: "plain start 65534, end 65535, a byte short",
        file: b"\xFF\xFF\xFE\xFF\xFF\xFF\x01",
        low: LOW,
        high: HIGH,
    },
    // "counter 65,534": an empty block to update by, the last two bytes of memory, and a body that sets the counter by FD and adjusts there.
    SdxCase {
        name: "FD sets the counter to 65534",
        file: b"\xFE\xFF\x01\x00\x00\x10\x00\x00\xFF\xFF\xFE\xFF\xFF\xFF\x01\x02\xFD\xFF\x01\x00\x00\xFD\xFE\xFF\xFC",
        low: LOW,
        high: HIGH,
    },
    // "counter .. 65,535": the same, a place higher.
    SdxCase {
        name: "FD sets the counter to 65535",
        file: b"\xFE\xFF\x01\x00\x00\x10\x00\x00\xFF\xFF\xFE\xFF\xFF\xFF\x01\x02\xFD\xFF\x01\x00\x00\xFD\xFF\xFF\xFC",
        low: LOW,
        high: HIGH,
    },
    // "counter 65,534 and 65,535", reached by an amount: the empty block lies at low, and the body adds 250 by FA and adjusts there.
    SdxCase {
        name: "FA adds 250 to the counter, to 65534",
        file: b"\xFE\xFF\x01\x00\x00\x10\x00\x00\xFF\xFF\xFE\xFF\xFF\xFF\x01\x02\xFD\xFF\x01\x00\x00\xFE\x01\xFA\xFC",
        low: 65284,
        high: 65535,
    },
    SdxCase {
        name: "FA adds 250 to the counter, to 65535",
        file: b"\xFE\xFF\x01\x00\x00\x10\x00\x00\xFF\xFF\xFE\xFF\xFF\xFF\x01\x02\xFD\xFF\x01\x00\x00\xFE\x01\xFA\xFC",
        low: 65285,
        high: 65535,
    },
    // "counter .. 65,535", reached by FF, which adjusts nothing: here the counter may be 65,535, and one more is too high.
    SdxCase {
        name: "FF adds 250 to the counter, to 65535",
        file: b"\xFE\xFF\x01\x00\x00\x10\x00\x00\xFD\xFF\x01\x00\x00\xFE\x01\xFF\xFC",
        low: 65285,
        high: 65535,
    },
    SdxCase {
        name: "FF adds 250 to the counter, to 65536",
        file: b"\xFE\xFF\x01\x00\x00\x10\x00\x00\xFD\xFF\x01\x00\x00\xFE\x01\xFF\xFC",
        low: 65286,
        high: 65535,
    },
];

static ACX: [AcxCase; 6] = [
    // "place + n at 256": two bytes in zero page, at address 126 from the base 128.
    AcxCase {
        name: "zero page, place + n = 256",
        file: b"\x0A\x04\x7E\x00\x01\x02\x0B\x00\x00\x00",
        main_base: MAIN_BASE,
    },
    // "place + n at .. 257": the same at address 127.
    AcxCase {
        name: "zero page, place + n = 257",
        file: b"\x0A\x04\x7F\x00\x01\x02\x0B\x00\x00\x00",
        main_base: MAIN_BASE,
    },
    // "place + n" at the end of memory, 65,536, and one more: two bytes at the main base.
    AcxCase {
        name: "main, place + n = 65536",
        file: b"\x00\x04\x00\x00\x01\x02\x0B\x00\x00\x00",
        main_base: 65534,
    },
    AcxCase {
        name: "main, place + n = 65537",
        file: b"\x00\x04\x00\x00\x01\x02\x0B\x00\x00\x00",
        main_base: 65535,
    },
    // "place + n" at the end of memory: two bytes at the absolute address 65,534.
    AcxCase {
        name: "absolute, place + n = 65536",
        file: b"\x01\x04\xFE\xFF\x01\x02\x0B\x00\x00\x00",
        main_base: MAIN_BASE,
    },
    // "place + n" past the end of memory: the same at 65,535.
    AcxCase {
        name: "absolute, place + n = 65537",
        file: b"\x01\x04\xFF\xFF\x01\x02\x0B\x00\x00\x00",
        main_base: MAIN_BASE,
    },
];

fn main(rt: HostRuntime) -> io::Result<()> {
    for case in &SDX {
        load_sdx(&rt, case)?;
    }
    for case in &ACX {
        load_acx(&rt, case)?;
    }
    Ok(())
}

// Loads an SDX file with no known names into memory of zeros, prints what is reported, and gives it back.
fn load_sdx(rt: &impl Print, case: &SdxCase) -> io::Result<Numbers>
    ensures { IfOk result (λ numbers. numbers ≡ sdx_numbers case.now.file.now case.now.low case.now.high) }
{
    let known_addresses = [0u16; 0];
    let mut memory = [0u8; 65536];
    let mut map = [0u8; 65536];
    let mut new_names = [0u8; 256];
    let mut new_addresses = [0u16; 32];
    let outcome = sdx::load(
        case.file,
        case.low,
        case.high,
        b"",
        &known_addresses,
        &mut memory,
        &mut map,
        &mut new_names,
        &mut new_addresses,
    );
    print_outcome(rt, case.name, outcome)
}

// Loads an ACX file in device form, likewise.
fn load_acx(rt: &impl Print, case: &AcxCase) -> io::Result<Numbers>
    ensures { IfOk result (λ numbers. numbers ≡ acx_numbers case.now.file.now case.now.main_base) }
{
    let mut memory = [0u8; 65536];
    let mut map = [0u8; 65536];
    let outcome = acx::load(
        1,
        case.file,
        Site {
            main: case.main_base,
            zero: ZERO_BASE,
        },
        &mut memory,
        &mut map,
    );
    print_outcome(rt, case.name, outcome)
}

// Prints a line, what was loaded and the nine numbers of the answer, and gives these back.
fn print_outcome(rt: &impl Print, name: &str, outcome: Outcome) -> io::Result<Numbers>
    ensures { IfOk result (λ numbers. numbers ≡ numbers_of outcome) }
{
    let numbers = answer::numbers(outcome);
    let [
        number,
        offset,
        side,
        start,
        address,
        placed,
        adjusted,
        names,
        low,
    ] = numbers;
    println!(rt;
        "{name}: number {number} offset {offset} side {side} start {start} {address} placed {placed} adjusted {adjusted} names {names} low {low}"
    )?;
    Ok(numbers)
}
