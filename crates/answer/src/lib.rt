// What a call reports: accepted with its counts, or refused with one fault; and the nine numbers in which the answer says so.
// It knows no file format. The numbers of the faults stand in one place, specs/Report.antt.
#![tactic(auto)]

ghost use Rattle.std.specs.Prelude.{◌≡◌, ◌+◌, ◌<◌, ◌≤◌, length, IfOk, IfErr};
ghost use Rattle.answer.specs.declared.Fault.TheVariants.{CutShort};
ghost use Rattle.answer.specs.Checks.{found};
ghost use Rattle.answer.specs.Report.{refusal, refused_by, number_of, numbers_of, number_returned, answer_length, Written};

use words::File;

// What is wrong: a variant for each row of the table "Numbers a bench can show", in its order and with its number, and for each number that
// document 02 adds to it.
#[derive(Clone, Copy)]
pub enum Fault {
    WrongBuffer = 1,
    SettingOutOfRange = 2,
    FileTooLong = 3,
    WrongOpening = 4,
    CutShort = 5,
    NotKnown = 6,
    BlockTaken = 7,
    BlockMissing = 8,
    LengthNotAllowed = 9,
    DoesNotFit = 10,
    CounterUnusable = 11,
    FieldNotLoaded = 12,
    AdjustedTwice = 13,
    NameUnknown = 14,
    TooManyNames = 15,
    NameOutsideBlock = 16,
    PiecesOverlap = 17,
    FixupUnsuited = 18,
    BytesAfterEnd = 19,
    StartTooHigh = 20,
    WrongVersion = 24,
    IndexTooLong = 25,
}

// What a part of the work found wrong: a fault, and the offset of the first byte at fault.
#[derive(Clone, Copy)]
pub struct Failure {
    pub fault: Fault,
    pub offset: usize,
}

impl Fault {
    // The failure of this fault at an offset.
    pub fn at(self, offset: usize) -> Failure
        ensures { result ≡ found self offset }
    {
        Failure {
            fault: self,
            offset,
        }
    }
}

// "bytes present (5)": that the `size` bytes from `at` on are there; else the file is cut short.
pub fn present(file: &File, at: usize, size: usize) -> Result<(), Failure>
    requires { (at ≤ length file.now) × (size ≤ 65536) }
    ensures ok { IfOk result (λ done. (at + size ≤ length file.now) × (length file.now ≤ 65536)) }
    ensures err { IfErr result (λ e. (e ≡ found CutShort (length file.now)) × (length file.now < at + size)) }
{
    if file.len() < at + size {
        return Err(Fault::CutShort.at(file.len()));
    }
    Ok(())
}

// What an accepted call comes to: where the program starts, the bytes placed, the fields adjusted, the new names, and low.
#[derive(Clone, Copy)]
pub struct Acceptance {
    pub start: Option<u16>,
    pub placed: u32,
    pub adjusted: u32,
    pub new_names: u32,
    pub low: u32,
}

// Why a call is refused. The side is 1 where the mover's new bases are at fault, else 0: a number, as the answer has it.
#[derive(Clone, Copy)]
pub struct Refusal {
    pub fault: Fault,
    pub offset: u32,
    pub side: u32,
}

// How a call ends.
pub type Outcome = Result<Acceptance, Refusal>;

// The numbers of an answer: number, offset, side, start present, start address, placed, adjusted, new names, low.
pub type Numbers = [u32; 9];

// A refusal with a fault and its offset, at side 0.
pub fn refused(fault: Fault, offset: usize) -> Outcome
    requires { offset < 4294967296 }
    ensures { result ≡ refusal fault offset 0 }
{
    Err(refusal_of(fault.at(offset)))
}

// The refusal of a failure, at side 0, for `map_err`. (No `From<Failure>`, which can't ask for the bound.)
pub fn refusal_of(failure: Failure) -> Refusal
    requires { failure.offset < 4294967296 }
    ensures { result ≡ refused_by failure }
{
    Refusal {
        fault: failure.fault,
        offset: failure.offset as u32,
        side: 0,
    }
}

// The number of a fault.
pub fn fault_number(fault: Fault) -> u32
    ensures { result ≡ number_of fault }
{
    fault as u32
}

// The nine numbers of an outcome.
pub fn numbers(outcome: Outcome) -> Numbers
    ensures { result ≡ numbers_of outcome }
{
    match outcome {
        Ok(
            Acceptance {
                start,
                placed,
                adjusted,
                new_names,
                low,
            },
        ) => match start {
            None => [0, 0, 0, 0, 0, placed, adjusted, new_names, low],
            Some(address) => [0, 0, 0, 1, address as u32, placed, adjusted, new_names, low],
        },
        Err(
            Refusal {
                fault,
                offset,
                side,
            },
        ) => [fault_number(fault), offset, side, 0, 0, 0, 0, 0, 0],
    }
}

// The number that a call returns.
pub fn number(outcome: Outcome) -> u32
    ensures { result ≡ number_returned outcome }
{
    numbers(outcome)[0]
}

// Writes the answer into a buffer of its length.
#[tactic(auto, using(words::proofs::Turns::encode_more), unfolding(words::specs::Numbers::encoded))]
pub fn write(outcome: Outcome, answer: &mut [u8])
    requires { length answer.old ≡ answer_length }
    ensures { Written outcome answer.new }
{
    let all = numbers(outcome);
    for (i, number) in all.iter().enumerate() {
        words::put_number(answer, 4 * i, *number);
    }
}
