// Characters of an Intel HEX file: digits, the bytes and numbers that they make, and blanks.
// A leaf: it knows no record. Each `requires` is a bound that the caller has looked at.
#![tactic(auto)]

ghost use Rattle.std.specs.Prelude.{◌≡◌, ◌+◌, ◌*◌, ◌≤◌, length};
ghost use Rattle.digits.specs.Digits.{digit_of, is_digit, byte_at, word_at, sum_at, is_blank, past_blanks, past_digits};

// What a character has for a value that is no digit. A number and no `None`: `digit` promises `digit_of`, and the bytes of `byte_at` count it. (So no `to_digit`, which has
// `None`.)
const NO_DIGIT: usize = 16;

// The value of a digit, or `NO_DIGIT`.
#[tactic(auto, using(crate::proofs::Digits::digit_decimal, crate::proofs::Digits::digit_upper, crate::proofs::Digits::digit_lower, crate::proofs::Digits::digit_none))]
pub fn digit(character: u8) -> usize
    ensures { result ≡ digit_of character }
{
    match character {
        b'0'..=b'9' => usize::from(character - b'0'),
        b'A'..=b'F' => usize::from(character - b'A') + 10,
        b'a'..=b'f' => usize::from(character - b'a') + 10,
        _ => NO_DIGIT,
    }
}

// Whether a character is a digit.
fn is_digit(character: u8) -> bool
    ensures { result ≡ is_digit character }
{
    digit(character) < NO_DIGIT
}

// Whether a character is a CR, an LF, a space or a tab.
fn is_blank(character: u8) -> bool
    ensures { result ≡ is_blank character }
{
    matches!(character, b'\r' | b'\n' | b' ' | b'\t')
}

// The byte in the two digits at `at`.
#[tactic(auto, using(crate::proofs::Digits::digit_most), unfolding(crate::specs::Digits::byte_at))]
pub fn byte_at(file: &[u8], at: usize) -> usize
    requires { at + 2 ≤ length file.now }
    ensures { (result ≡ byte_at file.now at) × (result ≤ 272) }
{
    16 * digit(file[at]) + digit(file[at + 1])
}

// The word in the four digits at `at`.
#[tactic(auto, unfolding(crate::specs::Digits::word_at))]
pub fn word_at(file: &[u8], at: usize) -> usize
    requires { at + 4 ≤ length file.now }
    ensures { result ≡ word_at file.now at }
{
    256 * byte_at(file, at) + byte_at(file, at + 2)
}

// The sum of the `count` bytes from `at` on. (A slice and no `File`, here and in `past_digits`: `byte_at` takes slices.)
pub fn sum(file: &[u8], at: usize, count: usize) -> usize
    requires { (at + 2 * count ≤ length file.now) × (length file.now ≤ 65536) }
    ensures { result ≡ sum_at file.now at count }
{
    (0..count).map(|i| byte_at(file, at + 2 * i)).sum()
}

// Where the blanks from `at` on end.
pub fn past_blanks(file: &[u8], at: usize) -> usize
    requires { at ≤ length file.now }
    ensures { result ≡ past_blanks file.now at }
{
    at + file[at..]
        .iter()
        .take_while(|character| is_blank(**character))
        .count()
}

// Where the digits end, of `count` characters from `at` on.
pub fn past_digits(file: &[u8], at: usize, count: usize) -> usize
    requires { (at ≤ length file.now) × (length file.now ≤ 65536) × (count ≤ 65536) }
    ensures { result ≡ past_digits file.now at count }
{
    at + file[at..]
        .iter()
        .take(count)
        .take_while(|character| is_digit(**character))
        .count()
}
