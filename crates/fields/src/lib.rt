// The address fields that a fixup record lists.
#![tactic(auto)]

ghost use Rattle.std.specs.Prelude.{[], ◌∷◌, ◌≡◌, ◌+◌, ◌<◌, ◌≤◌, length};
ghost use Rattle.words.specs.Runs.{part};
ghost use Rattle.fields.specs.Fields.{item_size, width_of, fields_of};

// What a fixup puts on its field: the main base on a byte, the zero-page base on a byte, the main base on a word, and on a high byte the
// high byte of LSB + main base. Each has the number of its record type after main code.
#[derive(Clone, Copy)]
pub enum Fixup {
    LowByte = 0x02,
    ZeroPageByte = 0x04,
    Word = 0x06,
    HighByte = 0x08,
}

// An address field: what is put on it, its index among the code bytes, and the low byte beside a high one (else zero). (No invariant
// below 256: who asks about the index asks nothing of the LSB, and the other way round, so a type would ask more.)
#[derive(Clone, Copy)]
pub struct Field {
    pub fixup: Fixup,
    pub index: usize,
    pub lsb: usize,
}

// How many bytes list one field.
pub fn item_size(fixup: Fixup) -> usize
    ensures { result ≡ item_size fixup }
{
    match fixup {
        Fixup::LowByte | Fixup::ZeroPageByte | Fixup::Word => 1,
        Fixup::HighByte => 2,
    }
}

// How many bytes a field has.
pub fn width(fixup: Fixup) -> usize
    ensures { (result ≡ width_of fixup) × (1 ≤ result) × (result ≤ 2) }
{
    match fixup {
        Fixup::LowByte | Fixup::ZeroPageByte | Fixup::HighByte => 1,
        Fixup::Word => 2,
    }
}

// The field that the item at `at` of a fixup record's items lists.
#[tactic(auto, using(crate::proofs::Listing::single_listed, crate::proofs::Listing::pair_listed))]
pub fn field_at(items: &[u8], at: usize, fixup: Fixup) -> Field
    requires { at + item_size fixup ≤ length items.now }
    ensures { (result ∷ [] ≡ fields_of fixup (part items.now at (item_size fixup))) × (result.index < 256) × (result.lsb < 256) }
{
    let lsb = if let Fixup::HighByte = fixup {
        items[at + 1] as usize
    } else {
        0
    };
    Field {
        fixup,
        index: items[at] as usize,
        lsb,
    }
}
