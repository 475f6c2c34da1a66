// Bytes that hold more than one value, and signed bytes: each kind out of a byte, by `From`, and into one, by a function, since not every value has a byte.
#![tactic(auto)]

ghost use Rattle.std.specs.Prelude.{◌≡◌, true};
ghost use Rattle.bits.specs.Packed.{number_flag_of, number_flag_byte, number_flag_ok, number_flag_valid, nibbles_of, nibbles_byte, nibbles_valid, signed_of, signed_byte};

// Traits and settings: a number in bits 0 and 1, a flag in bit 2 (document 02, [5]).
#[derive(Clone, Copy, Debug, PartialEq, Eq)]
pub struct NumberFlag {
    pub number: u8,
    pub flag: bool,
}

// The two nibbles of a byte. Laid out as in C, for bindings/c/include/codeplug.h.
#[repr(C)]
#[derive(Clone, Copy, Debug, PartialEq, Eq)]
pub struct Nibbles {
    pub high: u8,
    pub low: u8,
}

impl From<u8> for NumberFlag {
    ghost from_gives = { λ b c. c ≡ number_flag_of b };

    #[tactic(auto, unfolding(crate::specs::Packed::number_flag_of))]
    fn from(b: u8) -> NumberFlag {
        NumberFlag {
            number: b & 3,
            flag: (b >> 2) & 1 == 1,
        }
    }
}

#[tactic(auto, unfolding(crate::specs::Packed::number_flag_byte, crate::specs::Packed::number_flag_valid))]
pub fn number_flag_byte(c: NumberFlag) -> u8
    requires { number_flag_valid c ≡ true }
    ensures { result ≡ number_flag_byte c }
{
    if c.flag { 4 | c.number } else { c.number }
}

// Whether a byte holds such a number and flag: the number at most 2, the other bits zero.
#[tactic(auto, unfolding(crate::specs::Packed::number_flag_ok))]
pub fn number_flag_ok(b: u8) -> bool
    ensures { result ≡ number_flag_ok b }
{
    (b & 3 <= 2) & (b >> 3 == 0)
}

#[tactic(auto, unfolding(crate::specs::Packed::number_flag_valid))]
pub fn number_flag_valid(c: NumberFlag) -> bool
    ensures { result ≡ number_flag_valid c }
{
    c.number <= 2
}

impl From<u8> for Nibbles {
    ghost from_gives = { λ b h. h ≡ nibbles_of b };

    #[tactic(auto, unfolding(crate::specs::Packed::nibbles_of))]
    fn from(b: u8) -> Nibbles {
        Nibbles {
            high: b >> 4,
            low: b & 15,
        }
    }
}

#[tactic(auto, using(crate::proofs::Laws::packed), unfolding(crate::specs::Packed::nibbles_byte, crate::specs::Packed::nibbles_valid))]
pub fn nibbles_byte(h: Nibbles) -> u8
    requires { nibbles_valid h ≡ true }
    ensures { result ≡ nibbles_byte h }
{
    (h.high << 4) | h.low
}

#[tactic(auto, unfolding(crate::specs::Packed::nibbles_valid))]
pub fn nibbles_valid(h: Nibbles) -> bool
    ensures { result ≡ nibbles_valid h }
{
    h.high <= 15 && h.low <= 15
}

#[tactic(auto, unfolding(crate::specs::Packed::signed_of))]
pub fn signed_of(b: u8) -> i8
    ensures { result ≡ signed_of b }
{
    b.cast_signed()
}

#[tactic(auto, unfolding(crate::specs::Packed::signed_byte))]
pub fn signed_byte(z: i8) -> u8
    ensures { result ≡ signed_byte z }
{
    z.cast_unsigned()
}
