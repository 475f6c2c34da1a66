// Traits and settings of a legacy file: their rule, and the byte in the new order (document 02, [5]).
#![tactic(auto)]

ghost use Rattle.std.specs.Prelude.{◌≡◌};
ghost use Rattle.legacy.specs.Reading.{legacy_number_flag_ok};
ghost use Rattle.legacy.specs.Migration.{migrated_byte};

// Whether a byte holds a number in bits 7 and 6, at most 2, and a flag in bit 5, the other bits zero: the legacy reading.
#[tactic(auto, unfolding(crate::specs::Reading::legacy_number_flag_ok))]
pub fn number_flag_ok(b: u8) -> bool
    ensures { result ≡ legacy_number_flag_ok b }
{
    (b >> 6 <= 2) & (b & 31 == 0)
}

// Bits 7 and 6 to bits 1 and 0, bit 5 to bit 2, and the five bits below them to the five above.
#[tactic(auto, unfolding(crate::specs::Migration::migrated_byte))]
pub fn migrated_byte(b: u8) -> u8
    ensures { result ≡ migrated_byte b }
{
    let low = (((b >> 5) & 1) << 2) | (b >> 6);
    ((b & 31) << 3) | low
}
