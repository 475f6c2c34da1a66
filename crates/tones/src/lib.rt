// CTCSS tones: the tone byte, and the table of 50 tones (document 01, "The file"; source 000).
#![tactic(auto)]

ghost use Rattle.std.specs.Prelude.{◌≡◌, true};
ghost use Rattle.tones.specs.Tone.{tone_ok, tone_of, tone_byte, tone_valid, tone_index, tone_enabled, tone_from, frequency_of, index_of};

// A tone by its index in the table. A disabled tone keeps its index: a blank tone is Disabled(0), never Enabled(0).
#[derive(Clone, Copy, Debug, PartialEq, Eq)]
pub enum Tone {
    Enabled(u8),
    Disabled(u8),
}

// The frequencies in tenths of a hertz, by index.
const TONES: [u16; 50] = [
    670, 693, 719, 744, 770, 797, 825, 854, 885, 915, 948, 974, 1000, 1034, 1072, 1109, 1148, 1188,
    1230, 1273, 1318, 1365, 1413, 1462, 1514, 1567, 1598, 1622, 1655, 1679, 1713, 1738, 1773, 1799,
    1835, 1862, 1899, 1928, 1966, 1995, 2035, 2065, 2107, 2181, 2257, 2291, 2336, 2418, 2503, 2541,
];

// Whether a tone byte's index is in the table, enabled or not.
#[tactic(auto, unfolding(crate::specs::Tone::tone_ok))]
pub fn tone_ok(b: u8) -> bool
    ensures { result ≡ tone_ok b }
{
    b & 127 < 50
}

#[tactic(auto, unfolding(crate::specs::Tone::tone_of))]
pub fn tone_of(b: u8) -> Tone
    ensures { result ≡ tone_of b }
{
    let index = b & 127;
    if b >> 7 == 1 {
        Tone::Enabled(index)
    } else {
        Tone::Disabled(index)
    }
}

#[tactic(auto, unfolding(crate::specs::Tone::tone_byte, crate::specs::Tone::tone_valid, crate::specs::Tone::tone_index))]
pub fn tone_byte(t: Tone) -> u8
    requires { tone_valid t ≡ true }
    ensures { result ≡ tone_byte t }
{
    match t {
        Tone::Enabled(i) => 128 | i,
        Tone::Disabled(i) => i,
    }
}

#[tactic(auto, unfolding(crate::specs::Tone::tone_valid, crate::specs::Tone::tone_index))]
pub fn tone_valid(t: Tone) -> bool
    ensures { result ≡ tone_valid t }
{
    match t {
        Tone::Enabled(i) | Tone::Disabled(i) => i < 50,
    }
}

// A tone's index, enabled or not.
#[tactic(auto, unfolding(crate::specs::Tone::tone_index))]
pub fn index_in(t: Tone) -> u8
    ensures { result ≡ tone_index t }
{
    match t {
        Tone::Enabled(i) | Tone::Disabled(i) => i,
    }
}

pub fn is_enabled(t: Tone) -> bool
    ensures { result ≡ tone_enabled t }
{
    matches!(t, Tone::Enabled(_))
}

// A tone from its index and whether it is enabled.
pub fn tone_from(i: u8, enabled: bool) -> Tone
    ensures { result ≡ tone_from i enabled }
{
    if enabled {
        Tone::Enabled(i)
    } else {
        Tone::Disabled(i)
    }
}

// The frequency of an index, in tenths of a hertz.
pub fn frequency_of(index: u8) -> Option<u16>
    ensures { result ≡ frequency_of index }
{
    TONES.get(index as usize).copied()
}

// The index of a frequency, given in tenths of a hertz.
pub fn index_of(tenths: u16) -> Option<u8>
    ensures { result ≡ index_of tenths }
{
    let i = TONES.iter().position(|t| *t == tenths)?;
    Some(i as u8)
}
