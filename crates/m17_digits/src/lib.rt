// The digits, to base 40, of an M17 address number, by divisions of at most 32 bits (document 02, [9]). Three digits make a group, a number below 64,000 = 40^3.
#![tactic(auto)]

ghost use Rattle.std.specs.Prelude.{◌≡◌, ◌<◌, ◌/◌, ◌%◌, ◌^◌};

// The three groups of a number, by their place in it.
#[derive(Clone, Copy)]
pub struct Groups {
    pub low: u32,
    pub middle: u32,
    pub high: u32,
}

// The groups of a number of nine digits. It is taken as two limbs, of 18 bits and of those above: since 40^6 is 15,625 × 2^18, the upper limb alone gives the
// high group, and what that leaves of it stays below 2^32 with the lower limb behind it.
pub fn groups_of(n: u64) -> Groups
    requires { n < 40 ^ 9 }
    ensures { (result.low ≡ n % 64000) × (result.middle ≡ n / 64000 % 64000) × (result.high ≡ n / 64000 / 64000) }
{
    let upper = (n >> 18) as u32;
    let lower = upper % 15_625 * 262_144 + (n & 262_143) as u32;
    Groups {
        low: lower % 64_000,
        middle: lower / 64_000,
        high: upper / 15_625,
    }
}

// The three digits of a group, the first character's first.
#[derive(Clone, Copy)]
pub struct Digits {
    pub first: u8,
    pub second: u8,
    pub third: u8,
}

// The digits of a group, by multiplications: 67,109 is 2^32 / 64,000 and a little more, so that group × 67,109 is the fraction group / 64,000 in units of 1 / 2^32, and
// little enough more. Each time it is multiplied by 40, a digit comes before the point: the third first.
pub fn digits_of(group: u32) -> Digits
    requires { group < 64000 }
    ensures { (result.first ≡ group % 40) × (result.second ≡ group / 40 % 40) × (result.third ≡ group / 1600) }
{
    let third = (group * 67_109) as u64 * 40;
    let second = (third & 0xFFFF_FFFF) * 40;
    let first = (second & 0xFFFF_FFFF) * 40;
    Digits {
        first: (first >> 32) as u8,
        second: (second >> 32) as u8,
        third: (third >> 32) as u8,
    }
}
