// How one index or offset follows an edit.
ghost use Rattle.std.specs.Prelude.{◌≡◌};
ghost use Rattle.renumber.specs.Shift.{shift_of, growth_of};
ghost use Rattle.fields.specs.Bytes.{little_bytes};

// Indexes at or past a place raised by one, or those past it lowered; 65,535 stays.
#[derive(Clone, Copy)]
pub enum Shift {
    Raise(usize),
    Lower(usize),
}

// Offsets of banks behind others that take so many bytes more or fewer.
#[derive(Clone, Copy)]
pub enum Growth {
    More(u32),
    Fewer(u32),
}

pub fn shifted(x: u16, s: Shift) -> u16
    ensures { result ≡ shift_of s x }
{
    if x == 65535 {
        return x;
    }
    match s {
        Shift::Raise(i) => {
            if i <= x as usize {
                return x + 1;
            }
            x
        }
        Shift::Lower(i) => {
            if i < x as usize {
                return x - 1;
            }
            x
        }
    }
}

pub fn grown(x: u32, g: Growth) -> u32
    ensures { little_bytes 4 result ≡ little_bytes 4 (growth_of g x) }
{
    match g {
        Growth::More(n) => ((x as u64 + n as u64) & 0xFFFF_FFFF) as u32,
        Growth::Fewer(n) => {
            if x < n {
                return 0;
            }
            x - n
        }
    }
}
