// Numbers in bytes. Past the end of the bytes every reader takes zeros.
ghost use Rattle.std.specs.Prelude.{◌≡◌, ℕ, ◌+◌, ◌<◌, ◌≤◌, ◌^◌, get_or, length};
ghost use Rattle.fields.specs.Bytes.{num, big, part};

// The byte at k, 0 past the end.
pub fn byte_at(s: &[u8], k: usize) -> u8
    ensures { result ≡ get_or s.now k 0 }
{
    s.get(k).copied().unwrap_or(0)
}

// The N bytes at k, zeros past the end.
fn bytes_at<const N: usize>(s: &[u8], k: usize) -> [u8; N]
    requires { k + N < 2 ^ 63 }
    ensures { (i : ℕ) → i < N → get_or result i 0 ≡ get_or s.now (k + i) 0 }
{
    // A loop: what `array::from_fn` ensures leaves open that the closure reads the same bytes at each call.
    let mut a = [0; N];
    for i in 0..N {
        a[i] = byte_at(s, k + i);
    }
    a
}

pub fn le16(s: &[u8], k: usize) -> u16
    requires { k + 2 < 2 ^ 63 }
    ensures { result ≡ num s.now k 2 }
{
    u16::from_le_bytes(bytes_at(s, k))
}

pub fn le32(s: &[u8], k: usize) -> u32
    requires { k + 4 < 2 ^ 63 }
    ensures { result ≡ num s.now k 4 }
{
    u32::from_le_bytes(bytes_at(s, k))
}

pub fn le64(s: &[u8], k: usize) -> u64
    requires { k + 8 < 2 ^ 63 }
    ensures { result ≡ num s.now k 8 }
{
    u64::from_le_bytes(bytes_at(s, k))
}

// The M17 address of six bytes, high byte first.
pub fn be48(s: &[u8], k: usize) -> u64
    requires { k + 6 ≤ length s.now }
    ensures { (result ≡ big (part s.now k 6)) × (result < 2 ^ 48) }
{
    let mut a = [0u8; 8];
    a[2..].copy_from_slice(&s[k..k + 6]);
    u64::from_be_bytes(a)
}
