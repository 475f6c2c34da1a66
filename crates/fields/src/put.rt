// Bytes and numbers written into a buffer.
ghost use Rattle.std.specs.Prelude.{◌≡◌, ◌+◌, ◌<◌, ◌≤◌, ◌^◌, ◌∷◌, [], length};
ghost use Rattle.fields.specs.Bytes.{over, part, little_bytes, big_bytes};

// Copies src over dst from place k on.
pub fn put(dst: &mut [u8], k: usize, src: &[u8])
    requires { k + length src.now ≤ length dst.old }
    ensures { dst.new ≡ over dst.old k src.now }
{
    dst[k..k + src.len()].copy_from_slice(src);
}

pub fn put_byte(dst: &mut [u8], k: usize, b: u8)
    requires { k < length dst.old }
    ensures { dst.new ≡ over dst.old k (b ∷ []) }
{
    dst[k] = b;
}

pub fn put_le16(dst: &mut [u8], k: usize, x: u16)
    requires { k + 2 ≤ length dst.old }
    ensures { dst.new ≡ over dst.old k (little_bytes 2 x) }
{
    put(dst, k, &x.to_le_bytes());
}

pub fn put_le32(dst: &mut [u8], k: usize, x: u32)
    requires { k + 4 ≤ length dst.old }
    ensures { dst.new ≡ over dst.old k (little_bytes 4 x) }
{
    put(dst, k, &x.to_le_bytes());
}

// The six bytes of an M17 address, high byte first.
pub fn put_be48(dst: &mut [u8], k: usize, x: u64)
    requires { (k + 6 ≤ length dst.old) × (x < 2 ^ 48) }
    ensures { dst.new ≡ over dst.old k (big_bytes 6 x) }
{
    put(dst, k, &x.to_be_bytes()[2..]);
}

// Thirty-two bytes by value, as a text field has them.
pub fn bytes32(s: &[u8], k: usize) -> [u8; 32]
    requires { k + 32 ≤ length s.now }
    ensures { result ≡ part s.now k 32 }
{
    *s[k..k + 32].as_array().unwrap()
}
