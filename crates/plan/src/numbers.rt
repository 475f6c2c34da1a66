// Numbers as bytes, and a new bank.
ghost use Rattle.std.specs.Prelude.{◌≡◌, ◌++◌, length};
ghost use Rattle.fields.specs.Bytes.{little_bytes, zeros};

use fields::put::put;
use format::sizes::BANK_HEAD_SIZE;

pub fn bytes16(x: u16) -> [u8; 2]
    ensures { result ≡ little_bytes 2 x }
{
    x.to_le_bytes()
}

pub fn bytes32(x: u32) -> [u8; 4]
    ensures { result ≡ little_bytes 4 x }
{
    x.to_le_bytes()
}

// A bank of this name without entries.
pub fn empty_bank(name: &[u8]) -> [u8; BANK_HEAD_SIZE]
    requires { length name.now ≡ 32 }
    ensures { result ≡ name.now ++ zeros 2 }
{
    let mut a = [0u8; BANK_HEAD_SIZE];
    put(&mut a, 0, name);
    a
}
