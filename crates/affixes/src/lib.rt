// The longest common beginning and ending of two byte slices, by chunks of 32 bytes while they agree.
#![tactic(auto)]

pub mod pieces; // pieces.rt: the common ending with a list in pieces

ghost use Rattle.std.specs.Prelude.{◌≡◌, true, ◌+◌, ◌≤◌, length};
ghost use Rattle.std.specs.List.{zip, prefix_len};
ghost use Rattle.fields.specs.Bytes.{part};
ghost use Rattle.affixes.specs.Common.{common_prefix, common_suffix};
ghost use Rattle.affixes.specs.Scan.{SuffixTo};

// How many items at the front of both are equal.
fn equal_front<T: PartialEq>(a: &[T], b: &[T]) -> usize
    ensures { result ≡ prefix_len (λ p. T.eq p.0 p.1) (zip a.now b.now) }
{
    a.iter().zip(b).take_while(|(x, y)| x == y).count()
}

pub fn common_prefix(a: &[u8], b: &[u8]) -> usize
    ensures { result ≡ common_prefix a.now b.now }
{
    let (x, _) = a.as_chunks::<32>();
    let (y, _) = b.as_chunks::<32>();
    let n = a.len().min(b.len());
    // The bytes that are left go by index: `equal_front` of them is slower.
    for i in 32 * equal_front(x, y)..n {
        if a[i] != b[i] {
            return i;
        }
    }
    n
}

// Whether 32 bytes of each agree. No early exit, so that it vectorises.
fn same32(a: &[u8], i: usize, b: &[u8], j: usize) -> bool
    requires { (i + 32 ≤ length a.now) × (j + 32 ≤ length b.now) }
    ensures agree { result ≡ true → part a.now i 32 ≡ part b.now j 32 }
{
    let mut differ = 0u8;
    for k in 0..32 {
        differ |= a[i + k] ^ b[j + k];
    }
    differ == 0
}

// How many bytes at the end of both agree, in whole chunks. By index: chains over `as_rchunks` and `rev` are slower where few bytes agree.
fn suffix_chunks(a: &[u8], b: &[u8]) -> usize
    ensures { SuffixTo a.now b.now result }
{
    let n = a.len().min(b.len()) / 32;
    for k in 0..n {
        let i = 32 * k + 32;
        if !same32(a, a.len() - i, b, b.len() - i) {
            return 32 * k;
        }
    }
    32 * n
}

pub fn common_suffix(a: &[u8], b: &[u8]) -> usize
    ensures { result ≡ common_suffix a.now b.now }
{
    let n = a.len().min(b.len());
    for i in suffix_chunks(a, b)..n {
        if a[a.len() - 1 - i] != b[b.len() - 1 - i] {
            return i;
        }
    }
    n
}
