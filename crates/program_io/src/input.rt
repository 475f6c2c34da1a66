// Bytes read into buffers. The only error is the first that a read gives; what was read before it stands in the buffer.
ghost use Rattle.std.specs.Prelude.{◌≡◌, ◌<◌, ◌≤◌, min, length, take, drop, IfErr, IfOk, IfSome};
ghost use Rattle.std.specs.Io.KnownBytes.{Consumes, IsAtEnd};
ghost use Rattle.fields.specs.Bytes.{num};
ghost use Rattle.program_io.specs.Reading.{Fills};

use fields::numbers::le32;
use std::io::{Read, Result};

// The bytes of the buffer that most inputs are read into.
pub const LARGE: usize = 65536;

// Reads until the buffer is full or the input ends, and answers how many bytes it put at the buffer's start.
pub fn read_full<R: Read>(input: &mut R, buffer: &mut [u8]) -> Result<usize>
    ensures bound { IfOk result (λ n. n ≤ length buffer.new) }
    ensures bytes { IfOk result (λ n. Consumes (R.remaining input.old) (R.remaining input.new) (take n buffer.new)) }
    ensures end { IfOk result (λ n. n < length buffer.new → IsAtEnd (R.remaining input.new)) }
    ensures error { IfErr result (λ _. length buffer.new ≡ length buffer.old) }
{
    // No `for`: each read says how many bytes came.
    let mut done = 0;
    while done < buffer.len() {
        let n = input.read(&mut buffer[done..])?;
        if n == 0 {
            break;
        }
        done += n;
    }
    Ok(done)
}

// How many of so many bytes a buffer has room for.
pub fn count(size: u32, buffer: &[u8]) -> usize
    ensures { result ≡ min size (length buffer.now) }
{
    (size as usize).min(buffer.len())
}

// Reads so many bytes into the start of a buffer, as many as it has at most, and answers how many. Where the input has fewer, the
// others stay as they were.
pub fn bytes<R: Read>(input: &mut R, size: u32, buffer: &mut [u8]) -> Result<usize>
    ensures bound { IfOk result (λ n. n ≤ length buffer.new) }
    ensures value { IfOk result (λ n. n ≡ min size (length buffer.new)) }
    ensures read { IfOk result (λ n. Fills (R.remaining input.old) (R.remaining input.new) n buffer.new) }
    ensures rest { drop (min size (length buffer.old)) buffer.new ≡ drop (min size (length buffer.old)) buffer.old }
    ensures error { IfErr result (λ _. length buffer.new ≡ length buffer.old) }
{
    let n = count(size, buffer);
    read_full(input, &mut buffer[..n])?;
    Ok(n)
}

// Reads a case, a length of four bytes, low byte first, and then its bytes, into the start of a buffer, and answers how many bytes it
// has; 0 where the input ends.
pub fn case<R: Read>(input: &mut R, buffer: &mut [u8]) -> Result<usize>
    ensures bound { IfOk result (λ n. n ≤ length buffer.new) }
    ensures value { IfOk result (λ n. IfSome (R.remaining input.old) (λ xs. 4 ≤ length xs → n ≡ min (num xs 0 4) (length buffer.new))) }
    ensures read { IfOk result (λ n. IfSome (R.remaining input.old) (λ xs. 4 ≤ length xs → Fills (Some (drop 4 xs)) (R.remaining input.new) n buffer.new)) }
    ensures error { IfErr result (λ _. length buffer.new ≡ length buffer.old) }
{
    let mut head = [0u8; 4];
    read_full(input, &mut head)?;
    bytes(input, le32(&head, 0), buffer)
}
