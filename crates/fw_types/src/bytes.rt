//! Small tools over byte buffers of a fixed capacity.
ghost use Rattle.std.specs.Prelude.{◌≡◌, ◌+◌, ◌<◌, ◌≤◌, [], ◌∷◌, ◌++◌, length, map};
ghost use Rattle.std.specs.Fmt.{decimal};
ghost use Rattle.std.specs.Str.{str_to_ascii_lowercase};
ghost use Rattle.arrayvec.specs.ArrayVec.{array_vec_len};

use arrayvec::ArrayVec;
use itoa::Buffer;

/// Appends bytes to a buffer that has room for them.
pub fn append<const N: usize>(out: &mut ArrayVec<u8, N>, bytes: &[u8])
    requires { array_vec_len out.old + length bytes.now ≤ N }
    ensures items { out.new.items ≡ out.old.items ++ bytes.now }
    ensures len { array_vec_len out.new ≡ array_vec_len out.old + length bytes.now }
{
    if out.try_extend_from_slice(bytes).is_err() {
        unreachable!();
    }
}

/// Appends one byte to a buffer that has room for it.
pub fn append_byte<const N: usize>(out: &mut ArrayVec<u8, N>, byte: u8)
    requires { array_vec_len out.old < N }
    ensures items { out.new.items ≡ out.old.items ++ byte ∷ [] }
    ensures len { array_vec_len out.new ≡ array_vec_len out.old + 1 }
{
    out.push(byte);
}

/// Appends a number in decimal to a buffer that has room for it.
pub fn append_decimal<const N: usize>(out: &mut ArrayVec<u8, N>, number: u64)
    requires { array_vec_len out.old + length (decimal number) ≤ N }
    ensures items { out.new.items ≡ out.old.items ++ decimal number }
    ensures len { array_vec_len out.new ≡ array_vec_len out.old + length (decimal number) }
{
    let mut buffer = Buffer::new();
    append(out, buffer.format(number).as_bytes());
}

/// Appends a number of 32 bits, which has at most ten digits, to a buffer with room for so many.
pub fn append_u32<const N: usize>(out: &mut ArrayVec<u8, N>, number: u32)
    requires { array_vec_len out.old + 10 ≤ N }
    ensures items { out.new.items ≡ out.old.items ++ decimal number }
    ensures room { array_vec_len out.new ≤ array_vec_len out.old + 10 }
{
    append_decimal(out, u64::from(number));
}

/// A buffer with these bytes, which fit.
pub fn copy_of<const N: usize>(bytes: &[u8]) -> ArrayVec<u8, N>
    requires { length bytes.now ≤ N }
    ensures { result.items ≡ bytes.now }
{
    let mut out = ArrayVec::new();
    append(&mut out, bytes);
    out
}

/// A buffer with these bytes, which fit, in lower case.
pub fn lower_copy_of<const N: usize>(bytes: &[u8]) -> ArrayVec<u8, N>
    requires { length bytes.now ≤ N }
    ensures { result.items ≡ str_to_ascii_lowercase bytes.now }
{
    let mut out = ArrayVec::new();
    for byte in bytes {
        out.push(byte.to_ascii_lowercase());
    }
    out
}
