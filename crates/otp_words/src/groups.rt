//! A password as hexadecimal digits in groups (RFC 2289, 6.0, the form of output).
ghost use Rattle.std.specs.Prelude.{◌≡◌, ◌+◌, ◌<◌, ◌≤◌, ◌++◌};
ghost use Rattle.arrayvec.specs.ArrayVec.{array_vec_len};
ghost use Rattle.otp_words.specs.Groups.{group_of, groups_of, hex_digit};

use arrayvec::ArrayVec;
use fw_types::append_byte;

fn hex_digit(digit: u8) -> u8
    requires { digit < 16 }
    ensures { result ≡ hex_digit digit }
{
    if digit < 10 {
        b'0' + digit
    } else {
        b'A' - 10 + digit
    }
}

fn append_group<const N: usize>(out: &mut ArrayVec<u8, N>, number: u64)
    requires room { array_vec_len out.old + 4 ≤ N }
    requires small { number < 65536 }
    ensures items { out.new.items ≡ out.old.items ++ group_of number }
    ensures len { array_vec_len out.new ≡ array_vec_len out.old + 4 }
{
    let third = number / 16;
    let second = third / 16;
    let first = second / 16;
    append_byte(out, hex_digit(first as u8));
    append_byte(out, hex_digit((second % 16) as u8));
    append_byte(out, hex_digit((third % 16) as u8));
    append_byte(out, hex_digit((number % 16) as u8));
}

/// Appends the four groups of four upper-case digits of a password, with one space between, to a buffer that has room
/// for these 19 bytes.
pub fn append_groups<const N: usize>(out: &mut ArrayVec<u8, N>, password: u64)
    requires { array_vec_len out.old + 19 ≤ N }
    ensures items { out.new.items ≡ out.old.items ++ groups_of password }
    ensures len { array_vec_len out.new ≡ array_vec_len out.old + 19 }
{
    let third = password / 65536;
    let second = third / 65536;
    let first = second / 65536;
    append_group(out, first);
    append_byte(out, b' ');
    append_group(out, second % 65536);
    append_byte(out, b' ');
    append_group(out, third % 65536);
    append_byte(out, b' ');
    append_group(out, password % 65536);
}
