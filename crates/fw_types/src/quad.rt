ghost use Rattle.std.specs.Prelude.{◌≡◌, ◌+◌, ◌≤◌, ◌++◌};
ghost use Rattle.std.specs.Fmt.{decimal};
ghost use Rattle.arrayvec.specs.ArrayVec.{array_vec_len};
ghost use Rattle.fw_types.specs.Quad.{dotted, quad_of};

use crate::bytes::{append_byte, append_decimal};
use arrayvec::ArrayVec;
use std::net::Ipv4Addr;

/// The address that a dotted quad is: four numbers from 0 to 255 without leading zeros, with periods between.
pub fn read_quad(text: &[u8]) -> Option<[u8; 4]>
    ensures { result ≡ quad_of text.now }
{
    match Ipv4Addr::parse_ascii(text) {
        Ok(address) => Some(address.octets()),
        Err(_) => None,
    }
}

// Appends the decimal of a byte, which has at most three digits.
fn append_octet(out: &mut ArrayVec<u8, 15>, octet: u8)
    requires { array_vec_len out.old ≤ 12 }
    ensures items { out.new.items ≡ out.old.items ++ decimal octet }
    ensures room { array_vec_len out.new ≤ array_vec_len out.old + 3 }
{
    append_decimal(out, u64::from(octet));
}

/// The dotted text of an address.
pub fn dotted_quad(addr: [u8; 4]) -> ArrayVec<u8, 15>
    ensures { result.items ≡ dotted addr }
{
    let [a, b, c, d] = addr;
    let mut out = ArrayVec::new();
    append_octet(&mut out, a);
    append_byte(&mut out, b'.');
    append_octet(&mut out, b);
    append_byte(&mut out, b'.');
    append_octet(&mut out, c);
    append_byte(&mut out, b'.');
    append_octet(&mut out, d);
    out
}
