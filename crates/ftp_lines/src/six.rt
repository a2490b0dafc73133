//! Six numbers that are an address and a port (RFC 959, 4.1.2, PORT and PASV).
ghost use Rattle.std.specs.Prelude.{◌≡◌, ◌≤◌, ◌+◌, [], ◌∷◌, ◌++◌};
ghost use Rattle.std.specs.Fmt.{decimal};
ghost use Rattle.arrayvec.specs.ArrayVec.{array_vec_len};
ghost use Rattle.ftp_lines.specs.Six.{find_of, six_at, six_of, six_text};

use crate::six_parts::{first_part, five_parts, run, six_octets};
use arrayvec::ArrayVec;
use fw_types::{append_byte, append_decimal};

/// The address and the port that a text is: six numbers from 0 to 255, each of one to three digits, with commas
/// between. The port is the fifth number times 256 and the sixth. Nothing where the text is anything else.
pub fn read_six(text: &[u8]) -> Option<([u8; 4], u16)>
    ensures { result ≡ six_of text.now }
{
    let five = five_parts(text)?;
    let (sixth, is_last) = first_part(five.rest);
    if !is_last {
        return None;
    }
    six_octets(&five, sixth)
}

// The address and the port with which a text begins.
fn six_at(text: &[u8]) -> Option<([u8; 4], u16)>
    ensures { result ≡ six_at text.now }
{
    let five = five_parts(text)?;
    let (sixth, _) = first_part(five.rest);
    six_octets(&five, run(sixth))
}

/// The address and the port at the leftmost place of a text at which six such numbers begin, each with all the digits
/// that stand there. The place may be inside a run of digits. Nothing where there is no such place.
pub fn find_six(text: &[u8]) -> Option<([u8; 4], u16)>
    ensures { result ≡ find_of text.now }
{
    for at in 0..text.len() {
        if let Some(found) = six_at(&text[at..]) {
            return Some(found);
        }
    }
    None
}

// Appends the decimal of a byte, which has at most three digits.
fn append_octet(out: &mut ArrayVec<u8, 32>, octet: u8)
    requires { array_vec_len out.old ≤ 29 }
    ensures items { out.new.items ≡ out.old.items ++ decimal octet }
    ensures room { array_vec_len out.new ≤ array_vec_len out.old + 3 }
{
    append_decimal(out, u64::from(octet));
}

// Appends the decimal of a byte and a comma.
fn append_part(out: &mut ArrayVec<u8, 32>, octet: u8)
    requires { array_vec_len out.old ≤ 28 }
    ensures items { out.new.items ≡ out.old.items ++ decimal octet ++ 44 ∷ [] }
    ensures room { array_vec_len out.new ≤ array_vec_len out.old + 4 }
{
    append_octet(out, octet);
    append_byte(out, b',');
}

/// Sets `out` to the text of an address and a port: their six numbers without leading zeros, with commas between.
#[tactic(auto, unfolding(crate::specs::Six::six_text))]
pub fn write_six(addr: [u8; 4], port: u16, out: &mut ArrayVec<u8, 32>)
    ensures { out.new.items ≡ six_text addr port }
{
    let [a, b, c, d] = addr;
    out.clear();
    append_part(out, a);
    append_part(out, b);
    append_part(out, c);
    append_part(out, d);
    append_part(out, (port / 256) as u8);
    append_octet(out, (port % 256) as u8);
}
