//! Writing what stands in front of the body.
ghost use Rattle.std.specs.Prelude.{◌≡◌, ◌≤◌, ◌<◌, ◌++◌, ◌∷◌, length, OnOk, IfOk};
ghost use Rattle.std.specs.Int.{w64, to_be_bytes};
ghost use Rattle.std.specs.List.{AllByRecursion};
ghost use Rattle.slot_bytes.specs.Layout.{IsEnvelope, IsTextFrom, all_waiting, counted, each_counted, tagged_head};

use fw_types::{NoMemory, Octets, OctetsList};
use std::alloc::{AllocError, Global};

/// A body's length in eight bytes, the greatest first.
pub fn length_bytes(len: u32) -> [u8; 8]
    ensures { result ≡ to_be_bytes w64 len }
{
    (len as u64).to_be_bytes()
}

fn put_counted(out: &mut Vec<u8>, text: &[u8]) -> Result<(), AllocError>
    requires { length text.now ≤ 256 }
    ensures { OnOk result (out.new.items ≡ out.old.items ++ counted text.now) }
{
    let len = text.len();
    out.extend_from_slice(&[(len / 256) as u8, (len % 256) as u8])?;
    out.extend_from_slice(text)
}

fn put_each(out: &mut Vec<u8>, texts: &[Octets]) -> Result<(), AllocError>
    requires { AllByRecursion (IsTextFrom 1 256) texts.now }
    ensures { OnOk result (out.new.items ≡ out.old.items ++ each_counted texts.now) }
{
    for text in texts {
        put_counted(out, text.bytes())?;
    }
    Ok(())
}

// A mark for each of the texts.
fn put_waiting(out: &mut Vec<u8>, texts: &[Octets]) -> Result<(), AllocError>
    ensures { OnOk result (out.new.items ≡ out.old.items ++ all_waiting texts.now) }
{
    for _ in texts {
        out.push(0)?;
    }
    Ok(())
}

/// The head of a message that is begun, in version 2, from byte 1 on up to the body: it isn't set aside, its body is
/// empty, and each recipient waits.
pub fn head_bytes(alloc: Global, from: &[u8], rcpts: &OctetsList) -> Result<Vec<u8>, NoMemory>
    requires { IsEnvelope from.now rcpts.now }
    ensures { IfOk result (λ bytes. bytes.items ≡ 0 ∷ tagged_head 50 0 (all_waiting rcpts.now) from.now rcpts.now) }
{
    let mut out = Vec::new(alloc);
    let count = rcpts.len();
    out.extend_from_slice(b"\0FWS2")?;
    out.extend_from_slice(&length_bytes(0))?;
    out.extend_from_slice(&[(count / 256) as u8, (count % 256) as u8])?;
    put_waiting(&mut out, rcpts.as_slice())?;
    put_counted(&mut out, from)?;
    put_each(&mut out, rcpts.as_slice())?;
    Ok(out)
}
