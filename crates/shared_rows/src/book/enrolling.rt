//! New users, whom a session at the console enrols.
ghost use Rattle.std.specs.Prelude.{◌≡◌};

use crate::book::asking::ask;
use auth_events::{OtpNumber, Reply, Request};
use auth_port::SharedBook;
use auth_records::{LongName, Proto, Seed};
use fw_memory::MemKeeper;
use fw_types::Name;
use std::sync::Wait;

// The number of a new session at the console.
fn at_console<H: Wait>(port: &mut SharedBook<'_, H, MemKeeper>) -> Option<u64>
    ensures { port.new.origin ≡ port.old.origin }
{
    match ask(port, 0, 0, Request::Open { console: true }) {
        Ok(Reply::Opened { sid }) => Some(sid),
        _ => None,
    }
}

// Adds the user, with a password to come by this protocol, who may log in.
fn add_user<H: Wait>(port: &mut SharedBook<'_, H, MemKeeper>, sid: u64, name: &Name, proto: Proto)
    ensures { port.new.origin ≡ port.old.origin }
{
    let Some(long) = LongName::read(b"Marcus") else {
        return;
    };
    let name = name.twin();
    let _ = ask(
        port,
        sid,
        0,
        Request::Adduser {
            name: name.twin(),
            long,
        },
    );
    let _ = ask(
        port,
        sid,
        0,
        Request::Proto {
            name: name.twin(),
            proto,
        },
    );
    let _ = ask(port, sid, 0, Request::Enable { name });
}

/// A user whose password has this digest.
pub(crate) fn enrol_plain<H: Wait>(
    port: &mut SharedBook<'_, H, MemKeeper>,
    name: &Name,
    hash: [u8; 16],
)
    ensures { port.new.origin ≡ port.old.origin }
{
    let Some(sid) = at_console(port) else {
        return;
    };
    add_user(port, sid, name, Proto::Plain);
    let request = Request::Password {
        name: name.twin(),
        salt: [0; 8],
        hash,
    };
    let _ = ask(port, sid, 0, request);
}

/// A user with one one-time password left (RFC 2289, appendix C: the seed `test`).
pub(crate) fn enrol_otp<H: Wait>(port: &mut SharedBook<'_, H, MemKeeper>, name: &Name)
    ensures { port.new.origin ≡ port.old.origin }
{
    let (Some(sid), Some(number), Some(word_seed)) = (
        at_console(port),
        OtpNumber::of(1),
        Seed::read(b"test"),
    ) else {
        return;
    };
    add_user(port, sid, name, Proto::Otp);
    let request = Request::Otp {
        name: name.twin(),
        number,
        word_seed,
        kept: 0x7965_E054_36F5_029F,
    };
    let _ = ask(port, sid, 0, request);
}
