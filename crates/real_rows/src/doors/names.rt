//! Names in the text of a hosts file.

use fw_types::Octets;
use real_doors::HostNames;
use std::io::{self, ErrorKind};

const TEXT: &[u8] = b"\
# comment
127.0.0.1\tLocalHost loop
10.0.0.1 one.example # 10.0.0.2 two.example
10.0.0.3
10.0.0.3 _ok
10.0.0.3 later
::1 six
 10.0.0.4   spaced\t
010.0.0.5 zero
10.0.0.6 1.2.3.4
10.0.0.7 last";

fn names_in(rt: HostRuntime, text: &[u8]) -> io::Result<HostNames> {
    match Octets::copy(rt.alloc(), text) {
        Ok(text) => Ok(HostNames::of(text)),
        Err(_) => Err(io::Error::from(ErrorKind::OutOfMemory)),
    }
}

/// The names in a text of a hosts file.
pub(crate) fn names(rt: HostRuntime) -> io::Result<HostNames> {
    names_in(rt, TEXT)
}

fn tell_one(rt: HostRuntime, names: &HostNames, host: [u8; 4]) -> io::Result<()> {
    match names.name_of(host) {
        Some(name) => println!(rt; "{} {}", host[3], name.text().escape_ascii()),
        None => println!(rt; "{} none", host[3]),
    }
}

/// Tells the name of each of some addresses.
pub(crate) fn tell(rt: HostRuntime) -> io::Result<()> {
    let names = names(rt)?;
    tell_one(rt, &names, [127, 0, 0, 1])?;
    for last in 1..8 {
        tell_one(rt, &names, [10, 0, 0, last])?;
    }
    Ok(())
}
