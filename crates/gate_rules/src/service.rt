ghost use Rattle.std.specs.Prelude.{◌≡◌, ◌≤◌, ◌++◌, length, codes};
ghost use Rattle.std.specs.Fmt.{decimal};
ghost use Rattle.gate_rules.specs.Service.{bare_service, is_authsrv, is_plug, is_smap, keyword, plug_port, service_of, service_text};

use crate::Label;
use arrayvec::ArrayVec;
use fw_types::{append, append_u32, read_numbered_port};

/// A service of the firewall.
#[derive(Drop)]
pub enum Service {
    /// The access wrapper, for the daemon with this label.
    Netacl(Label),
    /// The Telnet gateway.
    TnGw,
    /// The FTP gateway.
    FtpGw,
    /// The plug, for the clients of this port.
    PlugGw(u16),
    /// The receiver of mail.
    Smap,
    /// The authentication server.
    Authsrv,
}

// Appends `netacl-` and the label to an empty buffer.
fn append_netacl(out: &mut ArrayVec<u8, 71>, label: &Label)
    requires { length out.old.items ≤ 0 }
    ensures { out.new.items ≡ codes "netacl-" ++ label.now }
{
    append(out, b"netacl-");
    append(out, label.text());
}

// Appends `plug-gw:` and the port to an empty buffer.
fn append_plug(out: &mut ArrayVec<u8, 71>, port: u16)
    requires { length out.old.items ≤ 0 }
    ensures { out.new.items ≡ codes "plug-gw:" ++ decimal port }
{
    append(out, b"plug-gw:");
    append_u32(out, u32::from(port));
}

// The service whose name has neither a label nor a port.
fn bare_service(text: &[u8]) -> Option<Service>
    ensures { result ≡ bare_service text.now }
{
    if text == b"tn-gw".as_slice() {
        return Some(Service::TnGw);
    }
    if text == b"ftp-gw".as_slice() {
        return Some(Service::FtpGw);
    }
    if text == b"smap".as_slice() {
        return Some(Service::Smap);
    }
    if text == b"authsrv".as_slice() {
        return Some(Service::Authsrv);
    }
    None
}

impl Service {
    /// The service with this name: `netacl-` and a label, `tn-gw`, `ftp-gw`, `plug-gw:` and a decimal number from 1 to
    /// 65,535, `smap` or `authsrv`. Nothing for other texts.
    pub fn read(text: &[u8]) -> Option<Service>
        ensures { result ≡ service_of text.now }
    {
        if text.starts_with(b"netacl-") {
            return Label::read(&text[7..]).map(Service::Netacl);
        }
        if text.starts_with(b"plug-gw:") {
            return read_numbered_port(&text[8..]).map(Service::PlugGw);
        }
        bare_service(text)
    }

    /// An equal service.
    pub fn twin(&self) -> Service
        ensures { result ≡ self.now }
    {
        match self {
            Service::Netacl(label) => Service::Netacl(label.twin()),
            Service::TnGw => Service::TnGw,
            Service::FtpGw => Service::FtpGw,
            Service::PlugGw(port) => Service::PlugGw(*port),
            Service::Smap => Service::Smap,
            Service::Authsrv => Service::Authsrv,
        }
    }

    /// Sets `out` to its name. A port is written as a number, without leading zeros.
    pub fn write(&self, out: &mut ArrayVec<u8, 71>)
        ensures { out.new.items ≡ service_text self.now }
    {
        out.clear();
        match self {
            Service::Netacl(label) => append_netacl(out, label),
            Service::TnGw => append(out, b"tn-gw"),
            Service::FtpGw => append(out, b"ftp-gw"),
            Service::PlugGw(port) => append_plug(out, *port),
            Service::Smap => append(out, b"smap"),
            Service::Authsrv => append(out, b"authsrv"),
        }
    }

    /// Sets `out` to the keyword of its lines, which is `plug-gw` for every port.
    pub fn write_keyword(&self, out: &mut ArrayVec<u8, 71>)
        ensures { out.new.items ≡ keyword self.now }
    {
        out.clear();
        match self {
            Service::Netacl(label) => append_netacl(out, label),
            Service::TnGw => append(out, b"tn-gw"),
            Service::FtpGw => append(out, b"ftp-gw"),
            Service::PlugGw(_) => append(out, b"plug-gw"),
            Service::Smap => append(out, b"smap"),
            Service::Authsrv => append(out, b"authsrv"),
        }
    }

    // The port that it listens on, and 0 where its name has none.
    pub(crate) fn plug_port(&self) -> u16
        ensures { result ≡ plug_port self.now }
    {
        match self {
            Service::PlugGw(port) => *port,
            Service::Netacl(_)
            | Service::TnGw
            | Service::FtpGw
            | Service::Smap
            | Service::Authsrv => 0,
        }
    }

    pub(crate) fn is_plug(&self) -> bool
        ensures { result ≡ is_plug self.now }
    {
        matches!(self, Service::PlugGw(_))
    }

    pub(crate) fn is_smap(&self) -> bool
        ensures { result ≡ is_smap self.now }
    {
        matches!(self, Service::Smap)
    }

    pub(crate) fn is_authsrv(&self) -> bool
        ensures { result ≡ is_authsrv self.now }
    {
        matches!(self, Service::Authsrv)
    }
}
