ghost use Rattle.std.specs.Prelude.{◌≡◌};
ghost use Rattle.gate_rules.specs.Options.{ftp_kind, gateway_kind, option_kind_of, netacl_kind, plug_kind, tn_kind};

use crate::Service;

/// Which option it is.
#[derive(Clone, Copy)]
pub enum OptionKind {
    Exec,
    Dest,
    /// `-auth` without a value.
    Auth,
    /// `-auth` with a list of verbs.
    AuthVerbs,
    AuthAll,
    Extnd,
    Deny,
    Log,
    PlugTo,
    Port,
}

fn netacl_kind(text: &[u8]) -> Option<OptionKind>
    ensures { result ≡ netacl_kind text.now }
{
    if text == b"-exec".as_slice() {
        return Some(OptionKind::Exec);
    }
    None
}

fn gateway_kind(text: &[u8]) -> Option<OptionKind>
    ensures { result ≡ gateway_kind text.now }
{
    if text == b"-dest".as_slice() {
        return Some(OptionKind::Dest);
    }
    if text == b"-authall".as_slice() {
        return Some(OptionKind::AuthAll);
    }
    if text == b"-extnd".as_slice() {
        return Some(OptionKind::Extnd);
    }
    None
}

fn tn_kind(text: &[u8]) -> Option<OptionKind>
    ensures { result ≡ tn_kind text.now }
{
    if text == b"-auth".as_slice() {
        return Some(OptionKind::Auth);
    }
    gateway_kind(text)
}

fn ftp_kind(text: &[u8]) -> Option<OptionKind>
    ensures { result ≡ ftp_kind text.now }
{
    if text == b"-auth".as_slice() {
        return Some(OptionKind::AuthVerbs);
    }
    if text == b"-deny".as_slice() {
        return Some(OptionKind::Deny);
    }
    if text == b"-log".as_slice() {
        return Some(OptionKind::Log);
    }
    gateway_kind(text)
}

fn plug_kind(text: &[u8]) -> Option<OptionKind>
    ensures { result ≡ plug_kind text.now }
{
    if text == b"-plug-to".as_slice() {
        return Some(OptionKind::PlugTo);
    }
    if text == b"-port".as_slice() {
        return Some(OptionKind::Port);
    }
    None
}

// The service's option that is written so.
pub(crate) fn option_kind_of(service: &Service, text: &[u8]) -> Option<OptionKind>
    ensures { result ≡ option_kind_of service.now text.now }
{
    match service {
        Service::Netacl(_) => netacl_kind(text),
        Service::TnGw => tn_kind(text),
        Service::FtpGw => ftp_kind(text),
        Service::PlugGw(_) => plug_kind(text),
        Service::Smap => None,
        Service::Authsrv => None,
    }
}
