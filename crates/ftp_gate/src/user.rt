//! Whom the argument of `USER` names, and where.
ghost use Rattle.std.specs.Prelude.{◌≡◌, ◌+◌, ◌<◌, ◌≤◌, drop, length, take, IfSome, MatchOption, Some, None};
ghost use Rattle.std.specs.List.{list_any, position_or_len};
ghost use Rattle.std.specs.Option.{option_copied};
ghost use Rattle.fw_types.specs.Host.{host_of};
ghost use Rattle.fw_types.specs.Port.{port_of};
ghost use Rattle.ftp_gate.specs.User.{cut_at_last, dest_at, dest_of, is_at, is_colon, is_same_dest, is_same_host, name_if_same, name_there, user_of, with_name};

use fw_types::{Dest, Host, read_port};
use memchr::{memchr, memrchr};

/// A user at a destination.
#[derive(Drop)]
pub struct UserAt<'a> {
    /// Some bytes, whatever they are.
    pub name: &'a [u8],
    pub dest: Dest,
}

// What stands before a place of a text.
fn front(text: &[u8], at: usize) -> &[u8]
    requires { at ≤ length text.now }
    ensures is { result.now ≡ take at text.now }
    ensures short { length result.now ≤ length text.now }
{
    &text[..at]
}

// What stands behind a place of a text.
fn rest(text: &[u8], at: usize) -> &[u8]
    requires { at < length text.now }
    ensures { result.now ≡ drop (at + 1) text.now }
{
    &text[at + 1..]
}

// What stands before the last `@`, and behind it.
fn cut_at_last(text: &[u8]) -> Option<(&[u8], &[u8])>
    ensures is { MatchOption result (cut_at_last text.now ≡ None) (λ cut. cut_at_last text.now ≡ Some (cut.0.now, cut.1.now)) }
    ensures short { IfSome result (λ cut. length cut.0.now ≤ length text.now) }
{
    match memrchr(b'@', text) {
        Some(at) => Some((front(text, at), rest(text, at))),
        None => None,
    }
}

fn dest_at(host: Option<Host>, port: Option<u16>) -> Option<Dest>
    ensures { result ≡ dest_at host port }
{
    match (host, port) {
        (Some(host), Some(port)) => Some(Dest { host, port }),
        _ => None,
    }
}

// The place of the first colon, or the text's length.
fn colon_place(text: &[u8]) -> usize
    ensures place { result ≡ position_or_len is_colon text.now }
    ensures within { result ≤ length text.now }
{
    match memchr(b':', text) {
        Some(at) => at,
        None => text.len(),
    }
}

// A host, and the port behind a colon.
fn read_ported(text: &[u8], at: usize) -> Option<Dest>
    requires { at < length text.now }
    ensures { result ≡ dest_at (host_of (take at text.now)) (port_of (drop (at + 1) text.now)) }
{
    dest_at(Host::read(front(text, at)), read_port(rest(text, at)))
}

// A host, and a port behind a colon or that of FTP.
fn read_dest(text: &[u8]) -> Option<Dest>
    ensures { result ≡ dest_of text.now }
{
    let at = colon_place(text);
    if at < text.len() {
        return read_ported(text, at);
    }
    dest_at(Host::read(text), Some(21))
}

/// The user and the destination that an argument of `USER` names: NAME@HOST or NAME@HOST:PORT, cut at the last `@`, where the
/// name isn't empty, and the port is 21 where none is named.
#[tactic(auto, unfolding(crate::specs::User::user_of))]
pub fn read_user(arg: &[u8]) -> Option<UserAt<'_>>
    ensures is { MatchOption result (user_of arg.now ≡ None) (λ user. user_of arg.now ≡ Some (user.name.now, user.dest)) }
    ensures short { IfSome result (λ user. length user.name.now ≤ length arg.now) }
{
    match cut_at_last(arg) {
        Some((name, text)) => with_name(name, read_dest(text)),
        None => None,
    }
}

// A user at a destination, where the name isn't empty.
fn with_name(name: &[u8], dest: Option<Dest>) -> Option<UserAt<'_>>
    ensures is { MatchOption result (with_name name.now dest ≡ None) (λ user. with_name name.now dest ≡ Some (user.name.now, user.dest)) }
    ensures same { IfSome result (λ user. user.name.now ≡ name.now) }
{
    match (name, dest) {
        ([_, ..], Some(dest)) => Some(UserAt { name, dest }),
        _ => None,
    }
}

fn is_same_host(one: &Host, other: &Host) -> bool
    ensures { result ≡ is_same_host one.now other.now }
{
    match (one, other) {
        (Host::Addr(one), Host::Addr(other)) => one == other,
        (Host::Name(one), Host::Name(other)) => one.text() == other.text(),
        _ => false,
    }
}

fn is_same_dest(one: &Dest, other: &Dest) -> bool
    ensures { result ≡ is_same_dest one.now other.now }
{
    is_same_host(&one.host, &other.host) && one.port == other.port
}

fn names_where(text: &[u8]) -> bool
    ensures { result ≡ list_any is_at text.now }
{
    text.iter().any(|byte| *byte == b'@')
}

// The name, where it is one at this destination.
fn name_at<'a>(dest: &Dest, arg: &'a [u8]) -> Option<&'a [u8]>
    ensures is { option_copied result ≡ name_if_same dest.now (user_of arg.now) }
    ensures short { IfSome result (λ name. length name.now ≤ length arg.now) }
{
    let user = read_user(arg)?;
    if is_same_dest(dest, &user.dest) {
        Some(user.name)
    } else {
        None
    }
}

/// The name that is passed to a server at this destination for an argument of `USER`: all of it where it has no `@`, else the
/// name where the destination is this one.
#[tactic(auto, unfolding(crate::specs::User::name_there))]
pub(crate) fn name_there<'a>(dest: &Dest, arg: &'a [u8]) -> Option<&'a [u8]>
    ensures is { option_copied result ≡ name_there dest.now arg.now }
    ensures short { IfSome result (λ name. length name.now ≤ length arg.now) }
{
    if names_where(arg) {
        return name_at(dest, arg);
    }
    Some(arg)
}
