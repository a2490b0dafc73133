//! Requests, as they are written to a server.
ghost use Rattle.std.specs.Prelude.{◌≡◌, ◌<◌, ◌≤◌, ◌^◌, [], ◌∷◌, ◌++◌, length, IfSome, IsTrue};
ghost use Rattle.hex.specs.Hex.{IsBytes};
ghost use Rattle.fw_types.specs.Name.{is_name};
ghost use Rattle.authsrv_lines.specs.RequestLine.{IsAsked, IsHash, IsHost};
ghost use Rattle.remote_port.specs.Requests.{has_line, is_authenticate, is_close, is_open, written};

use arrayvec::ArrayVec;
use auth_events::Request;
use authsrv_lines::wire_text;
use fw_types::{Host, Name, append_byte, copy_of};

pub(crate) fn is_open(request: &Request) -> bool
    ensures { result ≡ is_open request.now }
{
    matches!(request, Request::Open { .. })
}

pub(crate) fn is_authenticate(request: &Request) -> bool
    ensures { result ≡ is_authenticate request.now }
{
    matches!(request, Request::Authenticate { .. })
}

pub(crate) fn is_close(request: &Request) -> bool
    ensures { result ≡ is_close request.now }
{
    matches!(request, Request::Close)
}

/// Whether there is a line for it.
#[tactic(auto, unfolding(authsrv_lines::specs::RequestLine::request_line))]
pub(crate) fn has_line(request: &Request) -> bool
    ensures { result ≡ has_line request.now }
{
    matches!(
        request,
        Request::Authenticate { .. }
            | Request::Response { .. }
            | Request::Operation { .. }
            | Request::Close
    )
}

// The line with LF.
fn ended(line: &[u8]) -> ArrayVec<u8, 513>
    requires { length line.now ≤ 512 }
    ensures { result.items ≡ line.now ++ 10 ∷ [] }
{
    let mut text = copy_of(line);
    append_byte(&mut text, b'\n');
    text
}

/// What is given to the server for it: its line with LF, or nothing.
pub(crate) fn written(request: &Request) -> ArrayVec<u8, 513>
    ensures { result.items ≡ written request.now }
{
    let mut line = ArrayVec::new();
    if wire_text(request, &mut line) {
        return ended(line.as_slice());
    }
    ArrayVec::new()
}

fn form_of_name(name: &Name)
    ensures { IsTrue (is_name name.now) }
{
    let _ = name.text();
}

fn form_of_addr(addr: &[u8; 4])
    ensures len { length addr.now ≡ 4 }
    ensures bytes { IsBytes addr.now }
{
    let _ = addr.as_slice();
}

fn form_of_host(host: &Host)
    ensures { IsHost host.now }
{
    match host {
        Host::Addr(addr) => form_of_addr(addr),
        Host::Name(name) => {
            let _ = name.text();
        }
    }
}

fn form_of_hash(hash: &[u8; 16])
    ensures { IsHash hash.now }
{
    let _ = hash.as_slice();
}

fn form_of_word(word: Option<u64>)
    ensures { IfSome word (λ w. w < 2 ^ 64) }
{
    if let Some(_) = word {}
}

fn form_of_response(hash: &[u8; 16], word: Option<u64>)
    ensures hash { IsHash hash.now }
    ensures word { IfSome word (λ w. w < 2 ^ 64) }
{
    form_of_hash(hash);
    form_of_word(word);
}

/// Does nothing: the caller learns what the types say of the request's parts.
pub(crate) fn form_of(request: &Request)
    ensures { IsAsked request.now }
{
    match request {
        Request::Authenticate { name } => form_of_name(name),
        Request::Response { hash, word } => form_of_response(hash, *word),
        Request::Operation { host, .. } => form_of_host(host),
        _ => {}
    }
}
