ghost use Rattle.std.specs.Prelude.{◌≡◌, ◌<◌, ◌≤◌, ◌+◌, ◌^◌, ◌++◌, [], codes, length, unwrap_or, is_some, IsTrue, IfSome, Ok};
ghost use Rattle.std.specs.Int.{w64, to_be_bytes};
ghost use Rattle.arrayvec.specs.ArrayVec.{array_vec_len};
ghost use Rattle.hex.specs.Hex.{IsBytes, encode_lower};
ghost use Rattle.fw_types.specs.Name.{is_name};
ghost use Rattle.fw_types.specs.Host.{host_text};
ghost use Rattle.fw_types.specs.Quad.{dotted};
ghost use Rattle.authsrv_lines.specs.Request.{request_of};
ghost use Rattle.authsrv_lines.specs.RequestLine.{IsAsked, IsHash, IsHost, request_line, service_text, wire_of, word_text};

use arrayvec::ArrayVec;
use auth_events::{OpService, Request};
use fw_types::{Host, Name, append, dotted_quad};

fn service_text(service: OpService) -> &'static [u8]
    ensures text { result.now ≡ service_text service }
    ensures short { length result.now ≤ 9 }
{
    match service {
        OpService::Telnet => b"tn-gw",
        OpService::Rlogin => b"rlogin-gw",
        OpService::Ftp => b"ftp-gw",
    }
}

fn append_name(out: &mut ArrayVec<u8, 512>, name: &Name)
    requires { array_vec_len out.old ≤ 0 }
    ensures items { out.new.items ≡ out.old.items ++ (codes "authenticate " ++ name.now) }
    ensures form { IsTrue (is_name name.now) }
{
    append(out, b"authenticate ");
    append(out, name.text());
}

fn append_hash(out: &mut ArrayVec<u8, 512>, hash: &[u8; 16])
    requires { array_vec_len out.old ≤ 7 }
    ensures items { out.new.items ≡ out.old.items ++ encode_lower hash.now }
    ensures room { array_vec_len out.new ≤ 39 }
    ensures form { IsHash hash.now }
{
    let mut digits = [0; 32];
    match hex::encode_to_slice(hash.as_slice(), &mut digits) {
        Ok(()) => append(out, &digits),
        Err(_) => unreachable!(),
    }
}

fn append_digits(out: &mut ArrayVec<u8, 512>, word: u64)
    requires { array_vec_len out.old ≤ 40 }
    ensures { out.new.items ≡ out.old.items ++ encode_lower (to_be_bytes w64 word) }
{
    let bytes = word.to_be_bytes();
    let mut digits = [0; 16];
    match hex::encode_to_slice(bytes.as_slice(), &mut digits) {
        Ok(()) => append(out, &digits),
        Err(_) => unreachable!(),
    }
}

fn append_word(out: &mut ArrayVec<u8, 512>, word: Option<u64>)
    requires { array_vec_len out.old ≤ 39 }
    ensures items { out.new.items ≡ out.old.items ++ word_text word }
    ensures form { IfSome word (λ w. w < 2 ^ 64) }
{
    if let Some(word) = word {
        append(out, b" ");
        append_digits(out, word);
    }
}

fn append_digest(out: &mut ArrayVec<u8, 512>, hash: &[u8; 16], word: Option<u64>)
    requires { array_vec_len out.old ≤ 0 }
    ensures items { out.new.items ≡ out.old.items ++ (codes "digest " ++ encode_lower hash.now ++ word_text word) }
    ensures hash { IsHash hash.now }
    ensures word { IfSome word (λ w. w < 2 ^ 64) }
{
    append(out, b"digest ");
    append_hash(out, hash);
    append_word(out, word);
}

fn append_addr(out: &mut ArrayVec<u8, 512>, addr: &[u8; 4])
    requires { array_vec_len out.old ≤ 20 }
    ensures items { out.new.items ≡ out.old.items ++ dotted addr.now }
    ensures len { length addr.now ≡ 4 }
    ensures bytes { IsBytes addr.now }
{
    append(out, dotted_quad(*addr).as_slice());
}

fn append_host(out: &mut ArrayVec<u8, 512>, host: &Host)
    requires { array_vec_len out.old ≤ 20 }
    ensures items { out.new.items ≡ out.old.items ++ host_text host.now }
    ensures form { IsHost host.now }
{
    match host {
        Host::Addr(addr) => append_addr(out, addr),
        Host::Name(name) => append(out, name.text()),
    }
}

fn append_operation(out: &mut ArrayVec<u8, 512>, service: OpService, host: &Host)
    requires { array_vec_len out.old ≤ 0 }
    ensures items { out.new.items ≡ out.old.items ++
        (codes "operation " ++ service_text service ++ codes " " ++ host_text host.now) }
    ensures form { IsHost host.now }
{
    append(out, b"operation ");
    append(out, service_text(service));
    append(out, b" ");
    append_host(out, host);
}

// Sets `out` to the line, and answers whether there is one.
#[tactic(auto, unfolding(crate::specs::RequestLine::request_line))]
fn write_line(request: &Request, out: &mut ArrayVec<u8, 512>) -> bool
    ensures line { out.new.items ≡ unwrap_or (request_line request.now) [] }
    ensures told { result ≡ is_some (request_line request.now) }
    ensures form { IsAsked request.now }
{
    out.clear();
    match request {
        Request::Authenticate { name } => {
            append_name(out, name);
            true
        }
        Request::Response { hash, word } => {
            append_digest(out, hash, *word);
            true
        }
        Request::Operation { service, host } => {
            append_operation(out, *service, host);
            true
        }
        Request::Close => {
            append(out, b"quit");
            true
        }
        _ => false,
    }
}

/// Sets `out` to the line, without its end, that asks for what a gateway asks: `Authenticate`, `Response` by the digest of
/// what the user typed, `Operation`, and `Close`. Other requests have no line: `out` is then empty, and the answer false.
pub fn wire_text(request: &Request, out: &mut ArrayVec<u8, 512>) -> bool
    ensures line { out.new.items ≡ unwrap_or (request_line request.now) [] }
    ensures told { result ≡ is_some (request_line request.now) }
    // `read_request` makes the same request of the line, and the end of the session of that for `Close`.
    ensures reads { IsTrue result → request_of out.new.items ≡ Ok (wire_of request.now) }
{
    write_line(request, out)
}
