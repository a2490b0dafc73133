//! What is done with a command, by its verb.
ghost use Rattle.std.specs.Prelude.{◌≡◌};
ghost use Rattle.ftp_gate.specs.Kind.{is_down, is_extended, is_quit, is_up, kind_of, outward_of, served_of};

use session_acts::Toward;

/// What is done with a command.
#[derive(Clone, Copy)]
pub enum Kind {
    /// A user is named to the gateway.
    Authorize,
    /// The user's response is given to the gateway.
    Response,
    /// It is for a server, and so may be denied.
    Outward(Outward),
}

/// What is done with a command that is for a server.
#[derive(Clone, Copy)]
pub enum Outward {
    /// A server is asked for, or a user named to the one to which a link is up.
    User,
    /// The server to which a link is up is asked for this.
    Served(Served),
}

/// What is asked for where a link to a server is up.
#[derive(Clone, Copy)]
pub enum Served {
    /// A data link to the client.
    Port,
    /// A data link from the client.
    Pasv,
    /// One of both by another form of address, which isn't known.
    Extended,
    /// A transfer of data to the client, or to the server.
    Transfer(Toward),
    /// The end.
    Quit,
    /// Anything else.
    Other,
}

pub(crate) fn is_quit(verb: &[u8]) -> bool
    ensures { result ≡ is_quit verb.now }
{
    verb == b"QUIT".as_slice()
}

fn is_down(verb: &[u8]) -> bool
    ensures { result ≡ is_down verb.now }
{
    verb == b"RETR".as_slice() || verb == b"LIST".as_slice() || verb == b"NLST".as_slice()
}

fn is_up(verb: &[u8]) -> bool
    ensures { result ≡ is_up verb.now }
{
    verb == b"STOR".as_slice() || verb == b"APPE".as_slice() || verb == b"STOU".as_slice()
}

fn is_extended(verb: &[u8]) -> bool
    ensures { result ≡ is_extended verb.now }
{
    verb == b"EPRT".as_slice() || verb == b"EPSV".as_slice()
}

fn served_of(verb: &[u8]) -> Served
    ensures { result ≡ served_of verb.now }
{
    if verb == b"PORT".as_slice() {
        Served::Port
    } else if verb == b"PASV".as_slice() {
        Served::Pasv
    } else if is_extended(verb) {
        Served::Extended
    } else if is_down(verb) {
        Served::Transfer(Toward::Client)
    } else if is_up(verb) {
        Served::Transfer(Toward::Server)
    } else if is_quit(verb) {
        Served::Quit
    } else {
        Served::Other
    }
}

fn outward_of(verb: &[u8]) -> Outward
    ensures { result ≡ outward_of verb.now }
{
    if verb == b"USER".as_slice() {
        Outward::User
    } else {
        Outward::Served(served_of(verb))
    }
}

/// What is done with a command of this verb, which is in upper case.
#[tactic(auto, unfolding(crate::specs::Kind::kind_of))]
pub fn kind_of(verb: &[u8]) -> Kind
    ensures { result ≡ kind_of verb.now }
{
    if verb == b"AUTHORIZE".as_slice() {
        Kind::Authorize
    } else if verb == b"RESPONSE".as_slice() {
        Kind::Response
    } else {
        Kind::Outward(outward_of(verb))
    }
}
