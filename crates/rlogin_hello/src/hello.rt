//! A client's hello, byte by byte.
ghost use Rattle.std.specs.Prelude.{◌≡◌, ◌≤◌, [], ◌∷◌, ◌++◌, length};
ghost use Rattle.rlogin_hello.specs.Hello.{client_in, dest_in, handed_on, hello_of, hello_text, step_of, terminal_in, user_in};
ghost use Rattle.rlogin_hello.specs.Texts.{step_at};

use crate::HelloStep;
use crate::fed::{Fed, and, nothing};
use crate::stage::Stage;
use crate::texts::Texts;
use arrayvec::ArrayVec;
use fw_types::{Dest, append, append_byte};
use std::marker::Model;
use std::mem;
use std::snapshot::Snapshot;

/// A reader of the hello that a client sends. Contracts know it as the bytes that it was fed.
#[derive(Drop)]
pub struct Hello {
    fed: Snapshot<Fed>,
    texts: Texts,
}

impl Model for Hello {
    ghost use Rattle.std.specs.Prelude.{ℕ, List};
    ghost use Rattle.rlogin_hello.specs.Texts.{IsKept};

    ghost Value = { List ℕ };

    ghost view = { λ h. h.fed.value };

    ghost invariant = { λ h. IsKept h.fed.value h.texts };
}

fn step_at(stage: Stage) -> HelloStep
    ensures { result ≡ step_at stage }
{
    match stage {
        Stage::Ready => HelloStep::Ready,
        Stage::Bad => HelloStep::Bad,
        _ => HelloStep::More,
    }
}

// Sets `out` to a hello of these texts.
fn write_hello(client: &[u8], user: &[u8], terminal: &[u8], out: &mut ArrayVec<u8, 772>)
    requires client { length client.now ≤ 256 }
    requires user { length user.now ≤ 256 }
    requires terminal { length terminal.now ≤ 256 }
    ensures { out.new.items ≡ hello_text client.now user.now terminal.now }
{
    out.clear();
    append_byte(out, 0);
    append(out, client);
    append_byte(out, 0);
    append(out, user);
    append_byte(out, 0);
    append(out, terminal);
    append_byte(out, 0);
}

impl Hello {
    /// A reader that was fed nothing.
    pub fn new() -> Hello
        ensures { result ≡ [] }
    {
        Hello {
            fed: nothing(),
            texts: Texts::new(),
        }
    }

    /// Takes the client's next byte, and tells what the bytes up to it are. `Ready` comes with the zero byte that ends the
    /// last text. `Bad` comes with the first byte where that isn't zero, with the 257th byte of a text, and with the
    /// zero byte that ends the last text where the server's user isn't a name, `@` and a host. After `Ready` or `Bad`
    /// the same is told of each byte, and what the other calls give stays as it is: such bytes are no part of the hello.
    pub fn feed(&mut self, byte: u8) -> HelloStep
        ensures fed { self.new ≡ self.old ++ byte ∷ [] }
        ensures step { result ≡ step_of (hello_of (self.old ++ byte ∷ [])) }
    {
        self.fed = and(mem::replace(&mut self.fed, nothing()), byte);
        self.texts.hear(byte);
        step_at(self.texts.stage())
    }

    /// The client's user: 0 to 256 bytes, and none before `Ready`.
    pub fn client(&self) -> &[u8]
        ensures { result.now ≡ client_in (hello_of self.now) }
    {
        self.texts.client()
    }

    /// The server's user, without the last `@` and the host: 1 to 254 bytes, and none before `Ready`.
    pub fn user(&self) -> &[u8]
        ensures { result.now ≡ user_in (hello_of self.now) }
    {
        match self.texts.user_at() {
            Some(at) => at.user,
            None => &[],
        }
    }

    /// The terminal and its speed: 0 to 256 bytes, and none before `Ready`.
    pub fn terminal(&self) -> &[u8]
        ensures { result.now ≡ terminal_in (hello_of self.now) }
    {
        self.texts.terminal()
    }

    /// Where the client wants to go: the host after the last `@`, at port 513. Nothing before `Ready`.
    pub fn dest(&self) -> Option<Dest>
        ensures { result ≡ dest_in (hello_of self.now) }
    {
        match self.texts.user_at() {
            Some(at) => Some(Dest {
                host: at.host,
                port: 513,
            }),
            None => None,
        }
    }

    /// Sets `out` to the hello that a server is given in this one's place: the same texts, but the server's user alone,
    /// without `@` and host. It has at most 772 bytes, and none before `Ready`.
    pub fn write_handed_on(&self, out: &mut ArrayVec<u8, 772>)
        ensures { out.new.items ≡ handed_on (hello_of self.now) }
    {
        match self.texts.user_at() {
            Some(at) => write_hello(self.texts.client(), at.user, self.texts.terminal(), out),
            None => out.clear(),
        }
    }
}
