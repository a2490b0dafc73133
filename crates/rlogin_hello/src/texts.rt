//! The texts of a hello, as they are kept.
ghost use Rattle.std.specs.Prelude.{◌≡◌, ◌≤◌, [], length, IfSome, MatchOption, None, Some};
ghost use Rattle.rlogin_hello.specs.ServerUser.{user_at};
ghost use Rattle.rlogin_hello.specs.Texts.{first_stage, heard_at, last_stage, once_ready, stage_after, text_after, user_once_ready, view_after};
ghost use Rattle.rlogin_hello.specs.declared.stage.Stage.TheVariants.{Start, Client, Server, Terminal};

use crate::server_user::{UserOf, read_user_at};
use crate::stage::{Heard, Stage};
use arrayvec::ArrayVec;
use std::marker::Model;

/// The client's user, the server's user, and the terminal with its speed, as far as they have come.
#[derive(Drop)]
pub(crate) struct Texts {
    stage: Stage,
    client: ArrayVec<u8, 256>,
    server: ArrayVec<u8, 256>,
    terminal: ArrayVec<u8, 256>,
}

impl Model for Texts {
    ghost use Rattle.rlogin_hello.specs.Texts.{TextsView};

    ghost Value = { TextsView };

    ghost view = { λ t. record {
      stage = t.stage;
      client = t.client.items;
      server = t.server.items;
      terminal = t.terminal.items;
    } };
}

// Takes a text's next byte.
fn hear(text: &mut ArrayVec<u8, 256>, byte: u8) -> Heard
    ensures heard { result ≡ heard_at text.old.items byte }
    ensures text { text.new.items ≡ text_after text.old.items byte }
{
    if byte == 0 {
        return Heard::Ended;
    }
    if text.len() < 256 {
        text.push(byte);
        return Heard::More;
    }
    Heard::TooLong
}

fn stage_after(heard: Heard, stay: Stage, next: Stage) -> Stage
    ensures { result ≡ stage_after heard stay next }
{
    match heard {
        Heard::More => stay,
        Heard::Ended => next,
        Heard::TooLong => Stage::Bad,
    }
}

fn first_stage(byte: u8) -> Stage
    ensures { result ≡ first_stage byte }
{
    if byte == 0 { Stage::Client } else { Stage::Bad }
}

// Where a hello stands whose texts have all come.
fn last_stage(server: &[u8]) -> Stage
    ensures { result ≡ last_stage (user_at server.now) }
{
    match read_user_at(server) {
        Some(_) => Stage::Ready,
        None => Stage::Bad,
    }
}

impl Texts {
    pub(crate) fn new() -> Texts
        ensures { result ≡ record { stage = Start; client = []; server = []; terminal = [] } }
    {
        Texts {
            stage: Stage::Start,
            client: ArrayVec::new(),
            server: ArrayVec::new(),
            terminal: ArrayVec::new(),
        }
    }

    fn begin(&mut self, byte: u8)
        ensures { self.new ≡ view_after Start self.old byte }
    {
        self.stage = first_stage(byte);
    }

    fn hear_client(&mut self, byte: u8)
        ensures { self.new ≡ view_after Client self.old byte }
    {
        let heard = hear(&mut self.client, byte);
        self.stage = stage_after(heard, Stage::Client, Stage::Server);
    }

    fn hear_server(&mut self, byte: u8)
        ensures { self.new ≡ view_after Server self.old byte }
    {
        let heard = hear(&mut self.server, byte);
        self.stage = stage_after(heard, Stage::Server, Stage::Terminal);
    }

    fn hear_terminal(&mut self, byte: u8)
        ensures { self.new ≡ view_after Terminal self.old byte }
    {
        let heard = hear(&mut self.terminal, byte);
        let last = last_stage(self.server.as_slice());
        self.stage = stage_after(heard, Stage::Terminal, last);
    }

    /// Takes the next byte.
    pub(crate) fn hear(&mut self, byte: u8)
        ensures { self.new ≡ view_after self.old.stage self.old byte }
    {
        match self.stage {
            Stage::Start => self.begin(byte),
            Stage::Client => self.hear_client(byte),
            Stage::Server => self.hear_server(byte),
            Stage::Terminal => self.hear_terminal(byte),
            Stage::Ready => {}
            Stage::Bad => {}
        }
    }

    pub(crate) fn stage(&self) -> Stage
        ensures { result ≡ self.now.stage }
    {
        self.stage
    }

    /// The client's user, once the hello is whole.
    pub(crate) fn client(&self) -> &[u8]
        ensures is { result.now ≡ once_ready self.now.stage self.now.client }
        ensures short { length result.now ≤ 256 }
    {
        match self.stage {
            Stage::Ready => self.client.as_slice(),
            _ => &[],
        }
    }

    /// The server's user and its host, once the hello is whole.
    pub(crate) fn user_at(&self) -> Option<UserOf<'_>>
        ensures is { MatchOption result (user_once_ready self.now.stage self.now.server ≡ None) (λ at. user_once_ready self.now.stage self.now.server
            ≡ Some record { user = at.user.now; host = at.host }) }
        ensures short { IfSome result (λ at. length at.user.now ≤ 256) }
    {
        match self.stage {
            Stage::Ready => read_user_at(self.server.as_slice()),
            _ => None,
        }
    }

    /// The terminal and its speed, once the hello is whole.
    pub(crate) fn terminal(&self) -> &[u8]
        ensures is { result.now ≡ once_ready self.now.stage self.now.terminal }
        ensures short { length result.now ≤ 256 }
    {
        match self.stage {
            Stage::Ready => self.terminal.as_slice(),
            _ => &[],
        }
    }
}
