ghost use Rattle.std.specs.Prelude.{◌≡◌, ◌≤◌};

use crate::{LongName, Seed};
use fw_types::Name;

/// How a user proves who they are.
#[derive(Clone, Copy, Debug, PartialEq, Eq)]
pub enum Proto {
    /// In no way: the user can't log in.
    None,
    /// By a plain password.
    Plain,
    /// By one-time passwords.
    Otp,
}

/// What a user may do to the records of others.
#[derive(Clone, Copy, Debug, PartialEq, Eq)]
pub enum Wiz {
    /// Nothing.
    None,
    /// What a wizard of the user's own group may.
    Group,
    /// Everything.
    Super,
}

/// A plain password, as a salted MD5 digest.
#[derive(Clone, Copy, Debug, PartialEq, Eq)]
pub struct Plain {
    pub salt: [u8; 8],
    pub hash: [u8; 16],
}

/// One-time passwords (RFC 2289): the count of the password that was accepted last, the seed, and that password.
#[derive(Drop)]
pub struct Otp {
    pub number: u32,
    pub word_seed: Seed,
    pub kept: u64,
    pub ghost in_range: { number ≤ 9999 },
}

/// What is known of a user.
#[derive(Drop)]
pub struct Record {
    pub name: Name,
    /// The name in full.
    pub long: LongName,
    pub group: Option<Name>,
    pub proto: Proto,
    /// Whether the user may log in at all.
    pub enabled: bool,
    pub wiz: Wiz,
    /// Wrong responses since the last right one; after the fifth they are counted from 1 again.
    pub fails: u8,
    /// The moment of the last fifth wrong response, in seconds.
    pub since: u64,
    /// The moment of the last right response, in seconds; 0 where there was none.
    pub last: u64,
    /// The moment from which the user may not log in, in seconds; 0 for never.
    pub expires: u64,
    pub plain: Option<Plain>,
    pub otp: Option<Otp>,
    pub ghost in_range: { fails ≤ 5 },
}

impl Otp {
    /// Equal one-time passwords.
    pub fn twin(&self) -> Otp
        ensures { result ≡ self.now }
    {
        Otp {
            number: self.number,
            word_seed: self.word_seed.twin(),
            kept: self.kept,
        }
    }
}

impl Record {
    /// An equal record. Takes no memory.
    pub fn twin(&self) -> Record
        ensures { result ≡ self.now }
    {
        Record {
            name: self.name.twin(),
            long: self.long.twin(),
            group: group_twin(&self.group),
            proto: self.proto,
            enabled: self.enabled,
            wiz: self.wiz,
            fails: self.fails,
            since: self.since,
            last: self.last,
            expires: self.expires,
            plain: self.plain,
            otp: otp_twin(&self.otp),
        }
    }
}

fn group_twin(group: &Option<Name>) -> Option<Name>
    ensures { result ≡ group.now }
{
    match group {
        Some(name) => Some(name.twin()),
        None => None,
    }
}

fn otp_twin(otp: &Option<Otp>) -> Option<Otp>
    ensures { result ≡ otp.now }
{
    match otp {
        Some(otp) => Some(otp.twin()),
        None => None,
    }
}
