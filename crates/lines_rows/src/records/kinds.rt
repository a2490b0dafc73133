//! The kinds of row.

use crate::records::breaks::tell_remote_breaks;
use crate::records::down::tell_port;
use crate::records::passwords::{tell_challenge, tell_count, tell_fold, tell_hex, tell_passwords};
use crate::records::policy::{policy_of, tell_operation, tell_settings};
use crate::records::records::{base_of, tell_base, tell_good, tell_long, tell_record, tell_seed};
use crate::records::remote::tell_remote;
use crate::records::replies::{tell_opened, tell_reply};
use crate::records::requests::{tell_line, tell_wire};
use crate::records::spelling::{
    dictionary_of, tell_apart, tell_asks, tell_breaks, tell_groups, tell_hear, tell_password,
    tell_words,
};
use auth_machine::Policy;
use fw_types::NoMemory;
use lines_of_rows::{Rows, Told, add};
use otp_words::Dictionary;
use std::alloc::Global;

/// Knows the kinds of row.
#[derive(Drop)]
pub(crate) struct Kinds {
    // The record of the last line `base`.
    base: Vec<u8>,
    // The policy of the last line `policy`.
    policy: Option<Policy>,
    // The dictionary of the last line `dictionary`.
    dictionary: Option<Dictionary>,
}

// Tells of a kind that takes no memory.
fn tell_plain(kind: &str, asked: &[u8], out: &mut Told) {
    match kind {
        "seed" => tell_seed(asked, out),
        "long" => tell_long(asked, out),
        "passwords" => tell_passwords(asked, out),
        "fold" => tell_fold(asked, out),
        "hex" => tell_hex(asked, out),
        "challenge" => tell_challenge(asked, out),
        "count" => tell_count(asked, out),
        "line" => tell_line(asked, out),
        "wire" => tell_wire(asked, out),
        "reply" => tell_reply(asked, out),
        "opened" => tell_opened(asked, out),
        "port" => tell_port(out),
        "asks" => tell_asks(asked, out),
        "groups" => tell_groups(asked, out),
        _ => add(out, b"no such kind"),
    }
}

impl Kinds {
    pub(crate) fn new(alloc: Global) -> Kinds {
        Kinds {
            base: Vec::new(alloc),
            policy: None,
            dictionary: None,
        }
    }

    fn tell_spelled(&self, kind: &str, asked: &[u8], out: &mut Told) {
        let Some(dictionary) = &self.dictionary else {
            return add(out, b"no dictionary");
        };
        match kind {
            "spell" => tell_words(dictionary, asked, out),
            "apart" => tell_apart(dictionary, asked, out),
            _ => tell_password(dictionary, asked, out),
        }
    }

    fn tell_operation(&self, asked: &[u8], out: &mut Told) {
        match &self.policy {
            Some(policy) => tell_operation(policy, asked, out),
            None => add(out, b"no policy"),
        }
    }
}

impl Rows for Kinds {
    fn tell(
        &mut self,
        alloc: Global,
        kind: &str,
        asked: &[u8],
        out: &mut Told,
    ) -> Result<(), NoMemory> {
        match kind {
            "record" => tell_record(alloc, asked, out)?,
            "good" => tell_good(alloc, asked, out)?,
            "base" => self.base = base_of(alloc, asked, out)?,
            "damage" | "front" | "behind" => tell_base(alloc, &self.base, kind, asked, out)?,
            "policy" => self.policy = policy_of(alloc, asked, out),
            "operation" => self.tell_operation(asked, out),
            "dictionary" => self.dictionary = dictionary_of(alloc, asked, out)?,
            "spell" | "apart" | "read" => self.tell_spelled(kind, asked, out),
            "hear" => tell_hear(alloc, asked, out)?,
            "breaks" => tell_breaks(alloc, asked, out)?,
            "settings" => tell_settings(alloc, asked, out),
            "remote" => tell_remote(alloc, asked, out)?,
            "remote-breaks" => tell_remote_breaks(alloc, asked, out)?,
            _ => tell_plain(kind, asked, out),
        }
        Ok(())
    }
}
