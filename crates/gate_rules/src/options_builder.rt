//! What the options of a line say together.
ghost use Rattle.std.specs.Prelude.{◌≡◌, [], Some, Ok, IfOk, unwrap_or};
ghost use Rattle.std.specs.Option.{option_or};
ghost use Rattle.gate_rules.specs.Options.{added, dest_with, builder_of, built, finished, options_of};

use crate::lists::Reading;
use crate::parsed_option::{ParsedOption, option_at, width_at};
use crate::words::from;
use crate::{Options, Service};
use fw_types::{Dest, Host, OctetsList, VerbList};
use host_pattern::{PatternList, Word};
use std::alloc::Global;

/// The first value of each kind of option.
#[derive(Drop)]
pub struct OptionsBuilder {
    pub exec: Option<OctetsList>,
    pub dest: Option<PatternList>,
    pub auth: Option<VerbList>,
    pub authall: bool,
    pub extnd: bool,
    pub deny: Option<VerbList>,
    pub log: Option<VerbList>,
    pub target: Option<Host>,
    pub port: Option<u16>,
}

fn verbs_or_none(verbs: Option<VerbList>) -> VerbList
    ensures { result ≡ unwrap_or verbs [] }
{
    match verbs {
        Some(verbs) => verbs,
        None => VerbList::new(),
    }
}

fn texts_or_none(alloc: Global, texts: Option<OctetsList>) -> OctetsList
    ensures { result ≡ unwrap_or texts [] }
{
    match texts {
        Some(texts) => texts,
        None => OctetsList::new(alloc),
    }
}

fn dest_with(host: Option<Host>, port: u16) -> Option<Dest>
    ensures { result ≡ dest_with host port }
{
    match host {
        Some(host) => Some(Dest { host, port }),
        None => None,
    }
}

impl OptionsBuilder {
    // No option.
    fn new() -> OptionsBuilder
        ensures { result ≡ builder_of [] }
    {
        OptionsBuilder {
            exec: None,
            dest: None,
            auth: None,
            authall: false,
            extnd: false,
            deny: None,
            log: None,
            target: None,
            port: None,
        }
    }

    // One more option, which counts unless one of its kind came before.
    fn with(mut self, option: ParsedOption) -> OptionsBuilder
        ensures { result ≡ added self option }
    {
        match option {
            ParsedOption::Exec(texts) => self.exec = self.exec.or(Some(texts)),
            ParsedOption::Dest(patterns) => self.dest = self.dest.or(Some(patterns)),
            ParsedOption::Auth(verbs) => self.auth = self.auth.or(Some(verbs)),
            ParsedOption::AuthAll => self.authall = true,
            ParsedOption::Extnd => self.extnd = true,
            ParsedOption::Deny(verbs) => self.deny = self.deny.or(Some(verbs)),
            ParsedOption::Log(verbs) => self.log = self.log.or(Some(verbs)),
            ParsedOption::PlugTo(host) => self.target = self.target.or(Some(host)),
            ParsedOption::Port(port) => self.port = self.port.or(Some(port)),
        }
        self
    }

    // The options, on a line with this port.
    fn finish(self, alloc: Global, port: u16) -> Options
        ensures { result ≡ finished port self }
    {
        Options {
            exec: texts_or_none(alloc, self.exec),
            dest: self.dest,
            auth: self.auth,
            authall: self.authall,
            extnd: self.extnd,
            deny: verbs_or_none(self.deny),
            log: verbs_or_none(self.log),
            plug_to: dest_with(self.target, self.port.unwrap_or(port)),
        }
    }
}

// What the options that these words are say together.
fn built(alloc: Global, service: &Service, words: &[Word]) -> Reading<OptionsBuilder>
    ensures { IfOk result (λ read. read ≡ built service.now words.now) }
{
    let mut builder = OptionsBuilder::new();
    let mut at = 0;
    while at < words.len() {
        let word = &words[at];
        let after = from(words, at + 1);
        let option = match option_at(alloc, service, word, after)? {
            Ok(option) => option,
            Err(why) => return Ok(Err(why)),
        };
        builder = builder.with(option);
        at += 1 + width_at(service, word, after);
    }
    Ok(Ok(builder))
}

// The options that these words are, on a line with this port.
#[tactic(auto, unfolding(crate::specs::Options::options_of))]
pub(crate) fn options_of(
    alloc: Global,
    service: &Service,
    port: u16,
    words: &[Word],
) -> Reading<Options>
    ensures { IfOk result (λ read. read ≡ options_of service.now port words.now) }
{
    match built(alloc, service, words)? {
        Ok(builder) => Ok(Ok(builder.finish(alloc, port))),
        Err(why) => Ok(Err(why)),
    }
}
