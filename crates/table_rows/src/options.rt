//! What is told of the options of a permit line, and of settings.

use arrayvec::ArrayVec;
use fw_types::{Dest, Octets, Verb};
use gate_rules::{Options, Rules, Setting};
use lines_of_rows::{Told, add_number, add_word};

fn tell_texts(texts: &[Octets], out: &mut Told) {
    for text in texts {
        add_word(out, text.bytes());
    }
}

fn tell_exec(texts: &[Octets], out: &mut Told) {
    if !texts.is_empty() {
        add_word(out, b"exec");
        tell_texts(texts, out);
    }
}

fn tell_verbs(key: &[u8], verbs: &[Verb], out: &mut Told) {
    add_word(out, key);
    for verb in verbs {
        add_word(out, verb.text());
    }
}

fn tell_some_verbs(key: &[u8], verbs: &[Verb], out: &mut Told) {
    if !verbs.is_empty() {
        tell_verbs(key, verbs, out);
    }
}

fn tell_flag(key: &[u8], flag: bool, out: &mut Told) {
    if flag {
        add_word(out, key);
    }
}

fn tell_target(target: &Option<Dest>, out: &mut Told) {
    let Some(dest) = target else {
        return;
    };
    let mut host = ArrayVec::new();
    dest.twin().host.write(&mut host);
    add_word(out, b"plug-to");
    add_word(out, host.as_slice());
    add_number(out, u64::from(dest.port));
}

/// Tells the options that are given.
pub(crate) fn tell_options(options: &Options, out: &mut Told) {
    tell_exec(options.exec.as_slice(), out);
    if let Some(patterns) = &options.dest {
        add_word(out, b"dest");
        tell_texts(patterns.texts(), out);
    }
    if let Some(verbs) = &options.auth {
        tell_verbs(b"auth", verbs.verbs(), out);
    }
    tell_flag(b"authall", options.authall, out);
    tell_flag(b"extnd", options.extnd, out);
    tell_some_verbs(b"deny", options.deny.verbs(), out);
    tell_some_verbs(b"log", options.log.verbs(), out);
    tell_target(&options.plug_to, out);
}

fn tell_setting(rules: &Rules, which: Setting, name: &[u8], out: &mut Told) {
    if let Some((value, line)) = rules.setting(which) {
        add_word(out, b"set");
        add_word(out, name);
        add_number(out, value);
        add_number(out, u64::from(line));
    }
}

/// Tells the settings that are set: `set NAME VALUE LINE`.
pub(crate) fn tell_settings(rules: &Rules, out: &mut Told) {
    tell_setting(rules, Setting::Timeout, b"timeout", out);
    tell_setting(rules, Setting::MaxBytes, b"maxbytes", out);
    tell_setting(rules, Setting::MaxRecip, b"maxrecip", out);
    tell_setting(rules, Setting::BadSleep, b"badsleep", out);
    tell_setting(rules, Setting::NoBogus, b"nobogus", out);
}
