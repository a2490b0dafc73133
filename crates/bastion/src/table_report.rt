//! What `table` prints of a service.
ghost use Rattle.std.specs.Prelude.{◌≡◌, ◌+◌, ◌≤◌, ◌++◌, ◌∷◌, flat_map, length, codes, IfOk, OnOk};
ghost use Rattle.std.specs.Fmt.{decimal};
ghost use Rattle.arrayvec.specs.ArrayVec.{array_vec_len};
ghost use Rattle.gate_rules.specs.Verdict.{options_at};
ghost use Rattle.gate_rules.specs.declared.verdict.Verdict.TheVariants.{Permit, Deny};
ghost use Rattle.bastion.specs.TableReport.{auth_text, dest_text, flag_text, options_shown, options_text, plug_text, set_text, setting_name, setting_text, settings_text, report_text};
ghost use Rattle.bastion.specs.Texts.{some_line, words_line};

use crate::texts::{push_exec, push_words, verdict_text};
use arrayvec::ArrayVec;
use client_service::LogLine;
use fw_types::{Dest, NoMemory, Octets, Verb, VerbList, append, append_decimal, append_u32};
use gate_rules::{Options, Rules, Setting, Verdict};
use host_pattern::PatternList;
use std::alloc::Global;

fn push_verbs(out: &mut Vec<u8>, verbs: &[Verb]) -> Result<(), NoMemory>
    ensures { OnOk result (out.new.items ≡ out.old.items ++ flat_map (λ w. 32 ∷ w) verbs.now) }
{
    for verb in verbs {
        out.push(b' ')?;
        out.extend_from_slice(verb.text())?;
    }
    Ok(())
}

fn push_number(out: &mut Vec<u8>, number: u64) -> Result<(), NoMemory>
    ensures { OnOk result (out.new.items ≡ out.old.items ++ decimal number) }
{
    let mut buffer = itoa::Buffer::new();
    out.extend_from_slice(buffer.format(number).as_bytes())?;
    Ok(())
}

fn push_dest(out: &mut Vec<u8>, dest: &Option<PatternList>) -> Result<(), NoMemory>
    ensures { OnOk result (out.new.items ≡ out.old.items ++ dest_text dest.now) }
{
    let Some(patterns) = dest else {
        return Ok(());
    };
    out.extend_from_slice(b"dest")?;
    push_words(out, patterns.texts())?;
    out.extend_from_slice(b"\n")?;
    Ok(())
}

fn push_verb_line(out: &mut Vec<u8>, name: &[u8], verbs: &[Verb]) -> Result<(), NoMemory>
    ensures { OnOk result (out.new.items ≡ out.old.items ++ words_line name.now verbs.now) }
{
    out.extend_from_slice(name)?;
    push_verbs(out, verbs)?;
    out.extend_from_slice(b"\n")?;
    Ok(())
}

fn push_auth(out: &mut Vec<u8>, auth: &Option<VerbList>) -> Result<(), NoMemory>
    ensures { OnOk result (out.new.items ≡ out.old.items ++ auth_text auth.now) }
{
    let Some(verbs) = auth else {
        return Ok(());
    };
    push_verb_line(out, b"auth", verbs.verbs())
}

fn push_some_verbs(out: &mut Vec<u8>, name: &[u8], verbs: &VerbList) -> Result<(), NoMemory>
    ensures { OnOk result (out.new.items ≡ out.old.items ++ some_line name.now verbs.now) }
{
    let verbs = verbs.verbs();
    if verbs.is_empty() {
        return Ok(());
    }
    push_verb_line(out, name, verbs)
}

fn push_flag(out: &mut Vec<u8>, line: &[u8], flag: bool) -> Result<(), NoMemory>
    ensures { OnOk result (out.new.items ≡ out.old.items ++ flag_text line.now flag) }
{
    if flag {
        out.extend_from_slice(line)?;
    }
    Ok(())
}

fn push_plug(out: &mut Vec<u8>, plug_to: &Option<Dest>) -> Result<(), NoMemory>
    ensures { OnOk result (out.new.items ≡ out.old.items ++ plug_text plug_to.now) }
{
    let Some(dest) = plug_to else {
        return Ok(());
    };
    let mut host = ArrayVec::new();
    dest.host.write(&mut host);
    out.extend_from_slice(b"plug-to ")?;
    out.extend_from_slice(host.as_slice())?;
    out.push(b' ')?;
    push_number(out, u64::from(dest.port))?;
    out.extend_from_slice(b"\n")?;
    Ok(())
}

fn push_options(out: &mut Vec<u8>, options: &Options) -> Result<(), NoMemory>
    ensures { OnOk result (out.new.items ≡ out.old.items ++ options_text options.now) }
{
    push_exec(out, options.exec.as_slice())?;
    push_dest(out, &options.dest)?;
    push_auth(out, &options.auth)?;
    push_flag(out, b"authall\n", options.authall)?;
    push_flag(out, b"extnd\n", options.extnd)?;
    push_some_verbs(out, b"deny", &options.deny)?;
    push_some_verbs(out, b"log", &options.log)?;
    push_plug(out, &options.plug_to)
}

fn push_options_at(out: &mut Vec<u8>, rules: &Rules, line: u32) -> Result<(), NoMemory>
    ensures { OnOk result (out.new.items ≡ out.old.items ++ options_shown (options_at rules.now line)) }
{
    match rules.options(line) {
        Some(options) => push_options(out, options),
        None => Ok(()),
    }
}

fn setting_name(which: Setting) -> &'static [u8]
    ensures name { result.now ≡ setting_name which }
    ensures short { length result.now ≤ 8 }
{
    match which {
        Setting::Timeout => b"timeout",
        Setting::MaxBytes => b"maxbytes",
        Setting::MaxRecip => b"maxrecip",
        Setting::BadSleep => b"badsleep",
        Setting::NoBogus => b"nobogus",
    }
}

fn append_number(out: &mut LogLine, number: u64)
    requires { array_vec_len out.old ≤ 480 }
    ensures items { out.new.items ≡ out.old.items ++ decimal number }
    ensures room { array_vec_len out.new ≤ array_vec_len out.old + 20 }
{
    append_decimal(out, number);
}

// The longest line of a setting has 51 bytes.
fn append_set(out: &mut LogLine, which: Setting, set: Option<(u64, u32)>)
    requires { array_vec_len out.old ≤ 420 }
    ensures items { out.new.items ≡ out.old.items ++ set_text which set }
    ensures room { array_vec_len out.new ≤ array_vec_len out.old + 60 }
{
    let Some((value, line)) = set else {
        return;
    };
    append(out, b"set ");
    append(out, setting_name(which));
    append(out, b" ");
    append_number(out, value);
    append(out, b" line ");
    append_u32(out, line);
    append(out, b"\n");
}

fn append_setting(out: &mut LogLine, rules: &Rules, which: Setting)
    requires { array_vec_len out.old ≤ 420 }
    ensures items { out.new.items ≡ out.old.items ++ setting_text rules.now which }
    ensures room { array_vec_len out.new ≤ array_vec_len out.old + 60 }
{
    append_set(out, which, rules.setting(which));
}

fn append_settings(out: &mut LogLine, rules: &Rules)
    requires { array_vec_len out.old ≤ 180 }
    ensures { out.new.items ≡ out.old.items ++ settings_text rules.now }
{
    append_setting(out, rules, Setting::Timeout);
    append_setting(out, rules, Setting::MaxBytes);
    append_setting(out, rules, Setting::MaxRecip);
    append_setting(out, rules, Setting::BadSleep);
    append_setting(out, rules, Setting::NoBogus);
}

fn settings_line(rules: &Rules) -> LogLine
    ensures { result.items ≡ settings_text rules.now }
{
    let mut out = ArrayVec::new();
    append_settings(&mut out, rules);
    out
}

/// What `table` prints of a permission: the options of its line, and the settings.
pub(crate) fn permit_report(alloc: Global, rules: &Rules, line: u32) -> Result<Octets, NoMemory>
    ensures { IfOk result (λ text. text ≡ report_text rules.now (Permit line)) }
{
    let mut out = Vec::new(alloc);
    out.extend_from_slice(verdict_text(Verdict::Permit { line }).as_slice())?;
    push_options_at(&mut out, rules, line)?;
    out.extend_from_slice(settings_line(rules).as_slice())?;
    Ok(Octets::of(out))
}

/// What `table` prints of a denial: the settings, too.
pub(crate) fn denial_report(rules: &Rules, line: u32) -> LogLine
    ensures { result.items ≡ report_text rules.now (Deny line) }
{
    let mut out = verdict_text(Verdict::Deny { line });
    append_settings(&mut out, rules);
    out
}
