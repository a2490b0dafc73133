ghost use Rattle.std.specs.Prelude.{◌≡◌, ◌≤◌, ◌++◌, ◌∷◌, flat_map, codes, IfOk, OnOk};
ghost use Rattle.arrayvec.specs.ArrayVec.{array_vec_len};
ghost use Rattle.gate_rules.specs.Verdict.{options_at};
ghost use Rattle.gate_rules.specs.declared.verdict.Verdict.TheVariants.{Permit};
ghost use Rattle.bastion.specs.Texts.{ended_text, exec_in, print_text, some_line, verdict_text};

use arrayvec::ArrayVec;
use client_service::{LogLine, verdict_line, verdict_word};
use fw_types::{NoMemory, Octets, append, append_u32};
use gate_rules::{Rules, Verdict};
use std::alloc::Global;

pub(crate) fn push_words(out: &mut Vec<u8>, words: &[Octets]) -> Result<(), NoMemory>
    ensures { OnOk result (out.new.items ≡ out.old.items ++ flat_map (λ w. 32 ∷ w) words.now) }
{
    for word in words {
        out.push(b' ')?;
        out.extend_from_slice(word.bytes())?;
    }
    Ok(())
}

// Adds the line of the program that a permit line names.
pub(crate) fn push_exec(out: &mut Vec<u8>, exec: &[Octets]) -> Result<(), NoMemory>
    ensures { OnOk result (out.new.items ≡ out.old.items ++ some_line (codes "exec") exec.now) }
{
    if exec.is_empty() {
        return Ok(());
    }
    out.extend_from_slice(b"exec")?;
    push_words(out, exec)?;
    out.extend_from_slice(b"\n")?;
    Ok(())
}

/// The line of a verdict.
pub(crate) fn verdict_text(verdict: Verdict) -> LogLine
    ensures text { result.items ≡ verdict_text verdict }
    ensures short { array_vec_len result ≤ 30 }
{
    let mut out = ArrayVec::new();
    append(&mut out, verdict_word(verdict));
    append(&mut out, b" line ");
    append_u32(&mut out, verdict_line(verdict));
    append(&mut out, b"\n");
    out
}

/// How a program ended.
pub(crate) fn ended_line(status: u8) -> LogLine
    ensures { result.items ≡ ended_text status }
{
    let mut out = ArrayVec::new();
    append(&mut out, b"ended ");
    append_u32(&mut out, u32::from(status));
    append(&mut out, b"\n");
    out
}

// The program's words on the permit line with this number.
pub(crate) fn exec_at(rules: &Rules, line: u32) -> &[Octets]
    ensures { result.now ≡ exec_in (options_at rules.entry.now line) }
{
    match rules.options(line) {
        Some(options) => options.exec.as_slice(),
        None => &[],
    }
}

/// What `netacl` prints of a permission, with the program's words where its line has some.
pub(crate) fn permit_print(alloc: Global, rules: &Rules, line: u32) -> Result<Octets, NoMemory>
    ensures { IfOk result (λ text. text ≡ print_text rules.now (Permit line)) }
{
    let mut out = Vec::new(alloc);
    out.extend_from_slice(verdict_text(Verdict::Permit { line }).as_slice())?;
    push_exec(&mut out, exec_at(rules, line))?;
    Ok(Octets::of(out))
}
