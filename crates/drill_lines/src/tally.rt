//! How often the peers of a drill are permitted and denied.
ghost use Rattle.std.specs.Prelude.{◌≡◌, ◌+◌, ◌≤◌, ◌++◌};
ghost use Rattle.std.specs.Fmt.{decimal};
ghost use Rattle.std.specs.List.{count_by};
ghost use Rattle.arrayvec.specs.ArrayVec.{array_vec_len};
ghost use Rattle.drill_lines.specs.Drill.{is_denial, is_permit, is_unmatched, tally_of, tally_text};

use crate::Drill;
use arrayvec::ArrayVec;
use fw_types::{append, append_decimal, append_u32};
use gate_rules::Verdict;

/// The counts of a drill.
#[derive(Clone, Copy, Debug, PartialEq, Eq)]
pub struct Tally {
    /// A line permits.
    pub permits: usize,
    /// A line denies.
    pub denials: usize,
    /// No line fits, so the table denies.
    pub unmatched: usize,
}

fn is_permit(verdict: Verdict) -> bool
    ensures { result ≡ is_permit verdict }
{
    match verdict {
        Verdict::Permit { .. } => true,
        Verdict::Deny { .. } => false,
    }
}

fn is_denial(verdict: Verdict) -> bool
    ensures { result ≡ is_denial verdict }
{
    match verdict {
        Verdict::Permit { .. } => false,
        Verdict::Deny { line } => line != 0,
    }
}

fn is_unmatched(verdict: Verdict) -> bool
    ensures { result ≡ is_unmatched verdict }
{
    match verdict {
        Verdict::Permit { .. } => false,
        Verdict::Deny { line } => line == 0,
    }
}

fn count_permits(verdicts: &[Verdict]) -> usize
    ensures { result ≡ count_by is_permit verdicts.now }
{
    verdicts
        .iter()
        .filter(|verdict| is_permit(**verdict))
        .count()
}

fn count_denials(verdicts: &[Verdict]) -> usize
    ensures { result ≡ count_by is_denial verdicts.now }
{
    verdicts
        .iter()
        .filter(|verdict| is_denial(**verdict))
        .count()
}

fn count_unmatched(verdicts: &[Verdict]) -> usize
    ensures { result ≡ count_by is_unmatched verdicts.now }
{
    verdicts
        .iter()
        .filter(|verdict| is_unmatched(**verdict))
        .count()
}

/// The counts of these verdicts.
pub(crate) fn tally_of(verdicts: &[Verdict]) -> Tally
    ensures { result ≡ tally_of verdicts.now }
{
    Tally {
        permits: count_permits(verdicts),
        denials: count_denials(verdicts),
        unmatched: count_unmatched(verdicts),
    }
}

fn append_count(out: &mut ArrayVec<u8, 128>, count: usize)
    requires { array_vec_len out.old ≤ 100 }
    ensures items { out.new.items ≡ out.old.items ++ decimal count }
    ensures room { array_vec_len out.new ≤ array_vec_len out.old + 20 }
{
    append_decimal(out, count as u64);
}

/// What is printed of a drill.
pub fn tally_line(drill: Drill, tally: Tally) -> ArrayVec<u8, 128>
    ensures { result.items ≡ tally_text drill tally }
{
    let mut out = ArrayVec::new();
    append(&mut out, b"drill ");
    append_u32(&mut out, drill.start);
    append(&mut out, b" ");
    append_u32(&mut out, drill.count);
    append(&mut out, b" permit ");
    append_count(&mut out, tally.permits);
    append(&mut out, b" deny ");
    append_count(&mut out, tally.denials);
    append(&mut out, b" none ");
    append_count(&mut out, tally.unmatched);
    append(&mut out, b"\n");
    out
}
