//! Why no password is told, as the log says it.
ghost use Rattle.std.specs.Prelude.{◌≡◌, ◌+◌, ◌≤◌, ◌++◌};
ghost use Rattle.arrayvec.specs.ArrayVec.{array_vec_len};
ghost use Rattle.bastion.specs.Outcome.{dictionary_text, otp_text, words_text};

use crate::OtpRefusal;
use client_service::LogLine;
use fw_types::{append, append_u32};
use otp_words::{DictFault, WordsFault};

// Appends what is wrong with a dictionary.
fn append_dictionary(out: &mut LogLine, fault: DictFault)
    requires { array_vec_len out.old ≤ 400 }
    ensures items { out.new.items ≡ out.old.items ++ dictionary_text fault }
    ensures room { array_vec_len out.new ≤ array_vec_len out.old + 20 }
{
    match fault {
        DictFault::BadWord { line } | DictFault::Twice { line } => {
            append(out, b"line ");
            append_u32(out, line);
        }
        DictFault::Long => append(out, b"long"),
        DictFault::Short { .. } => append(out, b"short"),
        DictFault::ReadFault | DictFault::NoMemory => {}
    }
}

// Appends what is wrong with six words.
fn append_words(out: &mut LogLine, fault: WordsFault)
    requires { array_vec_len out.old ≤ 400 }
    ensures items { out.new.items ≡ out.old.items ++ words_text fault }
    ensures room { array_vec_len out.new ≤ array_vec_len out.old + 20 }
{
    match fault {
        WordsFault::Count => append(out, b"count"),
        WordsFault::NoWord { at } => {
            append(out, b"word ");
            append_u32(out, u32::from(at));
        }
        WordsFault::Check => append(out, b"check"),
    }
}

/// Appends why no password is told.
pub(crate) fn append_otp(out: &mut LogLine, refusal: OtpRefusal)
    requires { array_vec_len out.old ≤ 300 }
    ensures items { out.new.items ≡ out.old.items ++ otp_text refusal }
    ensures room { array_vec_len out.new ≤ array_vec_len out.old + 40 }
{
    match refusal {
        OtpRefusal::Dictionary(fault) => {
            append(out, b"dictionary ");
            append_dictionary(out, fault);
        }
        OtpRefusal::Challenge => append(out, b"challenge"),
        OtpRefusal::Words(fault) => {
            append(out, b"words ");
            append_words(out, fault);
        }
    }
}
