//! Writing a record as bytes.
ghost use Rattle.std.specs.Prelude.{◌≡◌, ◌≤◌, ◌<◌, ◌^◌, ◌++◌, ◌∷◌, length, option_map, is_some, IsTrue, Ok, IfOk, OnOk, IfSome};
ghost use Rattle.fw_types.specs.Name.{is_name};
ghost use Rattle.auth_records.specs.Texts.{is_long_name};
ghost use Rattle.auth_records.specs.Reading.{decoded};
ghost use Rattle.auth_records.specs.Spelling.{IsRecord, IsBytes, IsGroup, IsPlain, IsOtp, fields, otp_fields, record_bytes, head, dates, names, with_length, or_empty, flags, proto_byte, wiz_byte, plain_bytes, otp_bytes};

use crate::{Otp, Plain, Proto, Record, Wiz};
use fw_types::{Name, NoMemory, Octets};
use std::alloc::{AllocError, Global};

fn proto_byte(proto: Proto) -> u8
    ensures { result ≡ proto_byte proto }
{
    match proto {
        Proto::None => 0,
        Proto::Plain => 1,
        Proto::Otp => 2,
    }
}

fn wiz_byte(wiz: Wiz) -> u8
    ensures { result ≡ wiz_byte wiz }
{
    match wiz {
        Wiz::None => 0,
        Wiz::Group => 1,
        Wiz::Super => 2,
    }
}

fn flags(enabled: bool, has_plain: bool, has_otp: bool) -> u8
    ensures { result ≡ flags enabled has_plain has_otp }
{
    enabled as u8 + 2 * has_plain as u8 + 4 * has_otp as u8
}

/// What the flags of the record's bytes say.
#[tactic(auto, using(crate::proofs::OptionLemmas::some_kept))]
fn flags_of(rec: &Record) -> u8
    ensures { result ≡ flags (fields rec.now).enabled (is_some (fields rec.now).plain) (is_some (fields rec.now).otp) }
{
    flags(rec.enabled, rec.plain.is_some(), rec.otp.is_some())
}

fn put_head(out: &mut Vec<u8>, rec: &Record) -> Result<(), AllocError>
    ensures bytes { OnOk result (out.new.items ≡ out.old.items ++ 2 ∷ head (fields rec.now)) }
    ensures fails { OnOk result (rec.now.fails ≤ 5) }
    ensures since { OnOk result (rec.now.since < 2 ^ 64) }
{
    out.extend_from_slice(&[
        2,
        flags_of(rec),
        proto_byte(rec.proto),
        wiz_byte(rec.wiz),
        rec.fails,
    ])?;
    out.extend_from_slice(&rec.since.to_be_bytes())
}

fn put_dates(out: &mut Vec<u8>, rec: &Record) -> Result<(), AllocError>
    ensures bytes { OnOk result (out.new.items ≡ out.old.items ++ dates (fields rec.now)) }
    ensures last { OnOk result (rec.now.last < 2 ^ 64) }
    ensures expires { OnOk result (rec.now.expires < 2 ^ 64) }
{
    out.extend_from_slice(&rec.last.to_be_bytes())?;
    out.extend_from_slice(&rec.expires.to_be_bytes())
}

fn put_counted(out: &mut Vec<u8>, text: &[u8]) -> Result<(), AllocError>
    requires { length text.now < 256 }
    ensures { OnOk result (out.new.items ≡ out.old.items ++ with_length text.now) }
{
    out.extend_from_slice(&[text.len() as u8])?;
    out.extend_from_slice(text)
}

fn group_text(group: &Option<Name>) -> &[u8]
    ensures text { result.now ≡ or_empty group.now }
    ensures len { length result.now < 256 }
    ensures form { IsGroup group.now }
{
    match group {
        None => &[],
        Some(name) => name.text(),
    }
}

fn put_names(out: &mut Vec<u8>, rec: &Record) -> Result<(), AllocError>
    ensures bytes { OnOk result (out.new.items ≡ out.old.items ++ names (fields rec.now)) }
    ensures name { OnOk result (IsTrue (is_name rec.now.name)) }
    ensures long { OnOk result (IsTrue (is_long_name rec.now.long)) }
    ensures group { OnOk result (IsGroup rec.now.group) }
{
    put_counted(out, rec.name.text())?;
    put_counted(out, rec.long.text())?;
    put_counted(out, group_text(&rec.group))
}

fn put_bytes(out: &mut Vec<u8>, bytes: &[u8]) -> Result<(), AllocError>
    ensures bytes { OnOk result (out.new.items ≡ out.old.items ++ bytes.now) }
    ensures form { OnOk result (IsBytes bytes.now) }
{
    out.extend_from_slice(bytes)
}

fn put_plain(out: &mut Vec<u8>, plain: &Option<Plain>) -> Result<(), AllocError>
    ensures bytes { OnOk result (out.new.items ≡ out.old.items ++ plain_bytes plain.now) }
    ensures form { OnOk result (IfSome plain.now IsPlain) }
{
    if let Some(plain) = plain {
        put_bytes(out, &plain.salt)?;
        put_bytes(out, &plain.hash)?;
    }
    Ok(())
}

fn put_otp(out: &mut Vec<u8>, otp: &Option<Otp>) -> Result<(), AllocError>
    ensures bytes { OnOk result (out.new.items ≡ out.old.items ++ otp_bytes (option_map otp_fields otp.now)) }
    ensures form { OnOk result (IfSome (option_map otp_fields otp.now) IsOtp) }
{
    if let Some(otp) = otp {
        out.extend_from_slice(&otp.number.to_be_bytes())?;
        put_counted(out, otp.word_seed.text())?;
        out.extend_from_slice(&otp.kept.to_be_bytes())?;
    }
    Ok(())
}

/// The bytes of a record, in version 2.
#[tactic(auto, unfolding(crate::specs::Spelling::spelling))]
pub fn encode(alloc: Global, rec: &Record) -> Result<Octets, NoMemory>
    ensures bytes { IfOk result (λ octets. octets ≡ record_bytes rec.now) }
    // What every record is, by its type.
    ensures form { IfOk result (λ octets. IsRecord rec.now) }
    // So `decode` gives this one again.
    ensures decodes { IfOk result (λ octets. decoded octets ≡ Ok (fields rec.now)) }
{
    let mut out = Vec::new(alloc);
    put_head(&mut out, rec)?;
    put_dates(&mut out, rec)?;
    put_names(&mut out, rec)?;
    put_plain(&mut out, &rec.plain)?;
    put_otp(&mut out, &rec.otp)?;
    Ok(Octets::of(out))
}
