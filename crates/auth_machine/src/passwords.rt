//! Setting passwords.
ghost use Rattle.auth_machine.specs.Powers.{by_user, stores, with_otp, with_password};
ghost use Rattle.std.specs.Prelude.{◌≡◌};

use crate::Session;
use crate::change::{Change, stores};
use crate::machine_ref::MachineRef;
use crate::powers::by_user;
use crate::response::salted;
use crate::user_record::UserRecord;
use auth_events::OtpNumber;
use auth_records::{Otp, Plain, Seed};
use fw_types::Name;

fn sets_password(user: &UserRecord, salt: &[u8; 8], hash: &[u8; 16]) -> Change
    ensures { result ≡ stores (with_password salt.now hash.now user.now) }
{
    let mut record = user.record.twin();
    record.plain = Some(Plain {
        salt: *salt,
        hash: salted(salt, hash),
    });
    stores(record)
}

pub(crate) fn password(
    machine: &MachineRef,
    session: &Session,
    name: &Name,
    salt: &[u8; 8],
    hash: &[u8; 16],
) -> Change
    ensures { result ≡ by_user machine.now session.now name.now (λ f. stores (with_password salt.now hash.now f)) }
{
    match by_user(machine, session, name) {
        Ok(user) => sets_password(user, salt, hash),
        Err(denial) => Change::denied(denial),
    }
}

fn sets_otp(user: &UserRecord, number: &OtpNumber, word_seed: &Seed, word: u64) -> Change
    ensures { result ≡ stores (with_otp (record {
      number = number.now;
      word_seed = word_seed.now;
      kept =
          word;
    }) user.now) }
{
    let mut record = user.record.twin();
    record.otp = Some(Otp {
        number: number.value(),
        word_seed: word_seed.twin(),
        kept: word,
    });
    stores(record)
}

pub(crate) fn otp(
    machine: &MachineRef,
    session: &Session,
    name: &Name,
    number: &OtpNumber,
    word_seed: &Seed,
    word: u64,
) -> Change
    ensures { result ≡ by_user machine.now session.now name.now (λ f. stores (with_otp (record {
      number = number.now;
      word_seed = word_seed.now;
      kept = word;
    }) f)) }
{
    match by_user(machine, session, name) {
        Ok(user) => sets_otp(user, number, word_seed, word),
        Err(denial) => Change::denied(denial),
    }
}
