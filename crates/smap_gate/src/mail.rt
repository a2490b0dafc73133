//! The rows of a message and its data.
ghost use Rattle.std.specs.Prelude.{◌≡◌, ◌≤◌, false, length, IfOk, IfSome};
ghost use Rattle.fw_acts.specs.Ran.{Ran};
ghost use Rattle.session_acts.specs.Session.{leads};
ghost use Rattle.slot_bytes.specs.Layout.{IsEnvelope};
ghost use Rattle.smap_gate.specs.Dialogue.{data_if, data_row, deposited_row, kept_row, smap_rows};
ghost use Rattle.smap_gate.specs.Draft.{IsDraft, IsPlace};

use crate::log_lines::mail_line;
use crate::rows::tell_at;
use crate::texts::kept;
use crate::{Place, SmapScript};
use fw_types::OctetsList;
use session_acts::{Cause, Deposited, Stage};
use smap_lines::Path;

// Logs that a message was kept, and then tells so.
#[tactic(auto, using(session_acts::proofs::Acting::acting))]
fn kept_row<D: Stage>(
    stage: &mut D,
    script: &SmapScript,
    slot: u32,
    rcpts: u32,
    bytes: u32,
) -> Result<Option<Place>, Cause>
    ensures ran { Ran (smap_rows script.now) (kept_row script.now slot rcpts bytes) leads (D.world stage.old)
        (D.world stage.new) result }
    ensures form { IfOk result (λ next. IfSome next (IsPlace script.now)) }
{
    let line = mail_line(script.peer(), slot, rcpts, bytes);
    stage.log(line.as_slice())?;
    let text = kept(slot);
    tell_at(stage, script, text.as_slice(), Place::Waiting)
}

// Tells what became of a message.
fn deposited_row<D: Stage>(
    stage: &mut D,
    script: &SmapScript,
    rcpts: u32,
    deposited: Deposited,
) -> Result<Option<Place>, Cause>
    ensures ran { Ran (smap_rows script.now) (deposited_row script.now rcpts deposited) leads (D.world stage.old)
        (D.world stage.new) result }
    ensures form { IfOk result (λ next. IfSome next (IsPlace script.now)) }
{
    match deposited {
        Deposited::NoSlot => tell_at(stage, script, b"452 No free slot\r\n", Place::Waiting),
        Deposited::NotBegun => tell_at(stage, script, b"451 Disk fault\r\n", Place::Waiting),
        Deposited::Kept { slot, bytes } => kept_row(stage, script, slot, rcpts, bytes),
        Deposited::TooLarge => {
            tell_at(stage, script, b"552 Message too large\r\n", Place::Waiting)
        }
        Deposited::Faulted => tell_at(stage, script, b"451 Disk fault\r\n", Place::Waiting),
        Deposited::Ended => Ok(None),
    }
}

// How many recipients there are.
fn count_of(rcpts: &OctetsList) -> u32
    requires { length rcpts.now ≤ 1000 }
    ensures { result ≡ length rcpts.now }
{
    rcpts.len() as u32
}

// Puts a message in a slot, and tells what became of it.
fn deposit_row<D: Stage>(
    stage: &mut D,
    script: &SmapScript,
    sender: &Path,
    rcpts: &OctetsList,
) -> Result<Option<Place>, Cause>
    requires { IsEnvelope sender.now rcpts.now }
    ensures ran { Ran (smap_rows script.now) (data_if false script.now sender.now rcpts.now) leads (D.world stage.old)
        (D.world stage.new) result }
    ensures form { IfOk result (λ next. IfSome next (IsPlace script.now)) }
{
    let most = script.most_bytes();
    let deposited = stage.deposit(
        script.alloc(),
        sender.text(),
        rcpts,
        b"354 End with a period\r\n",
        most,
    )?;
    deposited_row(stage, script, count_of(rcpts), deposited)
}

// The data of a message from a sender that stands.
fn draft_row<D: Stage>(
    stage: &mut D,
    script: &SmapScript,
    sender: Path,
    rcpts: OctetsList,
) -> Result<Option<Place>, Cause>
    requires { IsDraft script.now sender rcpts }
    ensures ran { Ran (smap_rows script.now) (data_row script.now (Place.Mailing sender rcpts)) leads (D.world stage.old)
        (D.world stage.new) result }
    ensures form { IfOk result (λ next. IfSome next (IsPlace script.now)) }
{
    if rcpts.is_empty() {
        return tell_at(
            stage,
            script,
            b"503 Bad sequence\r\n",
            Place::Mailing { sender, rcpts },
        );
    }
    let _ = script.most_rcpts();
    deposit_row(stage, script, &sender, &rcpts)
}

/// The data of a message.
pub(crate) fn data_row<D: Stage>(
    stage: &mut D,
    script: &SmapScript,
    place: Place,
) -> Result<Option<Place>, Cause>
    requires { IsPlace script.now place }
    ensures ran { Ran (smap_rows script.now) (data_row script.now place) leads (D.world stage.old) (D.world stage.new)
        result }
    ensures form { IfOk result (λ next. IfSome next (IsPlace script.now)) }
{
    match place {
        Place::Waiting => tell_at(stage, script, b"503 Bad sequence\r\n", Place::Waiting),
        Place::Mailing { sender, rcpts } => draft_row(stage, script, sender, rcpts),
    }
}
