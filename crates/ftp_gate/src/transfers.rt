//! The rows of a transfer up to its data links.
ghost use Rattle.std.specs.Prelude.{◌≡◌, Some, None};
ghost use Rattle.ftp_gate.specs.Dialogue.{data_port, ftp_rows, joined_row, passive_row, port_in, ported_row, transfer_row, with_setting};
ghost use Rattle.fw_acts.specs.Acts.Row.{Do};
ghost use Rattle.fw_acts.specs.Ran.{Ran};
ghost use Rattle.session_acts.specs.Acts.Act.{TakeReply};
ghost use Rattle.session_acts.specs.Session.{leads};

use crate::copies::joined_row;
use crate::login::tell_row;
use crate::passing::closed_row;
use crate::settings::with_setting;
use crate::{FtpScript, Order, Place, State};
use fw_types::Dest;
use session_acts::{Cause, Replied, ReplyUse, Stage, Target, Toward};

// Asks for both data links.
#[tactic(auto, using(session_acts::proofs::Acting::acting))]
fn join_row<D: Stage>(
    stage: &mut D,
    script: &FtpScript,
    state: State,
    dest: &Dest,
    target: Target,
    toward: Toward,
    order: &Order,
    port: u16,
) -> Result<Option<Place>, Cause>
    ensures { Ran (ftp_rows script.now) (ported_row script.now state dest.now target toward order.now (Some port))
        leads (D.world stage.old) (D.world stage.new) result }
{
    let side = Dest {
        host: dest.host.twin(),
        port,
    };
    let joined = stage.join(&side, target);
    joined_row(stage, script, state, toward, order, joined)
}

// Goes on where the server has a data port.
fn ported_row<D: Stage>(
    stage: &mut D,
    script: &FtpScript,
    state: State,
    dest: &Dest,
    target: Target,
    toward: Toward,
    order: &Order,
    port: Option<u16>,
) -> Result<Option<Place>, Cause>
    ensures { Ran (ftp_rows script.now) (ported_row script.now state dest.now target toward order.now port) leads
        (D.world stage.old) (D.world stage.new) result }
{
    match port {
        Some(port) => join_row(stage, script, state, dest, target, toward, order, port),
        None => tell_row(stage, script, b"425 Server has no data port\r\n", state),
    }
}

fn port_in(six: Option<([u8; 4], u16)>) -> Option<u16>
    ensures { result ≡ port_in six }
{
    match six {
        Some((_, port)) => Some(port),
        None => None,
    }
}

fn data_port(code: u16, six: Option<([u8; 4], u16)>) -> Option<u16>
    ensures { result ≡ data_port code six }
{
    if code == 227 { port_in(six) } else { None }
}

// What follows the server's reply to `PASV`.
fn passive_row<D: Stage>(
    stage: &mut D,
    script: &FtpScript,
    state: State,
    dest: &Dest,
    target: Target,
    toward: Toward,
    order: &Order,
    replied: Replied,
) -> Result<Option<Place>, Cause>
    ensures { Ran (ftp_rows script.now) (passive_row script.now state dest.now target toward order.now replied) leads
        (D.world stage.old) (D.world stage.new) result }
{
    match replied {
        Replied::Whole { code, six } => ported_row(
            stage,
            script,
            state,
            dest,
            target,
            toward,
            order,
            data_port(code, six),
        ),
        Replied::Ended => closed_row(stage, script),
    }
}

// Waits for the server's reply to `PASV`.
#[tactic(auto, using(session_acts::proofs::Acting::acting))]
fn data_row<D: Stage>(
    stage: &mut D,
    script: &FtpScript,
    state: State,
    dest: &Dest,
    target: Target,
    toward: Toward,
    order: &Order,
) -> Result<Option<Place>, Cause>
    ensures { Ran (ftp_rows script.now) (Do (TakeReply ReplyUse.Dropped)
        (λ heard. passive_row script.now state dest.now target toward order.now heard.0)) leads (D.world stage.old)
        (D.world stage.new) result }
{
    let replied = stage.take_reply(ReplyUse::Dropped)?;
    passive_row(stage, script, state, dest, target, toward, order, replied)
}

// Asks the server for a data port. What was set is used up.
#[tactic(auto, using(session_acts::proofs::Acting::acting))]
fn set_row<D: Stage>(
    stage: &mut D,
    script: &FtpScript,
    state: State,
    dest: &Dest,
    toward: Toward,
    order: &Order,
    target: Target,
) -> Result<Option<Place>, Cause>
    ensures { Ran (ftp_rows script.now) (transfer_row script.now state dest.now toward order.now (Some target)) leads
        (D.world stage.old) (D.world stage.new) result }
{
    stage.pass(b"PASV\r\n")?;
    data_row(
        stage,
        script,
        with_setting(None, state),
        dest,
        target,
        toward,
        order,
    )
}

/// What follows a command that transfers data.
pub(crate) fn transfer_row<D: Stage>(
    stage: &mut D,
    script: &FtpScript,
    state: State,
    dest: &Dest,
    toward: Toward,
    order: &Order,
) -> Result<Option<Place>, Cause>
    ensures { Ran (ftp_rows script.now) (transfer_row script.now state dest.now toward order.now state.setting) leads
        (D.world stage.old) (D.world stage.new) result }
{
    match state.setting {
        Some(target) => set_row(stage, script, state, dest, toward, order, target),
        None => tell_row(stage, script, b"425 Use PORT or PASV first\r\n", state),
    }
}
