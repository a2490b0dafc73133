//! The rows of a link to a server, from its connect line to its greeting.
ghost use Rattle.std.specs.Prelude.{◌≡◌, ◌≤◌, length, true};
ghost use Rattle.ftp_gate.specs.Dialogue.{closed_row, connect_row, dialed_row, ftp_rows, greeted_row, is_well, pass_user_row, welcomed_row, with_dest};
ghost use Rattle.fw_acts.specs.Acts.Row.{At, Do};
ghost use Rattle.fw_acts.specs.Ran.{Ran};
ghost use Rattle.session_acts.specs.Acts.Act.{HangUp};
ghost use Rattle.session_acts.specs.Session.{leads};

use crate::log_lines::connect_line;
use crate::login::tell_row;
use crate::passing::{closed_row, pass_user_row};
use crate::{FtpScript, Place, State};
use fw_types::Dest;
use session_acts::{Cause, Replied, ReplyUse, Stage};

// Hangs up a link to a server that isn't well.
fn unwelcome_row<D: Stage>(
    stage: &mut D,
    script: &FtpScript,
    state: State,
) -> Result<Option<Place>, Cause>
    ensures { Ran (ftp_rows script.now) (Do HangUp (λ done. At (Place.Listening state))) leads (D.world stage.old)
        (D.world stage.new) result }
{
    let _ = script.line;
    stage.hang_up();
    Ok(Some(Place::Listening { state }))
}

fn with_dest(dest: Dest, state: State) -> State
    ensures { result ≡ with_dest dest state }
{
    State {
        account: state.account,
        dest: Some(dest),
        setting: state.setting,
    }
}

fn is_well(code: u16) -> bool
    ensures { result ≡ is_well code }
{
    code / 100 == 2
}

// Names the user to a server that is well.
fn welcomed_row<D: Stage>(
    stage: &mut D,
    script: &FtpScript,
    state: State,
    name: &[u8],
    dest: Dest,
    code: u16,
) -> Result<Option<Place>, Cause>
    requires { length name.now ≤ 512 }
    ensures { Ran (ftp_rows script.now) (welcomed_row script.now state name.now dest (is_well code)) leads
        (D.world stage.old) (D.world stage.new) result }
{
    if is_well(code) {
        return pass_user_row(stage, script, with_dest(dest, state), name);
    }
    unwelcome_row(stage, script, state)
}

// What follows the server's greeting.
fn greeted_row<D: Stage>(
    stage: &mut D,
    script: &FtpScript,
    state: State,
    name: &[u8],
    dest: Dest,
    replied: Replied,
) -> Result<Option<Place>, Cause>
    requires { length name.now ≤ 512 }
    ensures { Ran (ftp_rows script.now) (greeted_row script.now state name.now dest replied) leads
        (D.world stage.old) (D.world stage.new) result }
{
    match replied {
        Replied::Whole { code, .. } => welcomed_row(stage, script, state, name, dest, code),
        Replied::Ended => closed_row(stage, script),
    }
}

// Waits for the server's greeting.
#[tactic(auto, using(session_acts::proofs::Acting::acting))]
fn greeting_row<D: Stage>(
    stage: &mut D,
    script: &FtpScript,
    state: State,
    name: &[u8],
    dest: Dest,
) -> Result<Option<Place>, Cause>
    requires { length name.now ≤ 512 }
    ensures { Ran (ftp_rows script.now) (dialed_row script.now state name.now dest true) leads
        (D.world stage.old) (D.world stage.new) result }
{
    let replied = stage.take_reply(ReplyUse::Greeting)?;
    greeted_row(stage, script, state, name, dest, replied)
}

// Goes on where the link came up.
fn dialed_row<D: Stage>(
    stage: &mut D,
    script: &FtpScript,
    state: State,
    name: &[u8],
    dest: Dest,
    up: bool,
) -> Result<Option<Place>, Cause>
    requires { length name.now ≤ 512 }
    ensures { Ran (ftp_rows script.now) (dialed_row script.now state name.now dest up) leads (D.world stage.old)
        (D.world stage.new) result }
{
    if up {
        return greeting_row(stage, script, state, name, dest);
    }
    tell_row(stage, script, b"425 No route\r\n", state)
}

/// Logs that the client is linked to a destination, and asks for it.
#[tactic(auto, using(session_acts::proofs::Acting::acting))]
pub(crate) fn connect_row<D: Stage>(
    stage: &mut D,
    script: &FtpScript,
    state: State,
    name: &[u8],
    dest: Dest,
) -> Result<Option<Place>, Cause>
    requires { length name.now ≤ 512 }
    ensures { Ran (ftp_rows script.now) (connect_row script.now state name.now dest) leads (D.world stage.old)
        (D.world stage.new) result }
{
    let line = connect_line(script, &dest);
    stage.log(line.as_slice())?;
    let up = stage.dial(&dest);
    dialed_row(stage, script, state, name, dest, up)
}
