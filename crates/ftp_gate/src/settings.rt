//! The rows of `PORT` and `PASV`: where the client's data link is to come from.
ghost use Rattle.std.specs.Prelude.{◌≡◌, ◌&&◌, nat_le, Some, None, false};
ghost use Rattle.ftp_gate.specs.Dialogue.{door_row, ftp_rows, is_peers, own_target, port_row, with_setting};
ghost use Rattle.ftp_lines.specs.Six.{six_of};
ghost use Rattle.fw_acts.specs.Acts.Row.{Do};
ghost use Rattle.fw_acts.specs.Ran.{Ran};
ghost use Rattle.session_acts.specs.Acts.Act.{OpenDoor};
ghost use Rattle.session_acts.specs.Session.{leads};

use crate::login::tell_row;
use crate::texts::passive_mode;
use crate::{FtpScript, Place, State};
use ftp_lines::read_six;
use session_acts::{Cause, Stage, Target};

/// The session with this setting.
pub(crate) fn with_setting(setting: Option<Target>, state: State) -> State
    ensures { result ≡ with_setting setting state }
{
    State {
        account: state.account,
        dest: state.dest,
        setting,
    }
}

fn is_peers(own: &Option<[u8; 4]>, addr: [u8; 4]) -> bool
    ensures { result ≡ is_peers own.now addr }
{
    match own {
        Some(own) => *own == addr,
        None => false,
    }
}

fn may_reach(own: &Option<[u8; 4]>, addr: [u8; 4], port: u16) -> bool
    ensures { result ≡ (is_peers own.now addr && nat_le 1024 port) }
{
    is_peers(own, addr) && 1024 <= port
}

// The client's own address, and a port that isn't reserved.
fn own_target(own: &Option<[u8; 4]>, arg: &[u8]) -> Option<Target>
    ensures { result ≡ own_target own.now (six_of arg.now) }
{
    let (addr, port) = read_six(arg)?;
    if may_reach(own, addr, port) {
        Some(Target::Addr { addr, port })
    } else {
        None
    }
}

/// Sets the client's port.
pub(crate) fn port_row<D: Stage>(
    stage: &mut D,
    script: &FtpScript,
    state: State,
    arg: &[u8],
) -> Result<Option<Place>, Cause>
    ensures { Ran (ftp_rows script.now) (port_row state (own_target script.now.peer.addr (six_of arg.now))) leads
        (D.world stage.old) (D.world stage.new) result }
{
    match own_target(&script.peer().addr, arg) {
        Some(target) => tell_row(
            stage,
            script,
            b"200 PORT ok\r\n",
            with_setting(Some(target), state),
        ),
        None => tell_row(
            stage,
            script,
            b"501 PORT must name your own address\r\n",
            state,
        ),
    }
}

// Tells where a door stands.
fn opened_row<D: Stage>(
    stage: &mut D,
    script: &FtpScript,
    state: State,
    addr: [u8; 4],
    port: u16,
) -> Result<Option<Place>, Cause>
    ensures { Ran (ftp_rows script.now) (door_row state (Some (addr, port))) leads (D.world stage.old)
        (D.world stage.new) result }
{
    let text = passive_mode(addr, port);
    tell_row(
        stage,
        script,
        text.as_slice(),
        with_setting(Some(Target::AtDoor), state),
    )
}

// Tells of a door, which is then set.
fn doored_row<D: Stage>(
    stage: &mut D,
    script: &FtpScript,
    state: State,
    door: Option<([u8; 4], u16)>,
) -> Result<Option<Place>, Cause>
    ensures { Ran (ftp_rows script.now) (door_row state door) leads (D.world stage.old) (D.world stage.new) result }
{
    match door {
        Some(place) => {
            let (addr, port) = place;
            opened_row(stage, script, state, addr, port)
        }
        None => tell_row(stage, script, b"425 No door\r\n", state),
    }
}

/// Opens a door.
#[tactic(auto, using(session_acts::proofs::Acting::acting))]
pub(crate) fn door_row<D: Stage>(
    stage: &mut D,
    script: &FtpScript,
    state: State,
) -> Result<Option<Place>, Cause>
    ensures { Ran (ftp_rows script.now) (Do OpenDoor (door_row state)) leads (D.world stage.old) (D.world stage.new) result }
{
    let door = stage.open_door();
    doored_row(stage, script, state, door)
}
