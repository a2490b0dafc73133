//! The rows of the login.
ghost use Rattle.std.specs.Prelude.{◌≡◌, false, true, Some, ◌&&◌};
ghost use Rattle.auth_events.specs.Login.{is_full};
ghost use Rattle.ftp_gate.specs.Dialogue.{answered_row, authenticate_row, authorize_row, failed_row, ftp_rows, name_row, named_row, opened_row, response_row, tell_row, with_account};
ghost use Rattle.ftp_gate.specs.Texts.{challenge_asked};
ghost use Rattle.fw_acts.specs.Acts.Row.{Do};
ghost use Rattle.fw_acts.specs.Ran.{Ran};
ghost use Rattle.fw_types.specs.Name.{name_of};
ghost use Rattle.md5.specs.Md5.{md5};
ghost use Rattle.otp_md5.specs.Hexadecimal.{read_of};
ghost use Rattle.session_acts.specs.Acts.Act.{Ask};
ghost use Rattle.session_acts.specs.Met.{is_password};
ghost use Rattle.session_acts.specs.Session.{leads};

use crate::log_lines::{fail_line, login_line};
use crate::texts::challenge_asked;
use crate::{Account, FtpScript, Place, State};
use auth_events::{Denial, Reply, Request};
use auth_records::Seed;
use fw_types::Name;
use md5::{Digest, Md5};
use otp_md5::read_hex;
use session_acts::{Cause, Stage, tell};

/// Tells the client words, and hears it again.
pub(crate) fn tell_row<D: Stage>(
    stage: &mut D,
    script: &FtpScript,
    words: &[u8],
    state: State,
) -> Result<Option<Place>, Cause>
    ensures { Ran (ftp_rows script.now) (tell_row words.now state) leads (D.world stage.old) (D.world stage.new) result }
{
    let _ = script.line;
    tell(stage, words, Some(Place::Listening { state }))
}

// The session with this account.
fn with_account(account: Account, state: State) -> State
    ensures { result ≡ with_account account state }
{
    State {
        account,
        dest: state.dest,
        setting: state.setting,
    }
}

// Logs that a login failed, and then tells so.
#[tactic(auto, using(session_acts::proofs::Acting::acting))]
fn failed_row<D: Stage>(
    stage: &mut D,
    script: &FtpScript,
    name: &Name,
    denial: Denial,
    state: State,
) -> Result<Option<Place>, Cause>
    ensures { Ran (ftp_rows script.now) (failed_row script.now name.now denial state) leads (D.world stage.old)
        (D.world stage.new) result }
{
    let line = fail_line(script, name, denial);
    stage.log(line.as_slice())?;
    tell_row(stage, script, b"530 Login denied\r\n", state)
}

// Logs that a login of this user failed, who was asked about last, and then tells so.
fn denied_row<D: Stage>(
    stage: &mut D,
    script: &FtpScript,
    state: State,
    name: Name,
    stands: bool,
    denial: Denial,
) -> Result<Option<Place>, Cause>
    ensures { Ran (ftp_rows script.now) (failed_row script.now name denial (with_account (Account.Opened name stands) state)) leads
        (D.world stage.old) (D.world stage.new) result }
{
    let account = Account::Opened {
        name: name.twin(),
        logged_in: stands,
    };
    failed_row(stage, script, &name, denial, with_account(account, state))
}

// Asks for a one-time password.
fn challenged_row<D: Stage>(
    stage: &mut D,
    script: &FtpScript,
    state: State,
    number: u32,
    word_seed: &Seed,
) -> Result<Option<Place>, Cause>
    ensures { Ran (ftp_rows script.now) (tell_row (challenge_asked number word_seed.now) state) leads
        (D.world stage.old) (D.world stage.new) result }
{
    let text = challenge_asked(number, word_seed);
    tell_row(stage, script, text.as_slice(), state)
}

// Asks for the response of a user, or denies the login.
fn named_row<D: Stage>(
    stage: &mut D,
    script: &FtpScript,
    state: State,
    name: Name,
    stands: bool,
    reply: &Reply,
) -> Result<Option<Place>, Cause>
    ensures { Ran (ftp_rows script.now) (named_row script.now state name stands reply.now) leads (D.world stage.old)
        (D.world stage.new) result }
{
    match reply {
        Reply::Password => {
            let account = Account::Opened {
                name,
                logged_in: stands,
            };
            tell_row(
                stage,
                script,
                b"331 Send RESPONSE password\r\n",
                with_account(account, state),
            )
        }
        Reply::Challenge { number, word_seed } => {
            let account = Account::Opened {
                name,
                logged_in: stands,
            };
            challenged_row(
                stage,
                script,
                with_account(account, state),
                *number,
                word_seed,
            )
        }
        Reply::Denied(denial) => denied_row(stage, script, state, name, stands, *denial),
        Reply::Opened { .. } => denied_row(stage, script, state, name, stands, Denial::NotIn),
        Reply::Ok => denied_row(stage, script, state, name, stands, Denial::NotIn),
        Reply::Shown(_) => denied_row(stage, script, state, name, stands, Denial::NotIn),
    }
}

fn says_full(denial: &Denial) -> bool
    ensures { result ≡ is_full (Reply.Denied denial.now) }
{
    matches!(denial, Denial::Full { .. })
}

fn is_full(reply: &Reply) -> bool
    ensures { result ≡ is_full reply.now }
{
    match reply {
        Reply::Denied(denial) => says_full(denial),
        Reply::Opened { .. }
        | Reply::Password
        | Reply::Challenge { .. }
        | Reply::Ok
        | Reply::Shown(_) => false,
    }
}

fn still_stands(stood: bool, reply: &Reply) -> bool
    ensures { result ≡ (stood && is_full reply.now) }
{
    stood && is_full(reply)
}

// Asks how a user proves who they are.
#[tactic(auto, using(session_acts::proofs::Acting::acting))]
fn authenticate_row<D: Stage>(
    stage: &mut D,
    script: &FtpScript,
    state: State,
    name: Name,
    stood: bool,
) -> Result<Option<Place>, Cause>
    ensures { Ran (ftp_rows script.now) (authenticate_row script.now state name stood) leads (D.world stage.old)
        (D.world stage.new) result }
{
    let reply = stage.ask(Request::Authenticate { name: name.twin() })?;
    let stands = still_stands(stood, &reply);
    named_row(stage, script, state, name, stands, &reply)
}

// Goes on with the name where a session was opened.
fn opened_row<D: Stage>(
    stage: &mut D,
    script: &FtpScript,
    state: State,
    name: Name,
    reply: &Reply,
) -> Result<Option<Place>, Cause>
    ensures { Ran (ftp_rows script.now) (opened_row script.now state name reply.now) leads (D.world stage.old)
        (D.world stage.new) result }
{
    match reply {
        Reply::Opened { .. } => authenticate_row(stage, script, state, name, false),
        Reply::Denied(denial) => failed_row(stage, script, &name, *denial, state),
        Reply::Password => failed_row(stage, script, &name, Denial::NotIn, state),
        Reply::Challenge { .. } => failed_row(stage, script, &name, Denial::NotIn, state),
        Reply::Ok => failed_row(stage, script, &name, Denial::NotIn, state),
        Reply::Shown(_) => failed_row(stage, script, &name, Denial::NotIn, state),
    }
}

// Opens a session for the first name.
#[tactic(auto, using(session_acts::proofs::Acting::acting))]
fn first_name_row<D: Stage>(
    stage: &mut D,
    script: &FtpScript,
    state: State,
    name: Name,
) -> Result<Option<Place>, Cause>
    ensures { Ran (ftp_rows script.now) (name_row script.now state Account.Unopened name) leads (D.world stage.old)
        (D.world stage.new) result }
{
    let reply = stage.ask(Request::Open { console: false })?;
    opened_row(stage, script, state, name, &reply)
}

// Asks about a name.
fn name_row<D: Stage>(
    stage: &mut D,
    script: &FtpScript,
    state: State,
    name: Name,
) -> Result<Option<Place>, Cause>
    ensures { Ran (ftp_rows script.now) (name_row script.now state state.account name) leads (D.world stage.old)
        (D.world stage.new) result }
{
    match &state.account {
        Account::Unopened => first_name_row(stage, script, state, name),
        Account::Opened { logged_in, .. } => {
            let stood = *logged_in;
            authenticate_row(stage, script, state, name, stood)
        }
    }
}

/// Asks about a name, or denies a text that is none.
pub(crate) fn authorize_row<D: Stage>(
    stage: &mut D,
    script: &FtpScript,
    state: State,
    arg: &[u8],
) -> Result<Option<Place>, Cause>
    ensures { Ran (ftp_rows script.now) (authorize_row script.now state (name_of arg.now)) leads (D.world stage.old)
        (D.world stage.new) result }
{
    match Name::read(arg) {
        Some(name) => name_row(stage, script, state, name),
        None => tell_row(stage, script, b"530 Login denied\r\n", state),
    }
}

// Logs a login, and tells of it.
#[tactic(auto, using(session_acts::proofs::Acting::acting))]
fn logged_in_row<D: Stage>(
    stage: &mut D,
    script: &FtpScript,
    state: State,
    name: Name,
) -> Result<Option<Place>, Cause>
    ensures { Ran (ftp_rows script.now) (answered_row script.now state name Reply.Ok) leads (D.world stage.old)
        (D.world stage.new) result }
{
    let line = login_line(script, &name);
    stage.log(line.as_slice())?;
    let account = Account::Opened {
        name,
        logged_in: true,
    };
    tell_row(
        stage,
        script,
        b"230 Login ok\r\n",
        with_account(account, state),
    )
}

// Lets the user in, or denies the login.
fn answered_row<D: Stage>(
    stage: &mut D,
    script: &FtpScript,
    state: State,
    name: Name,
    reply: &Reply,
) -> Result<Option<Place>, Cause>
    ensures { Ran (ftp_rows script.now) (answered_row script.now state name reply.now) leads (D.world stage.old)
        (D.world stage.new) result }
{
    match reply {
        Reply::Ok => logged_in_row(stage, script, state, name),
        Reply::Denied(denial) => failed_row(stage, script, &name, *denial, state),
        Reply::Opened { .. } => failed_row(stage, script, &name, Denial::NotIn, state),
        Reply::Password => failed_row(stage, script, &name, Denial::NotIn, state),
        Reply::Challenge { .. } => failed_row(stage, script, &name, Denial::NotIn, state),
        Reply::Shown(_) => failed_row(stage, script, &name, Denial::NotIn, state),
    }
}

// What is asked of a response.
fn response(text: &[u8]) -> Request
    ensures is { result ≡ Request.Response (md5 text.now) (read_of text.now) }
    ensures plain { is_password result ≡ false }
{
    Request::Response {
        hash: Md5::digest(text),
        word: read_hex(text),
    }
}

// Asks whether a response is right.
#[tactic(auto, using(session_acts::proofs::Acting::acting))]
fn respond_row<D: Stage>(
    stage: &mut D,
    script: &FtpScript,
    state: State,
    name: Name,
    text: &[u8],
) -> Result<Option<Place>, Cause>
    ensures { Ran (ftp_rows script.now) (Do (Ask (Request.Response (md5 text.now) (read_of text.now)))
        (answered_row script.now state name)) leads (D.world stage.old) (D.world stage.new) result }
{
    let reply = stage.ask(response(text))?;
    answered_row(stage, script, state, name, &reply)
}

/// Asks whether a response is right, where a session was opened.
pub(crate) fn response_row<D: Stage>(
    stage: &mut D,
    script: &FtpScript,
    state: State,
    text: &[u8],
) -> Result<Option<Place>, Cause>
    ensures { Ran (ftp_rows script.now) (response_row script.now state state.account text.now) leads
        (D.world stage.old) (D.world stage.new) result }
{
    match &state.account {
        Account::Unopened => tell_row(stage, script, b"503 AUTHORIZE first\r\n", state),
        Account::Opened { name, .. } => {
            let name = name.twin();
            respond_row(stage, script, state, name, text)
        }
    }
}
