//! Whom the second name of a hello is, and at which host.
ghost use Rattle.std.specs.Prelude.{◌≡◌, ◌+◌, ◌<◌, ◌≤◌, drop, length, take, IfSome, MatchOption, Some, None};
ghost use Rattle.fw_types.specs.Host.{host_of};
ghost use Rattle.rlogin_hello.specs.ServerUser.{cut_at_last, user_at, with_host};

use fw_types::Host;
use memchr::memrchr;

/// A user of a host: some bytes that aren't empty.
#[derive(Drop)]
pub(crate) struct UserOf<'a> {
    pub user: &'a [u8],
    pub host: Host,
}

// What stands before a place of a text.
fn front(text: &[u8], at: usize) -> &[u8]
    requires { at ≤ length text.now }
    ensures is { result.now ≡ take at text.now }
    ensures short { length result.now ≤ length text.now }
{
    &text[..at]
}

// What stands after a place of a text.
fn rest(text: &[u8], at: usize) -> &[u8]
    requires { at < length text.now }
    ensures { result.now ≡ drop (at + 1) text.now }
{
    &text[at + 1..]
}

// What stands before the last `@`, and after it.
fn cut_at_last(text: &[u8]) -> Option<(&[u8], &[u8])>
    ensures is { MatchOption result (cut_at_last text.now ≡ None) (λ cut. cut_at_last text.now ≡ Some (
      cut.0.now,
      cut.1.now,
    )) }
    ensures short { IfSome result (λ cut. length cut.0.now ≤ length text.now) }
{
    match memrchr(b'@', text) {
        Some(at) => Some((front(text, at), rest(text, at))),
        None => None,
    }
}

// A user at a host, where the user isn't empty.
fn with_host(user: &[u8], host: Option<Host>) -> Option<UserOf<'_>>
    ensures is { MatchOption result (with_host user.now host ≡ None) (λ at. with_host user.now host ≡ Some record {
      user = at.user.now;
      host = at.host;
    }) }
    ensures same { IfSome result (λ at. at.user.now ≡ user.now) }
{
    match (user, host) {
        ([_, ..], Some(host)) => Some(UserOf { user, host }),
        _ => None,
    }
}

/// The user and the host that a text names: NAME@HOST, cut at the last `@`.
#[tactic(auto, unfolding(crate::specs::ServerUser::user_at))]
pub(crate) fn read_user_at(text: &[u8]) -> Option<UserOf<'_>>
    ensures is { MatchOption result (user_at text.now ≡ None) (λ at. user_at text.now ≡ Some record {
      user = at.user.now;
      host = at.host;
    }) }
    ensures short { IfSome result (λ at. length at.user.now ≤ length text.now) }
{
    match cut_at_last(text) {
        Some((user, host_text)) => with_host(user, Host::read(host_text)),
        None => None,
    }
}
