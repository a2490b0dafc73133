//! How long a client, and a server, are waited for.
ghost use Rattle.std.specs.Prelude.{◌≡◌};
ghost use Rattle.client_service.specs.Meeting.{seconds_by, timeout_of};
ghost use Rattle.fw_outside.specs.DialerView.{dialer_waiting};
ghost use Rattle.fw_outside.specs.SourceView.{waiting};

use fw_outside::{Dialer, Source};
use gate_rules::{Rules, Setting};

fn seconds_by(set: Option<(u64, u32)>) -> u32
    ensures { result ≡ seconds_by set }
{
    match set {
        Some((value, _)) => u32::try_from(value).unwrap_or(u32::MAX),
        None => 3600,
    }
}

/// The seconds that a source waits for a client.
pub(crate) fn timeout_of(rules: &Rules) -> u32
    ensures { result ≡ timeout_of rules.now }
{
    seconds_by(rules.setting(Setting::Timeout))
}

/// Sets how long the client's source, and later links, wait.
pub(crate) fn set_waits<S: Source, D: Dialer>(seconds: u32, from: &mut S, dialer: &mut D)
    ensures source { S.source_view from.new ≡ waiting (S.source_view from.old) seconds }
    ensures links { D.dialer_view dialer.new ≡ dialer_waiting (D.dialer_view dialer.old) seconds }
{
    from.patience(seconds);
    dialer.patience(seconds);
}
