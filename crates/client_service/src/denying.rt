//! A client whom the rules deny.
ghost use Rattle.std.specs.Prelude.{◌≡◌};
ghost use Rattle.std.specs.Option.{option_map};
ghost use Rattle.client_service.specs.Endings.{Noted};
ghost use Rattle.client_service.specs.Meeting.{denied_by};
ghost use Rattle.client_service.specs.TurningAway.{LogsAlone, TellsOff, TurnedAway, TurnedBy};

use crate::decision::{LogLine, decision_line};
use crate::endings::denied_words;
use fw_outside::{Failed, Sink};
use fw_types::{Ending, Peer};
use gate_rules::{Service, Verdict};

// Whom a line denies ends as denied, where that was logged.
fn denied_by(line: u32, told: Ending) -> Ending
    ensures { result ≡ denied_by line told }
{
    match told {
        Ending::Done => Ending::Denied { line },
        _ => told,
    }
}

// Tries to tell the client these words.
fn try_words<K: Sink>(words: &[u8], to: &mut K)
    ensures { Noted words.now (K.sink_view to.old) (K.sink_view to.new) }
{
    let _ = to.give(words);
}

// Logs this line and then tries to tell the client these words. Nothing else is touched.
fn turn_away<K: Sink, G: Sink>(line: &[u8], words: &[u8], to: &mut K, logs: &mut G) -> Ending
    ensures { TurnedAway line.now words.now result (K.sink_view to.old) (K.sink_view to.new)
        (G.sink_view logs.old) (G.sink_view logs.new) }
{
    match logs.give(line) {
        Ok(()) => {
            try_words(words, to);
            Ending::Done
        }
        Err(Failed) => Ending::LogFault,
    }
}

// Logs this line. Nothing else is touched.
fn log_alone<G: Sink>(line: &[u8], logs: &mut G) -> Ending
    ensures { LogsAlone line.now result (G.sink_view logs.old) (G.sink_view logs.new) }
{
    match logs.give(line) {
        Ok(()) => Ending::Done,
        Err(Failed) => Ending::LogFault,
    }
}

// Logs this line and then tries to tell the client the words, if there are any.
fn turn_by<K: Sink, G: Sink>(
    line: &[u8],
    words: Option<LogLine>,
    to: &mut K,
    logs: &mut G,
) -> Ending
    ensures { TurnedBy line.now (option_map (λ text. text.items) words) result (K.sink_view to.old)
        (K.sink_view to.new) (G.sink_view logs.old) (G.sink_view logs.new) }
{
    match words {
        Some(text) => turn_away(line, text.as_slice(), to, logs),
        None => log_alone(line, logs),
    }
}

/// Logs the denial, and then tries to tell the client the words that its service has for one, if it has any.
pub(crate) fn deny<K: Sink, G: Sink>(
    service: &Service,
    line: u32,
    peer: &Peer,
    to: &mut K,
    logs: &mut G,
) -> Ending
    ensures { TellsOff line service.now peer.now result (K.sink_view to.old) (K.sink_view to.new)
        (G.sink_view logs.old) (G.sink_view logs.new) }
{
    let text = decision_line(Verdict::Deny { line }, service, peer);
    let words = denied_words(service, line);
    let told = turn_by(text.as_slice(), words, to, logs);
    denied_by(line, told)
}
