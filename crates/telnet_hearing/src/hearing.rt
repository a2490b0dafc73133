//! The next line of a client of Telnet.
ghost use Rattle.std.specs.Prelude.{◌≤◌, length, IfSome, IfNone};
ghost use Rattle.telnet.specs.TelnetView.{IsFed};
ghost use Rattle.telnet.specs.declared.step.TelnetStep.TheVariants.{More};
ghost use Rattle.telnet_hearing.specs.Hearing.{Ends, ListensTelnet};

use fw_outside::{Heard, LineReader, Source};
use fw_types::copy_of;
use telnet::{Telnet, TelnetStep};

// Feeds a byte; what is heard if a line ends with it.
fn feed(telnet: &mut Telnet, byte: u8) -> Option<Heard>
    ensures some { IfSome result (λ heard. Ends heard telnet.old telnet.new byte) }
    ensures none { IfNone result (IsFed More telnet.old telnet.new byte) }
{
    match telnet.feed(byte) {
        TelnetStep::More => None,
        TelnetStep::Line => Some(Heard::Line(copy_of(telnet.line()))),
        TelnetStep::TooLong => Some(Heard::TooLong),
    }
}

/// The next line of a client of Telnet, without its end, if one is heard before the source stops. What is behind its end
/// stays with the reader. Where as many bytes were taken as may be, the reader stops for good: what was taken last, at most
/// 4,096 bytes, isn't heard.
pub fn hear_line<S: Source>(reader: &mut LineReader, from: &mut S) -> Heard
    ensures listens { ListensTelnet result reader.old reader.new (S.source_view from.old) (S.source_view from.new) }
    ensures near { length reader.new.pending ≤ 4096 }
{
    let mut telnet = Telnet::new();
    loop {
        match reader.next_byte(from) {
            Ok(byte) => {
                if let Some(heard) = feed(&mut telnet, byte) {
                    return heard;
                }
            }
            Err(stop) => return Heard::Stopped(stop),
        }
    }
}
