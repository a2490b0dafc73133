//! The clock and salts of a process.

use fw_outside::{Clock, Dice};
use fw_real::{Salts, SystemClock};
use lines_of_rows::{Told, add_number, add_word, number_of};
use std::io::{self, ErrorKind};
use std::time::Duration;

/// `clock => goes`: it is past a moment of 2023, and doesn't go back.
pub(crate) fn tell_clock(rt: HostRuntime, out: &mut Told) {
    let mut clock = SystemClock::new(rt);
    let moment = clock.now();
    if moment > 1_700_000_000 && clock.now() >= moment {
        add_word(out, b"goes");
    } else {
        add_word(out, b"stands");
    }
}

fn salts_differ(first: &mut Salts, other: &mut Salts) -> bool {
    let (one, two) = (first.salt(), first.salt());
    one != two && one != other.salt()
}

/// `salts => differ`: two of one run, and those of two runs.
pub(crate) fn tell_salts(rt: &HostRuntime, out: &mut Told) {
    match (Salts::new(rt), Salts::new(rt)) {
        (Ok(mut first), Ok(mut other)) => {
            if salts_differ(&mut first, &mut other) {
                add_word(out, b"differ");
            } else {
                add_word(out, b"same");
            }
        }
        _ => add_word(out, b"failed"),
    }
}

// A clock that stands at a moment, or can't be read.
#[derive(Drop)]
struct Still(Option<Duration>);

impl std::time::Clock for Still {
    fn monotonic(&self) -> io::Result<Duration> {
        self.since_1970()
    }

    fn since_1970(&self) -> io::Result<Duration> {
        match self.0 {
            Some(duration) => Ok(duration),
            None => Err(io::Error::from(ErrorKind::Other)),
        }
    }
}

fn tell_still(since: Option<Duration>, out: &mut Told) {
    add_number(out, SystemClock::new(Still(since)).now());
}

/// `now MILLISECONDS => SECONDS`, or `now -` of a clock that can't be read.
pub(crate) fn tell_now(asked: &[u8], out: &mut Told) {
    match asked {
        b"-" => tell_still(None, out),
        _ => tell_still(Some(Duration::from_millis(number_of(asked))), out),
    }
}

/// `now-seconds SECONDS => SECONDS`.
pub(crate) fn tell_now_seconds(asked: &[u8], out: &mut Told) {
    tell_still(Some(Duration::from_secs(number_of(asked))), out);
}
