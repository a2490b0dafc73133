//! A port to a server whose ends break at each of their calls.

use crate::records::remote::{Break, Came, Device, Talk, device_of, talk_of, talk_over};
use fw_types::NoMemory;
use lines_of_rows::{Told, add, add_number, add_word, cut};
use std::alloc::Global;

// Where a talk breaks off: so many requests were answered by then, and so many bytes were given.
#[derive(Clone, Copy)]
struct Stop {
    answered: u64,
    given: u64,
}

fn line_ends(text: &[u8]) -> u64 {
    let mut ends = 0u64;
    for byte in text {
        if *byte == b'\n' {
            ends = ends.saturating_add(1);
        }
    }
    ends
}

// How many bytes the first lines have.
fn length_of(text: &[u8], lines: u64) -> u64 {
    let mut length = 0u64;
    for line in text.split(|byte| *byte == b'\n').take(lines as usize) {
        length = length.saturating_add(line.len() as u64).saturating_add(1);
    }
    length
}

fn first_of(text: &[u8], count: u64) -> &[u8] {
    &text[..text.len().min(count as usize)]
}

// Where it breaks off: the Open is answered by a line and gives none, and each other request is answered by a line and gives one.
fn stop_of(talk: Talk<'_>, good: &Came, broken: Break) -> Stop {
    let given = good.given.as_slice();
    match broken.device {
        Device::Source | Device::Idle => {
            let answered = line_ends(first_of(talk.said, broken.at));
            Stop {
                answered,
                given: length_of(given, answered),
            }
        }
        Device::Sink => Stop {
            answered: broken.at.saturating_add(1),
            given: length_of(given, broken.at),
        },
        Device::Room => Stop {
            answered: line_ends(first_of(given, broken.at)).saturating_add(1),
            given: broken.at,
        },
    }
}

// How many calls are made of it, or how many bytes it is given.
fn calls_of(talk: Talk<'_>, good: &Came, device: Device) -> u64 {
    match device {
        Device::Source | Device::Idle => talk.said.len() as u64,
        Device::Sink => line_ends(good.given.as_slice()),
        Device::Room => good.given.len() as u64,
    }
}

// The answers that are to come: those before it breaks off, that the link failed, and that what is asked after that is strange.
fn answers_until(good: &Came, answered: u64) -> Told {
    let mut wanted = Told::new();
    let mut number = 0u64;
    for answer in good.answers.as_slice().split(|byte| *byte == b';') {
        if number > 0 {
            add(&mut wanted, b";");
        }
        if number < answered {
            add(&mut wanted, answer);
        } else if number == answered {
            add(&mut wanted, b"Link");
        } else {
            add(&mut wanted, b"Strange");
        }
        number = number.saturating_add(1);
    }
    wanted
}

fn is_as(came: &Came, answers: &[u8], given: &[u8]) -> bool {
    came.answers.as_slice() == answers && came.given.as_slice() == given
}

// Whether what comes of it, where this breaks, is what is to come.
fn is_right(
    alloc: Global,
    talk: Talk<'_>,
    good: &Came,
    broken: Break,
    calls: u64,
) -> Result<bool, NoMemory> {
    let came = talk_over(alloc, talk, 1, Some(broken))?;
    let right = if broken.at == calls {
        is_as(&came, good.answers.as_slice(), good.given.as_slice())
    } else {
        let stop = stop_of(talk, good, broken);
        let answers = answers_until(good, stop.answered);
        is_as(
            &came,
            answers.as_slice(),
            first_of(good.given.as_slice(), stop.given),
        )
    };
    drop(came);
    Ok(right)
}

/// `remote-breaks DEVICE|SAID|REQUEST;.. => N of N`: the device breaks at each of its calls in turn, or past each count of bytes, and
/// at one more, which changes nothing; of so many talks so many came to what they must. Each request is one that the server answers.
pub(crate) fn tell_remote_breaks(
    alloc: Global,
    asked: &[u8],
    out: &mut Told,
) -> Result<(), NoMemory> {
    let (name, rest) = cut(asked, b'|');
    let Some(device) = device_of(name) else {
        add(out, b"no such device");
        return Ok(());
    };
    let talk = talk_of(rest);
    let good = talk_over(alloc, talk, 1, None)?;
    let calls = calls_of(talk, &good, device);
    let mut right = 0u64;
    for at in 0..calls.saturating_add(1) {
        if is_right(alloc, talk, &good, Break { device, at }, calls)? {
            right = right.saturating_add(1);
        }
    }
    add_number(out, right);
    add_word(out, b"of");
    add_number(out, calls.saturating_add(1));
    drop(good);
    Ok(())
}
