//! A session of a scene.

use crate::fault::{Fault, Line, check};
use crate::stage::{Devices, Stage};
use fw_memory::{Calls, MemClock, MemSink, MemSource};
use fw_types::{Ending, NoMemory, Octets};
use lines_of_rows::{number_of, numbers_of};
use std::alloc::Global;

/// A device of a session.
#[derive(Clone, Copy)]
pub(crate) enum Device {
    Source,
    Idle,
    Sink,
    /// The port, which the stage is told.
    Port,
}

/// The call at which a device fails or is idle in place of those that the scene says.
#[derive(Clone, Copy)]
pub(crate) struct Break {
    pub(crate) device: Device,
    pub(crate) call: u64,
}

/// What a session is given, and what comes of it.
#[derive(Drop)]
pub(crate) struct Talk {
    console: bool,
    clock: Vec<u64>,
    said: Vec<u8>,
    given: Vec<u8>,
    source: Calls,
    idle: Calls,
    sink: Calls,
}

fn listed(alloc: Global, text: &[u8]) -> Result<Calls, NoMemory> {
    let numbers = numbers_of(alloc, text)?;
    Calls::of(alloc, &numbers)
}

// The calls that a line names.
fn calls_of(alloc: Global, text: &[u8]) -> Result<Calls, NoMemory> {
    match text {
        [digits @ .., b'+'] => Ok(Calls::onward(number_of(digits))),
        _ => listed(alloc, text),
    }
}

/// Sets the calls that fail to those that a line names.
pub(crate) fn set_calls(alloc: Global, calls: &mut Calls, text: &[u8]) -> Result<(), NoMemory> {
    *calls = calls_of(alloc, text)?;
    Ok(())
}

/// Sets the calls that fail to this one.
pub(crate) fn set_call(alloc: Global, calls: &mut Calls, call: u64) -> Result<(), NoMemory> {
    *calls = Calls::of(alloc, &[call])?;
    Ok(())
}

/// The name of an ending.
pub(crate) fn name_of(ending: Ending) -> &'static [u8] {
    match ending {
        Ending::Done => b"Done",
        Ending::Denied { .. } => b"Denied",
        Ending::ClientFault => b"ClientFault",
        Ending::ServerFault => b"ServerFault",
        Ending::LogFault => b"LogFault",
        Ending::AuthFault => b"AuthFault",
        Ending::Idle => b"Idle",
        Ending::NoRoute => b"NoRoute",
        Ending::Spent => b"Spent",
        Ending::NoMemory => b"NoMemory",
    }
}

/// Both, where there is memory for each.
pub(crate) fn both<A: Drop, B: Drop>(
    first: Result<A, NoMemory>,
    second: Result<B, NoMemory>,
) -> Result<(A, B), NoMemory> {
    Ok((first?, second?))
}

/// Adds a line and its end.
pub(crate) fn add_line(text: &mut Vec<u8>, line: &[u8], end: &[u8]) -> Result<(), NoMemory> {
    text.extend_from_slice(line)?;
    text.extend_from_slice(end)?;
    Ok(())
}

impl Talk {
    /// A session that isn't told of yet.
    pub(crate) fn new(alloc: Global, console: bool) -> Talk {
        Talk {
            console,
            clock: Vec::new(alloc),
            said: Vec::new(alloc),
            given: Vec::new(alloc),
            source: Calls::none(),
            idle: Calls::none(),
            sink: Calls::none(),
        }
    }

    /// Takes a line in.
    pub(crate) fn take(&mut self, alloc: Global, word: &str, text: &[u8]) -> Result<(), NoMemory> {
        match word {
            "clock" => {
                self.clock = numbers_of(alloc, text)?;
                Ok(())
            }
            "client" => add_line(&mut self.said, text, b"\r\n"),
            "given" => add_line(&mut self.given, text, b"\n"),
            "source" => set_calls(alloc, &mut self.source, text),
            "idle" => set_calls(alloc, &mut self.idle, text),
            "sink" => set_calls(alloc, &mut self.sink, text),
            _ => Ok(()),
        }
    }

    // Lets a device fail.
    fn break_at(&mut self, alloc: Global, at: Break) -> Result<(), NoMemory> {
        match at.device {
            Device::Source => set_call(alloc, &mut self.source, at.call),
            Device::Idle => set_call(alloc, &mut self.idle, at.call),
            Device::Sink => set_call(alloc, &mut self.sink, at.call),
            Device::Port => Ok(()),
        }
    }

    fn source(&self, alloc: Global) -> Result<MemSource, NoMemory> {
        let source = self.source.copy(alloc)?;
        let idle = self.idle.copy(alloc)?;
        let said = Octets::copy(alloc, &self.said)?;
        Ok(MemSource::new(said, 1, source, idle))
    }

    fn sink(&self, alloc: Global) -> Result<MemSink, NoMemory> {
        let fails = self.sink.copy(alloc)?;
        MemSink::new(alloc, 4096, fails)
    }

    fn clock(&self, alloc: Global) -> Result<MemClock, NoMemory> {
        let moments = Vec::from_slice(alloc, &self.clock)?;
        Ok(MemClock::new(moments))
    }

    fn devices(&self, alloc: Global) -> Result<Devices, NoMemory> {
        let clock = self.clock(alloc)?;
        let (from, to) = both(self.source(alloc), self.sink(alloc))?;
        Ok(Devices { from, to, clock })
    }

    // Whether the client was given what the scene says, or a front of that where a device broke.
    fn is_given(&self, given: &[u8], broken: bool) -> bool {
        if broken {
            return self.given.as_slice().starts_with(given);
        }
        self.given.as_slice() == given
    }

    // Compares how the session ended with what the line says, or with what the break says.
    fn compare(
        &self,
        alloc: Global,
        line: &Line<'_>,
        ending: &[u8],
        given: &[u8],
        broken: Option<Break>,
    ) -> Result<(), Fault> {
        let says = line.rest(alloc)?;
        check(line, ending == wanted(&says, broken), ending)?;
        check(line, self.is_given(given, broken.is_some()), given)
    }

    // Holds the session over these devices, and compares how it ends.
    fn hold_over(
        &self,
        alloc: Global,
        line: &Line<'_>,
        stage: &mut Stage,
        broken: Option<Break>,
        devices: &mut Devices,
    ) -> Result<(), Fault> {
        let ending = name_of(stage.hold(self.console, devices));
        self.compare(alloc, line, ending, devices.to.bytes(), broken)
    }

    /// Holds the session, and compares how it ends with what the line says, or with what the break says.
    pub(crate) fn hold(
        &mut self,
        alloc: Global,
        line: &Line<'_>,
        stage: &mut Stage,
        broken: Option<Break>,
    ) -> Result<(), Fault> {
        if let Some(at) = broken {
            self.break_at(alloc, at)?;
        }
        let mut devices = self.devices(alloc)?;
        let held = self.hold_over(alloc, line, stage, broken, &mut devices);
        drop(devices);
        held
    }
}

/// How the session is to end.
pub(crate) fn wanted(says: &[u8], broken: Option<Break>) -> &[u8] {
    match broken {
        None => says,
        Some(
            Break {
                device: Device::Idle,
                ..
            },
        ) => b"Idle",
        Some(
            Break {
                device: Device::Port,
                ..
            },
        ) => b"AuthFault",
        Some(_) => b"ClientFault",
    }
}
