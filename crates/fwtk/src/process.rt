//! The devices of a process.

use bastion::Kit;
use fw_outside::Dice;
use fw_real::{FileDisk, Paths, Reading, Records, SlotFile, StandardInput, SystemClock, Writing};
use real_links::{LinkSink, Programs, RemoteSink, RemoteSource, StandardOutput, TcpDialer};
use std::fs::File;
use std::io::Stderr;
use std::marker::PhantomData;
use std::net::TcpStream;

/// The file of a slot, as a disk.
pub type SlotDisk = FileDisk<SlotFile, File>;

/// What comes from the server that knows the users.
pub type AuthSource = RemoteSource<TcpStream>;

/// What goes to it.
pub type AuthSink = RemoteSink<TcpStream>;

/// The kinds of device that a process has, with dice of this kind.
#[derive(Drop)]
pub struct Process<D: Dice> {
    dice: PhantomData<D>,
}

impl<D: Dice> Kit for Process<D> {
    type Files = Paths<HostRuntime>;

    type Input = Reading<StandardInput>;

    type Output = LinkSink<StandardOutput>;

    type Logs = Writing<Stderr>;

    type Tick = SystemClock<HostRuntime>;

    type Dice = D;

    type Keeper = Records;

    type Dial = TcpDialer<HostRuntime>;

    type Launch = Programs<HostRuntime>;

    type Disk = SlotDisk;

    type AuthIn = AuthSource;

    type AuthOut = AuthSink;
}
