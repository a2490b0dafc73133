//! Devices that stand in for those which a kind of session doesn't have.
ghost use Rattle.std.specs.Prelude.{◌≡◌, None, refl};
ghost use Rattle.fw_outside.specs.SourceView.{fresh, waiting};
ghost use Rattle.session_acts.specs.Dummies.{failing, nowhere, silent};
ghost use Rattle.session_acts.specs.World.{no_store};

use fw_disk::Disk;
use fw_outside::{Dialed, Dialer, Failed, Got, Sink, Source};
use fw_types::Dest;
use spool_rack::{Aside, Broken, Free, Full, MailStore, SlotStore};
use std::marker::Model;

/// A sink that tells nothing of what it is given, and never fails: the log of a session that has none.
#[derive(Drop)]
pub struct Silent;

impl Sink for Silent {
    ghost sink_view = { λ sink. silent };

    fn give(&mut self, _piece: &[u8]) -> Result<(), Failed> {
        Ok(())
    }

    fn end(&mut self) -> Result<(), Failed> {
        Ok(())
    }
}

/// The source of a link that never comes up: it is at its end.
#[derive(Drop)]
pub struct NoSource {
    waits: u32,
}

impl Source for NoSource {
    ghost source_view = { λ source. waiting (fresh None) source.waits };

    fn take(&mut self, _buf: &mut [u8]) -> Result<Got, Failed> {
        Ok(Got::End)
    }

    fn patience(&mut self, seconds: u32) {
        self.waits = seconds;
    }
}

/// A door that never opens.
#[derive(Drop)]
pub struct NoDoor;

/// A dialer that refuses all: that of a session which has no server.
#[derive(Drop)]
pub struct Nowhere {
    refusals: u64,
    waits: u32,
}

impl Model for Nowhere {
    ghost use Rattle.fw_outside.specs.DialerView.{DialerView};
    ghost use Rattle.session_acts.specs.Dummies.{refusing};

    ghost Value = { DialerView };

    ghost view = { λ dialer. refusing dialer.refusals dialer.waits };
}

impl Nowhere {
    /// One that was asked for no link yet.
    pub fn new() -> Nowhere
        ensures { result ≡ nowhere }
    {
        Nowhere {
            refusals: 0,
            waits: 3600,
        }
    }
}

impl Dialer for Nowhere {
    type In = NoSource;

    type Out = Silent;

    type DataIn = NoSource;

    type DataOut = Silent;

    type Door = NoDoor;

    ghost dialer_view = { λ dialer. dialer };

    fn dial(&mut self, _dest: &Dest) -> Dialed<NoSource, Silent> {
        self.refusals = self.refusals.saturating_add(1);
        Dialed::Refused
    }

    fn side(&mut self, _dest: &Dest) -> Dialed<NoSource, Silent> {
        self.refusals = self.refusals.saturating_add(1);
        Dialed::Refused
    }

    fn back(&mut self, _addr: [u8; 4], _port: u16) -> Dialed<NoSource, Silent> {
        self.refusals = self.refusals.saturating_add(1);
        Dialed::Refused
    }

    fn door(&mut self) -> Option<(NoDoor, [u8; 4], u16)> {
        self.refusals = self.refusals.saturating_add(1);
        None
    }

    fn accept(&mut self, _door: &mut NoDoor) -> Dialed<NoSource, Silent> {
        self.refusals = self.refusals.saturating_add(1);
        Dialed::Refused
    }

    // Read so that the check sees which dialer this is.
    fn hang_up(&mut self, _from: NoSource, _to: Silent) {
        let _ = &self.waits;
    }

    fn let_go(&mut self, _from: NoSource, _to: Silent) {
        let _ = &self.waits;
    }

    fn patience(&mut self, seconds: u32) {
        self.waits = seconds;
    }
}

/// The disk of a slot that isn't there: each call fails.
#[derive(Drop)]
pub struct NoDisk;

impl Disk for NoDisk {
    ghost disk_view = { λ disk. failing };

    fn read(&mut self, _at: u64, _buf: &mut [u8]) -> Result<usize, Failed> {
        Err(Failed)
    }

    fn write_at(&mut self, _at: u64, _bytes: &[u8]) -> Result<(), Failed> {
        Err(Failed)
    }

    fn cut(&mut self, _len: u64) -> Result<(), Failed> {
        Err(Failed)
    }

    fn sync(&mut self) -> Result<(), Failed> {
        Err(Failed)
    }

    fn doubt(&mut self) {}
}

/// The mail store of a session that has none: it has no slot.
#[derive(Drop)]
pub struct NoStore;

impl SlotStore for NoStore {
    type Free = Free<NoDisk>;

    type Full = Full<NoDisk>;

    type Aside = Aside<NoDisk>;

    type Broken = Broken<NoDisk>;

    ghost store_view = { λ store. no_store };

    ghost free_view = { λ slot. slot };

    ghost full_view = { λ slot. slot };

    ghost aside_view = { λ slot. slot };

    ghost broken_view = { λ slot. slot };

    fn take_free(&mut self) -> Option<Free<NoDisk>> {
        None
    }

    fn take_full(&mut self) -> Option<Full<NoDisk>> {
        None
    }

    // No slot is ever taken, so none can be put back.
    fn put_free(&mut self, _slot: Free<NoDisk>)
        ensures same { self.new ≡ self.old }
    {}

    fn put_full(&mut self, _slot: Full<NoDisk>)
        ensures same { self.new ≡ self.old }
    {}

    fn put_aside(&mut self, _slot: Aside<NoDisk>)
        ensures same { self.new ≡ self.old }
    {}

    fn put_broken(&mut self, _slot: Broken<NoDisk>)
        ensures same { self.new ≡ self.old }
    {}
}

impl MailStore for NoStore {
    type D = NoDisk;

    ghost sees_free = { λ slot. refl };

    ghost sees_full = { λ slot. refl };

    ghost sees_aside = { λ slot. refl };

    ghost sees_broken = { λ slot. refl };
}
