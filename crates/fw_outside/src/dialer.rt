ghost use Rattle.std.specs.Prelude.{◌≡◌, IfNone, IfSome, None};
ghost use Rattle.fw_outside.specs.DialerView.{Accepts, ComesUp, DialerView, HangsUp, IfRefused, IfUp, LetsGo, Opens, Refuses, TurnsAway, dialer_waiting};
ghost use Rattle.fw_outside.specs.declared.ask.Ask.TheVariants.{Back, Door, Main, Side};

use crate::{Dialed, Sink, Source};
use fw_types::Dest;

/// Who makes links to other hosts, and takes them back: main links to servers, and data links beside them.
pub trait Dialer: Drop {
    type In: Source + Send;

    type Out: Sink + Send;

    /// What comes over a data link.
    type DataIn: Source + Send;

    /// What goes over a data link.
    type DataOut: Sink + Send;

    /// Where a data link is waited for.
    type Door: Drop;

    /// What was asked for and which links were hung up, the counts, and how long links wait.
    ghost dialer_view: { Self → DialerView };

    /// Asks for a link to this destination. One that comes up is counted, as new, and marked as what it was asked for, and its
    /// source waits as long as the dialer was told. A dialer that tells what it was asked may stop telling.
    fn dial(&mut self, dest: &Dest) -> Dialed<Self::In, Self::Out>
        ensures up { IfUp result (λ from to. ComesUp (Main dest.now)
            (Self.In.source_view from) (Self.Out.sink_view to) (dialer_view self.old) (dialer_view self.new)) }
        ensures refused { IfRefused result (Refuses (Main dest.now) (dialer_view self.old) (dialer_view self.new)) };

    /// Asks for a data link to this destination, as `dial` does for a main one.
    fn side(&mut self, dest: &Dest) -> Dialed<Self::DataIn, Self::DataOut>
        ensures up { IfUp result (λ from to. ComesUp (Side dest.now)
            (Self.DataIn.source_view from) (Self.DataOut.sink_view to)
            (dialer_view self.old) (dialer_view self.new)) }
        ensures refused { IfRefused result (Refuses (Side dest.now) (dialer_view self.old) (dialer_view self.new)) };

    /// Asks for a data link to this port of an IPv4 address.
    fn back(&mut self, addr: [u8; 4], port: u16) -> Dialed<Self::DataIn, Self::DataOut>
        ensures up { IfUp result (λ from to. ComesUp (Back addr port)
            (Self.DataIn.source_view from) (Self.DataOut.sink_view to)
            (dialer_view self.old) (dialer_view self.new)) }
        ensures refused { IfRefused result (Refuses (Back addr port)
            (dialer_view self.old) (dialer_view self.new)) };

    /// Asks for a door, at which a data link can be accepted. `None` if it can't be opened, else the door with its IPv4
    /// address and its port.
    fn door(&mut self) -> Option<(Self::Door, [u8; 4], u16)>
        ensures opens { IfSome result (λ opened. Opens opened.1 opened.2
            (dialer_view self.old) (dialer_view self.new)) }
        ensures refused { IfNone result (Refuses (Door None) (dialer_view self.old) (dialer_view self.new)) };

    /// Waits for a data link at a door. One that comes up is counted, as new, and marked as one of a door, and what was asked
    /// stays as it is.
    fn accept(&mut self, door: &mut Self::Door) -> Dialed<Self::DataIn, Self::DataOut>
        ensures up { IfUp result (λ from to. Accepts
            (Self.DataIn.source_view from) (Self.DataOut.sink_view to)
            (dialer_view self.old) (dialer_view self.new)) }
        ensures refused { IfRefused result (TurnsAway (dialer_view self.old) (dialer_view self.new)) };

    /// Takes a link back, and counts it where its source or its sink had failed, and where its source had been idle. A
    /// dialer that tells which links were hung up may stop telling.
    fn hang_up(&mut self, from: Self::In, to: Self::Out)
        ensures { HangsUp (Self.In.source_view from) (Self.Out.sink_view to)
            (dialer_view self.old) (dialer_view self.new) };

    /// Takes a data link back, and counts it as `hang_up` does a main one, in counts of their own.
    fn let_go(&mut self, from: Self::DataIn, to: Self::DataOut)
        ensures { LetsGo (Self.DataIn.source_view from) (Self.DataOut.sink_view to)
            (dialer_view self.old) (dialer_view self.new) };

    /// Sets how many seconds the sources of later links wait before they answer `Idle`: 3,600 at first.
    fn patience(&mut self, seconds: u32)
        ensures { dialer_view self.new ≡ dialer_waiting (dialer_view self.old) seconds };
}
