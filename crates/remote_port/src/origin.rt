use fw_outside::{Sink, Source};
use std::marker::Model;

/// What stays as it was when a link was handed in: both ends. Contracts alone name it: no value of it is made.
pub struct RemoteOrigin<S: Source, K: Sink> {
    from: S,
    to: K,
}

impl<S: Source, K: Sink> Model for RemoteOrigin<S, K> {
    ghost use Rattle.remote_port.specs.Remote.{RemoteOrigin};

    ghost Value = { RemoteOrigin };

    ghost view = { λ o. record { source = S.source_view o.from; sink = K.sink_view o.to } };
}
