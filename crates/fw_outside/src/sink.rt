ghost use Rattle.fw_outside.specs.SinkView.{SinkView, Gives, TellsEnd};

use crate::Failed;

/// Where bytes go outside, in order.
pub trait Sink: Drop {
    /// The bytes given, whether the end was told, the count of failures, and as what its link was asked for.
    ghost sink_view: { Self → SinkView };

    /// Gives a piece. Where it fails, a front of the piece was given, and not all of it.
    fn give(&mut self, piece: &[u8]) -> Result<(), Failed>
        ensures { Gives result piece.now (sink_view self.old) (sink_view self.new) };

    /// Tells that no more comes.
    fn end(&mut self) -> Result<(), Failed>
        ensures { TellsEnd result (sink_view self.old) (sink_view self.new) };
}
