ghost use Rattle.std.specs.Prelude.{◌≡◌, ℕ, ◌<◌, length};
ghost use Rattle.fw_outside.specs.SourceView.{SourceView, Takes, waiting};

use crate::Failed;

/// What a take found.
#[derive(Clone, Copy, Debug, PartialEq, Eq)]
pub enum Got {
    /// So many bytes, at least one, are at the front of the buffer.
    Bytes(usize),
    /// Nothing is left, now and later.
    End,
    /// Nothing came in time.
    Idle,
}

/// Bytes that come from outside, once and in order.
pub trait Source: Drop {
    /// The bytes taken and left, the counts, how many were taken among them, how long it waits, how long it waited when
    /// nothing came last, and as what its link was asked for.
    ghost source_view: { Self → SourceView };

    /// Takes the next bytes, as many as it likes and as fit. `End`, `Idle` and `Failed` take nothing.
    fn take(&mut self, buf: &mut [u8]) -> Result<Got, Failed>
        requires { 0 < length buf.old }
        ensures { Takes result buf.new (source_view self.old) (source_view self.new) };

    /// Sets how many seconds it waits before it answers `Idle`: 3,600 in a new source.
    fn patience(&mut self, seconds: u32)
        ensures { source_view self.new ≡ waiting (source_view self.old) seconds };
}
