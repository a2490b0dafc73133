ghost use Rattle.fw_outside.specs.ClockView.{ClockView, GaveTime};

/// What time it is.
pub trait Clock: Drop {
    /// The moments that it gave.
    ghost clock_view: { Self → ClockView };

    /// The moment now, in whole seconds. A clock that tells what it gave may stop telling.
    fn now(&mut self) -> u64
        ensures { GaveTime result (clock_view self.old) (clock_view self.new) };
}
