//! The clock of a run.
ghost use Rattle.std.specs.Prelude.{List, ℤ};
ghost use Rattle.studio_io.specs.Clocks.{TellsTime};

/// A receiver's clock, in sampling instants at 48 kHz. A run uses the greatest clock reading so far, so a clock may go
/// back.
pub trait Clock: Drop {
    /// The next readings, as far as they are known. Nothing is known of later ones.
    ghost told: { Self → List ℤ };

    /// Returns the next clock reading, in sampling instants at 48 kHz.
    fn now(&mut self) -> i64
        ensures tells { TellsTime (told self.old) result (told self.new) };
}
