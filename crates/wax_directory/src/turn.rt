//! One call among many.

ghost use Rattle.std.specs.Prelude.{◌≡◌, true, false, Some, MatchBool};
ghost use Rattle.wax_directory.specs.Turns.{calls_left, after_call};

// A counter that singles out one call: the one after `calls` others.
#[derive(Drop)]
pub(crate) struct Turn {
    pub(crate) calls: u64,
    pub(crate) is_over: bool,
}

impl Turn {
    // Counts a call, and returns whether it is the one.
    pub(crate) fn comes(&mut self) -> bool
        ensures over { MatchBool result ((self.old.is_over ≡ false) × (self.new.is_over ≡ true))
            (self.new.is_over ≡ self.old.is_over) }
        ensures comes { MatchBool result (calls_left self.old ≡ Some 0) (¬ (calls_left self.old ≡ Some 0)) }
        ensures left { calls_left self.new ≡ after_call (calls_left self.old) }
    {
        if self.is_over {
            return false;
        }
        if self.calls == 0 {
            self.is_over = true;
            return true;
        }
        self.calls -= 1;
        false
    }
}
