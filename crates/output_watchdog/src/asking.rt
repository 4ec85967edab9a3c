//! What becomes of an output that asks whether it may go on.
use crate::progress::PathProgress;
use crate::watch::{Off, Step, Watch};

/// Who sees an output and switches it. What each call may answer is its own.
pub trait Switch {
    ghost use Rattle.std.specs.Prelude.{Bool, Option};
    ghost use Rattle.output_watchdog.specs.declared.watch.Off.{Off};

    ghost may_have_ended: { Self → Bool → Type 0 };

    ghost may_see: { Self → Option Bool → Type 0 };

    ghost may_switch_off: { Self → Option Off → Type 0 };

    ghost may_switch_on: { Self → Bool → Type 0 };

    /// Whether the daemon has ended.
    fn has_ended(&self) -> bool
        ensures { may_have_ended self.now result };

    /// Whether the output is on; none where that cannot be told now.
    fn is_on(&self) -> Option<bool>
        ensures { may_see self.now result };

    /// Switches the output off where something is played; none where that cannot be done now.
    fn switch_off(&self) -> Option<Off>
        ensures { may_switch_off self.now result };

    /// Switches the output on, and says whether that was done.
    fn switch_on(&self) -> bool
        ensures { may_switch_on self.now result };
}

impl Watch {
    ghost use Rattle.output_watchdog.specs.Asking.{Goes, Returned};
    ghost use Rattle.output_watchdog.specs.Watches.{is_to_return};

    /// Whether an output of which this is seen at a moment goes on. It is switched off and on, and looked at, where that
    /// is the step to be taken, and not else.
    pub fn ask<S: Switch>(&mut self, progress: PathProgress, now: u64, switch: &S) -> bool
        ensures { Goes S.may_have_ended S.may_see S.may_switch_off S.may_switch_on switch.now self.old progress now self.new result }
    {
        match self.look(progress, now, switch.has_ended()) {
            Step::Opens => true,
            Step::Waits => false,
            Step::SwitchesOff => {
                self.was_to_be_off(switch.switch_off(), progress, now);
                // Whether it is off is looked at when it asks again.
                false
            }
            Step::Returns => {
                self.come_back(progress, now, switch);
                true
            }
            Step::Looks => self.was_looked_at(switch.is_on(), progress, now),
        }
    }

    /// It returns, and is switched on again where it was on before.
    fn come_back<S: Switch>(&mut self, progress: PathProgress, now: u64, switch: &S)
        ensures { Returned S.may_switch_on switch.now (is_to_return self.old.mode) self.old progress now self.new }
    {
        if self.is_to_return() {
            self.was_to_return(switch.switch_on(), progress, now);
        } else {
            self.was_to_return(false, progress, now);
        }
    }
}
