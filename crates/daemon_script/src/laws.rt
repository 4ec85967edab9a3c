//! Laws of the definitions. A caller that calls one may use it; each does nothing.
ghost use Rattle.daemon_script.specs.Output.{RunsAreTraced};

use partition::replays_worlds;

/// What a run prints by what commands read of its player is what it prints by the player's trace, with every
/// queue that the player had and every transition.
pub fn runs_are_traced()
    ensures { RunsAreTraced }
{
    replays_worlds();
}
