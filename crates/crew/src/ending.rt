//! The end of all threads.
ghost use Rattle.std.specs.Prelude.{◌≡◌, IfErr, IfOk, OnOk};
ghost use Rattle.crew.specs.Closing.{ClosesRuns};
ghost use Rattle.house.specs.Seats.{after_events};
ghost use Rattle.house.specs.Views.{RefusesSomewhere};
ghost use Rattle.player_events.specs.declared.event.Event.TheVariants.{End};

use crate::settling::join_outputs;
use crate::start::Crew;
use crew_steps::DecoderEnd;
use house::{CrewShares, House, Ledgers, Seat, Settlement};
use partition::PartitionFault;
use std::sync::Wait;
use std::thread::Threads;

/// Makes the end event, joins all threads of the crew, and settles all outputs once all shares are back.
///
/// # Errors
///
/// As [`House::end`]; the crew is given back, and goes on.
pub fn close<L: Ledgers, R: Threads + Wait>(
    rt: &R,
    house: &House<L>,
    seat: &mut Seat<L>,
    crew: Crew<L>,
) -> Result<Vec<Settlement<L>>, (Crew<L>, PartitionFault)>
    ensures made { OnOk result (seat.new ≡ after_events seat.old 1) }
    ensures fault { IfErr result (λ e. (e.0 ≡ crew) × (seat.new ≡ seat.old)) }
    ensures refused { IfErr result (λ e. RefusesSomewhere seat.old End e.1) }
    ensures settled { IfOk result (λ results. ClosesRuns crew.outputs.items results.items) }
{
    if let Err(fault) = house.end(rt, seat) {
        return Err((crew, fault));
    }
    let Crew {
        decoder,
        outputs,
        scanner,
        mut shares,
        ended,
        results,
    } = crew;
    if let Some(scanner) = scanner {
        scanner.join(rt);
    }
    let DecoderEnd {
        ends,
        share: decoded,
    } = decoder.join(rt);
    let rings = join_outputs(rt, outputs, ends, &mut shares, ended);
    let shares = CrewShares {
        decoded,
        outputs: shares,
    };
    Ok(house.settle_all(rt, shares, rings, results))
}

/// Lets a crew go that was not closed: its threads go on. It is a function of its own so that a caller's
/// proof does not go through all that a crew has.
pub fn let_go<L: Ledgers>(_crew: Crew<L>) {}
