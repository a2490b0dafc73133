ghost use Rattle.std.specs.Prelude.{◌≡◌};
ghost use Rattle.relay_ways.specs.Ending.{ending_of};

use crate::WayEnd;
use fw_types::Ending;

/// How a session ends whose way from the client ended as `up`, and whose way to the client as `down`: the first of
/// these that applies. `ClientFault`: the client's source or sink failed. `ServerFault`: the server's did. `Idle`:
/// nothing came in time on a way. `Spent`: a way came to its limit. `Done`: both ways are.
pub fn way_ending(up: WayEnd, down: WayEnd) -> Ending
    ensures { result ≡ ending_of up down }
{
    match (up, down) {
        (WayEnd::ReadFault, _) | (_, WayEnd::WriteFault) => Ending::ClientFault,
        (WayEnd::WriteFault, _) | (_, WayEnd::ReadFault) => Ending::ServerFault,
        (WayEnd::Idle, _) | (_, WayEnd::Idle) => Ending::Idle,
        (WayEnd::Spent, _) | (_, WayEnd::Spent) => Ending::Spent,
        (WayEnd::Done, WayEnd::Done) => Ending::Done,
    }
}
