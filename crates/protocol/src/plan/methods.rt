ghost use Rattle.std.specs.Prelude.{◌≡◌};
ghost use Rattle.frames.specs.Numbers.{side_number};
ghost use Rattle.protocol.specs.Of.{plan_of};
ghost use Rattle.protocol.specs.Plan.{with_side};

use super::Plan;
use frames::Side;

impl<'a> Plan<'a> {
    // The plan of the block's end on this side: equal but for the side.
    pub fn for_side(self, side: Side) -> Plan<'a>
        ensures { plan_of result ≡ with_side (side_number side) (plan_of self.entry) }
    {
        Plan {
            side: u8::from(side),
            ..self
        }
    }
}
