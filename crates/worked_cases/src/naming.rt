ghost use Rattle.std.specs.Prelude.{◌≡◌};
ghost use Rattle.protocol.specs.Asking.{named};
ghost use Rattle.protocol.specs.Of.{turning_of};
ghost use Rattle.worked_cases.specs.Seen.{first_verdict};

use protocol::Turning;

// With step 1 the difference 100 names position 3.
pub fn step_one_names() -> [u8; 6]
    ensures { first_verdict 1 ≡ named result }
{
    [0, 0, 0, 1, 0, 0]
}

// With step 2 it names position 0 too: 0 and 1 are equally unsure, and the lower goes first.
pub fn step_two_names() -> [u8; 6]
    ensures { first_verdict 2 ≡ named result }
{
    [1, 0, 0, 1, 0, 0]
}

// What the turn answers with step 1.
pub fn first_turn() -> Turning
    ensures { result ≡ turning_of (first_verdict 1) }
{
    Turning::Named(1)
}
