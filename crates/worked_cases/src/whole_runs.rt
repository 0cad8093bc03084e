ghost use Rattle.std.specs.Prelude.{◌≡◌, ◌≢◌};
ghost use Rattle.codes.specs.Syndrome.{syndrome as syndrome_of, added};
ghost use Rattle.frames.specs.Numbers.{side_number};
ghost use Rattle.protocol.specs.Calls.{says, writes};
ghost use Rattle.protocol.specs.Guarantee.{Premises, Companion};
ghost use Rattle.protocol.specs.Reading.{disclosed_in};
ghost use Rattle.protocol.specs.Runs.{log_of};
ghost use Rattle.codes.specs.Six.{six_positions};
ghost use Rattle.worked_cases.specs.Six.{alice_key};
ghost use Rattle.worked_cases.specs.Block.{offset, alice, bob, bob_key, far_key, six_block, saying, writing, two_rounds, two_round_log, one_round_log};
ghost use Rattle.worked_cases.specs.Seen.{Replied, EndsAs, settled_in, SettledAt, frames_of};

use crate::block::Ending;
use ledger::Line;
use protocol::{Outcome, Side};

// In round 1 both ends disclose position 3. The premises of the guarantee hold of this run.
pub fn disclosed() -> [u8; 6]
    ensures premises { Premises (six_block bob_key) two_round_log }
    ensures of_alice { disclosed_in alice 1 two_round_log ≡ result }
    ensures of_bob { disclosed_in bob 1 two_round_log ≡ result }
{
    [0, 0, 0, 1, 0, 0]
}

// Alice's frame of round 1.
pub fn alice_discloses() -> [u8; 10]
    ensures { Replied (saying alice 1) (says result result) two_round_log }
{
    [0x02, 0x00, 0x00, 0x00, 0x00, 0x07, 0x00, 0x01, 0x10, 0x80]
}

// Both settle in round 1 with leak 4.
pub fn alice_ends() -> Ending
    ensures { EndsAs alice two_round_log result }
{
    settled(1, Side::Alice, 4)
}

pub fn bob_ends() -> Ending
    ensures { EndsAs bob two_round_log result }
{
    settled(1, Side::Bob, 4)
}

fn settled(round: u16, side: Side, leak: u32) -> Ending
    ensures { result ≡ settled_in round (side_number side) leak }
{
    Ending {
        round,
        told: Line {
            block: 7,
            side: u8::from(side),
            raw: 6,
            leak,
            outcome: Outcome::Settled,
        },
    }
}

// The key that both then write: Alice's.
pub fn agreed_key() -> [u8; 6]
    ensures of_alice { Replied (writing alice) (writes result) two_round_log }
    ensures of_bob { Replied (writing bob) (writes result) two_round_log }
{
    [1, 0, 1, 1, 0, 0]
}

// A companion word of this run: added to both keys it changes no frame.
pub fn companion_word() -> [u8; 6]
    ensures companion { Companion (six_block bob_key) two_round_log result }
    ensures hidden { frames_of (log_of (offset 1) (two_rounds (added alice_key result) (added bob_key result))) ≡ frames_of two_round_log }
{
    [1, 1, 0, 0, 1, 1]
}

// From another key Bob settles at one that has Alice's syndrome and is not hers: equal syndromes are all that is promised.
pub fn wrong_key() -> [u8; 6]
    ensures settles { SettledAt (six_block far_key) one_round_log result }
    ensures meets { syndrome_of six_positions result ≡ syndrome_of six_positions alice_key }
    ensures differs { result ≢ alice_key }
{
    [1, 1, 1, 0, 1, 0]
}
