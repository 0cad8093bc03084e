#![tactic(auto)]

// The worked cases on the six-position matrix, each computed from the definitions.
ghost use Rattle.std.specs.Prelude.{◌≡◌};
ghost use Rattle.codes.specs.Syndrome.{syndrome as syndrome_of};
ghost use Rattle.codes.specs.Six.{six_positions};
ghost use Rattle.worked_cases.specs.Six.{alice_key};

mod block;
mod naming;
mod whole_runs;

pub use block::Ending;
pub use naming::{first_turn, step_one_names, step_two_names};
pub use whole_runs::{
    agreed_key, alice_discloses, alice_ends, bob_ends, companion_word, disclosed, wrong_key,
};

// Alice's syndrome.
pub fn alice_syndrome() -> [u8; 3]
    ensures { result ≡ syndrome_of six_positions alice_key }
{
    [0, 1, 0]
}
