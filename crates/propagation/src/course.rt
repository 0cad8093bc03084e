ghost use Rattle.std.specs.Prelude.{◌≡◌, length};
ghost use Rattle.codes.specs.Code.{checks as checks_of};
ghost use Rattle.codes.specs.Of.{code_of};

use decoders::Inquiry;

// A rule that is asked a question, in runs that are just as long as the matrix asks.
// Stays: totals and sent beliefs are handed to its methods, as they lie in lent memory; what holds of them is said by clauses.
#[derive(Drop)]
pub(crate) struct Course<'a, R> {
    pub rule: &'a R,
    pub inquiry: Inquiry<'a>,
    ghost differs: { length inquiry.difference.now ≡ checks_of (code_of inquiry.matrix.now) },
    ghost stated: { length inquiry.states.now ≡ inquiry.matrix.now.width },
}

mod fit;
mod iterations;
mod passes;
