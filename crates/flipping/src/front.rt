ghost use Rattle.std.specs.Prelude.{◌≡◌, ◌≤◌, length};
ghost use Rattle.codes.specs.Code.{checks};
ghost use Rattle.codes.specs.Of.{code_of};
ghost use Rattle.decoders.specs.Inquiry.{question};
ghost use Rattle.flipping.specs.Runs.{Exact};

use decoders::Inquiry;

// A question in runs that are just as long as its matrix asks.
#[derive(Clone, Copy)]
pub(crate) struct Front<'a> {
    pub(crate) inquiry: Inquiry<'a>,
    ghost exact: { Exact inquiry },
}

impl<'a> Front<'a> {
    pub(crate) fn of(inquiry: &Inquiry<'a>) -> Front<'a>
        requires checked { checks (code_of inquiry.now.matrix.now) ≤ length inquiry.now.difference.now }
        requires stated { inquiry.now.matrix.now.width ≤ length inquiry.now.states.now }
        ensures matrix { result.inquiry.matrix ≡ inquiry.now.matrix }
        ensures asks { question result.inquiry ≡ question inquiry.now }
    {
        Front {
            inquiry: inquiry.fronts(),
        }
    }
}
