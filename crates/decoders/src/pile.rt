ghost use Rattle.decoders.specs.Pile.{pile_rule, pile_room, pile_formed};

use crate::decoder::Decoder;
use crate::inquiry::Inquiry;
use crate::refusal::DecoderRefusal;
use codes::Matrix;

// A decoder made of two others, piles included: the second is asked where the first's answer does not fit.
#[derive(Drop)]
pub struct Pile<A, B> {
    pub first: A,
    pub second: B,
}

impl<A: Decoder, B: Decoder> Decoder for Pile<A, B> {
    ghost rule = { λ p. pile_rule (A.Decoder.rule p.first) (B.Decoder.rule p.second) };

    ghost room = { λ p. pile_room (A.Decoder.room p.first) (B.Decoder.room p.second) };

    ghost formed = { λ p. pile_formed (A.Decoder.rule p.first) (B.Decoder.rule p.second) (A.Decoder.formed p.first) (B.Decoder.formed p.second) };

    fn need(&self, matrix: &Matrix) -> usize {
        self.first.need(matrix).max(self.second.need(matrix))
    }

    fn decode(
        &mut self,
        inquiry: &Inquiry<'_>,
        pattern: &mut [u8],
        confidence: &mut [u32],
        work: &mut [i32],
    ) -> Result<(), DecoderRefusal> {
        inquiry.test_lengths(self.need(inquiry.matrix), pattern, confidence, work)?;
        self.first.decode(inquiry, pattern, confidence, work)?;
        if !inquiry.fits(pattern)? {
            self.second.decode(inquiry, pattern, confidence, work)?;
        }
        Ok(())
    }
}
