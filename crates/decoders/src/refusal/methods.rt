ghost use Rattle.decoders.specs.Refusals.{decoder_told};

use super::DecoderRefusal;
use refusals::{Refusal, Told};

impl Refusal for DecoderRefusal {
    ghost tells = { decoder_told };

    fn told(&self) -> Told {
        match self {
            DecoderRefusal::ShortBuffer => Told {
                number: 20,
                place: 0,
            },
        }
    }
}
