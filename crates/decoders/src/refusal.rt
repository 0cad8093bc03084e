// Why a decoder or the test of a pattern is refused.
#[derive(Clone, Copy, PartialEq, Eq, Debug)]
pub enum DecoderRefusal {
    // A run, a buffer or the working memory is short.
    ShortBuffer,
}

mod methods;
