// What is known of a position's difference before decoding.
#[derive(Clone, Copy, PartialEq, Eq, Debug)]
pub enum State {
    Raw,
    Punctured,
    Known0,
    Known1,
}

mod methods;
