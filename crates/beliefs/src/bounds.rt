ghost use Rattle.std.specs.Prelude.{ℕ, min, max, ◌≡◌, pos};
ghost use Rattle.beliefs.specs.Steps.{Small, held as held_to, signed as signed_by};

use crate::belief::Belief;

// The smaller of two magnitudes.
// Stays: `lower` and `higher` are two as std's min and max are; one function told which by a flag would be no plainer.
pub fn lower<B: Belief>(x: B, y: B) -> B
    requires left { B.exact x }
    requires right { B.exact y }
    ensures kept { B.exact result }
    ensures value { (a b : ℕ) → B.eighths x ≡ pos a → B.eighths y ≡ pos b → B.eighths result ≡ pos (min a b) }
{
    if y.under(x) { y } else { x }
}

// The greater of two magnitudes.
pub fn higher<B: Belief>(x: B, y: B) -> B
    requires left { B.exact x }
    requires right { B.exact y }
    ensures kept { B.exact result }
    ensures value { (a b : ℕ) → B.eighths x ≡ pos a → B.eighths y ≡ pos b → B.eighths result ≡ pos (max a b) }
{
    if y.under(x) { x } else { y }
}

// Held to ±limit.
pub fn hold<B: Belief>(x: B, limit: B) -> B
    requires whole { B.exact x }
    requires bound { B.exact limit }
    requires small { Small (B.eighths limit) }
    ensures kept { B.exact result }
    ensures value { (k : ℕ) → B.eighths limit ≡ pos k → B.eighths result ≡ held_to k (B.eighths x) }
{
    let floor = limit.turned();
    let held = if limit.under(x) { limit } else { x };
    if held.under(floor) { floor } else { held }
}

// A magnitude, negative where the count is odd.
pub fn with_sign<B: Belief>(size: B, count: u32) -> B
    requires whole { B.exact size }
    requires small { Small (B.eighths size) }
    ensures kept { B.exact result }
    ensures value { (a : ℕ) → B.eighths size ≡ pos a → B.eighths result ≡ signed_by count a }
{
    if count % 2 == 1 { size.turned() } else { size }
}
