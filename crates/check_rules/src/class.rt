ghost use Rattle.std.specs.Prelude.{◌≡◌, ◌-◌, ◌<◌, min, max};

// Where the raw belief of an error class stands among the twelve; a class out of range is the nearer end.
pub(crate) fn raw_place(q: u8) -> usize
    ensures value { result ≡ min (max q 1) 12 - 1 }
    ensures within { result < 12 }
{
    usize::from(q.clamp(1, 12)) - 1
}
