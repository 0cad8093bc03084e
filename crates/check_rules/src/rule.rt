ghost use Rattle.std.specs.Prelude.{◌≡◌, ℕ, ◌<◌, ◌≤◌, List, [], ◌∷◌, ◌++◌, length, pos, slice_index};
ghost use Rattle.std.specs.List.{remove};
ghost use Rattle.beliefs.specs.Steps.{signed};
ghost use Rattle.check_rules.specs.Meaning.{Meaning, SoundMeaning, GaveAt};

use beliefs::Belief;

// What a check sends, worked out from one tally of the magnitudes that its positions gave it.
pub trait CheckRule<B: Belief> {
    // What is gathered, magnitude after magnitude.
    type Tally: Copy;
    // What is worked out of it once, before the check answers.
    type Reply: Copy;

    ghost meaning: { Self → Meaning };

    ghost tallied: { Self → List ℕ → Self.Tally → Type 0 };

    ghost replies: { Self → List ℕ → Self.Reply → Type 0 };

    // The belief in a known bit.
    fn known(&self) -> B
        ensures kept { B.exact result }
        ensures value { B.eighths result ≡ pos (meaning self.now).known };

    // The belief in a raw bit, for an error class.
    fn raw(&self, q: u8) -> B
        ensures kept { B.exact result }
        ensures value { B.eighths result ≡ pos ((meaning self.now).raw q) };

    fn none(&self) -> Self::Tally
        ensures { tallied self.now [] result };

    // One magnitude more.
    fn take(&self, tally: Self::Tally, size: B) -> Self::Tally
        requires whole { B.exact size }
        requires bound { (a : ℕ) × (B.eighths size ≡ pos a) × (a ≤ (meaning self.now).known) }
        requires some { (xs : List ℕ) × tallied self.now xs tally × (length xs < 32) }
        ensures { (xs : List ℕ) (a : ℕ) → tallied self.now xs tally → B.eighths size ≡ pos a → tallied self.now (xs ++ a ∷ []) result };

    fn reply(&self, tally: Self::Tally) -> Self::Reply
        requires some { (xs : List ℕ) × tallied self.now xs tally }
        ensures { (xs : List ℕ) → tallied self.now xs tally → replies self.now xs result };

    // What is sent to the position that gave this magnitude: negative where the count of negative others is odd.
    fn without(&self, reply: &Self::Reply, size: B, count: u32) -> B
        requires whole { B.exact size }
        requires some { (xs : List ℕ) × (i : ℕ) × replies self.now xs reply.now × GaveAt xs i (B.eighths size)
            × (slice_index xs i ≤ (meaning self.now).known) }
        ensures kept { B.exact result }
        ensures value { (xs : List ℕ) (i : ℕ) → replies self.now xs reply.now → GaveAt xs i (B.eighths size)
            → B.eighths result ≡ signed count ((meaning self.now).sends (remove xs i)) };

    // A law, so that each impl has to prove it: no belief passes the known one.
    ghost sound: { (rule : Self) → SoundMeaning (meaning rule) };
}
