ghost use Rattle.std.specs.Prelude.{◌≡◌, ◌*◌, map, length, unsigned_abs};
ghost use Rattle.propagation.specs.Course.{pattern_of};
ghost use Rattle.propagation.specs.Within.{Within};

use beliefs::Belief;

// The signs are the pattern, the magnitudes the confidences.
pub(crate) fn write_answer<B: Belief>(totals: &[B], pattern: &mut [u8], confidence: &mut [u32])
    requires pattern_long { length pattern.old ≡ length totals.now }
    requires confidence_long { length confidence.old ≡ length totals.now }
    requires small { Within B.exact B.eighths (17 * 4095) totals.now }
    ensures signs { pattern.new ≡ pattern_of (map B.eighths totals.now) }
    ensures sizes { confidence.new ≡ map unsigned_abs (map B.eighths totals.now) }
{
    // Stays: by the index, since in a loop over a zip of `iter_mut` an invariant has no name for what is written.
    for (i, total) in totals.iter().enumerate() {
        pattern[i] = total.bit();
        confidence[i] = total.count();
    }
}
