//! What is known of an end that one host thread tells another. Ghost data alone.
ghost use Rattle.std.specs.Prelude.{ℕ};
ghost use Rattle.segment.specs.declared.segment_end.SegmentEnd.{SegmentEnd};

/// What is known of the ends that host threads tell each other.
pub trait EndFacts {
    /// In the phase of this number it is the end of the job of this name.
    ghost is_end_of: { ℕ → ℕ → SegmentEnd → Type 0 };
}
