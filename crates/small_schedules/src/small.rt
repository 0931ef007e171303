//! A small schedule by which a run fails.
use crate::phase_difference::PhaseDifference;
use shuffled_phases::Shuffle;

/// A small schedule by which a run was seen to fail, and in what its last phase differs.
#[derive(Debug, Drop)]
pub struct Small {
    /// The schedule. If its last phase is 0, the program fails by its own choices, and no phase is shuffled. Else it was seen not to fail
    /// so if the phase before is the last one that is shuffled.
    pub shuffle: Shuffle,
    /// In what the last phase that is shuffled differs, or none if there is none or if the run ends before it.
    pub difference: Option<PhaseDifference>,
}
