//! The numbers of jobs and of seats that the draws are for.
/// How many jobs are drawn, at most 256, and by how many seats, 1 to 64.
#[derive(Clone, Copy, Debug, PartialEq, Eq)]
pub struct Size {
    pub jobs: u32,
    pub seats: u32,
}
