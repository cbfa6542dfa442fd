// The room of a floor's text.
ghost use Rattle.std.specs.Prelude.{◌≤◌, vec_capacity};

use grouping::plan::GroupPlan;

// The room for a floor's text, which has at most 3,894 bytes.
pub(crate) const TEXT_ROOM: usize = 4096;

// The plan that a file is read into, and its text.
#[derive(Drop)]
pub struct FloorRoom {
    pub(crate) plan: GroupPlan,
    pub(crate) text: Vec<u8>,
    ghost roomy: { 4096 ≤ vec_capacity text },
}
