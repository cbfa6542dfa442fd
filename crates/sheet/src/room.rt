// The room of a sheet, which alone asks for memory.
ghost use Rattle.std.specs.Prelude.{◌≡◌, ◌≤◌, [], IfOk, vec_capacity, vec_items};

use book::room::BookRoom;
use grouping::plan::GroupPlan;
use grouping::room::GroupRoom;
use std::alloc::{AllocError, Global};

// The longest sheet: 1,000 handovers of at most 206 bytes, and 1,000 questions of at most 24.
pub(crate) const TEXT_ROOM: usize = 230_000;

// Room for the floor of a file and for its sheet.
#[derive(Drop)]
pub struct SheetRoom {
    pub(crate) plan: GroupPlan,
    pub(crate) book: BookRoom,
    pub(crate) text: Vec<u8>,
    ghost roomy: { 230000 ≤ vec_capacity text },
    ghost empty: { vec_items text ≡ [] },
}

impl SheetRoom {
    // Reserves the room, and does nothing else.
    pub fn new(heap: Global) -> Result<SheetRoom, AllocError>
        ensures { IfOk result (λ m. (230000 ≤ vec_capacity m.text) × (vec_items m.text ≡ [])) }
    {
        let plan = GroupPlan::new(GroupRoom::new(heap)?);
        let book = BookRoom::new(heap)?;
        let text = Vec::with_capacity(heap, TEXT_ROOM)?;
        Ok(SheetRoom { plan, book, text })
    }
}
