// The floor of a day file as text.
ghost use Rattle.std.specs.Prelude.{◌≡◌, [], IfOk};
ghost use Rattle.grouping.specs.Plan.{contents, nothing};
ghost use Rattle.dayfile.specs.Check.{file_verdict};
ghost use Rattle.dayfile.specs.Verdict.{verdict_of};
ghost use Rattle.floortext.specs.Floorplan.{floorplan_text, printed};

use crate::floor::{put_floor, put_refusal};
use crate::room::{FloorRoom, TEXT_ROOM};
use dayfile::file::DayFile;
use dayfile::refusal::FileRefusal;
use grouping::plan::GroupPlan;
use grouping::room::GroupRoom;
use plans::plan::Plan;
use std::alloc::{AllocError, Global};

impl FloorRoom {
    // Reserves the room, and does nothing else.
    pub fn new(heap: Global) -> Result<FloorRoom, AllocError>
        ensures { IfOk result (λ m. (contents m.plan ≡ nothing) × (printed m ≡ [])) }
    {
        let plan = GroupPlan::new(GroupRoom::new(heap)?);
        let text = Vec::with_capacity(heap, TEXT_ROOM)?;
        Ok(FloorRoom { plan, text })
    }

    // Prints the floor of a file, or the line of its refusal; the answer says which.
    pub fn print(&mut self, bytes: &[u8]) -> Result<(), FileRefusal>
        ensures verdict { verdict_of result ≡ file_verdict bytes.now }
        ensures text { printed self.new ≡ floorplan_text bytes.now }
    {
        self.text.clear();
        let verdict = DayFile::open(bytes).read(&mut self.plan);
        match verdict {
            Ok(()) => put_floor(
                &mut self.text,
                self.plan.stations(),
                self.plan.routes(),
                self.plan.groups(),
            ),
            Err(e) => put_refusal(&mut self.text, e.refusal, e.place),
        }
        verdict
    }

    // The text of the file that was printed last; empty before the first.
    pub fn text(&self) -> &[u8]
        ensures { result.now ≡ printed self.now }
    {
        &self.text
    }
}
