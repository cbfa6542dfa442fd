// The reading of a day file into a group plan.
ghost use Rattle.dayfile.specs.Check.{file_verdict};
ghost use Rattle.dayfile.specs.Reading.{ReadsInto, file_contents};
ghost use Rattle.dayfile.specs.Verdict.{verdict_of};
ghost use Rattle.grouping.specs.Plan.{contents};
ghost use Rattle.std.specs.Prelude.{◌≡◌, None};

use super::file::DayFile;
use super::layout::Sections;
use super::refusal::FileRefusal;
use arrayvec::ArrayVec;
use grouping::plan::GroupPlan;

impl<'a> DayFile<'a> {
    // Puts the file's floor into the plan, in place of all that it held; a refused file leaves the plan as it was.
    pub fn read(&self, plan: &mut GroupPlan) -> Result<(), FileRefusal>
        ensures verdict { verdict_of result ≡ file_verdict self.now.bytes.now }
        ensures floor { ReadsInto self.now.bytes.now plan.old plan.new result }
    {
        let sections = self.sections()?;
        sections.fill(plan);
        Ok(())
    }
}

impl<'a> Sections<'a> {
    // Puts the floor of a file without a refusal into the plan, which takes it: the file's check asks as much as the plan does.
    fn fill(&self, plan: &mut GroupPlan)
        requires { file_verdict self.now.bytes.now ≡ None }
        ensures { contents plan.new ≡ file_contents self.now.bytes.now }
    {
        let mut routes = ArrayVec::new();
        self.put_routes(&mut routes);
        let mut groups = ArrayVec::new();
        self.put_groups(&mut groups).unwrap();
        if groups.is_empty() {
            plan.fill_routes(self.layout.stations, &routes).unwrap();
        } else {
            plan.fill(self.layout.stations, &routes, &groups).unwrap();
        }
    }
}
