// Day files: their records, and reading them into a group plan. The check itself runs on the files under tests/.
use dayfile::check::day_file_check;
use dayfile::file::DayFile;
use dayfile::records::{Kind, Record};
use grouping::plan::GroupPlan;
use grouping::room::GroupRoom;
use plans::plan::Plan;
use plans::turns::Turns;
use std::test::Fail;

// The sample day: 4 stations; routes 0-1 and 0-2 in group 0, 2-3 in group 1; stars at 0 and 3.
const SAMPLE: [u8; 65] = [
    4, 0, 18, 0, 9, 0, 27, 0, 8, 0, 35, 0, 10, 0, 45, 0, 20, 0, 0, 1, 0, 0, 2, 0, 2, 3, 1, 0, 0, 0,
    0, 0, 3, 0, 0, 0, 1, 3, 2, 2, 0, 1, 3, 0, 1, 0, 0, 1, 0, 0, 0, 3, 0, 3, 0, 1, 0, 2, 0, 2, 0, 0,
    0, 4, 0,
];

#[test]
fn records_hold_their_own_bytes(rt: HostRuntime) {
    let file = DayFile::open(&SAMPLE);
    assert!(rt; file.refusal().is_none());
    assert!(rt;
        matches!(
            file.record(Kind::Routes, 2),
            Some(Record::Route(&[2, 3, 1]))
        )
    );
    assert!(rt;
        matches!(
            file.record(Kind::Groups, 1),
            Some(Record::Group(&[0, 3, 0, 0]))
        )
    );
    assert!(rt;
        matches!(
            file.record(Kind::Handovers, 4),
            Some(Record::Handover(&[0, 1]))
        )
    );
    assert!(rt;
        matches!(
            file.record(Kind::Questions, 0),
            Some(Record::Question(&[0, 0, 1, 0]))
        )
    );
    assert!(rt; file.record(Kind::Routes, 3).is_none(), "past the last");
    assert!(rt; file.record(Kind::Groups, 2).is_none());
    assert!(rt; file.record(Kind::Handovers, 5).is_none());
    assert!(rt;
        file.record(Kind::Questions, usize::MAX).is_none(),
        "the largest index"
    );
}

#[test]
fn refused_file_has_no_records_and_leaves_the_plan(rt: HostRuntime) -> Result<(), Fail> {
    let mut plan = GroupPlan::new(GroupRoom::new(rt.alloc())?);
    assert!(rt; DayFile::open(&SAMPLE).read(&mut plan).is_ok());
    let mut damaged = SAMPLE;
    damaged[25] = 4;
    let file = DayFile::open(&damaged);
    assert!(rt; file.record(Kind::Routes, 0).is_none());
    match file.read(&mut plan) {
        Ok(()) => return Err(Fail::new("a station of n was taken")),
        Err(e) => assert!(rt; e.refusal.number() == 5 && e.place == 24),
    }
    assert!(rt; plan.stations() == 4 && plan.dials() == 2, "as it was");
    assert!(rt; matches!(plan.route(3, 2), Turns::One(1)));
    Ok(())
}

#[test]
fn reading_replaces_all_that_the_plan_held(rt: HostRuntime) -> Result<(), Fail> {
    let mut plan = GroupPlan::new(GroupRoom::new(rt.alloc())?);
    assert!(rt; DayFile::open(&SAMPLE).read(&mut plan).is_ok());
    assert!(rt;
        matches!(plan.route(1, 0), Turns::One(0)) && matches!(plan.route(2, 3), Turns::One(1))
    );
    // one station, four empty sections
    let small = [1, 0, 18, 0, 0, 0, 18, 0, 0, 0, 18, 0, 0, 0, 18, 0, 0, 0];
    assert!(rt; DayFile::open(&small).read(&mut plan).is_ok());
    assert!(rt; plan.stations() == 1 && plan.dials() == 0 && plan.routes().is_empty());
    Ok(())
}

#[test]
fn c_reply_packs_number_and_place(rt: HostRuntime) {
    assert!(rt; day_file_check(&SAMPLE) == 0);
    assert!(rt; day_file_check(&[]) == 65536, "refused 1 at 0");
    let mut damaged = SAMPLE;
    damaged[14] = 46;
    assert!(rt; day_file_check(&damaged) == 2 * 65536 + 14);
}
