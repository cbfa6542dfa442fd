// Lines of the day sheet, written into a buffer. Each text is that of docs/DAY-SHEET.md, by hand.
use lines::line::Line;
use order::kinds::Relation;
use refusals::Refusal;

#[test]
fn line_that_fits_exactly(rt: HostRuntime) {
    let line = Line::Handover {
        number: 2,
        giver: 2,
        taker: 0,
        counts: &[2, 1],
    };
    let mut out = [b'.'; 10];
    assert_eq!(rt; line.write(&mut out), Ok(10));
    assert_eq!(rt; out, *b"2 2 0 2,1\n");
}

#[test]
fn buffer_one_byte_short_stays_as_it_was(rt: HostRuntime) {
    let line = Line::Handover {
        number: 2,
        giver: 2,
        taker: 0,
        counts: &[2, 1],
    };
    let mut out = [b'.'; 9];
    assert_eq!(rt; line.write(&mut out), Err(Refusal::TooShort));
    assert_eq!(rt; out, *b".........");
}

#[test]
fn room_past_the_line_stays_as_it_was(rt: HostRuntime) {
    let line = Line::Question {
        first: 0,
        second: 1,
        relation: Relation::Beside,
    };
    let mut out = [b'.'; 14];
    assert_eq!(rt; line.write(&mut out), Ok(11));
    assert_eq!(rt; out, *b"0 1 beside\n...");
}

#[test]
fn handover_with_no_counts_has_an_empty_last_field(rt: HostRuntime) {
    let line = Line::Handover {
        number: 0,
        giver: 0,
        taker: 1,
        counts: &[],
    };
    let mut out = [b'.'; 20];
    assert_eq!(rt; line.write(&mut out), Ok(7));
    assert_eq!(rt; out, *b"0 0 1 \n.............");
}
