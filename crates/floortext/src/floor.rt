// The text of a floor, added to a buffer whose room was reserved.
ghost use Rattle.std.specs.Prelude.{◌≤◌, length};
ghost use Rattle.std.specs.List.{flat_map};
ghost use Rattle.refusals.specs.Number.{number};
ghost use Rattle.text.specs.Laws.{Takes};
ghost use Rattle.text.specs.Vector.{Room, Added};
ghost use Rattle.text.specs.Line.{refused_file_line};
ghost use Rattle.floortext.specs.Floor.{route_text, member_text, shape_text, group_line, group_lines, head_lines, floor_text};

use refusals::Refusal;
use routes::route::{Group, Route};
use text::number::put_labelled;
use text::refused::put_refused;
use text::sink::Sink;

fn put_route(out: &mut Vec<u8>, route: Route)
    ensures { Takes Room Added out.old (route_text route) out.new }
{
    put_labelled(out, b" ", route.low as u16);
    put_labelled(out, b"-", route.high as u16);
}

// Writes the routes of group k. A filter of the routes would be no shorter than the test.
fn put_members(out: &mut Vec<u8>, routes: &[Route], k: u8)
    ensures { Takes Room Added out.old (flat_map (member_text k) routes.now) out.new }
{
    for route in routes {
        if route.is_in(k as usize) {
            put_route(out, *route);
        }
    }
}

fn put_shape(out: &mut Vec<u8>, group: Group)
    ensures { Takes Room Added out.old (shape_text group) out.new }
{
    match group {
        Group::Star(c) => put_labelled(out, b" star ", c as u16),
        Group::Triangle(a, b, c) => {
            put_labelled(out, b" triangle ", a as u16);
            put_labelled(out, b" ", b as u16);
            put_labelled(out, b" ", c as u16);
        }
    }
}

// Writes the line of group k.
fn put_group_line(out: &mut Vec<u8>, routes: &[Route], k: u8, group: Group)
    ensures { Takes Room Added out.old (group_line routes.now k group) out.new }
{
    put_labelled(out, b"count ", k as u16);
    put_shape(out, group);
    out.put_byte(b':');
    put_members(out, routes, k);
    out.put_byte(b'\n');
}

fn put_group_lines(out: &mut Vec<u8>, routes: &[Route], groups: &[Group])
    requires { length groups.now ≤ 32 }
    ensures { Takes Room Added out.old (group_lines routes.now 0 groups.now) out.new }
{
    for (k, group) in groups.iter().enumerate() {
        put_group_line(out, routes, k as u8, *group);
    }
}

fn put_head_lines(out: &mut Vec<u8>, stations: u16, counts: u16)
    ensures { Takes Room Added out.old (head_lines stations counts) out.new }
{
    put_labelled(out, b"stations ", stations);
    out.put_byte(b'\n');
    put_labelled(out, b"counts ", counts);
    out.put_byte(b'\n');
}

// Writes a floor: its stations, its counts, and a line for each group.
pub(crate) fn put_floor(out: &mut Vec<u8>, stations: u8, routes: &[Route], groups: &[Group])
    requires { (Room out.old (length (floor_text stations routes.now groups.now))) × (length groups.now ≤ 32) }
    ensures { Added out.old (floor_text stations routes.now groups.now) out.new }
{
    put_head_lines(out, stations as u16, groups.len() as u16);
    put_group_lines(out, routes, groups);
}

// Writes the line of a refused file.
pub(crate) fn put_refusal(out: &mut Vec<u8>, refusal: Refusal, place: u16)
    requires { Room out.old (length (refused_file_line (number refusal) place)) }
    ensures { Added out.old (refused_file_line (number refusal) place) out.new }
{
    put_refused(out, refusal, place);
    out.put_byte(b'\n');
}
