// A measure of text: how much room it would leave.
ghost use Rattle.std.specs.Prelude.{◌≡◌, Some};
ghost use Rattle.text.specs.Measure.{Endless, Leaves, measure_laws};

use crate::sink::Sink;

// The room that is left, or none where the text is too long for it. Any text can be measured, so that
// there is room for each.
#[derive(Clone, Copy)]
pub struct Measure {
    pub left: Option<usize>,
}

impl Measure {
    pub fn new(room: usize) -> Measure
        ensures { result.left ≡ Some room }
    {
        Measure { left: Some(room) }
    }
}

impl Sink for Measure {
    ghost has_room = { Endless };

    ghost adds = { Leaves };

    fn put_byte(&mut self, _byte: u8) {
        self.left = self.left.and_then(|left| left.checked_sub(1));
    }

    fn put(&mut self, text: &[u8]) {
        self.left = self.left.and_then(|left| left.checked_sub(text.len()));
    }

    ghost laws = { measure_laws };
}
