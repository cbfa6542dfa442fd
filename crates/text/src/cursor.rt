// A caller's buffer, written from its start on.
ghost use Rattle.std.specs.Prelude.{◌≡◌, ◌≤◌, length, take};

use crate::sink::Sink;

// The first `at` bytes are written; what lies past them is as it was.
#[derive(Drop)]
pub struct Cursor<'a> {
    pub(crate) out: &'a mut [u8],
    pub(crate) at: usize,
    ghost within: { at ≤ length out.now },
}

impl<'a> Cursor<'a> {
    // Nothing is written yet.
    pub fn new(out: &'a mut [u8]) -> Cursor<'a>
        ensures same { result.out.ghost_name ≡ out.entry.ghost_name }
        ensures bytes { result.out.now ≡ out.old }
        ensures start { result.at ≡ 0 }
    {
        Cursor { out, at: 0 }
    }

    // What is written.
    pub fn written(&self) -> &[u8]
        ensures { result.now ≡ take self.now.at self.now.out.now }
    {
        &self.out[..self.at]
    }
}

impl<'a> Sink for Cursor<'a> {
    ghost use Rattle.text.specs.Cursor.{Left, Wrote, cursor_laws};

    ghost has_room = { Left };

    ghost adds = { Wrote };

    // A buffer that is full stays as it is.
    fn put_byte(&mut self, byte: u8) {
        if self.at < self.out.len() {
            self.out[self.at] = byte;
            self.at += 1;
        }
    }

    // A buffer with less room stays as it is.
    fn put(&mut self, text: &[u8]) {
        if text.len() <= self.out.len() - self.at {
            let end = self.at + text.len();
            self.out[self.at..end].copy_from_slice(text);
            self.at = end;
        }
    }

    ghost laws = { cursor_laws };
}
