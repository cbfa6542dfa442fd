// A vector whose room was reserved: nothing that adds text asks for memory.
ghost use Rattle.text.specs.Vector.{Room, Added, vector_laws};

use crate::sink::Sink;

impl Sink for Vec<u8> {
    ghost has_room = { Room };

    ghost adds = { Added };

    // A full vector stays as it is.
    fn put_byte(&mut self, byte: u8) {
        if self.len() < self.capacity() {
            self.push_reserved(byte);
        }
    }

    // A vector with less room stays as it is.
    fn put(&mut self, text: &[u8]) {
        if text.len() <= self.capacity() - self.len() {
            for byte in text {
                self.push_reserved(*byte);
            }
        }
    }

    ghost laws = { vector_laws };
}
