// What text is added to, at its end.
ghost use Rattle.std.specs.Prelude.{ℕ, List, [], ◌∷◌};
ghost use Rattle.text.specs.Laws.{SinkLaws, Takes};

pub trait Sink {
    // There is room for so many bytes more.
    ghost has_room: { Self → ℕ → Type 0 };

    // The second came of the first by adding the text.
    ghost adds: { Self → List ℕ → Self → Type 0 };

    // Adds one byte, where there is room for it.
    fn put_byte(&mut self, byte: u8)
        ensures { Takes has_room adds self.old (byte ∷ []) self.new };

    // Adds the text, where there is room for it.
    fn put(&mut self, text: &[u8])
        ensures { Takes has_room adds self.old text.now self.new };

    ghost laws: { SinkLaws has_room adds };
}
