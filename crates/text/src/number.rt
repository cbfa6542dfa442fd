// Numbers in decimals, and what stands before them.
ghost use Rattle.std.specs.Prelude.{◌≡◌, ◌+◌, ◌/◌, ◌%◌, [], ◌∷◌, decimal};
ghost use Rattle.text.specs.Labelled.{labelled};
ghost use Rattle.text.specs.Laws.{Takes};

use crate::sink::Sink;

// The last two digits of a number, with a zero ahead of one below ten.
fn last_two(n: u16) -> [u8; 2]
    ensures { result ≡ (48 + n / 10 % 10) ∷ (48 + n % 10) ∷ [] }
{
    [b'0' + (n / 10 % 10) as u8, b'0' + (n % 10) as u8]
}

// Adds a number, where there is room for it.
// Two digits at a time: the library's writer of digits needs a buffer of its own, and the day sheet
// would then take more instructions than plain Rust.
pub fn put_number<S: Sink>(out: &mut S, n: u16)
    ensures { Takes S.has_room S.adds out.old (decimal n) out.new }
{
    if n < 10 {
        out.put_byte(b'0' + n as u8);
    } else if n < 100 {
        out.put(&last_two(n));
    } else {
        put_number(out, n / 100);
        out.put(&last_two(n));
    }
}

// Adds a word and a number, where there is room for both.
pub fn put_labelled<S: Sink>(out: &mut S, word: &[u8], n: u16)
    ensures { Takes S.has_room S.adds out.old (labelled word.now n) out.new }
{
    out.put(word);
    put_number(out, n);
}
