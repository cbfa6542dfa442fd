//! The call for C, as a static library: the check of a day file, under the name that include/day_file.h declares.
#![tactic(auto)]

ghost use Rattle.std.specs.Prelude.{◌≡◌};
ghost use Rattle.dayfile.specs.Check.{file_verdict};
ghost use Rattle.dayfile.specs.Verdict.{TakenApart, packed};

// 0, or the refusal's number times 65,536 plus its place.
#[unsafe(no_mangle)]
pub extern "C" fn day_file_check(bytes: &[u8]) -> u32
    ensures packed { result ≡ packed (file_verdict bytes.now) }
    ensures apart { TakenApart (file_verdict bytes.now) result }
{
    dayfile::check::day_file_check(bytes)
}
