// Reads a day file from standard input, and prints its sheet: a line for each handover, then one for each question.
#![tactic(auto)]

ghost use Rattle.std.specs.Prelude.{◌≤◌, length, IfOk};

use dayfile::layout::MOST_BYTES;
use dayfile::refusal::FileRefusal;
use sheet::room::SheetRoom;
use std::io;
use std::io::{Read, Write};
use std::process::ExitCode;

// One more than the longest file, so that a longer one is seen to be too long without being kept.
const MOST: usize = MOST_BYTES + 1;

// Reads until the buffer is full or the input ends, and says how many bytes there are. A loop over `read`: what the
// library reads to the end goes into a vector, which asks for memory, and its `copy` has a buffer of its own.
fn fill(input: &mut impl Read, buf: &mut [u8]) -> io::Result<usize>
    ensures { IfOk result (λ n. n ≤ length buf.new) }
{
    let mut len = 0;
    while len < buf.len() {
        let k = input.read(&mut buf[len..])?;
        if k == 0 {
            break;
        }
        len += k;
    }
    Ok(len)
}

// Says on standard error why a file is refused.
fn explain(rt: &HostRuntime, e: FileRefusal) {
    let number = e.refusal.number();
    let place = e.place;
    // The reply stands on standard output, so a lost explanation is no failure.
    let _ = eprintln!(rt;
        "daysheet: refused {number} at byte {place}: docs/REFUSALS.md says what to mend"
    );
}

fn run(rt: &HostRuntime) -> anyhow::Result<()> {
    let room = SheetRoom::new(rt.alloc())?;
    let mut bytes = [0; MOST];
    let len = fill(&mut rt.stdin(), &mut bytes)?;
    let sheet = room.print(&bytes[..len]);
    rt.stdout().write_all(sheet.text())?;
    if let Some(e) = sheet.refusal {
        explain(rt, e);
    }
    Ok(())
}

// The one line of an error names the program, so main answers the status, and not the error for the runtime to print.
// Both programs have these lines: a crate for them would be longer than they are.
fn main(rt: HostRuntime) -> ExitCode {
    match run(&rt) {
        Ok(()) => ExitCode::SUCCESS,
        Err(e) => {
            let _ = eprintln!(rt; "daysheet: {e}");
            ExitCode::FAILURE
        }
    }
}
