// Reads a design record of either edition from standard input and prints its report, or the one line of its refusal (01, "The report program").
// The files stdin and stdout of this crate hold the bridge's record and what must be printed for it.
#![tactic(auto)]

ghost use Rattle.std.specs.Prelude.{◌≡◌, ◌≤◌, ◌<◌, length, take, IfOk};
ghost use Rattle.std.specs.Io.{ReadsAtMost};
ghost use Rattle.std.specs.Io.KnownBytes.{Consumes, IsAtEnd};
ghost use Rattle.report_text.specs.Reports.{printed};

use std::io;
use std::io::Read;

// A read or a write that fails ends the program with its error, and nothing is printed of an input that was read in part.
fn main(rt: HostRuntime) -> io::Result<()> {
    let mut input = [0u8; 40000];
    let mut text = [0u8; 4096];
    let count = read_full(&mut rt.stdin(), &mut input)?;
    let end = make_text(&input[..count], &mut text);
    rt.stdout().write_all(&text[..end])
}

// Reads until the buffer is full, which decides every input, or until the input ends, also where it comes in pieces, and says how many bytes
// stand in front of the buffer.
fn read_full<R: Read>(input: &mut R, buffer: &mut [u8]) -> io::Result<usize>
    ensures bound { ReadsAtMost result buffer.new }
    ensures bytes { IfOk result (λ n. Consumes (R.remaining input.old) (R.remaining input.new) (take n buffer.new)) }
    ensures whole { IfOk result (λ n. n < length buffer.new → IsAtEnd (R.remaining input.new)) }
{
    let mut count = 0;
    while count < buffer.len() {
        let read = input.read(&mut buffer[count..])?;
        if read == 0 {
            break;
        }
        count += read;
    }
    Ok(count)
}

// The text that is printed for what was read, in front of a buffer: the report of a record, or the line of its refusal.
fn make_text(bytes: &[u8], text: &mut [u8]) -> usize
    requires { 4096 ≤ length text.old }
    ensures upper_bound { result ≤ length text.new }
    ensures text_after { take result text.new ≡ printed bytes.now }
{
    let mut table = [0u8; 8192];
    let made = report_text::report(bytes, &mut table, text);
    match made {
        Ok(end) => end,
        Err(refusal) => {
            let said = report_lines::refused_line(refusal.reason.number(), refusal.place, text);
            match said {
                Ok(end) => end,
                Err(_) => 0,
            }
        }
    }
}
