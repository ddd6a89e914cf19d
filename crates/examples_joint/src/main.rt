// Runs examples of two machines on one cart (02, §5), document 004's among them, and prints the squares that the calculator gives; the file
// stdout beside this one's folder holds what it must print.
#![tactic(auto)]

use answer::Refusal;
use std::io;
use std::io::Stdout;

fn main(rt: HostRuntime) -> io::Result<()> {
    let out = rt.stdout();
    pair(
        out,
        b"document 004, example 2.10",
        4,
        &[0x88, 0x88],
        &[0x00, 0xFC],
    )?;
    pair(
        out,
        b"the machines exchanged",
        4,
        &[0x00, 0xFC],
        &[0x88, 0x88],
    )?;
    pair(
        out,
        b"a machine beside itself",
        4,
        &[0x88, 0x88],
        &[0x88, 0x88],
    )?;
    pair(out, b"either of two parts, and both", 2, &[0x0E], &[0x08])?;
    pair(out, b"the first table refused", 3, &[0x82], &[0x81])?;
    pair(out, b"the second table refused", 3, &[0x80], &[0x82])?;
    pair(
        out,
        b"five parts, a square of 25",
        5,
        &[0x00, 0x00, 0x00, 0x80],
        &[0x00, 0x00, 0x00, 0x80],
    )?;
    pair(out, b"no parts", 0, &[0x02], &[0x02])
}

// The square of two tables, into a buffer of 16 cells.
fn pair(out: Stdout, name: &[u8], n: usize, first: &[u8], second: &[u8]) -> io::Result<()> {
    say(out, name)?;
    say(out, b":")?;
    let mut cells = [0u64; 16];
    let wrote = joint::joint_signature(n, first, second, &mut cells);
    match wrote {
        Err(refusal) => refused(out, refusal)?,
        Ok(count) => show_counts(out, &cells, count)?,
    }
    say(out, b"\n")
}

fn refused(out: Stdout, refusal: Refusal) -> io::Result<()> {
    print!(out; " refused {} at {}", refusal.reason.number(), refusal.place)
}

fn show_counts(out: Stdout, counts: &[u64], count: usize) -> io::Result<()> {
    for cell in counts.iter().take(count) {
        print!(out; " {cell}")?;
    }
    Ok(())
}

fn say(out: Stdout, text: &[u8]) -> io::Result<()> {
    out.write_all(text)
}
