// Runs examples of machines made of blocks (02, §10), document 003's among them, and prints the path counts that the calculator gives and the orders
// that they stand for; the file stdout beside this one's folder holds what it must print.
#![tactic(auto)]

use answer::Refusal;
use std::io;
use std::io::Stdout;
use vector_kind::Kind;

fn main(rt: HostRuntime) -> io::Result<()> {
    let out = rt.stdout();
    whole(
        out,
        b"document 003, example 7",
        2,
        &[0x08],
        &[3, 4],
        &[0, 0, 2, 1, 0, 0, 2, 4, 1],
    )?;
    whole(
        out,
        b"the same blocks in parallel",
        2,
        &[0x0E],
        &[3, 4],
        &[0, 0, 2, 1, 0, 0, 2, 4, 1],
    )?;
    whole(
        out,
        b"document 003, example 9, three pairs in series",
        3,
        &[0x80],
        &[2, 2, 2],
        &[0, 2, 1, 0, 2, 1, 0, 2, 1],
    )?;
    whole(
        out,
        b"the bridge of five blocks of one part",
        5,
        &[0x00, 0xEA, 0xEC, 0xEE],
        &[1, 1, 1, 1, 1],
        &[0, 1, 0, 1, 0, 1, 0, 1, 0, 1],
    )?;
    alone_and_impossible(out)?;
    refusals(out)
}

// One block alone, and counts that no block has.
fn alone_and_impossible(out: Stdout) -> io::Result<()> {
    whole(out, b"one block", 1, &[0x02], &[3], &[0, 0, 2, 1])?;
    whole(
        out,
        b"counts that no block has, in series with one part",
        2,
        &[0x08],
        &[4, 1],
        &[0, 0, 1, 1, 1, 0, 1],
    )
}

fn refusals(out: Stdout) -> io::Result<()> {
    whole(out, b"no blocks", 0, &[0x02], &[], &[])?;
    whole(out, b"table refused", 3, &[0x82], &[1, 1, 1], &[])?;
    whole(out, b"two sizes for three blocks", 3, &[0x80], &[1, 1], &[])?;
    whole(out, b"a block of 17 parts", 2, &[0x08], &[1, 17], &[])?;
    whole(out, b"an entry too few", 2, &[0x08], &[1, 1], &[0, 1, 0])?;
    whole(
        out,
        b"second vector wrong",
        2,
        &[0x08],
        &[1, 1],
        &[0, 1, 0, 2],
    )?;
    whole(
        out,
        b"first vector falls, second wrong",
        2,
        &[0x08],
        &[3, 1],
        &[0, 3, 2, 1, 0, 2],
    )?;
    whole(
        out,
        b"17 parts",
        2,
        &[0x08],
        &[9, 8],
        &[0, 0, 0, 0, 0, 0, 0, 0, 0, 1, 0, 0, 0, 0, 0, 0, 0, 0, 1],
    )?;
    whole(
        out,
        b"nine parts, for eight cells",
        2,
        &[0x08],
        &[5, 4],
        &[0, 0, 0, 0, 0, 1, 0, 0, 0, 0, 1],
    )
}

// The path counts of a machine made of blocks, into a buffer of 8 cells.
fn whole(
    out: Stdout,
    name: &[u8],
    blocks: usize,
    table: &[u8],
    sizes: &[usize],
    vectors: &[i64],
) -> io::Result<()> {
    say(out, name)?;
    say(out, b":")?;
    let mut cells = [0i64; 8];
    let wrote = blocks::path_counts_of_blocks(blocks, table, sizes, vectors, &mut cells);
    match wrote {
        Err(refusal) => refused(out, refusal)?,
        Ok(count) => {
            show_cells(out, &cells, count)?;
            orders_of_front(out, &cells, count)?;
        }
    }
    say(out, b"\n")
}

// The orders that path counts in front of a buffer stand for.
fn orders_of_front(out: Stdout, cells: &[i64], count: usize) -> io::Result<()> {
    if count <= cells.len() {
        orders(out, &cells[..count])?;
    }
    Ok(())
}

// The orders that path counts stand for.
fn orders(out: Stdout, counts: &[i64]) -> io::Result<()> {
    if 1 <= counts.len() {
        say(out, b", orders")?;
        let mut cells = [0i64; 8];
        let wrote = vector_conversion::convert(
            Kind::PathCounts,
            counts.len() - 1,
            counts,
            Kind::Signature,
            &mut cells,
        );
        match wrote {
            Err(refusal) => refused(out, refusal)?,
            Ok(count) => show_cells(out, &cells, count)?,
        }
    }
    Ok(())
}

fn refused(out: Stdout, refusal: Refusal) -> io::Result<()> {
    print!(out; " refused {} at {}", refusal.reason.number(), refusal.place)
}

fn show_cells(out: Stdout, cells: &[i64], count: usize) -> io::Result<()> {
    for cell in cells.iter().take(count) {
        print!(out; " {cell}")?;
    }
    Ok(())
}

fn say(out: Stdout, text: &[u8]) -> io::Result<()> {
    out.write_all(text)
}
