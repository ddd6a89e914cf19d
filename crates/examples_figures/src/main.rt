// Runs worked examples of 01 and 02 on machines and vectors and prints what the calculator answers; the file stdout beside this one's folder holds what
// it must print.
#![tactic(auto)]

use answer::Refusal;
use std::io;
use std::io::Stdout;
use structure_patterns::Pattern;
use vector_kind::Kind;

fn main(rt: HostRuntime) -> io::Result<()> {
    let out = rt.stdout();
    tables(out)?;
    lists(out)?;
    cut_sets(out)?;
    patterns(out)?;
    idle_parts(out)?;
    figures(out)?;
    shares(out)?;
    vectors(out)
}

// Verdicts on tables.
fn tables(out: Stdout) -> io::Result<()> {
    say(out, b"tables\n")?;
    edges(out)?;
    lengths(out)?;
    order_of_checks(out)?;
    largest(out)
}

// 01's examples on each edge.
fn edges(out: Stdout) -> io::Result<()> {
    table(out, b"n = 2, 0A", 2, &[0x0A])?;
    table(out, b"n = 2, 02", 2, &[0x02])?;
    table(out, b"n = 3, 82", 3, &[0x82])?;
    table(out, b"n = 3, C4", 3, &[0xC4])
}

// Parts and lengths that no table has.
fn lengths(out: Stdout) -> io::Result<()> {
    table(out, b"n = 0, no byte", 0, &[])?;
    table(out, b"n = 17, no byte", 17, &[])?;
    table(out, b"n = 3, 80 00", 3, &[0x80, 0x00])?;
    table(out, b"n = 5, 00 00 00", 5, &[0x00, 0x00, 0x00])
}

fn order_of_checks(out: Stdout) -> io::Result<()> {
    table(out, b"n = 1, 05", 1, &[0x05])?;
    table(out, b"n = 2, 01", 2, &[0x01])?;
    table(out, b"n = 3, 02", 3, &[0x02])
}

fn largest(out: Stdout) -> io::Result<()> {
    let mut all_parts = [0u8; 8192];
    all_parts[8191] = 0x80;
    table(out, b"n = 16, all 16 parts", 16, &all_parts)
}

// Lists to tables and back to minimal sets.
fn lists(out: Stdout) -> io::Result<()> {
    say(out, b"lists\n")?;
    small_lists(out)?;
    bridges(out)?;
    refused_lists(out)
}

fn small_lists(out: Stdout) -> io::Result<()> {
    list(out, b"n = 1, {1}", 1, &[1])?;
    list(out, b"n = 2, {1} {2}", 2, &[1, 2])?;
    list(out, b"n = 2, {1,2}", 2, &[3])?;
    list(out, b"n = 2, {1}", 2, &[1])
}

fn bridges(out: Stdout) -> io::Result<()> {
    list(out, b"the bridge", 5, &[9, 18, 21, 14])?;
    list(
        out,
        b"the bridge, with repeats and nested sets",
        5,
        &[31, 9, 9, 18, 27, 21, 14],
    )
}

fn refused_lists(out: Stdout) -> io::Result<()> {
    list(out, b"n = 2, no set", 2, &[])?;
    list(out, b"n = 2, {1} {3}", 2, &[1, 4])?;
    list(out, b"n = 2, {1} and the empty set", 2, &[1, 0])?;
    list(out, b"n = 17, {1}", 17, &[1])
}

// Lists of cut sets to tables, to their minimal path sets and cut sets, and to their duals (02, §3).
fn cut_sets(out: Stdout) -> io::Result<()> {
    say(out, b"cut sets\n")?;
    small_cuts(out)?;
    bridge_by_cuts(out)?;
    refused_cuts(out)
}

fn small_cuts(out: Stdout) -> io::Result<()> {
    cuts(out, b"n = 1, cut {1}", 1, &[1])?;
    cuts(out, b"n = 2, cut {1,2}", 2, &[3])?;
    cuts(out, b"n = 2, cuts {1} {2}", 2, &[1, 2])?;
    cuts(out, b"n = 2, cut {1}", 2, &[1])
}

fn bridge_by_cuts(out: Stdout) -> io::Result<()> {
    cuts(out, b"the bridge by its cuts", 5, &[3, 14, 21, 24])?;
    cuts(
        out,
        b"the bridge by its cuts, with repeats and nested sets",
        5,
        &[24, 31, 3, 3, 14, 7, 21],
    )
}

fn refused_cuts(out: Stdout) -> io::Result<()> {
    cuts(out, b"n = 2, no cut", 2, &[])?;
    cuts(out, b"n = 2, cuts {1} {3}", 2, &[1, 4])?;
    cuts(out, b"n = 2, cut {1} and the empty set", 2, &[1, 0])?;
    cuts(out, b"n = 0, cut {1}", 0, &[1])
}

// Stock patterns to tables, to their minimal path sets and cut sets, and to their duals (02, §6).
fn patterns(out: Stdout) -> io::Result<()> {
    say(out, b"patterns\n")?;
    numbers_working(out)?;
    neighbours_failed(out)?;
    refused_patterns(out)
}

fn numbers_working(out: Stdout) -> io::Result<()> {
    pattern(out, b"at least 1 of 2", Pattern::AtLeast, 2, 1)?;
    pattern(out, b"at least 2 of 2", Pattern::AtLeast, 2, 2)?;
    pattern(out, b"at least 2 of 3", Pattern::AtLeast, 3, 2)
}

fn neighbours_failed(out: Stdout) -> io::Result<()> {
    pattern(out, b"row of 4, 2 neighbours", Pattern::Row, 4, 2)?;
    pattern(out, b"ring of 4, 2 neighbours", Pattern::Ring, 4, 2)?;
    pattern(out, b"row of 4, all 4", Pattern::Row, 4, 4)?;
    pattern(out, b"ring of 4, all 4", Pattern::Ring, 4, 4)
}

fn refused_patterns(out: Stdout) -> io::Result<()> {
    pattern(out, b"at least 0 of 3", Pattern::AtLeast, 3, 0)?;
    pattern(out, b"row of 3, 4 neighbours", Pattern::Row, 3, 4)?;
    pattern(out, b"ring of 0, 1 neighbour", Pattern::Ring, 0, 1)?;
    pattern(out, b"ring of 17, 18 neighbours", Pattern::Ring, 17, 18)?;
    pattern(
        out,
        b"ring of 6, 2 neighbours, 4 bytes lent",
        Pattern::Ring,
        6,
        2,
    )
}

// The figures of the papers' systems.
fn figures(out: Stdout) -> io::Result<()> {
    say(out, b"figures\n")?;
    small_systems(out)?;
    bridge(out)?;
    systems_with_the_same_figures(out)?;
    systems_of_remark_4(out)?;
    modules(out)
}

fn small_systems(out: Stdout) -> io::Result<()> {
    figures_of_list(out, b"n = 1, {1}", 1, &[1])?;
    figures_of_list(out, b"n = 2, {1} {2} (001, example 1)", 2, &[1, 2])?;
    figures_of_list(out, b"n = 2, {1,2}", 2, &[3])?;
    figures_of_list(out, b"n = 2, {1}", 2, &[1])
}

fn bridge(out: Stdout) -> io::Result<()> {
    figures_of_list(
        out,
        b"the bridge (000, examples 1 to 4; 001, example 2; 003, examples 2 and 3)",
        5,
        &[9, 18, 21, 14],
    )
}

fn systems_with_the_same_figures(out: Stdout) -> io::Result<()> {
    figures_of_list(out, b"003, remark 2, first of 8 parts", 8, &[3, 14, 240])?;
    figures_of_list(out, b"003, remark 2, second of 8 parts", 8, &[5, 26, 227])
}

fn systems_of_remark_4(out: Stdout) -> io::Result<()> {
    figures_of_list(out, b"003, remark 4 (a)", 4, &[3, 6, 12])?;
    figures_of_list(out, b"003, remark 4 (b), first of 6 parts", 6, &[3, 14, 60])?;
    figures_of_list(out, b"003, remark 4 (b), second of 5 parts", 5, &[5, 26])?;
    figures_of_list(out, b"003, remark 4 (b), second of 6 parts", 6, &[5, 26])
}

// Two modules in series, of 3 and 4 parts.
fn modules(out: Stdout) -> io::Result<()> {
    figures_of_list(out, b"003, example 7", 7, &[27, 29, 99, 101])
}

fn figures_of_list(out: Stdout, name: &[u8], n: usize, masks: &[u16]) -> io::Result<()> {
    say(out, name)?;
    say(out, b":\n")?;
    let mut bytes = [0u8; 32];
    let wrote = structure_forms::table_of_list(n, masks, &mut bytes);
    match wrote {
        Err(refusal) => refused(out, refusal)?,
        Ok(length) => figures_of_front(out, n, &bytes, length)?,
    }
    Ok(())
}

// The figures of the table in front of a buffer.
fn figures_of_front(out: Stdout, n: usize, bytes: &[u8], length: usize) -> io::Result<()> {
    if length <= bytes.len() {
        figures_of_table(out, n, &bytes[..length])?;
    }
    Ok(())
}

fn figures_of_table(out: Stdout, n: usize, bytes: &[u8]) -> io::Result<()> {
    path_counts_of_table(out, n, bytes)?;
    tail_of_table(out, n, bytes)?;
    signature_of_table(out, n, bytes)?;
    domination_of_table(out, n, bytes)?;
    importances_of_table(out, n, bytes)
}

fn path_counts_of_table(out: Stdout, n: usize, bytes: &[u8]) -> io::Result<()> {
    let mut cells = [0i64; 9];
    let counted = figures::path_counts(n, bytes, &mut cells);
    vector(out, b"  path counts", counted, &cells)
}

fn tail_of_table(out: Stdout, n: usize, bytes: &[u8]) -> io::Result<()> {
    let mut cells = [0i64; 9];
    let tailed = figures::tail(n, bytes, &mut cells);
    vector(out, b"  tail", tailed, &cells)
}

fn signature_of_table(out: Stdout, n: usize, bytes: &[u8]) -> io::Result<()> {
    let mut cells = [0i64; 9];
    let signed = figures::signature(n, bytes, &mut cells);
    vector(out, b"  signature", signed, &cells)
}

fn domination_of_table(out: Stdout, n: usize, bytes: &[u8]) -> io::Result<()> {
    let mut cells = [0i64; 9];
    let dominated = figures::domination(n, bytes, &mut cells);
    vector(out, b"  domination", dominated, &cells)
}

fn importances_of_table(out: Stdout, n: usize, bytes: &[u8]) -> io::Result<()> {
    let mut counts = [0u64; 8];
    let weighed = figures::importance(n, bytes, &mut counts);
    importances(out, weighed, &counts)
}

fn vector(
    out: Stdout,
    name: &[u8],
    answer: Result<usize, Refusal>,
    cells: &[i64],
) -> io::Result<()> {
    say(out, name)?;
    match answer {
        Err(refusal) => refused_after(out, refusal)?,
        Ok(count) => show_cells(out, cells, count)?,
    }
    say(out, b"\n")
}

fn importances(out: Stdout, answer: Result<usize, Refusal>, counts: &[u64]) -> io::Result<()> {
    say(out, b"  importances")?;
    match answer {
        Err(refusal) => refused_after(out, refusal)?,
        Ok(count) => show_counts(out, counts, count)?,
    }
    say(out, b"\n")
}

// Shares of groups of the bridge by both routes, and h(x,z) (001, examples 2 to 4).
fn shares(out: Stdout) -> io::Result<()> {
    say(out, b"shares of the bridge\n")?;
    shares_of_group(out, b"position 1", 1)?;
    shares_of_group(out, b"position 3", 4)?;
    shares_of_group(out, b"positions 1, 2 and 3", 7)?;
    shares_of_group(out, b"all positions", 31)?;
    shares_of_group(out, b"no position", 0)?;
    shares_of_group(out, b"position 6", 32)
}

fn shares_of_group(out: Stdout, name: &[u8], group: usize) -> io::Result<()> {
    say(out, name)?;
    say(out, b":\n")?;
    let bridge = [0x00u8, 0xEA, 0xEC, 0xEE];
    shares_by_sets(out, &bridge, group)?;
    shares_through_h(out, &bridge, group)?;
    coefficients_of_h(out, &bridge, group)
}

fn shares_by_sets(out: Stdout, table: &[u8], group: usize) -> io::Result<()> {
    let mut cells = [0i64; 12];
    let by_sets = shares_by_sets::shares_by_sets(5, table, group, &mut cells);
    vector(out, b"  set by set", by_sets, &cells)
}

fn shares_through_h(out: Stdout, table: &[u8], group: usize) -> io::Result<()> {
    let mut cells = [0i64; 12];
    let through = shares_by_polynomial::shares_by_reliability(5, table, group, &mut cells);
    vector(out, b"  through h", through, &cells)
}

fn coefficients_of_h(out: Stdout, table: &[u8], group: usize) -> io::Result<()> {
    let mut cells = [0i64; 12];
    let coefficients = shares_polynomial::reliability(5, table, group, &mut cells);
    vector(out, b"  h", coefficients, &cells)
}

// The bridge's vectors into each other (000, examples 2 to 4), and vectors that are refused.
fn vectors(out: Stdout) -> io::Result<()> {
    say(out, b"vectors\n")?;
    to_domination(out)?;
    from_domination(out)?;
    refused_vectors(out)
}

fn to_domination(out: Stdout) -> io::Result<()> {
    let tail = [120i64, 120, 96, 24, 0, 0];
    let signature = [0i64, 24, 72, 24, 0];
    conversion(
        out,
        b"tail to domination",
        Kind::Tail,
        &tail,
        Kind::Domination,
    )?;
    conversion(
        out,
        b"signature to domination",
        Kind::Signature,
        &signature,
        Kind::Domination,
    )?;
    conversion(
        out,
        b"tail to path counts",
        Kind::Tail,
        &tail,
        Kind::PathCounts,
    )
}

fn from_domination(out: Stdout) -> io::Result<()> {
    let domination = [0i64, 0, 2, 2, -5, 2];
    conversion(
        out,
        b"domination to tail",
        Kind::Domination,
        &domination,
        Kind::Tail,
    )?;
    conversion(
        out,
        b"domination to signature",
        Kind::Domination,
        &domination,
        Kind::Signature,
    )
}

fn refused_vectors(out: Stdout) -> io::Result<()> {
    let short = [120i64, 120, 96, 24, 0];
    conversion(
        out,
        b"a tail without T(5) to signature",
        Kind::Tail,
        &short,
        Kind::Signature,
    )?;
    let broken = [120i64, 120, 100, 24, 0, 0];
    conversion(
        out,
        b"tail 120 120 100 24 0 0 to signature",
        Kind::Tail,
        &broken,
        Kind::Signature,
    )
}

// A vector of a machine of five parts as one of another kind.
fn conversion(
    out: Stdout,
    name: &[u8],
    kind: Kind,
    entries: &[i64],
    target: Kind,
) -> io::Result<()> {
    let mut cells = [0i64; 6];
    let converted = vector_conversion::convert(kind, 5, entries, target, &mut cells);
    vector(out, name, converted, &cells)
}

fn table(out: Stdout, name: &[u8], n: usize, bytes: &[u8]) -> io::Result<()> {
    say(out, name)?;
    say(out, b": ")?;
    verdict(out, structure::table_verdict(n, bytes))?;
    say(out, b"\n")
}

fn list(out: Stdout, name: &[u8], n: usize, masks: &[u16]) -> io::Result<()> {
    say(out, name)?;
    say(out, b": ")?;
    table_and_minimal(out, n, masks)?;
    say(out, b"\n")
}

fn table_and_minimal(out: Stdout, n: usize, masks: &[u16]) -> io::Result<()> {
    let mut bytes = [0u8; 4];
    let wrote = structure_forms::table_of_list(n, masks, &mut bytes);
    match wrote {
        Err(refusal) => refused(out, refusal)?,
        Ok(length) => {
            show_bytes(out, &bytes, length)?;
            minimal(out, n, &bytes, length)?;
        }
    }
    Ok(())
}

// The minimal sets of the table in front of a buffer.
fn minimal(out: Stdout, n: usize, bytes: &[u8], length: usize) -> io::Result<()> {
    say(out, b"; minimal")?;
    if length <= bytes.len() {
        minimal_of_table(out, n, &bytes[..length])?;
    }
    Ok(())
}

fn minimal_of_table(out: Stdout, n: usize, bytes: &[u8]) -> io::Result<()> {
    let mut sets = [0u16; 8];
    let wrote = structure_forms::minimal_sets(n, bytes, &mut sets);
    match wrote {
        Err(refusal) => refused(out, refusal)?,
        Ok(count) => show_sets(out, &sets, count)?,
    }
    Ok(())
}

fn cuts(out: Stdout, name: &[u8], n: usize, masks: &[u16]) -> io::Result<()> {
    say(out, name)?;
    say(out, b": ")?;
    table_cuts_and_dual(out, n, masks)?;
    say(out, b"\n")
}

fn table_cuts_and_dual(out: Stdout, n: usize, masks: &[u16]) -> io::Result<()> {
    let mut bytes = [0u8; 4];
    let wrote = structure_cuts::table_of_cuts(n, masks, &mut bytes);
    match wrote {
        Err(refusal) => refused(out, refusal)?,
        Ok(length) => forms_of_table(out, n, &bytes, length)?,
    }
    Ok(())
}

// Idle parts (02, §9): of the pairs no part is idle although the last domination is 0.
fn idle_parts(out: Stdout) -> io::Result<()> {
    say(out, b"idle parts\n")?;
    idle(out, b"{1,2}, {2,3}, {3,4}", 4, &[0xC8, 0xF8])?;
    domination_of_table(out, 4, &[0xC8, 0xF8])?;
    idle(out, b"n = 3, {1,2}", 3, &[0x88])?;
    idle(out, b"n = 3, 82", 3, &[0x82])
}

fn idle(out: Stdout, name: &[u8], n: usize, bytes: &[u8]) -> io::Result<()> {
    say(out, name)?;
    say(out, b": ")?;
    let answer = structure_idle::idle_parts(n, bytes);
    match answer {
        Err(refusal) => refused(out, refusal)?,
        Ok(mask) => {
            print!(out; "{mask}")?;
        }
    }
    say(out, b"\n")
}

fn pattern(out: Stdout, name: &[u8], shape: Pattern, n: usize, k: usize) -> io::Result<()> {
    say(out, name)?;
    say(out, b": ")?;
    table_of_pattern(out, shape, n, k)?;
    say(out, b"\n")
}

fn table_of_pattern(out: Stdout, shape: Pattern, n: usize, k: usize) -> io::Result<()> {
    let mut bytes = [0u8; 4];
    let wrote = structure_patterns::table_of_pattern(shape, n, k, &mut bytes);
    match wrote {
        Err(refusal) => refused(out, refusal)?,
        Ok(length) => forms_of_table(out, n, &bytes, length)?,
    }
    Ok(())
}

// The table in front of a buffer, its minimal sets, its minimal cut sets and its dual.
fn forms_of_table(out: Stdout, n: usize, bytes: &[u8], length: usize) -> io::Result<()> {
    show_bytes(out, bytes, length)?;
    minimal(out, n, bytes, length)?;
    cuts_and_dual(out, n, bytes, length)
}

// The minimal cut sets and the dual of the table in front of a buffer.
fn cuts_and_dual(out: Stdout, n: usize, bytes: &[u8], length: usize) -> io::Result<()> {
    say(out, b"; cuts")?;
    if length <= bytes.len() {
        cuts_of_table(out, n, &bytes[..length])?;
    }
    Ok(())
}

fn cuts_of_table(out: Stdout, n: usize, bytes: &[u8]) -> io::Result<()> {
    let mut sets = [0u16; 8];
    let wrote = structure_cuts::minimal_cuts(n, bytes, &mut sets);
    match wrote {
        Err(refusal) => refused(out, refusal)?,
        Ok(count) => show_sets(out, &sets, count)?,
    }
    dual_of_table(out, n, bytes)
}

fn dual_of_table(out: Stdout, n: usize, bytes: &[u8]) -> io::Result<()> {
    say(out, b"; dual ")?;
    let mut turned = [0u8; 4];
    let wrote = structure_cuts::dual(n, bytes, &mut turned);
    match wrote {
        Err(refusal) => refused(out, refusal)?,
        Ok(length) => show_bytes(out, &turned, length)?,
    }
    Ok(())
}

fn verdict(out: Stdout, answer: Result<(), Refusal>) -> io::Result<()> {
    match answer {
        Ok(()) => {
            say(out, b"accepted")?;
        }
        Err(refusal) => refused(out, refusal)?,
    }
    Ok(())
}

fn refused_after(out: Stdout, refusal: Refusal) -> io::Result<()> {
    say(out, b" ")?;
    refused(out, refusal)
}

fn refused(out: Stdout, refusal: Refusal) -> io::Result<()> {
    print!(out; "refused {} at {}", refusal.reason.number(), refusal.place)
}

fn show_bytes(out: Stdout, bytes: &[u8], count: usize) -> io::Result<()> {
    say(out, b"table")?;
    for byte in bytes.iter().take(count) {
        print!(out; " {byte:02x}")?;
    }
    Ok(())
}

fn show_sets(out: Stdout, sets: &[u16], count: usize) -> io::Result<()> {
    for set in sets.iter().take(count) {
        print!(out; " {set}")?;
    }
    Ok(())
}

fn show_cells(out: Stdout, cells: &[i64], count: usize) -> io::Result<()> {
    for cell in cells.iter().take(count) {
        print!(out; " {cell}")?;
    }
    Ok(())
}

fn show_counts(out: Stdout, counts: &[u64], count: usize) -> io::Result<()> {
    for cell in counts.iter().take(count) {
        print!(out; " {cell}")?;
    }
    Ok(())
}

fn say(out: Stdout, text: &[u8]) -> io::Result<()> {
    out.write_all(text)
}
