// Pairs of nested path sets of two machines, counted by their sizes: not pair by pair, which are 3^n, but by sums over the sets above each set.
// A cell of 64 bits has room for the counts of three sizes of outer sets, 21 bits each, so six sweeps over 2^n cells count all of them.
#![tactic(auto)]

ghost use Rattle.std.specs.Prelude.{◌≡◌, cond, ◌+◌, ◌*◌, ◌/◌, ◌%◌, ◌^◌, ◌≤◌, ◌<◌, min, ltb, length, get_or, []};
ghost use Rattle.numbers.specs.Tables.{tabulate, NoneOver};
ghost use Rattle.theory_sums.specs.Sums.{indicator};
ghost use Rattle.structure_words.specs.Words.{in_words};
ghost use Rattle.theory_joint.specs.Formula.{nested_pairs};
ghost use Rattle.joint_pairs.specs.Inside.{lane_of, mark_of, swept_over, swept, cell_of, cells_by_size, Fits, packed_row};

// One more than the largest count of 21 bits, which a lane holds.
const LANE: u64 = 1 << 21;

// How many path sets of the outer machine with i parts hold a path set of the inner with j, pair by pair, in cell 17 × i + j; of the first n
// parts, at most 16.
pub fn nested_pairs(n: usize, outer: &[u64], inner: &[u64]) -> [u64; 289]
    ensures { result ≡ tabulate 289 (λ c. nested_pairs (min n 16) (in_words outer.now) (in_words inner.now) (c / 17) (c % 17)) }
{
    let mut cells = [0; 65536];
    let parts = numbers::at_most_16(n);
    let rows = packed_rows(parts, outer, inner, &mut cells);
    unpacked(&rows)
}

// The counts of all pairs, three outer sizes to a number; of the cells one for each set of n parts is used.
fn packed_rows(n: usize, outer: &[u64], inner: &[u64], cells: &mut [u64]) -> [[u64; 17]; 6]
    requires n_bound { n ≤ 16 }
    requires cells_len { length cells.old ≡ 65536 }
    ensures { result ≡ tabulate 6 (packed_row n (in_words outer.now) (in_words inner.now)) }
{
    let end = numbers::power_of_two(n);
    all_thirds(n, outer, inner, &mut cells[..end])
}

// The counts of all pairs in six rows, each for three outer sizes to a number, by the inner size.
#[tactic(auto, using(numbers::proofs::Tables::filled_none, numbers::proofs::Tables::filled_again, numbers::proofs::Tables::filled_end))]
fn all_thirds(n: usize, outer: &[u64], inner: &[u64], cells: &mut [u64]) -> [[u64; 17]; 6]
    requires n_bound { n ≤ 16 }
    requires cells_len { length cells.old ≡ 2 ^ n }
    ensures { result ≡ tabulate 6 (packed_row n (in_words outer.now) (in_words inner.now)) }
{
    let mut rows = [[0; 17]; 6];
    for (third, row) in rows.iter_mut().enumerate() {
        *row = one_third(n, outer, inner, third, cells);
    }
    rows
}

// The counts for three outer sizes, by the inner size.
#[tactic(auto, using(crate::proofs::Pairing::rows))]
fn one_third(n: usize, outer: &[u64], inner: &[u64], third: usize, cells: &mut [u64]) -> [u64; 17]
    requires n_bound { n ≤ 16 }
    requires cells_len { length cells.old ≡ 2 ^ n }
    ensures { result ≡ packed_row n (in_words outer.now) (in_words inner.now) third }
{
    mark(outer, &lanes(third), cells);
    sweep(n, cells);
    gather(inner, cells)
}

// What marks a set of each size, for the three sizes that are counted together.
#[tactic(auto, using(numbers::proofs::Tables::filled_none, numbers::proofs::Tables::filled_again, numbers::proofs::Tables::filled_end))]
fn lanes(third: usize) -> [u64; 17]
    ensures { result ≡ tabulate 17 (lane_of third) }
{
    let mut lanes = [0; 17];
    for (s, cell) in lanes.iter_mut().enumerate() {
        *cell = lane(third, s);
    }
    lanes
}

// 1 in the lane of a size that is one of the three, and 0 for any other size.
#[tactic(auto, using(crate::proofs::Packing::lane_fits), unfolding(crate::specs::Inside::lane_of))]
fn lane(third: usize, s: usize) -> u64
    ensures { result ≡ lane_of third s }
{
    if s / 3 == third {
        1 << (21 * (s % 3))
    } else {
        0
    }
}

// Marks each set that works in the lane of its size; no branch asks whether it works.
#[tactic(auto, using(numbers::proofs::Tables::filled_none, numbers::proofs::Tables::filled_again, numbers::proofs::Tables::filled_end, crate::proofs::Packing::size_few, crate::proofs::Packing::mark_few), unfolding(crate::specs::Inside::mark_of))]
fn mark(words: &[u64], lanes: &[u64; 17], cells: &mut [u64])
    requires cells_len_bound { length cells.old ≤ 65536 }
    requires none_over { NoneOver (2 ^ 42) lanes.now }
    ensures { cells.new ≡ tabulate (length cells.old) (mark_of (in_words words.now) lanes.now) }
{
    for (a, cell) in cells.iter_mut().enumerate() {
        *cell = bit(words, a) * lanes[masks::size(a)];
    }
}

// 1 for a set that works and 0 for one that does not.
fn bit(words: &[u64], a: usize) -> u64
    ensures { result ≡ indicator (in_words words.now a) }
{
    structure_words::works(words, a) as u64
}

// Adds to the cell of each set those of all sets that hold it, part by part.
#[tactic(auto, using(crate::proofs::Sweeping::parts))]
fn sweep(n: usize, cells: &mut [u64])
    requires n_bound { n ≤ 16 }
    requires cells_len { length cells.old ≡ 2 ^ n }
    requires none_over { NoneOver (2 ^ 42) cells.old }
    ensures { cells.new ≡ tabulate (2 ^ n) (swept n (cell_of cells.old)) }
{
    for part in 0..n {
        sweep_part(n, part, cells);
    }
}

// Adds to the cell of each set without the part that of the set with it, block by block of the sets that differ in the parts up to it.
#[tactic(auto, using(crate::proofs::Sweeping::blocks))]
fn sweep_part(n: usize, part: usize, cells: &mut [u64])
    requires n_bound { n ≤ 16 }
    requires part_lt_n { part < n }
    requires cells_len { length cells.old ≡ 2 ^ n }
    requires none_over { NoneOver (2 ^ 62) cells.old }
    ensures { cells.new ≡ tabulate (2 ^ n) (swept_over part (cell_of cells.old)) }
{
    let half = numbers::power_of_two(part);
    for block in 0..numbers::power_of_two(n - (part + 1)) {
        let start = 2 * half * block;
        let end = start + 2 * half;
        add_upper(half, &mut cells[start..end]);
    }
}

// Adds to each cell of the lower half of a block the cell in its place of the upper half.
#[tactic(auto, using(numbers::proofs::Tables::filled_none, numbers::proofs::Tables::filled_again, numbers::proofs::Tables::filled_from, crate::proofs::Sweeping::halves_joined))]
fn add_upper(half: usize, cells: &mut [u64])
    requires cells_len { length cells.old ≡ 2 * half }
    requires half_bound { half ≤ 65536 }
    requires none_over { NoneOver (2 ^ 62) cells.old }
    ensures { cells.new ≡ tabulate (2 * half) (λ r. get_or cells.old r 0 + cond (ltb r half) (get_or cells.old (half + r) 0) 0) }
{
    let (lower, upper) = cells.split_at_mut(half);
    for (r, low) in lower.iter_mut().enumerate() {
        *low += upper[r];
    }
}

// Adds up the cells of the sets that work, by size; no branch asks whether they work.
#[tactic(auto, using(crate::proofs::Packing::adding))]
fn gather(words: &[u64], cells: &[u64]) -> [u64; 17]
    requires cells_len_bound { length cells.now ≤ 65536 }
    requires fits { Fits (in_words words.now) cells.now }
    ensures { result ≡ tabulate 17 (cells_by_size (in_words words.now) cells.now (length cells.now)) }
{
    let mut sums = [0; 17];
    for (b, cell) in cells.iter().enumerate() {
        sums[masks::size(b)] += bit(words, b) * *cell;
    }
    sums
}

// The counts by the sizes of both sets, taken out of their lanes.
#[tactic(auto, using(numbers::proofs::Tables::filled_none, numbers::proofs::Tables::filled_again, numbers::proofs::Tables::filled_end))]
fn unpacked(rows: &[[u64; 17]; 6]) -> [u64; 289]
    ensures { result ≡ tabulate 289 (λ c. get_or (get_or rows.now (c / 51) []) (c % 17) 0 / 2 ^ (21 * (c / 17 % 3)) % 2 ^ 21) }
{
    let mut pairs = [0; 289];
    for (c, pair) in pairs.iter_mut().enumerate() {
        *pair = (rows[c / 51][c % 17] >> (21 * (c / 17 % 3))) % LANE;
    }
    pairs
}
