// The path counts of a machine made of blocks, from the structure of its blocks and the path counts of each (02, §10; 003, section 3).
#![tactic(auto)]

ghost use Rattle.std.specs.Prelude.{◌≡◌, cond, ℕ, ◌+◌, ◌-◌, ◌^◌, ◌≤◌, ◌<◌, eqb, pos, nat_abs, length, get_or};
ghost use Rattle.numbers.specs.Counts.{choose};
ghost use Rattle.numbers.specs.Tables.{tabulate, NoneOver};
ghost use Rattle.answer.specs.Outcome.{outcome, delivered};
ghost use Rattle.structure_words.specs.Words.{in_words};
ghost use Rattle.theory_sets.specs.Tables.{in_table};
ghost use Rattle.theory_sums.specs.Sums.{indicator};
ghost use Rattle.theory_blocks.specs.Blocks.{count_of_blocks, parts_in};
ghost use Rattle.blocks_checks.specs.Given.{size_at, start_of, block_counts};
ghost use Rattle.blocks_checks.specs.Refusals.{blocks_refusal};
ghost use Rattle.blocks.specs.Whole.{counts_of_blocks};
ghost use Rattle.blocks.specs.Inside.{rows_of, row_at, count_at, entry_at, stopped_of, stopped_at, cells_of, joined_count, BothRows, Joining};

use answer::Refusal;

// The path counts of the whole into a lent buffer: the table says on which sets of blocks the whole runs, the sizes how many parts each block
// has, and the vectors are their path counts one after another.
pub fn path_counts_of_blocks(
    blocks: usize,
    table: &[u8],
    sizes: &[usize],
    vectors: &[i64],
    cells: &mut [i64],
) -> Result<usize, Refusal>
    ensures { outcome result cells.new ≡ delivered (blocks_refusal blocks table.now sizes.now vectors.now) (counts_of_blocks blocks table.now sizes.now vectors.now) cells.old }
{
    blocks_checks::blocks_verdict(blocks, table, sizes, vectors)?;
    let parts = vectors.len() - blocks;
    let counts = whole_counts(table, sizes, vectors, parts);
    answer::hand_out(&counts[..parts + 1], cells)
}

// The path counts of blocks that are accepted, signed as entries of a vector are; those beyond the parts are 0.
fn whole_counts(table: &[u8], sizes: &[usize], vectors: &[i64], parts: usize) -> [i64; 17]
    requires vectors_value { blocks_refusal (length sizes.now) table.now sizes.now vectors.now ≡ Ok tt }
    requires parts_value { parts ≡ parts_in (size_at sizes.now) (length sizes.now) }
    ensures { result ≡ tabulate 17 (λ j. pos (count_of_blocks (size_at sizes.now) (block_counts sizes.now vectors.now) (length sizes.now) (in_table table.now) j)) }
{
    let words = structure_words::load(table);
    let running = running_counts(sizes, vectors);
    let stopped = stopped_counts(sizes, &running);
    let blocks = Blocks {
        words: &words,
        sizes,
        running: &running,
        stopped: &stopped,
    };
    let counts = blocks.folded(sizes.len(), parts, 0);
    signed(&counts)
}

// On how many sets of each size each block runs, a row for each.
#[tactic(auto, using(crate::proofs::Rows::running))]
fn running_counts(sizes: &[usize], vectors: &[i64]) -> [[u64; 17]; 16]
    requires sizes_len_bound { length sizes.now ≤ 16 }
    requires by_index { (b : ℕ) → b < length sizes.now → size_at sizes.now b ≤ 16 }
    requires vectors_len { length vectors.now ≡ start_of sizes.now (length sizes.now) }
    ensures { result ≡ rows_of (length sizes.now) (block_counts sizes.now vectors.now) }
{
    let mut rows = [[0; 17]; 16];
    let mut start = 0;
    for (b, size) in sizes.iter().enumerate() {
        let end = start + *size + 1;
        rows[b] = counts_row(&vectors[start..end]);
        start = end;
    }
    rows
}

// The path counts of one block as a row.
#[tactic(auto, using(crate::proofs::Rows::counting), unfolding(crate::specs::Inside::count_at))]
fn counts_row(vector: &[i64]) -> [u64; 17]
    requires { length vector.now ≤ 17 }
    ensures { result ≡ tabulate 17 (count_at vector.now) }
{
    let mut row = [0; 17];
    for (j, count) in vector.iter().enumerate() {
        row[j] = count.unsigned_abs();
    }
    row
}

// On how many sets of each size each block is stopped, a row for each.
#[tactic(auto, using(crate::proofs::Rows::stopping))]
fn stopped_counts(sizes: &[usize], running: &[[u64; 17]; 16]) -> [[u64; 17]; 16]
    requires sizes_len_bound { length sizes.now ≤ 16 }
    requires by_index { (b : ℕ) → b < length sizes.now → size_at sizes.now b ≤ 16 }
    requires by_index_2 { (b : ℕ) → b < length sizes.now → (j : ℕ) → row_at running.now b j ≤ choose (size_at sizes.now b) j }
    ensures { result ≡ rows_of (length sizes.now) (stopped_at sizes.now running.now) }
{
    let mut rows = [[0; 17]; 16];
    for (b, size) in sizes.iter().enumerate() {
        rows[b] = stopped_row(*size, &running[b]);
    }
    rows
}

// On how many sets of each size one block is stopped: all sets but those on which it runs.
#[tactic(auto, using(numbers::proofs::Tables::filled_none, numbers::proofs::Tables::filled_again, numbers::proofs::Tables::filled_end, numbers::proofs::Counts::up_to_16_given), unfolding(crate::specs::Inside::stopped_of))]
fn stopped_row(size: usize, running: &[u64; 17]) -> [u64; 17]
    requires size_bound { size ≤ 16 }
    requires by_index { (j : ℕ) → cells_of running.now j ≤ choose size j }
    ensures { result ≡ tabulate 17 (stopped_of size running.now) }
{
    let mut row = [0; 17];
    for (j, cell) in row.iter_mut().enumerate() {
        *cell = numbers::binomial(size, j) as u64 - running[j];
    }
    row
}

// Blocks as their counts are worked out: on which sets of blocks the whole runs, how many parts each block has, and on how many sets of each size it
// runs and is stopped.
#[derive(Drop)]
struct Blocks<'a> {
    words: &'a [u64],
    sizes: &'a [usize],
    running: &'a [[u64; 17]; 16],
    stopped: &'a [[u64; 17]; 16],
}

impl Blocks<'_> {
    // The path counts of so many first blocks, where of those behind them exactly the ones in the set `above` run: by the last of the first
    // blocks, which runs or is stopped.
    fn folded(&self, blocks: usize, parts: usize, above: usize) -> [u64; 17]
        requires both_rows { BothRows self.now.sizes.now self.now.running.now self.now.stopped.now }
        requires blocks_in_bounds { blocks ≤ length self.now.sizes.now }
        requires parts_value { parts ≡ parts_in (size_at self.now.sizes.now) blocks }
        requires blocks_bound { above + 2 ^ blocks ≤ 65536 }
        ensures { result ≡ tabulate 17 (count_of_blocks (size_at self.now.sizes.now) (row_at self.now.running.now) blocks (λ a. in_words self.now.words.now (a + above))) }
    {
        if blocks == 0 {
            return no_block(structure_words::works(self.words, above));
        }
        let last = blocks - 1;
        let size = self.sizes[last];
        let aside = above + numbers::power_of_two(last);
        let join = Join {
            size,
            running: &self.running[last],
            stopped: &self.stopped[last],
            with: self.folded(last, parts - size, aside),
            without: self.folded(last, parts - size, above),
        };
        join.counts(parts)
    }
}

// The path counts of no block: of size 0 there is one set, on which the whole runs or not.
fn no_block(runs: bool) -> [u64; 17]
    ensures { result ≡ tabulate 17 (λ j. cond runs (indicator (eqb j 0)) 0) }
{
    let mut row = [0; 17];
    row[0] = u64::from(runs);
    row
}

// A block that joins others: on how many sets of each size it runs and is stopped, and the path counts of the whole, over those others, where it
// runs and where it is stopped.
#[derive(Drop)]
struct Join<'a> {
    size: usize,
    running: &'a [u64; 17],
    stopped: &'a [u64; 17],
    with: [u64; 17],
    without: [u64; 17],
}

impl Join<'_> {
    // The path counts of all sizes; beyond all parts there are none.
    #[tactic(auto, using(crate::proofs::Joins::filling))]
    fn counts(&self, parts: usize) -> [u64; 17]
        requires joining { Joining self.now.size self.now.running.now self.now.stopped.now self.now.with self.now.without }
        requires parts_bound { parts ≤ 16 }
        requires by_index { (k : ℕ) → parts < k → joined_count self.now.running.now self.now.stopped.now self.now.with self.now.without k ≡ 0 }
        ensures { result ≡ tabulate 17 (joined_count self.now.running.now self.now.stopped.now self.now.with self.now.without) }
    {
        let mut row = [0; 17];
        for (k, cell) in row[..parts + 1].iter_mut().enumerate() {
            *cell = self.count(k);
        }
        row
    }

    // The path count of size k: the block has i of the k parts, and the others the rest.
    #[tactic(auto, using(crate::proofs::Joins::terms_none))]
    fn count(&self, k: usize) -> u64
        requires joining { Joining self.now.size self.now.running.now self.now.stopped.now self.now.with self.now.without }
        requires k_bound { k ≤ 16 }
        ensures { result ≡ joined_count self.now.running.now self.now.stopped.now self.now.with self.now.without k }
    {
        let mut sum = 0;
        for i in 0..=self.size.min(k) {
            sum += self.running[i] * self.with[k - i] + self.stopped[i] * self.without[k - i];
        }
        sum
    }
}

// Path counts as the entries of a vector.
#[tactic(auto, using(numbers::proofs::Tables::filled_none, numbers::proofs::Tables::filled_again, numbers::proofs::Tables::filled_end), unfolding(crate::specs::Inside::entry_at))]
fn signed(counts: &[u64; 17]) -> [i64; 17]
    requires { NoneOver 12870 counts.now }
    ensures { result ≡ tabulate 17 (entry_at counts.now) }
{
    let mut entries = [0; 17];
    for (j, entry) in entries.iter_mut().enumerate() {
        *entry = counts[j] as i64;
    }
    entries
}
