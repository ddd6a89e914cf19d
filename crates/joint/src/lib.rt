// The joint signature of two machines on one cart: in how many failure orders the k-th failure stops the first machine and the l-th the second
// (02, §5).
#![tactic(auto)]

ghost use Rattle.std.specs.Prelude.{◌≡◌, ◌++◌, ◌+◌, ◌*◌, ◌/◌, ◌%◌, ◌≤◌, ◌<◌, length, drop};
ghost use Rattle.numbers.specs.Counts.{factorial};
ghost use Rattle.numbers.specs.Tables.{tabulate};
ghost use Rattle.theory_sets.specs.Tables.{in_table};
ghost use Rattle.theory_joint.specs.Joint.{joint_square};
ghost use Rattle.answer.specs.Outcome.{and_then, room, outcome, delivered};
ghost use Rattle.joint.specs.Refusals.{joint_refusal};
ghost use Rattle.joint.specs.Inside.{tail_by, cell_by, Counted};

use answer::Refusal;

// The n × n counts of two machines with the same n parts, into a lent buffer: that of k and l in cell (k-1) × n + l-1.
pub fn joint_signature(
    n: usize,
    first: &[u8],
    second: &[u8],
    cells: &mut [u64],
) -> Result<usize, Refusal>
    ensures { outcome result cells.new ≡ delivered (joint_refusal n first.now second.now) (joint_square n (in_table first.now) (in_table second.now)) cells.old }
{
    let count = cells_needed(n);
    judge(n, first, second, count, cells.len())?;
    write_square(n, first, second, cells);
    Ok(count)
}

// How many cells the square has, where the machines have at most 16 parts; else 0.
#[tactic(auto, using(crate::proofs::Tails::square_few))]
fn cells_needed(n: usize) -> usize
    ensures { n ≤ 16 → result ≡ n * n }
{
    if n <= 16 { n * n } else { 0 }
}

// The verdict on a call with two tables that needs so many cells for its result and is lent so many.
fn judge(n: usize, first: &[u8], second: &[u8], needed: usize, lent: usize) -> Result<(), Refusal>
    ensures { result ≡ and_then (joint_refusal n first.now second.now) (room needed lent) }
{
    tables_verdict(n, first, second)?;
    answer::room(needed, lent)
}

// The verdict on two tables, the first before the second.
#[tactic(auto, unfolding(crate::specs::Refusals::joint_refusal))]
fn tables_verdict(n: usize, first: &[u8], second: &[u8]) -> Result<(), Refusal>
    ensures { result ≡ joint_refusal n first.now second.now }
{
    structure::table_verdict(n, first)?;
    structure::table_verdict(n, second)
}

// Writes the square of two accepted tables.
fn write_square(n: usize, first: &[u8], second: &[u8], cells: &mut [u64])
    requires second_value { joint_refusal n first.now second.now ≡ Ok tt }
    requires n_in_bounds { n * n ≤ length cells.old }
    ensures { cells.new ≡ joint_square n (in_table first.now) (in_table second.now) ++ drop (n * n) cells.old }
{
    let one = structure_words::load(first);
    let other = structure_words::load(second);
    let within = joint_pairs::nested_pairs(n, &one, &other);
    let around = joint_pairs::nested_pairs(n, &other, &one);
    let pairs = Pairs { n, within, around };
    pairs.write_cells(cells);
}

// The pairs of nested path sets of two machines with n parts: those with the second machine's set within the first's, and those with it around
// the first's.
#[derive(Drop)]
struct Pairs {
    n: usize,
    within: [u64; 289],
    around: [u64; 289],
}

impl Pairs {
    // Writes the square.
    #[tactic(auto, using(crate::proofs::Tails::writing))]
    fn write_cells(&self, cells: &mut [u64])
        requires counted { Counted self.now.n self.now.within self.now.around }
        requires n_in_bounds { self.now.n * self.now.n ≤ length cells.old }
        ensures { cells.new ≡ tabulate (self.now.n * self.now.n) (λ c. cell_by self.now.n self.now.within self.now.around (c / self.now.n) (c % self.now.n)) ++ drop (self.now.n * self.now.n) cells.old }
    {
        let n = self.n;
        for (c, cell) in cells[..n * n].iter_mut().enumerate() {
            *cell = self.cell(c / n, c % n);
        }
    }

    // In how many orders the failure after k others stops the first machine, and that after l others the second: 004's difference of tails.
    #[tactic(auto, using(crate::proofs::Tails::tail_few, crate::proofs::Tails::cell_less), unfolding(crate::specs::Inside::cell_by))]
    fn cell(&self, k: usize, l: usize) -> u64
        requires counted { Counted self.now.n self.now.within self.now.around }
        requires k_lt_n { k < self.now.n }
        requires l_lt_n { l < self.now.n }
        ensures { result ≡ cell_by self.now.n self.now.within self.now.around k l }
    {
        let before = self.tail(k, l);
        let after = self.tail(k + 1, l + 1);
        let after_first = self.tail(k + 1, l);
        let after_second = self.tail(k, l + 1);
        before + after - (after_first + after_second)
    }

    // In how many orders the first machine works after k failures and the second after l: the pairs of what is left, the larger of them that of
    // the machine with fewer failures, times the ways to put the parts before, between and behind in order.
    #[tactic(auto, using(crate::proofs::Tails::tail_within, crate::proofs::Tails::tail_around))]
    fn tail(&self, k: usize, l: usize) -> u64
        requires counted { Counted self.now.n self.now.within self.now.around }
        requires k_le_n { k ≤ self.now.n }
        requires l_le_n { l ≤ self.now.n }
        ensures { result ≡ tail_by self.now.n self.now.within self.now.around k l }
    {
        let n = self.n;
        if k <= l {
            numbers::cell(&self.within, 17 * (n - k) + (n - l)) * ways(k, l - k, n - l)
        } else {
            numbers::cell(&self.around, 17 * (n - l) + (n - k)) * ways(l, k - l, n - k)
        }
    }
}

// In how many orders as many parts come before, between and behind two places as are given.
#[tactic(auto, using(crate::proofs::Tails::two_few, crate::proofs::Tails::three_few, numbers::proofs::Counts::up_to_16_given))]
fn ways(before: usize, between: usize, behind: usize) -> u64
    requires { before + between + behind ≤ 16 }
    ensures { result ≡ factorial before * factorial between * factorial behind }
{
    numbers::factorial(before) * numbers::factorial(between) * numbers::factorial(behind)
}
