// h(x,z) of a group: its coefficients (01, "Figures").
#![tactic(auto)]

ghost use Rattle.std.specs.Prelude.{◌≡◌, ◌++◌, ◌+◌, ◌-◌, ◌*◌, ◌/◌, ◌%◌, ◌^◌, ◌≤◌, ◌<◌, length, drop};
ghost use Rattle.numbers.specs.Tables.{tabulate, NoneOver};
ghost use Rattle.theory_sets.specs.Masks.{size as size_of};
ghost use Rattle.theory_sets.specs.Tables.{in_table};
ghost use Rattle.answer.specs.Outcome.{outcome, delivered};
ghost use Rattle.structure_words.specs.Words.{in_words};
ghost use Rattle.shares_claim.specs.Polynomials.{row_length};
ghost use Rattle.shares_claim.specs.Reliability.{reliability_cells};
ghost use Rattle.shares_claim.specs.Refusals.{shares_refusal};
ghost use Rattle.theory_sums.specs.Sums.{gathered};
ghost use Rattle.shares_polynomial.specs.Inside.{type_of, type_term, coefficient_of};

use answer::Refusal;

// The (m+1)(n-m+1) coefficients of h(x,z), where x stands for the parts in the group, into a lent buffer: that of x^i z^j in cell
// i × (n-m+1) + j.
pub fn reliability(
    n: usize,
    table: &[u8],
    group: usize,
    cells: &mut [i64],
) -> Result<usize, Refusal>
    ensures { outcome result cells.new ≡ delivered (shares_refusal n table.now group) (reliability_cells n (in_table table.now) group) cells.old }
{
    let count = cells_needed(n, group);
    shares_group::judge(n, table, group, count, cells.len())?;
    write_reliability(n, table, group, cells);
    Ok(count)
}

// How many coefficients h has for a group, where the machine has at most 16 parts and the group no more than these; else 0.
#[tactic(auto, using(crate::proofs::Coefficients::cells_few))]
fn cells_needed(n: usize, group: usize) -> usize
    ensures { n ≤ 16 → size_of group ≤ n → result ≡ (size_of group + 1) * row_length n (size_of group) }
{
    let m = masks::size(group);
    if 16 < n || n < m {
        return 0;
    }
    (m + 1) * (n - m + 1)
}

// Writes the coefficients of h.
#[tactic(auto, using(crate::proofs::Coefficients::counts_few, crate::proofs::Coefficients::size_few, crate::proofs::Coefficients::coefficients_are))]
fn write_reliability(n: usize, table: &[u8], group: usize, cells: &mut [i64])
    requires n_bound { n ≤ 16 }
    requires group_bound { group < 2 ^ n }
    requires group_in_bounds { (size_of group + 1) * row_length n (size_of group) ≤ length cells.old }
    ensures { cells.new ≡ reliability_cells n (in_table table.now) group ++ drop ((size_of group + 1) * row_length n (size_of group)) cells.old }
{
    let words = structure_words::load(table);
    let counts = count_types(n, &words, group);
    let types = Types {
        n,
        m: masks::size(group),
        counts,
    };
    types.write_coefficients(cells);
}

// How many path sets there are of each type.
#[tactic(auto, using(crate::proofs::Coefficients::types_none))]
fn count_types(n: usize, words: &[u64], group: usize) -> [u64; 289]
    requires n_bound { n ≤ 16 }
    requires group_bound { group < 2 ^ n }
    ensures { result ≡ tabulate 289 (gathered (in_words words.now) (type_of group) (λ a. 1) (2 ^ n)) }
{
    let mut counts = [0; 289];
    for a in 0..numbers::power_of_two(n) {
        add_type(words, group, a, &mut counts);
    }
    counts
}

// Counts a set by its type, if it is a path set.
#[tactic(auto, using(crate::proofs::Coefficients::counting))]
fn add_type(words: &[u64], group: usize, a: usize, counts: &mut [u64])
    requires group_bound { group < 65536 }
    requires a_bound { a < 65536 }
    requires counts_value { counts.old ≡ tabulate 289 (gathered (in_words words.now) (type_of group) (λ b. 1) a) }
    ensures { counts.new ≡ tabulate 289 (gathered (in_words words.now) (type_of group) (λ b. 1) (a + 1)) }
{
    if structure_words::works(words, a) {
        let inside = masks::size(a & group);
        let outside = masks::size(a) - inside;
        shares_group::add(counts, inside * 17 + outside, 1);
    }
}

// A machine's path sets by their type in a group with m of its n parts.
#[derive(Drop)]
struct Types {
    n: usize,
    m: usize,
    counts: [u64; 289],
    ghost n_bound: { n ≤ 16 },
    ghost m_le_n: { m ≤ n },
    ghost none_over: { NoneOver 65536 counts },
}

impl Types {
    // Writes the coefficients of h.
    #[tactic(auto, using(crate::proofs::Coefficients::writing))]
    fn write_coefficients(&self, cells: &mut [i64])
        requires { (self.now.m + 1) * row_length self.now.n self.now.m ≤ length cells.old }
        ensures { cells.new ≡ tabulate ((self.now.m + 1) * row_length self.now.n self.now.m) (λ c. coefficient_of self.now.n self.now.m self.now.counts (c / row_length self.now.n self.now.m) (c % row_length self.now.n self.now.m)) ++ drop ((self.now.m + 1) * row_length self.now.n self.now.m) cells.old }
    {
        let row = self.n - self.m + 1;
        let end = (self.m + 1) * row;
        for (c, cell) in cells[..end].iter_mut().enumerate() {
            *cell = self.coefficient(c / row, c % row);
        }
    }

    // The coefficient of x^i z^j: the terms of either sign are added up, and subtracted once.
    #[tactic(auto, using(crate::proofs::Coefficients::adding))]
    fn coefficient(&self, i: usize, j: usize) -> i64
        requires i_le_m { i ≤ self.now.m }
        requires j_bound { j ≤ self.now.n - self.now.m }
        ensures { result ≡ coefficient_of self.now.n self.now.m self.now.counts i j }
    {
        let mut added = 0;
        let mut taken = 0;
        for t in 0..(j + 1) * (i + 1) {
            let b = t / (i + 1);
            let a = t % (i + 1);
            let term = self.term(i, j, b, a);
            if (i - a + (j - b)) % 2 == 0 {
                added += term;
            } else {
                taken += term;
            }
        }
        integers::difference(added, taken)
    }

    // The term of the type a, b in the coefficient of x^i z^j, without its sign.
    #[tactic(auto, using(crate::proofs::Coefficients::factors), unfolding(crate::specs::Inside::type_term))]
    fn term(&self, i: usize, j: usize, b: usize, a: usize) -> u64
        requires i_le_m { i ≤ self.now.m }
        requires j_bound { j ≤ self.now.n - self.now.m }
        requires a_le_i { a ≤ i }
        requires b_le_j { b ≤ j }
        ensures { result ≡ type_term self.now.n self.now.m self.now.counts i j b a }
    {
        numbers::binomial(self.m - a, i - a) as u64
            * numbers::binomial(self.n - self.m - b, j - b) as u64
            * numbers::cell(&self.counts, a * 17 + b)
    }
}
