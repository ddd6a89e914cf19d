// A group's shares through h(x,z) (01, "Figures"; 001, Algorithm 2).
#![tactic(auto)]

ghost use Rattle.std.specs.Prelude.{◌≡◌, ◌++◌, ℕ, ◌+◌, ◌≤◌, ◌<◌, pos, length, get_or, drop};
ghost use Rattle.theory_sets.specs.Tables.{in_table};
ghost use Rattle.answer.specs.Outcome.{outcome, delivered};
ghost use Rattle.shares_claim.specs.Polynomials.{in_cells, shares_from_cells};
ghost use Rattle.shares_claim.specs.Reliability.{shares_by_reliability};
ghost use Rattle.shares_claim.specs.Inside.{common as common_of, power_weight, Bounded};
ghost use Rattle.shares_claim.specs.Refusals.{shares_refusal};
ghost use Rattle.shares_by_polynomial.specs.Inside.{above as above_zero, below as below_zero, cell_weight, InRange, share_of_cells};

use answer::Refusal;

// lcm(1..n) for n from 0 to 16.
const COMMON: [u64; 17] = [
    1, 1, 2, 6, 12, 60, 60, 420, 840, 2520, 2520, 27720, 27720, 360360, 360360, 360360, 720720,
];

// The m shares of a group through h(x,z), into a lent buffer.
pub fn shares_by_reliability(
    n: usize,
    table: &[u8],
    group: usize,
    shares: &mut [i64],
) -> Result<usize, Refusal>
    ensures { outcome result shares.new ≡ delivered (shares_refusal n table.now group) (shares_by_reliability n (in_table table.now) group) shares.old }
{
    let m = masks::size(group);
    let mut cells = [0i64; 289];
    let count = shares_polynomial::reliability(n, table, group, &mut cells)?;
    write_shares(n, m, &cells, shares)
}

// The m shares by the coefficients of h, into a lent buffer.
#[tactic(auto, using(crate::proofs::ThroughH::from_cells_length))]
fn write_shares(n: usize, m: usize, cells: &[i64], shares: &mut [i64]) -> Result<usize, Refusal>
    requires n_bound { n ≤ 16 }
    requires m_le_n { m ≤ n }
    requires bounded { Bounded n m (in_cells n m cells.now) }
    requires by_index { (k : ℕ) → 1 ≤ k → k ≤ m → InRange n (share_of_cells n m cells.now k) }
    ensures { outcome result shares.new ≡ delivered (Ok tt) (shares_from_cells n m cells.now) shares.old }
{
    answer::room(m, shares.len())?;
    write_from_cells(n, m, cells, shares);
    Ok(m)
}

// Writes the shares by the coefficients of h.
#[tactic(auto, using(numbers::proofs::Tables::filled_none, numbers::proofs::Tables::filled_again), unfolding(shares_claim::specs::Polynomials::shares_from_cells))]
fn write_from_cells(n: usize, m: usize, cells: &[i64], shares: &mut [i64])
    requires n_bound { n ≤ 16 }
    requires m_le_n { m ≤ n }
    requires bounded { Bounded n m (in_cells n m cells.now) }
    requires by_index { (k : ℕ) → 1 ≤ k → k ≤ m → InRange n (share_of_cells n m cells.now k) }
    requires m_in_bounds { m ≤ length shares.old }
    ensures { shares.new ≡ shares_from_cells n m cells.now ++ drop m shares.old }
{
    for (k, share) in shares[..m].iter_mut().enumerate() {
        *share = Place { n, m, k: k + 1 }.share(cells);
    }
}

// Whose share is worked out: that for k in a group with m of a machine's n parts.
#[derive(Drop)]
struct Place {
    n: usize,
    m: usize,
    k: usize,
    ghost n_bound: { n ≤ 16 },
    ghost m_le_n: { m ≤ n },
    ghost le_k: { 1 ≤ k },
    ghost k_le_m: { k ≤ m },
}

impl Place {
    // The share by the coefficients of h, n, m and k alone: n!/L is put off to the end, where L is lcm(1..n).
    #[tactic(auto, using(crate::proofs::FromCells::sharing))]
    fn share(&self, cells: &[i64]) -> i64
        requires bounded { Bounded self.now.n self.now.m (in_cells self.now.n self.now.m cells.now) }
        requires in_range { InRange self.now.n (share_of_cells self.now.n self.now.m cells.now self.now.k) }
        ensures { result ≡ share_of_cells self.now.n self.now.m cells.now self.now.k }
    {
        let mut added = 0;
        let mut taken = 0;
        let row = self.n - self.m + 1;
        for c in 0..self.m * row {
            let weight = self.cell_weight(c / row, c % row);
            added += weight * above(cells, c + row);
            taken += weight * below(cells, c + row);
        }
        ((added - taken) * (numbers::factorial(self.n) / common(self.n))) as i64
    }

    // What the coefficient of x^(i+1) z^j counts for in the share, without n!/L.
    #[tactic(auto, using(crate::proofs::FromCells::weighing), unfolding(crate::specs::Inside::cell_weight))]
    fn cell_weight(&self, i: usize, j: usize) -> u64
        requires i_lt_m { i < self.now.m }
        requires j_bound { self.now.m + j ≤ self.now.n }
        ensures { result ≡ cell_weight self.now.n self.now.m self.now.k i j }
    {
        let (m, k) = (self.m, self.k);
        numbers::binomial(m - 1 - i, k - 1) as u64 * (i + 1) as u64 * self.power_weight(j)
    }

    // The weight of z^j in the share: L divided by k C(m+j,k).
    #[tactic(auto, using(crate::proofs::FromCells::weighing), unfolding(shares_claim::specs::Inside::power_weight))]
    fn power_weight(&self, j: usize) -> u64
        requires { self.now.m + j ≤ self.now.n }
        ensures { result ≡ power_weight self.now.n self.now.m self.now.k j }
    {
        common(self.n) / (self.k as u64 * numbers::binomial(self.m + j, self.k) as u64)
    }
}

// The number at an index, and 0 beyond the last.
fn entry(list: &[i64], at: usize) -> i64
    ensures { result ≡ get_or list.now at (pos 0) }
{
    list.get(at).copied().unwrap_or(0)
}

// lcm(1..n).
#[tactic(auto, unfolding(shares_claim::specs::Inside::common))]
fn common(n: usize) -> u64
    requires { n ≤ 16 }
    ensures { result ≡ common_of n }
{
    COMMON[n]
}

// How far the number at an index is above 0.
#[tactic(auto, unfolding(crate::specs::Inside::above))]
fn above(list: &[i64], at: usize) -> u64
    ensures { result ≡ above_zero (get_or list.now at (pos 0)) }
{
    entry(list, at).max(0).unsigned_abs()
}

// How far the number at an index is below 0.
#[tactic(auto, unfolding(crate::specs::Inside::below))]
fn below(list: &[i64], at: usize) -> u64
    ensures { result ≡ below_zero (get_or list.now at (pos 0)) }
{
    entry(list, at).min(0).unsigned_abs()
}
