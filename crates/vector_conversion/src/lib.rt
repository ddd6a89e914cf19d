// Vectors of the four kinds (01, "Vector sheets") in lent entries: judged, and converted into each other.
#![tactic(auto)]

ghost use Rattle.std.specs.Prelude.{◌≡◌, not, ◌&&◌, ◌++◌, ◌+◌, ◌-◌, ◌*◌, ◌^◌, ◌≤◌, ◌<◌, eqb, pos, ◌+ℤ◌, ◌-ℤ◌, length, drop};
ghost use Rattle.numbers.specs.Tables.{NoneOver};
ghost use Rattle.numbers.specs.Counts.{factorial};
ghost use Rattle.answer.specs.Outcome.{outcome, delivered};
ghost use Rattle.vector_kind.specs.Kinds.{length_of};
ghost use Rattle.theory_figures.specs.Figures.{tail as tail_of, domination as domination_of};
ghost use Rattle.vector_conversion.specs.Vectors.{vector_refusal, figure as figure_of, vector_of, converted};
ghost use Rattle.vector_conversion.specs.Inside.{count_in, off_range, count_at, cells_of, Found, CountsAs, FirstFall, ExaminedAs, TermsOf};

use answer::{Reason, Refusal};
use vector_kind::Kind;

// Whether a vector is accepted.
pub fn judge(kind: Kind, n: usize, entries: &[i64]) -> Result<(), Refusal>
    ensures { result ≡ vector_refusal kind n entries.now }
{
    examine(kind, n, entries)?;
    Ok(())
}

// A vector as one of another kind, into a lent buffer.
pub fn convert(
    kind: Kind,
    n: usize,
    entries: &[i64],
    target: Kind,
    cells: &mut [i64],
) -> Result<usize, Refusal>
    ensures { outcome result cells.new ≡ delivered (vector_refusal kind n entries.now) (converted target kind n entries.now) cells.old }
{
    let counts = examine(kind, n, entries)?;
    let needed = target.entries(n);
    answer::room(needed, cells.len())?;
    write(target, n, &counts, cells);
    Ok(needed)
}

// The terms of a domination by their sign.
#[derive(Drop)]
struct Terms {
    added: u64,
    taken: u64,
}

// The path counts of a vector, where it is accepted.
fn examine(kind: Kind, n: usize, entries: &[i64]) -> Result<[u64; 17], Refusal>
    ensures { ExaminedAs kind n entries.now result }
{
    if n < 1 || 16 < n {
        return Err(Reason::WrongPartCount.at(0));
    }
    if entries.len() != kind.entries(n) {
        return Err(Reason::WrongVectorLength.at(0));
    }
    let counts = path_counts(kind, n, entries)?;
    let fall = first_fall(n, &counts);
    if fall < n {
        return Err(Reason::FallingProportion.at(fall));
    }
    Ok(counts)
}

// The path counts of a vector, size by size up to the first wrong one.
fn path_counts(kind: Kind, n: usize, entries: &[i64]) -> Result<[u64; 17], Refusal>
    requires n_bound { n ≤ 16 }
    requires entries_len { length entries.now ≡ length_of kind n }
    ensures { CountsAs kind n entries.now result }
{
    let mut cells = [0u64; 17];
    for j in 0..=n {
        let Some(count) = count_at(kind, n, entries, &cells, j) else {
            return Err(Reason::WrongPathCount.at(j));
        };
        cells[j] = count;
    }
    Ok(cells)
}

// The path count of size j, where those below it are found.
fn count_at(kind: Kind, n: usize, entries: &[i64], counts: &[u64; 17], j: usize) -> Option<u64>
    requires n_bound { n ≤ 16 }
    requires j_le_n { j ≤ n }
    requires entries_len { length entries.now ≡ length_of kind n }
    requires found { Found kind n entries.now counts.now j }
    ensures { result ≡ count_at kind n entries.now j }
{
    match kind {
        Kind::PathCounts => count_of(0, entries[j], 0, 1, n, j),
        Kind::Tail => count_of(0, entries[n - j], 0, tail_unit(n, j), n, j),
        Kind::Signature => signature_count(n, entries, counts, j),
        Kind::Domination => domination_count(n, entries, counts, j),
    }
}

// The path count of size j of a signature: its entry is added to what the sizes below it add up to.
fn signature_count(n: usize, entries: &[i64], counts: &[u64; 17], j: usize) -> Option<u64>
    requires n_bound { n ≤ 16 }
    requires j_le_n { j ≤ n }
    requires entries_len { length entries.now ≡ n }
    requires found { Found Kind.Signature n entries.now counts.now j }
    ensures { result ≡ count_at Kind.Signature n entries.now j }
{
    let unit = tail_unit(n, j);
    if j == 0 {
        return count_of(0, 0, 0, unit, n, 0);
    }
    let before = counts[j - 1] * tail_unit(n, j - 1);
    count_of(before, entries[n - j], 0, unit, n, j)
}

// The path count of size j of a domination: its entry is added to what the sizes below it leave.
fn domination_count(n: usize, entries: &[i64], counts: &[u64; 17], j: usize) -> Option<u64>
    requires n_bound { n ≤ 16 }
    requires j_le_n { j ≤ n }
    requires entries_len { length entries.now ≡ n + 1 }
    requires found { Found Kind.Domination n entries.now counts.now j }
    ensures { result ≡ count_at Kind.Domination n entries.now j }
{
    let terms = signed_terms(n, counts, j);
    count_of(terms.taken, entries[j], terms.added, 1, n, j)
}

// The path count of size j in what a base and an entry make, less what is taken.
fn count_of(base: u64, entry: i64, taken: u64, unit: u64, n: usize, j: usize) -> Option<u64>
    requires base_bound { base < 2 ^ 62 }
    requires unit_nonzero { 0 < unit }
    requires n_bound { n ≤ 16 }
    ensures { result ≡ count_in n j unit (pos base +ℤ entry -ℤ pos taken) }
{
    let sum = base.checked_add_signed(entry)?;
    let scaled = sum.checked_sub(taken)?;
    let count = scaled / unit;
    if scaled % unit != 0 || off_range(count, n, j) {
        return None;
    }
    Some(count)
}

// Whether a number is no path count of size j: it is over C(n,j), not 0 for size 0, or not 1 for size n.
#[tactic(auto, using(numbers::proofs::Counts::up_to_16_given), unfolding(crate::specs::Inside::off_range))]
fn off_range(count: u64, n: usize, j: usize) -> bool
    requires { n ≤ 16 }
    ensures { result ≡ off_range n j count }
{
    u64::from(numbers::binomial(n, j)) < count || misses(j, 0, count, 0) || misses(j, n, count, 1)
}

// Whether j is a size whose path count is fixed, and the count is another.
fn misses(j: usize, size: usize, count: u64, fixed: u64) -> bool
    ensures { result ≡ eqb j size && not (eqb count fixed) }
{
    j == size && count != fixed
}

// j! × (n-j)!
#[tactic(auto, using(numbers::proofs::Counts::up_to_16_given, crate::proofs::Fits::unit_few))]
fn tail_unit(n: usize, j: usize) -> u64
    requires n_bound { n ≤ 16 }
    requires j_le_n { j ≤ n }
    ensures { result ≡ factorial j * factorial (n - j) }
{
    numbers::factorial(j) * numbers::factorial(n - j)
}

// The terms of d(k) by the path counts below k.
fn signed_terms(n: usize, counts: &[u64; 17], k: usize) -> Terms
    requires n_bound { n ≤ 16 }
    requires k_le_n { k ≤ n }
    requires none_over { NoneOver 12870 counts.now }
    ensures { TermsOf n (cells_of counts.now) k result.added result.taken }
{
    let mut added = 0;
    let mut taken = 0;
    for (j, &count) in counts[..k].iter().enumerate() {
        let term = u64::from(numbers::binomial(n - j, k - j)) * count;
        if (k - j) % 2 == 0 {
            added += term;
        } else {
            taken += term;
        }
    }
    Terms { added, taken }
}

// The first size from which the proportion falls, or n.
fn first_fall(n: usize, counts: &[u64; 17]) -> usize
    requires n_bound { n ≤ 16 }
    requires none_over { NoneOver 12870 counts.now }
    ensures { FirstFall n counts.now result }
{
    for j in 0..n {
        let here = counts[j] * u64::from(numbers::binomial(n, j + 1));
        let next = counts[j + 1] * u64::from(numbers::binomial(n, j));
        if next < here {
            return j;
        }
    }
    n
}

// Writes a vector by its path counts.
#[tactic(auto, using(numbers::proofs::Tables::filled_none, numbers::proofs::Tables::filled_again, numbers::proofs::Tables::filled_end))]
fn write(kind: Kind, n: usize, counts: &[u64; 17], cells: &mut [i64])
    requires n_bound { n ≤ 16 }
    requires n_in_bounds { length_of kind n ≤ length cells.old }
    requires none_over { NoneOver 12870 counts.now }
    ensures { cells.new ≡ vector_of kind n (cells_of counts.now) ++ drop (length_of kind n) cells.old }
{
    for (k, cell) in cells[..kind.entries(n)].iter_mut().enumerate() {
        *cell = figure(kind, n, counts, k);
    }
}

// A vector's entry at an index, by its path counts.
fn figure(kind: Kind, n: usize, counts: &[u64; 17], k: usize) -> i64
    requires n_bound { n ≤ 16 }
    requires k_in_bounds { k < length_of kind n }
    requires none_over { NoneOver 12870 counts.now }
    ensures { result ≡ figure_of kind n (cells_of counts.now) k }
{
    match kind {
        Kind::PathCounts => integers::difference(counts[k], 0),
        Kind::Tail => integers::difference(tail(n, counts, k), 0),
        Kind::Signature => integers::difference(tail(n, counts, k), tail(n, counts, k + 1)),
        Kind::Domination => domination(n, counts, k),
    }
}

// T(k) by the path counts.
#[tactic(auto, using(crate::proofs::Fits::scaled_few, crate::proofs::Scaled::tail_back))]
fn tail(n: usize, counts: &[u64; 17], k: usize) -> u64
    requires n_bound { n ≤ 16 }
    requires k_le_n { k ≤ n }
    requires none_over { NoneOver 12870 counts.now }
    ensures { result ≡ tail_of n (cells_of counts.now) k }
{
    counts[n - k] * tail_unit(n, n - k)
}

// d(k) by the path counts: the terms of either sign are added up, and subtracted once.
fn domination(n: usize, counts: &[u64; 17], k: usize) -> i64
    requires n_bound { n ≤ 16 }
    requires k_le_n { k ≤ n }
    requires none_over { NoneOver 12870 counts.now }
    ensures { result ≡ domination_of n (cells_of counts.now) k }
{
    let terms = signed_terms(n, counts, k);
    let added = terms.added + counts[k];
    integers::difference(added, terms.taken)
}
