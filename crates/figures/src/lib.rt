// The figures of a machine: path counts, tail, signature, domination and the importances of its parts (01, "Figures").
#![tactic(auto)]

ghost use Rattle.std.specs.Prelude.{◌≡◌, ◌+◌, ◌≤◌, ◌<◌, length, replicate};
ghost use Rattle.numbers.specs.Tables.{tabulate, NoneOver};
ghost use Rattle.theory_sets.specs.Tables.{in_table};
ghost use Rattle.answer.specs.Outcome.{front, outcome, delivered};
ghost use Rattle.structure.specs.Checks.{table_refusal};
ghost use Rattle.theory_figures.specs.Figures.{path_counts, tails, signatures, dominations, importances};
ghost use Rattle.vector_conversion.specs.Vectors.{vector_refusal, converted, figures_of};
ghost use Rattle.figures.specs.All.{buffers_of, room_refusal, all_in_front, all_figures};
ghost use Rattle.figures.specs.Inside.{part_weight as ways_of, added_sets, taken_sets, Parted, importance_by, Rows, entries_of, sized_in, rows_in, figures_refusal};

use answer::Refusal;
use vector_kind::Kind;

// The path counts φ(0) to φ(n), into a lent buffer.
pub fn path_counts(n: usize, table: &[u8], cells: &mut [i64]) -> Result<usize, Refusal>
    ensures { outcome result cells.new ≡ delivered (table_refusal n table.now) (path_counts n (in_table table.now)) cells.old }
{
    vector(Kind::PathCounts, n, table, cells)
}

// The tail T(0) to T(n), into a lent buffer.
pub fn tail(n: usize, table: &[u8], cells: &mut [i64]) -> Result<usize, Refusal>
    ensures { outcome result cells.new ≡ delivered (table_refusal n table.now) (tails n (in_table table.now)) cells.old }
{
    vector(Kind::Tail, n, table, cells)
}

// The signature N(1) to N(n), into a lent buffer.
pub fn signature(n: usize, table: &[u8], cells: &mut [i64]) -> Result<usize, Refusal>
    ensures { outcome result cells.new ≡ delivered (table_refusal n table.now) (signatures n (in_table table.now)) cells.old }
{
    vector(Kind::Signature, n, table, cells)
}

// The domination d(0) to d(n), into a lent buffer.
pub fn domination(n: usize, table: &[u8], cells: &mut [i64]) -> Result<usize, Refusal>
    ensures { outcome result cells.new ≡ delivered (table_refusal n table.now) (dominations n (in_table table.now)) cells.old }
{
    vector(Kind::Domination, n, table, cells)
}

// The Barlow-Proschan counts of all parts by position, into a lent buffer.
pub fn importance(n: usize, table: &[u8], cells: &mut [u64]) -> Result<usize, Refusal>
    ensures { outcome result cells.new ≡ delivered (table_refusal n table.now) (importances n (in_table table.now)) cells.old }
{
    structure::table_verdict(n, table)?;
    let rows = rows_of(table);
    let made = part_importances(n, &rows);
    answer::hand_out(&made[..n], cells)
}

// The path counts, the signature, the domination and the importances into four lent buffers, with one check of the table and one pass
// over its words.
#[tactic(auto, unfolding(crate::specs::All::all_figures))]
pub fn figures(
    n: usize,
    table: &[u8],
    counts: &mut [i64],
    signature: &mut [i64],
    domination: &mut [i64],
    importance: &mut [u64],
) -> Result<(), Refusal>
    ensures { outcome result (buffers_of counts.new signature.new domination.new importance.new) ≡ all_figures n table.now (buffers_of counts.old signature.old domination.old importance.old) }
{
    figures_verdict(
        n,
        table,
        counts.len(),
        signature.len(),
        domination.len(),
        importance.len(),
    )?;
    write_figures(n, table, counts, signature, domination, importance);
    Ok(())
}

// A vector of a table, into a lent buffer: its path counts converted.
fn vector(kind: Kind, n: usize, table: &[u8], cells: &mut [i64]) -> Result<usize, Refusal>
    ensures { outcome result cells.new ≡ delivered (table_refusal n table.now) (figures_of kind n (in_table table.now)) cells.old }
{
    structure::table_verdict(n, table)?;
    let entries = entries_of(table);
    vector_conversion::convert(Kind::PathCounts, n, &entries[..n + 1], kind, cells)
}

// The path counts of a table as entries.
#[tactic(auto, using(crate::proofs::Machines::sized_few))]
fn entries_of(table: &[u8]) -> [i64; 17]
    ensures { result ≡ entries_of (sized_in table.now) }
{
    let words = structure_words::load(table);
    let counts = figures_counts::counts_by_size(&words);
    signed(&counts)
}

// The path sets of a table counted by size, all of them and those with each part.
fn rows_of(table: &[u8]) -> [u64; 289]
    ensures { result ≡ rows_in table.now }
{
    let words = structure_words::load(table);
    figures_counts::counts_by_part(&words)
}

// Path counts as entries.
#[tactic(auto, using(numbers::proofs::Tables::filled_none, numbers::proofs::Tables::filled_again, numbers::proofs::Tables::filled_end))]
fn signed(counts: &[u64]) -> [i64; 17]
    requires { NoneOver 65536 counts.now }
    ensures { result ≡ entries_of counts.now }
{
    let mut entries = [0i64; 17];
    for (s, entry) in entries.iter_mut().enumerate() {
        *entry = numbers::cell(counts, s) as i64;
    }
    entries
}

// Whether a table is accepted and four buffers are long enough for its figures.
fn figures_verdict(
    n: usize,
    table: &[u8],
    counts: usize,
    signature: usize,
    domination: usize,
    importance: usize,
) -> Result<(), Refusal>
    ensures { result ≡ figures_refusal n table.now counts signature domination importance }
{
    structure::table_verdict(n, table)?;
    room_verdict(n, counts, signature, domination, importance)
}

// Whether four buffers are long enough for the path counts, the signature, the domination and the importances, asked in this order.
fn room_verdict(
    n: usize,
    counts: usize,
    signature: usize,
    domination: usize,
    importance: usize,
) -> Result<(), Refusal>
    requires { n ≤ 16 }
    ensures { result ≡ room_refusal n counts signature domination importance }
{
    answer::room(n + 1, counts)?;
    answer::room(n, signature)?;
    answer::room(n + 1, domination)?;
    answer::room(n, importance)
}

// Writes the figures of an accepted table into four buffers that are long enough.
fn write_figures(
    n: usize,
    table: &[u8],
    counts: &mut [i64],
    signature: &mut [i64],
    domination: &mut [i64],
    importance: &mut [u64],
)
    requires { figures_refusal n table.now (length counts.old) (length signature.old) (length domination.old) (length importance.old) ≡ Ok tt }
    ensures { buffers_of counts.new signature.new domination.new importance.new ≡ all_in_front n (in_table table.now) (buffers_of counts.old signature.old domination.old importance.old) }
{
    let rows = rows_of(table);
    let entries = signed(&rows[272..289]);
    write_vectors(n, &entries[..n + 1], counts, signature, domination);
    let made = part_importances(n, &rows);
    // The buffer is long enough, so nothing is refused.
    let _ = answer::hand_out(&made[..n], importance);
}

// Writes the path counts, the signature and the domination by the path counts as entries.
fn write_vectors(
    n: usize,
    entries: &[i64],
    counts: &mut [i64],
    signature: &mut [i64],
    domination: &mut [i64],
)
    requires entries_accepted { vector_refusal Kind.PathCounts n entries.now ≡ Ok tt }
    requires counts_long { n + 1 ≤ length counts.old }
    requires signature_long { n ≤ length signature.old }
    requires domination_long { n + 1 ≤ length domination.old }
    ensures counts_after { counts.new ≡ front (converted Kind.PathCounts Kind.PathCounts n entries.now) counts.old }
    ensures signature_after { signature.new ≡ front (converted Kind.Signature Kind.PathCounts n entries.now) signature.old }
    ensures domination_after { domination.new ≡ front (converted Kind.Domination Kind.PathCounts n entries.now) domination.old }
{
    // The entries are accepted and the buffers long enough, so nothing is refused.
    let _ = vector_conversion::convert(Kind::PathCounts, n, entries, Kind::PathCounts, counts);
    let _ = vector_conversion::convert(Kind::PathCounts, n, entries, Kind::Signature, signature);
    let _ = vector_conversion::convert(Kind::PathCounts, n, entries, Kind::Domination, domination);
}

// s! × (n-s-1)!, the weight of a set of size s in the importance of a part that it lacks.
#[tactic(auto, using(numbers::proofs::Counts::up_to_16_given, crate::proofs::Machines::product_few), unfolding(crate::specs::Inside::part_weight))]
fn part_weight(n: usize, s: usize) -> u64
    requires n_bound { n ≤ 16 }
    requires s_lt_n { s < n }
    ensures { result ≡ ways_of n s }
{
    numbers::factorial(s) * numbers::factorial(n - (s + 1))
}

// The importance of a part, by the path counts of all sets and of those with the part.
fn part_importance(n: usize, counts: &[u64], with: &[u64]) -> u64
    requires { Parted n counts.now with.now }
    ensures { result + taken_sets n counts.now with.now n ≡ added_sets n with.now n }
{
    let mut added = 0;
    let mut taken = 0;
    for s in 0..n {
        let weight = part_weight(n, s);
        added += numbers::cell(with, s + 1) * weight;
        taken += (numbers::cell(counts, s) - numbers::cell(with, s)) * weight;
    }
    added - taken
}

// The importances of all parts by the rows of counts, from the front.
#[tactic(auto, using(numbers::proofs::Tables::filled_none, numbers::proofs::Tables::filled_end))]
fn part_importances(n: usize, rows: &[u64]) -> [u64; 16]
    requires { Rows n rows.now }
    ensures { result ≡ front (tabulate n (importance_by n rows.now)) (replicate 16 0) }
{
    let mut cells = [0u64; 16];
    for (i, cell) in cells[..n].iter_mut().enumerate() {
        let start = 17 * i;
        *cell = part_importance(n, &rows[272..289], &rows[start..start + 17]);
    }
    cells
}
