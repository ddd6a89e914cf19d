// A group's shares, set by set (01, "Figures").
#![tactic(auto)]

ghost use Rattle.std.specs.Prelude.{◌≡◌, ◌++◌, ℕ, ◌+◌, ◌-◌, ◌^◌, ◌≤◌, ◌<◌, pos, ◌-ℤ◌, length, get_or, drop};
ghost use Rattle.numbers.specs.Tables.{tabulate};
ghost use Rattle.theory_sets.specs.Masks.{size as size_of, inside};
ghost use Rattle.theory_sets.specs.Tables.{in_table};
ghost use Rattle.answer.specs.Outcome.{outcome, delivered};
ghost use Rattle.structure_words.specs.Words.{in_words};
ghost use Rattle.shares_claim.specs.SetBySet.{shares_by_sets};
ghost use Rattle.shares_claim.specs.Refusals.{shares_refusal};
ghost use Rattle.theory_sums.specs.Sums.{gathered};
ghost use Rattle.shares_by_sets.specs.Inside.{weight as weight_of, added_by, taken_by};

use answer::Refusal;

// The m shares of a group, set by set, into a lent buffer.
#[tactic(auto, using(crate::proofs::Sets::by_sets_length))]
pub fn shares_by_sets(
    n: usize,
    table: &[u8],
    group: usize,
    shares: &mut [i64],
) -> Result<usize, Refusal>
    ensures { outcome result shares.new ≡ delivered (shares_refusal n table.now group) (shares_by_sets n (in_table table.now) group) shares.old }
{
    let m = masks::size(group);
    shares_group::judge(n, table, group, m, shares.len())?;
    write_by_sets(n, table, group, shares);
    Ok(m)
}

// Writes the shares of a group, set by set.
#[tactic(auto, using(crate::proofs::Sets::added_small, crate::proofs::Sets::taken_small, crate::proofs::Sets::sets_shares))]
fn write_by_sets(n: usize, table: &[u8], group: usize, shares: &mut [i64])
    requires n_bound { n ≤ 16 }
    requires group_bound { group < 2 ^ n }
    requires group_in_bounds { size_of group ≤ length shares.old }
    ensures { shares.new ≡ shares_by_sets n (in_table table.now) group ++ drop (size_of group) shares.old }
{
    let words = structure_words::load(table);
    let weights = weights(n);
    let scale = Scale { n, group, weights };
    let sums = scale.gather(&words);
    write_differences(group, &sums, shares);
}

// What the sets are weighed by: the machine's parts, the group, and the weights of all sizes.
#[derive(Drop)]
struct Scale {
    n: usize,
    group: usize,
    weights: [u64; 18],
    ghost n_bound: { n ≤ 16 },
    ghost group_bound: { group < 65536 },
    ghost weights_value: { weights ≡ tabulate 18 (weight_of n) },
}

// By the number of parts that a path set has in the group, what the path sets add to a share and what they take from one.
#[derive(Drop)]
struct Sums {
    added: [u64; 17],
    taken: [u64; 17],
}

impl Scale {
    // The sums over all path sets.
    #[tactic(auto, using(crate::proofs::Sets::sums_none))]
    fn gather(&self, words: &[u64]) -> Sums
        ensures added_value { result.added ≡ tabulate 17 (gathered (in_words words.now) (inside self.now.group) (added_by self.now.n self.now.group) (2 ^ self.now.n)) }
        ensures taken_value { result.taken ≡ tabulate 17 (gathered (in_words words.now) (inside self.now.group) (taken_by self.now.n self.now.group) (2 ^ self.now.n)) }
    {
        let mut sums = Sums {
            added: [0; 17],
            taken: [0; 17],
        };
        for a in 0..numbers::power_of_two(self.n) {
            self.add_set(words, a, &mut sums);
        }
        sums
    }

    // Adds the two amounts of a set, if it is a path set.
    #[tactic(auto, using(crate::proofs::Sets::adding))]
    fn add_set(&self, words: &[u64], a: usize, sums: &mut Sums)
        requires a_bound { a < 65536 }
        requires added_value { sums.old.added ≡ tabulate 17 (gathered (in_words words.now) (inside self.now.group) (added_by self.now.n self.now.group) a) }
        requires taken_value { sums.old.taken ≡ tabulate 17 (gathered (in_words words.now) (inside self.now.group) (taken_by self.now.n self.now.group) a) }
        ensures added_after { sums.new.added ≡ tabulate 17 (gathered (in_words words.now) (inside self.now.group) (added_by self.now.n self.now.group) (a + 1)) }
        ensures taken_after { sums.new.taken ≡ tabulate 17 (gathered (in_words words.now) (inside self.now.group) (taken_by self.now.n self.now.group) (a + 1)) }
    {
        if structure_words::works(words, a) {
            let inside = masks::size(a & self.group);
            shares_group::add(&mut sums.added, inside, self.added(a));
            shares_group::add(&mut sums.taken, inside, self.taken(a));
        }
    }

    // What a path set adds to the share for k = m - i + 1, where i of its parts are in the group.
    #[tactic(auto, using(crate::proofs::Sets::amounts), unfolding(crate::specs::Inside::added_by))]
    fn added(&self, a: usize) -> u64
        requires { a < 65536 }
        ensures { result ≡ added_by self.now.n self.now.group a }
    {
        masks::size(a & self.group) as u64 * self.weights[masks::size(a)]
    }

    // What a path set takes from the share for k = m - i, where i of its parts are in the group.
    #[tactic(auto, using(crate::proofs::Sets::amounts), unfolding(crate::specs::Inside::taken_by))]
    fn taken(&self, a: usize) -> u64
        requires { a < 65536 }
        ensures { result ≡ taken_by self.now.n self.now.group a }
    {
        let lacking = masks::size(self.group) - masks::size(a & self.group);
        lacking as u64 * self.weights[masks::size(a) + 1]
    }
}

// The weights of all sizes, from 0 on.
#[tactic(auto, using(numbers::proofs::Tables::filled_none, numbers::proofs::Tables::filled_again, numbers::proofs::Tables::filled_end))]
fn weights(n: usize) -> [u64; 18]
    requires { n ≤ 16 }
    ensures { result ≡ tabulate 18 (weight_of n) }
{
    let mut weights = [0; 18];
    for (s, cell) in weights.iter_mut().enumerate() {
        *cell = weight(n, s);
    }
    weights
}

// (s-1)! × (n-s)! for the sizes s from 1 to n, and 0 for any other number.
#[tactic(auto, using(crate::proofs::Sets::weighing))]
fn weight(n: usize, s: usize) -> u64
    requires { n ≤ 16 }
    ensures { result ≡ weight_of n s }
{
    if s == 0 || n < s {
        return 0;
    }
    numbers::factorial(s - 1) * numbers::factorial(n - s)
}

// Writes the shares of a group by what the path sets add and take.
#[tactic(auto, using(numbers::proofs::Tables::filled_none, numbers::proofs::Tables::filled_again, integers::proofs::Differences::difference_small))]
fn write_differences(group: usize, sums: &Sums, shares: &mut [i64])
    requires group_in_bounds { size_of group ≤ length shares.old }
    requires by_index { (i : ℕ) → get_or sums.now.added i 0 < 2 ^ 62 }
    requires by_index_2 { (i : ℕ) → get_or sums.now.taken i 0 < 2 ^ 62 }
    ensures { shares.new ≡ tabulate (size_of group) (λ k. pos (get_or sums.now.added (size_of group - k) 0) -ℤ pos (get_or sums.now.taken (size_of group - (k + 1)) 0)) ++ drop (size_of group) shares.old }
{
    let m = masks::size(group);
    for (k, share) in shares[..m].iter_mut().enumerate() {
        *share = integers::difference(
            numbers::cell(&sums.added, m - k),
            numbers::cell(&sums.taken, m - (k + 1)),
        );
    }
}
