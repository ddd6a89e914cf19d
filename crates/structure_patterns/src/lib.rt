// Stock patterns (02, §6): the table of a machine that designers draw again and again, from its pattern, its number of parts and its threshold k.
#![tactic(auto)]

ghost use Rattle.std.specs.Prelude.{◌≡◌, ◌&&◌, ◌^◌, ◌≤◌, ◌<◌, ltb};
ghost use Rattle.answer.specs.Outcome.{outcome, delivered};
ghost use Rattle.theory_sets.specs.Tables.{table_of};
ghost use Rattle.theory_cuts.specs.Cuts.{by_cuts};
ghost use Rattle.theory_patterns.specs.Patterns.{at_least};
ghost use Rattle.structure_words.specs.Words.{word_of, words_of};
ghost use Rattle.structure_patterns.specs.Patterns.{patterned, pattern_refusal};
ghost use Rattle.structure_patterns.specs.Inside.{neighbours_from, first_neighbours, six_with};

use answer::{Reason, Refusal};

// The shapes: at least k of n parts work; or the machine is stopped exactly by k failed neighbours in a row; or in a ring, in which the last
// part and the first are neighbours.
#[derive(Clone, Copy)]
pub enum Pattern {
    AtLeast,
    Row,
    Ring,
}

// The table of a pattern, into a lent buffer.
pub fn table_of_pattern(
    pattern: Pattern,
    n: usize,
    k: usize,
    table: &mut [u8],
) -> Result<usize, Refusal>
    ensures { outcome result table.new ≡ delivered (pattern_refusal n k) (table_of n (patterned pattern n k)) table.old }
{
    pattern_verdict(n, k)?;
    match pattern {
        Pattern::AtLeast => {
            let running = at_least(n, k);
            structure::hand_out_table(n, &running, table)
        }
        Pattern::Row => stopped_by_neighbours(n, k, n + 1 - k, table),
        Pattern::Ring => stopped_by_neighbours(n, k, n, table),
    }
}

// The verdict on the number of parts and the threshold k.
#[tactic(auto, unfolding(crate::specs::Patterns::pattern_refusal))]
fn pattern_verdict(n: usize, k: usize) -> Result<(), Refusal>
    ensures { result ≡ pattern_refusal n k }
{
    if !numbers::in_range(n, 16) {
        return Err(Reason::WrongPartCount.at(0));
    }
    if !numbers::in_range(k, n) {
        return Err(Reason::WrongThreshold.at(0));
    }
    Ok(())
}

// The table of the machine that is stopped exactly by k neighbours from one of the first `count` bits on, into a lent buffer.
fn stopped_by_neighbours(
    n: usize,
    k: usize,
    count: usize,
    table: &mut [u8],
) -> Result<usize, Refusal>
    requires n_bound { n ≤ 16 }
    requires le_k { 1 ≤ k }
    requires k_le_n { k ≤ n }
    requires le_count { 1 ≤ count }
    requires count_le_n { count ≤ n }
    ensures { outcome result table.new ≡ delivered (Ok tt) (table_of n (by_cuts n (first_neighbours n k count))) table.old }
{
    let sets = neighbours(n, k);
    structure_cuts::table_of_cuts(n, &sets[..count], table)
}

// The sets of k neighbours in a ring of n parts, from each of the bits 0 to 15 on, counted round the ring.
#[tactic(auto, using(numbers::proofs::Tables::filled_none, numbers::proofs::Tables::filled_again, numbers::proofs::Tables::filled_end))]
fn neighbours(n: usize, k: usize) -> [u16; 16]
    requires le_n { 1 ≤ n }
    requires n_bound { n ≤ 16 }
    requires k_le_n { k ≤ n }
    ensures { result ≡ first_neighbours n k 16 }
{
    let mut sets = [0u16; 16];
    for (i, set) in sets.iter_mut().enumerate() {
        *set = neighbours_from(n, k, i);
    }
    sets
}

// The k neighbours from bit i on: behind the last part comes the first.
#[tactic(auto, using(crate::proofs::NeighbourSets::set_none, crate::proofs::NeighbourSets::neighbour_more))]
fn neighbours_from(n: usize, k: usize, i: usize) -> u16
    requires le_n { 1 ≤ n }
    requires n_bound { n ≤ 16 }
    requires k_le_n { k ≤ n }
    requires i_bound { i < 16 }
    ensures { result ≡ neighbours_from n k i }
{
    let mut set: u16 = 0;
    for j in 0..k {
        set |= 1 << ((i + j) % n);
    }
    set
}

// The sets of at least k of n parts.
#[tactic(auto, using(numbers::proofs::Tables::filled_none, numbers::proofs::Tables::filled_again, numbers::proofs::Tables::filled_end, structure_words::proofs::Words::word_of_and))]
fn at_least(n: usize, k: usize) -> [u64; 1024]
    requires { n ≤ 16 }
    ensures { result ≡ words_of (λ a. ltb a (2 ^ n) && at_least k a) }
{
    let mut words = [0u64; 1024];
    for (at, word) in words.iter_mut().enumerate() {
        *word = sets_within(n, at) & at_least_word(k, at);
    }
    words
}

// Word `at` of the sets of at least k parts: what the word's own index lacks of k has to stand within the word.
#[tactic(auto, using(crate::proofs::Words::at_least_here))]
fn at_least_word(k: usize, at: usize) -> u64
    ensures { result ≡ word_of (at_least k) at }
{
    let have = at.count_ones() as usize;
    six_with(k.saturating_sub(have))
}

// Word `at` of the sets of n parts.
fn sets_within(n: usize, at: usize) -> u64
    requires { n ≤ 16 }
    ensures { result ≡ word_of (λ a. ltb a (2 ^ n)) at }
{
    if n < 6 {
        if 0 < at {
            return 0;
        }
        return u64::MAX >> (64 - numbers::power_of_two(n));
    }
    if at < numbers::power_of_two(n - 6) {
        u64::MAX
    } else {
        0
    }
}

// The sets of six parts that have at least so many, as bits of a word.
fn six_with(least: usize) -> u64
    ensures { result ≡ six_with least }
{
    match least {
        0 => 0xFFFF_FFFF_FFFF_FFFF,
        1 => 0xFFFF_FFFF_FFFF_FFFE,
        2 => 0xFFFF_FFFE_FFFE_FEE8,
        3 => 0xFFFE_FEE8_FEE8_E880,
        4 => 0xFEE8_E880_E880_8000,
        5 => 0xE880_8000_8000_0000,
        6 => 0x8000_0000_0000_0000,
        _ => 0,
    }
}
