// Cut sets of a structure (02, §3): a list of cut sets to a table, a table to its minimal cut sets, and a table to its dual.
#![tactic(auto)]

ghost use Rattle.std.specs.Prelude.{◌≡◌, ◌-◌, ◌≤◌, ◌<◌};
ghost use Rattle.answer.specs.Outcome.{outcome, delivered};
ghost use Rattle.theory_sets.specs.Masks.{has};
ghost use Rattle.theory_sets.specs.Tables.{packed, in_table, table_of};
ghost use Rattle.theory_cuts.specs.Cuts.{minimal_cuts, by_cuts, dual_table};
ghost use Rattle.structure_words.specs.Words.{in_words, word_of, words_of};
ghost use Rattle.structure.specs.Checks.{list_refusal, table_refusal};
ghost use Rattle.structure_cuts.specs.Inside.{cuts_within, exchanged_index, backwards};

use answer::Refusal;

// The table of the machine that a list of cut sets gives, into a lent buffer.
pub fn table_of_cuts(n: usize, cuts: &[u16], table: &mut [u8]) -> Result<usize, Refusal>
    ensures { outcome result table.new ≡ delivered (list_refusal n cuts.now) (table_of n (by_cuts n cuts.now)) table.old }
{
    structure::list_verdict(n, cuts)?;
    let listed = structure_words::marked(cuts);
    let stopping = structure_closure::spread(&listed, n);
    // The dual's dual is the machine: what the cut sets cut are its path sets.
    let running = cut_sets(&stopping, n);
    structure::hand_out_table(n, &running, table)
}

// The minimal cut sets of a table, ascending, into a lent buffer.
pub fn minimal_cuts(n: usize, table: &[u8], cuts: &mut [u16]) -> Result<usize, Refusal>
    ensures { outcome result cuts.new ≡ delivered (table_refusal n table.now) (minimal_cuts n (in_table table.now)) cuts.old }
{
    structure::table_verdict(n, table)?;
    let loaded = structure_words::load(table);
    let stopping = cut_sets(&loaded, n);
    let minimal = structure_closure::irredundant(&stopping, n);
    structure_words::list(&minimal, cuts)
}

// The table of the dual, whose path sets are the cut sets, into a lent buffer.
pub fn dual(n: usize, table: &[u8], buffer: &mut [u8]) -> Result<usize, Refusal>
    ensures { outcome result buffer.new ≡ delivered (table_refusal n table.now) (dual_table n table.now) buffer.old }
{
    structure::table_verdict(n, table)?;
    let loaded = structure_words::load(table);
    let stopping = cut_sets(&loaded, n);
    structure::hand_out_table(n, &stopping, buffer)
}

// The cut sets of the structure of n parts that the words hold.
#[tactic(auto, using(numbers::proofs::Tables::filled_none, numbers::proofs::Tables::filled_again, numbers::proofs::Tables::filled_end))]
fn cut_sets(words: &[u64], n: usize) -> [u64; 1024]
    requires { n ≤ 16 }
    ensures { result ≡ words_of (cuts_within n (in_words words.now)) }
{
    let mut sets = [0u64; 1024];
    for (at, word) in sets.iter_mut().enumerate() {
        *word = cut_word(words, n, at);
    }
    sets
}

// Word `at` of the cut sets of n parts: the words complemented, reversed and taken from the end; of fewer than six parts 2^n bits alone.
fn cut_word(words: &[u64], n: usize, at: usize) -> u64
    requires { n ≤ 16 }
    ensures { result ≡ word_of (cuts_within n (in_words words.now)) at }
{
    if n < 6 {
        if 0 < at {
            return 0;
        }
        return !reversed(numbers::cell(words, 0)) >> (64 - numbers::power_of_two(n));
    }
    let count = numbers::power_of_two(n - 6);
    if at < count {
        !reversed(numbers::cell(words, count - 1 - at))
    } else {
        0
    }
}

// The bits of a word from the other end.
fn reversed(word: u64) -> u64
    ensures { result ≡ backwards word }
{
    let mut turned = word;
    for part in 0..6 {
        turned = exchanged(turned, part);
    }
    turned
}

// A word with its bits exchanged in pairs: that of each index which has the part with that of the same index without it.
fn exchanged(word: u64, part: usize) -> u64
    requires { part < 6 }
    ensures { result ≡ packed 64 (λ k. has word (exchanged_index part k)) }
{
    let lower = structure_words::lacking(part);
    let step = numbers::power_of_two(part);
    ((word >> step) & lower) | ((word & lower) << step)
}
