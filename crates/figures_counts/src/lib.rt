// Path sets counted by size, in one pass over the words of a structure: of all path sets, and of those with each part.
#![tactic(auto)]

ghost use Rattle.std.specs.Prelude.{◌≡◌, ◌+◌, ◌/◌, ◌%◌, ◌≤◌, ◌<◌, eqb, length, get_or};
ghost use Rattle.numbers.specs.Tables.{tabulate, NoneOver};
ghost use Rattle.theory_orders.specs.Formulas.{path_count};
ghost use Rattle.theory_sets.specs.Masks.{size, meet};
ghost use Rattle.theory_sets.specs.Tables.{packed};
ghost use Rattle.structure_words.specs.Words.{in_words, word_of};
ghost use Rattle.figures_counts.specs.Rows.{has_part, rows_of};
ghost use Rattle.figures_counts.specs.Inside.{in_word};

// How many path sets have each size.
pub fn counts_by_size(words: &[u64]) -> [u64; 17]
    ensures { result ≡ tabulate 17 (path_count 16 (in_words words.now)) }
{
    let mut counts = [0u64; 17];
    for (at, word) in words.iter().take(1024).enumerate() {
        add_word(&mut counts, *word, at.count_ones() as usize);
    }
    counts
}

// The same for each part, of the path sets that have it, in rows of 17 sizes; row 16 is for all path sets. One pass over the words.
pub fn counts_by_part(words: &[u64]) -> [u64; 289]
    ensures { result ≡ rows_of (in_words words.now) }
{
    let mut rows = [0u64; 289];
    for (at, word) in words.iter().take(1024).enumerate() {
        add_rows(&mut rows, *word, at);
    }
    rows
}

// Adds to each row of counts the sets of word `at` that have its part.
fn add_rows(rows: &mut [u64], word: u64, at: usize)
    requires rows_len { length rows.old ≡ 289 }
    requires none_over { NoneOver 65536 rows.old }
    requires at_bound { at < 1024 }
    ensures { rows.new ≡ tabulate 289 (λ i. get_or rows.old i 0 + in_word (meet word (word_of (has_part (i / 17)) at)) (size at) (i % 17)) }
{
    let base = at.count_ones() as usize;
    for part in 0..17 {
        let start = 17 * part;
        add_word(&mut rows[start..start + 17], word & having(at, part), base);
    }
}

// Adds to the counts the sets of a word, whose sizes begin at `base`.
#[tactic(auto, using(crate::proofs::Words::added_more, crate::proofs::Words::added_all, numbers::proofs::Tables::filled_none))]
fn add_word(counts: &mut [u64], word: u64, base: usize)
    requires counts_len { length counts.old ≡ 17 }
    requires none_over { NoneOver 65536 counts.old }
    requires base_bound { base ≤ 10 }
    ensures { counts.new ≡ tabulate 17 (λ s. get_or counts.old s 0 + in_word word base s) }
{
    if word == 0 {
        return;
    }
    for (k, count) in counts[base..base + 7].iter_mut().enumerate() {
        *count += u64::from((word & of_size(k)).count_ones());
    }
}

// The bits of a word whose index has k bits set.
fn of_size(k: usize) -> u64
    requires { k < 7 }
    ensures { result ≡ packed 64 (λ m. eqb (size m) k) }
{
    match k {
        0 => 0x0000_0000_0000_0001,
        1 => 0x0000_0001_0001_0116,
        2 => 0x0001_0116_0116_1668,
        3 => 0x0116_1668_1668_6880,
        4 => 0x1668_6880_6880_8000,
        5 => 0x6880_8000_8000_0000,
        _ => 0x8000_0000_0000_0000,
    }
}

// Word `at` of the sets that have the part, or of all where the part is 16.
#[tactic(auto, using(crate::proofs::Words::having_low, crate::proofs::Words::having_all, crate::proofs::Words::having_none, crate::proofs::Words::having_every))]
fn having(at: usize, part: usize) -> u64
    ensures { result ≡ word_of (has_part part) at }
{
    match part {
        0..6 => !structure_words::lacking(part),
        6..16 => if (at >> (part - 6)) % 2 == 1 {
            u64::MAX
        } else {
            0
        },
        _ => u64::MAX,
    }
}
