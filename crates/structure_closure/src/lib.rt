// What follows upwards from a set function, and what of it is minimal, a word of 64 sets at a time: the sets that hold a given one, the
// path sets that are none without any single part, the first set that breaks the rule, and the parts that change nothing.
#![tactic(auto)]

ghost use Rattle.std.specs.Prelude.{◌≡◌, ◌||◌, ◌<◌, min};
ghost use Rattle.theory_sets.specs.Masks.{least};
ghost use Rattle.theory_sets.specs.Structures.{broken};
ghost use Rattle.theory_sets.specs.Tables.{packed};
ghost use Rattle.theory_sets.specs.Idle.{idle as idle_part};
ghost use Rattle.structure_words.specs.Words.{in_words, word_of, words_of};
ghost use Rattle.structure_closure.specs.Closure.{without as without_part, spare as spare_set, spread as spread_set, irredundant as irredundant_set};
ghost use Rattle.structure_closure.specs.Inside.{with as with_part, failing_above as failing_above_set};

// The sets that work without some of the first parts, at most 16 of these.
#[tactic(auto, using(crate::proofs::Turns::spread_turn), unfolding(crate::specs::Closure::spread))]
pub fn spread(words: &[u64], parts: usize) -> [u64; 1024]
    ensures { result ≡ words_of (spread_set (min parts 16) (in_words words.now)) }
{
    let mut next = copied(words);
    for part in 0..numbers::at_most_16(parts) {
        next = spread_over(&next, part);
    }
    next
}

// The path sets that are none without any single one of the first parts, at most 16 of these.
#[tactic(auto, using(numbers::proofs::Tables::filling, crate::proofs::Turns::irredundant_word))]
pub fn irredundant(words: &[u64], parts: usize) -> [u64; 1024]
    ensures { result ≡ words_of (irredundant_set (min parts 16) (in_words words.now)) }
{
    let mut next = [0u64; 1024];
    for (at, word) in next.iter_mut().enumerate() {
        *word = numbers::cell(words, at) & !spare(words, at, parts);
    }
    next
}

// The smallest path set that some single one of the first parts, at most 16 of these, leads to a set that is none; 65,536 where there is none.
#[tactic(auto, using(crate::proofs::Walks::none_yet, crate::proofs::Walks::none_more, crate::proofs::Walks::none_at_all, crate::proofs::Walks::found_near, crate::proofs::Walks::found_first))]
pub fn first_broken(words: &[u64], parts: usize) -> usize
    ensures { result ≡ least (broken (min parts 16) (in_words words.now)) 65536 }
{
    for at in 0..1024 {
        let bad = numbers::cell(words, at) & failing_above(words, at, parts);
        if bad != 0 {
            return 64 * at + structure_words::lowest(bad);
        }
    }
    65536
}

// The mask of those of the first parts, at most 16 of these, that change nothing when they are added to a set.
#[tactic(auto, using(crate::proofs::Turns::idle_none, crate::proofs::Turns::idle_turn, crate::proofs::Turns::busy_turn))]
pub fn idle_parts(words: &[u64], parts: usize) -> usize
    ensures { result ≡ packed (min parts 16) (idle_part 16 (in_words words.now)) }
{
    let mut mask = 0;
    for part in 0..numbers::at_most_16(parts) {
        if idle(words, part) {
            mask |= 1 << part;
        }
    }
    mask
}

// Word `at` of the sets that have the part and work without it.
#[tactic(auto, using(crate::proofs::Parts::without_low, crate::proofs::Parts::without_high, crate::proofs::Parts::without_none, crate::proofs::Parts::step_le, crate::proofs::Parts::shift_small, numbers::proofs::Counts::up_to_16_given))]
fn without(words: &[u64], at: usize, part: usize) -> u64
    requires { part < 16 }
    ensures { result ≡ word_of (without_part part (in_words words.now)) at }
{
    if part < 6 {
        return (numbers::cell(words, at) & structure_words::lacking(part))
            << numbers::power_of_two(part);
    }
    let high = part - 6;
    if (at >> high) % 2 == 1 {
        numbers::cell(words, at - numbers::power_of_two(high))
    } else {
        0
    }
}

// Word `at` of the sets that work with the part, which they may have already: no branch asks whether they have it.
#[tactic(auto, using(crate::proofs::Parts::with_low, crate::proofs::Parts::with_high, crate::proofs::Parts::shift_small, numbers::proofs::Counts::up_to_16_given))]
fn with(words: &[u64], at: usize, part: usize) -> u64
    requires { part < 16 }
    ensures { result ≡ word_of (with_part part (in_words words.now)) at }
{
    if part < 6 {
        let word = numbers::cell(words, at);
        let lower = structure_words::lacking(part);
        return ((word >> numbers::power_of_two(part)) & lower) | (word & !lower);
    }
    numbers::cell(words, at | numbers::power_of_two(part - 6))
}

// Whether the sets that work with the part are those that work.
fn idle(words: &[u64], part: usize) -> bool
    requires { part < 16 }
    ensures { result ≡ idle_part 16 (in_words words.now) part }
{
    for at in 0..1024 {
        if with(words, at, part) != numbers::cell(words, at) {
            return false;
        }
    }
    true
}

// Word `at` of the sets that work, or have the part and work without it.
#[tactic(auto, using(numbers::proofs::Tables::filling))]
fn spread_over(words: &[u64], part: usize) -> [u64; 1024]
    requires { part < 16 }
    ensures { result ≡ words_of (λ a. in_words words.now a || without_part part (in_words words.now) a) }
{
    let mut next = [0u64; 1024];
    for (at, word) in next.iter_mut().enumerate() {
        *word = numbers::cell(words, at) | without(words, at, part);
    }
    next
}

// The words in an array of their own.
#[tactic(auto, using(crate::proofs::Turns::copied_words))]
fn copied(words: &[u64]) -> [u64; 1024]
    ensures { result ≡ words_of (in_words words.now) }
{
    let mut next = [0u64; 1024];
    let held = words.len().min(1024);
    next[..held].copy_from_slice(&words[..held]);
    next
}

// Word `at` of the sets that work without some single one of the first parts that they have.
#[tactic(auto, using(crate::proofs::Turns::spare_none, crate::proofs::Turns::spare_turn))]
fn spare(words: &[u64], at: usize, parts: usize) -> u64
    ensures { result ≡ word_of (spare_set (min parts 16) (in_words words.now)) at }
{
    let mut some = 0;
    for part in 0..numbers::at_most_16(parts) {
        some |= without(words, at, part);
    }
    some
}

// Word `at` of the sets that do not work with some single one of the first parts.
#[tactic(auto, using(crate::proofs::Turns::failing_none, crate::proofs::Turns::failing_turn))]
fn failing_above(words: &[u64], at: usize, parts: usize) -> u64
    ensures { result ≡ word_of (failing_above_set (min parts 16) (in_words words.now)) at }
{
    let mut some = 0;
    for part in 0..numbers::at_most_16(parts) {
        some |= !with(words, at, part);
    }
    some
}
