// Set functions of up to 16 parts, held in 1,024 words of 64 bits and worked on a word at a time: bit a mod 64 of word a/64 says of the
// set with mask a whether it works. A word that a slice lacks is 0.
#![tactic(auto)]

ghost use Rattle.std.specs.Prelude.{◌≡◌, ◌+◌, ◌*◌, ◌<◌, length};
ghost use Rattle.answer.specs.Outcome.{outcome, delivered};
ghost use Rattle.theory_sets.specs.Masks.{has, those, least};
ghost use Rattle.theory_sets.specs.Tables.{packed, in_table};
ghost use Rattle.structure_words.specs.Words.{in_words, word_of, words_of, lacks, bytes_in, among};

use answer::Refusal;

// The set function of a table.
#[tactic(auto, using(numbers::proofs::Tables::filling))]
pub fn load(table: &[u8]) -> [u64; 1024]
    ensures { result ≡ words_of (in_table table.now) }
{
    let mut words = [0u64; 1024];
    for (at, word) in words.iter_mut().enumerate() {
        *word = load_word(table, at);
    }
    words
}

// The set function of a list: the listed sets alone.
#[tactic(auto, using(crate::proofs::Words::marked_none, crate::proofs::Words::marked_next))]
pub fn marked(list: &[u16]) -> [u64; 1024]
    ensures { result ≡ words_of (among list.now) }
{
    let mut marks = [0u64; 1024];
    for &set in list {
        let mask = usize::from(set);
        marks[mask / 64] |= 1 << (mask % 64);
    }
    marks
}

// Whether the set works.
#[tactic(auto, unfolding(crate::specs::Words::in_words, theory_sets::specs::Masks::has))]
pub fn works(words: &[u64], mask: usize) -> bool
    ensures { result ≡ in_words words.now mask }
{
    (numbers::cell(words, mask / 64) >> (mask % 64)) % 2 == 1
}

// How many sets work.
pub fn count(words: &[u64]) -> usize
    ensures { result ≡ length (those (in_words words.now) 65536) }
{
    let mut sum = 0;
    for word in words.iter().take(1024) {
        sum += word.count_ones() as usize;
    }
    sum
}

// The sets that work, rising, into a lent buffer that is long enough for all of them.
pub fn list(words: &[u64], sets: &mut [u16]) -> Result<usize, Refusal>
    ensures { outcome result sets.new ≡ delivered (Ok tt) (those (in_words words.now) 65536) sets.old }
{
    let needed = count(words);
    answer::room(needed, sets.len())?;
    let mut at = 0;
    let mut mask = 0;
    let mut rest = numbers::cell(words, 0);
    let mut next = 0;
    while at < 1024 {
        if rest == 0 {
            at += 1;
            mask = 64 * at;
            rest = numbers::cell(words, at);
        } else {
            let gap = lowest(rest);
            mask += gap;
            sets[next] = mask as u16;
            next += 1;
            mask += 1;
            rest = rest >> gap >> 1;
        }
    }
    Ok(next)
}

// The table's bytes, as many as the table has.
#[tactic(auto, using(numbers::proofs::Tables::filling))]
pub fn store(words: &[u64], table: &mut [u8])
    ensures { table.new ≡ bytes_in (length table.old) words.now }
{
    for (at, byte) in table.iter_mut().enumerate() {
        *byte = numbers::cell(words, at / 8).to_le_bytes()[at % 8];
    }
}

// Word `at` of a table, from its highest byte down.
#[tactic(auto, using(crate::proofs::Bytes::loaded_none, crate::proofs::Bytes::loaded_more, crate::proofs::Bytes::loaded_room, crate::proofs::Bytes::loaded_all))]
fn load_word(table: &[u8], at: usize) -> u64
    requires { at < 1024 }
    ensures { result ≡ word_of (in_table table.now) at }
{
    let mut word = 0;
    for i in (0..8).rev() {
        word = word * 256 + u64::from(table.get(8 * at + i).copied().unwrap_or(0));
    }
    word
}

// The lowest bit of a word that is set; 64 where there is none.
#[tactic(auto, using(crate::proofs::Runs::lowest_least))]
pub fn lowest(word: u64) -> usize
    ensures { result ≡ least (has word) 64 }
{
    word.trailing_zeros() as usize
}

// The bits of a word whose index lacks the part: an index within a word has six parts, so it lacks every further one.
#[tactic(auto, using(crate::proofs::Bits::lacks_beyond), unfolding(theory_sets::specs::Tables::packed, theory_sets::specs::Masks::has))]
pub fn lacking(part: usize) -> u64
    ensures { result ≡ lacks part }
{
    match part {
        0 => 0x5555_5555_5555_5555,
        1 => 0x3333_3333_3333_3333,
        2 => 0x0F0F_0F0F_0F0F_0F0F,
        3 => 0x00FF_00FF_00FF_00FF,
        4 => 0x0000_FFFF_0000_FFFF,
        5 => 0x0000_0000_FFFF_FFFF,
        _ => 0xFFFF_FFFF_FFFF_FFFF,
    }
}
