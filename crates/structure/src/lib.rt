// Structures: the verdict on a list of sets and on a table, a table's length, and a table handed out (01, "Structures").
#![tactic(auto)]

ghost use Rattle.std.specs.Prelude.{◌≡◌, false, ◌&&◌, ℕ, ◌^◌, ◌≤◌, leb};
ghost use Rattle.answer.specs.Outcome.{outcome, delivered};
ghost use Rattle.numbers.specs.Counts.{up_to_16};
ghost use Rattle.theory_sets.specs.Masks.{has, any};
ghost use Rattle.theory_sets.specs.Tables.{in_table, table_length};
ghost use Rattle.structure_words.specs.Words.{bytes_in};
ghost use Rattle.structure.specs.Checks.{list_refusal, entries_refusal, table_refusal, structure_refusal};

use answer::{Reason, Refusal};

// The verdict on a list of sets.
#[tactic(auto, unfolding(crate::specs::Checks::list_refusal))]
pub fn list_verdict(n: usize, list: &[u16]) -> Result<(), Refusal>
    ensures { result ≡ list_refusal n list.now }
{
    if !numbers::in_range(n, 16) {
        return Err(Reason::WrongPartCount.at(0));
    }
    if list.is_empty() {
        return Err(Reason::EmptyList.at(0));
    }
    if 12870 < list.len() {
        return Err(Reason::LongList.at(0));
    }
    entries_verdict(n, list)
}

// The verdict on a table.
#[tactic(auto, using(crate::proofs::Acceptance::unused_first, crate::proofs::Acceptance::table_beyond, numbers::proofs::Counts::up_to_16_given), unfolding(crate::specs::Checks::table_refusal))]
pub fn table_verdict(n: usize, table: &[u8]) -> Result<(), Refusal>
    ensures { result ≡ table_refusal n table.now }
{
    if !numbers::in_range(n, 16) {
        return Err(Reason::WrongPartCount.at(0));
    }
    if table.len() != table_length(n) {
        return Err(Reason::WrongTableLength.at(0));
    }
    if has_unused(n, table[0]) {
        return Err(Reason::UnusedBit.at(0));
    }
    structure_verdict(n, table)
}

// The bytes of a table; 0 where no structure has so many parts.
#[tactic(auto, using(numbers::proofs::Counts::up_to_16_given, numbers::proofs::Counts::up_to_16_above, crate::proofs::Acceptance::length_one, crate::proofs::Acceptance::length_eighth))]
pub fn table_length(n: usize) -> usize
    ensures { result ≡ up_to_16 n (table_length n) }
{
    match n {
        0..=2 => 1,
        3..=16 => numbers::power_of_two(n - 3),
        _ => 0,
    }
}

// The table of n parts in words, into a lent buffer; a table of no bytes where no structure has so many parts.
#[tactic(auto, using(numbers::proofs::Tables::tabulate_length))]
pub fn hand_out_table(n: usize, words: &[u64], table: &mut [u8]) -> Result<usize, Refusal>
    ensures { outcome result table.new ≡ delivered (Ok tt) (bytes_in (up_to_16 n (table_length n)) words.now) table.old }
{
    let needed = table_length(n);
    answer::room(needed, table.len())?;
    structure_words::store(words, &mut table[..needed]);
    Ok(needed)
}

// The verdict on a table's bits.
fn structure_verdict(n: usize, table: &[u8]) -> Result<(), Refusal>
    requires n_bound { n ≤ 16 }
    requires by_index { (a : ℕ) → 2 ^ n ≤ a → in_table table.now a ≡ false }
    ensures { result ≡ structure_refusal n (in_table table.now) }
{
    let loaded = structure_words::load(table);
    if structure_words::works(&loaded, 0) {
        return Err(Reason::EmptySetWorks.at(0));
    }
    if !structure_words::works(&loaded, numbers::power_of_two(n) - 1) {
        return Err(Reason::FullSetFails.at(0));
    }
    let place = structure_closure::first_broken(&loaded, n);
    if place < 65536 {
        return Err(Reason::BrokenSet.at(place));
    }
    Ok(())
}

// The verdict on the entries of a list, one after the other.
#[tactic(auto, using(crate::proofs::Acceptance::entries_from, crate::proofs::Acceptance::entries_ended, numbers::proofs::Counts::up_to_16_given))]
fn entries_verdict(n: usize, list: &[u16]) -> Result<(), Refusal>
    requires { n ≤ 16 }
    ensures { result ≡ entries_refusal n 0 list.now }
{
    for (i, &set) in list.iter().enumerate() {
        let mask = usize::from(set);
        if numbers::power_of_two(n) <= mask {
            return Err(Reason::UnknownPart.at(i));
        }
        if mask == 0 {
            return Err(Reason::EmptySet.at(i));
        }
    }
    Ok(())
}

// Whether a table's first byte has a bit that is for no set of n parts.
fn has_unused(n: usize, byte: u8) -> bool
    requires { 1 ≤ n }
    ensures { result ≡ any (λ a. leb (2 ^ n) a && has byte a) 8 }
{
    match n {
        1 => 4 <= byte,
        2 => 16 <= byte,
        _ => false,
    }
}
