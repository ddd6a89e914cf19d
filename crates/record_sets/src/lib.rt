// Lists of sets (01, "Structures" and "Records on disk"): the minimal sets of one, also with a set added, and what is left of one without a
// group of parts.
#![tactic(auto)]

ghost use Rattle.std.specs.Prelude.{◌≡◌, [], ◌∷◌, ◌++◌, ◌≤◌, length};
ghost use Rattle.answer.specs.Outcome.{outcome, delivered};
ghost use Rattle.theory_sets.specs.Structures.{listed, minimal_sets};
ghost use Rattle.structure_words.specs.Words.{words_of, among};
ghost use Rattle.structure.specs.Checks.{list_refusal};
ghost use Rattle.record_lines.specs.Changes.{sets_without};
ghost use Rattle.record_sets.specs.Lists.{with_set_refusal};
ghost use Rattle.record_sets.specs.Inside.{least_of};

use answer::{Reason, Refusal};

// The minimal sets of a list of sets, ascending, into a lent buffer.
pub fn minimal_of_list(n: usize, list: &[u16], sets: &mut [u16]) -> Result<usize, Refusal>
    ensures { outcome result sets.new ≡ delivered (list_refusal n list.now) (minimal_sets n (listed list.now)) sets.old }
{
    let checked = structure::list_verdict(n, list);
    match checked {
        Err(refusal) => Err(refusal),
        Ok(()) => {
            let marks = structure_words::marked(list);
            minimal_of_marks(n, &marks, sets)
        }
    }
}

// The minimal sets of a list of sets and one set more, ascending, into a lent buffer.
pub fn minimal_with(n: usize, list: &[u16], set: u16, sets: &mut [u16]) -> Result<usize, Refusal>
    ensures { outcome result sets.new ≡ delivered (with_set_refusal n list.now set) (minimal_sets n (listed (set ∷ list.now))) sets.old }
{
    let verdict = with_verdict(n, list, set);
    match verdict {
        Err(refusal) => Err(refusal),
        Ok(()) => {
            let marks = marked_with(list, set);
            minimal_of_marks(n, &marks, sets)
        }
    }
}

// The sets that have no part of a group, with higher positions moved down, into a lent buffer.
pub fn sets_without(sets: &[u16], group: usize, kept: &mut [u16]) -> Result<usize, Refusal>
    ensures { outcome result kept.new ≡ delivered (Ok tt) (sets_without group sets.now) kept.old }
{
    let needed = left_without(sets, group);
    if kept.len() < needed {
        return Err(Reason::ShortBuffer.at(needed));
    }
    let left = keep_without(sets, group, kept);
    Ok(left)
}

// The verdict on a list and one set more.
fn with_verdict(n: usize, list: &[u16], set: u16) -> Result<(), Refusal>
    ensures { result ≡ with_set_refusal n list.now set }
{
    let verdict = structure::list_verdict(n, list);
    if let Err(refusal) = verdict {
        return Err(refusal);
    }
    if numbers::power_of_two(n) <= set as usize {
        return Err(Reason::UnknownPart.at(0));
    }
    if set == 0 {
        return Err(Reason::EmptySet.at(0));
    }
    Ok(())
}

// A list and one set more, marked.
fn marked_with(list: &[u16], set: u16) -> [u64; 1024]
    ensures { result ≡ words_of (among (list.now ++ (set ∷ []))) }
{
    let mut marks = structure_words::marked(list);
    let value = usize::from(set);
    marks[value / 64] |= 1 << (value % 64);
    marks
}

// The minimal ones of sets that are marked, ascending, into a lent buffer.
fn minimal_of_marks(n: usize, marks: &[u64], sets: &mut [u16]) -> Result<usize, Refusal>
    ensures { outcome result sets.new ≡ delivered (Ok tt) (least_of n marks.now) sets.old }
{
    let reached = structure_closure::spread(marks, n);
    let least = structure_closure::irredundant(&reached, n);
    structure_words::list(&least, sets)
}

// How many sets have no part of a group.
fn left_without(sets: &[u16], group: usize) -> usize
    ensures { result ≡ length (sets_without group sets.now) }
{
    sets.iter()
        .filter(|&&set| !masks::meets(set, group))
        .count()
}

// Stores these sets, squeezed, where there is room for all of them, and answers how many they are.
fn keep_without(sets: &[u16], group: usize, kept: &mut [u16]) -> usize
    requires { length (sets_without group sets.now) ≤ length kept.old }
    ensures { outcome (Ok result) kept.new ≡ delivered (Ok tt) (sets_without group sets.now) kept.old }
{
    let mut next = 0;
    for &set in sets {
        if !masks::meets(set, group) {
            kept[next] = masks::squeezed(set, group);
            next += 1;
        }
    }
    next
}
