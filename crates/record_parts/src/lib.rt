// The part list of a design record, with its mark (01, "Records on disk"; 02, §2): made from numbers, a part added, a part or a group of parts
// taken out.
#![tactic(auto)]

ghost use Rattle.std.specs.Prelude.{◌≡◌, ◌+◌, ◌^◌, ◌≤◌, ◌<◌};
ghost use Rattle.answer.specs.Outcome.{at, and_then};
ghost use Rattle.record_numbers.specs.Numbering.{most_parts, top_number, highest};
ghost use Rattle.record_parts.specs.PartLists.{made};
ghost use Rattle.record_parts.specs.Changes.{changed, broken_refusal, part_added, list_without, taken_out, take_out_group_refusal, group_taken_out};

use answer::{Reason, Refusal};

// The part numbers in use, by position, and the mark: the highest part number ever issued. The cells behind the last number hold 0.
#[derive(Clone, Copy)]
pub struct PartList {
    pub count: usize,
    pub mark: u64,
    pub numbers: [u64; PartList::MOST_PARTS],
}

// A part list with the verdict on it. Refused: the list as it was where one was to be changed, and a list of no parts where one was to be made.
#[derive(Clone, Copy)]
pub struct Listed {
    pub list: PartList,
    pub verdict: Result<(), Refusal>,
}

// What a change hands back: the list after it, and the part number that it issued or took out, or why nothing was changed.
#[derive(Clone, Copy)]
pub struct Changed {
    pub list: PartList,
    pub answer: Result<u64, Refusal>,
}

impl PartList {
    // The most parts of a machine, and the top part number.
    pub const MOST_PARTS: usize = record_numbers::MOST_PARTS;

    pub const TOP_NUMBER: u64 = record_numbers::TOP_NUMBER;

    // The list of a first design: its mark is its highest number.
    pub fn first(numbers: &[u64]) -> Listed
        ensures { result ≡ made (highest numbers.now) numbers.now }
    {
        PartList::with_mark(record_numbers::highest(numbers), numbers)
    }

    // The list with this mark, as a record has it.
    pub fn with_mark(mark: u64, numbers: &[u64]) -> Listed
        ensures { result ≡ made mark numbers.now }
    {
        let verdict = record_numbers::judge(mark, numbers);
        match verdict {
            Err(refusal) => Listed {
                list: PartList {
                    count: 0,
                    mark: 0,
                    numbers: [0; PartList::MOST_PARTS],
                },
                verdict: Err(refusal),
            },
            Ok(()) => {
                let cells = record_numbers::cells(numbers, 0);
                Listed {
                    list: PartList {
                        count: numbers.len(),
                        mark,
                        numbers: cells,
                    },
                    verdict: Ok(()),
                }
            }
        }
    }

    // Adds a part behind the last position, with the number after the mark, or hands the list back as it was.
    pub fn add(self) -> Changed
        ensures { result ≡ part_added self }
    {
        let verdict = self.judged();
        if let Err(refusal) = verdict {
            return unchanged(self, refusal.reason, refusal.place);
        }
        let count = self.count;
        let mark = self.mark;
        if count == PartList::MOST_PARTS {
            return unchanged(self, Reason::FullMachine, 0);
        }
        if mark == PartList::TOP_NUMBER {
            return unchanged(self, Reason::NumbersSpent, 0);
        }
        let issued = self.next_number();
        let numbers = self.numbers;
        let mut cells = record_numbers::cells(&numbers[..count], 0);
        cells[count] = issued;
        Changed {
            list: PartList {
                count: count + 1,
                mark: issued,
                numbers: cells,
            },
            answer: Ok(issued),
        }
    }

    // Takes the part at a position out, so that the parts behind it move down by one, or hands the list back as it was.
    pub fn take_out(self, position: usize) -> Changed
        ensures { result ≡ taken_out self position }
    {
        let verdict = self.judged();
        if let Err(refusal) = verdict {
            return unchanged(self, refusal.reason, refusal.place);
        }
        let count = self.count;
        if position == 0 {
            return unchanged(self, Reason::UnknownPosition, 0);
        }
        if count < position {
            return unchanged(self, Reason::UnknownPosition, 0);
        }
        if count == 1 {
            return unchanged(self, Reason::InEverySet, 0);
        }
        let numbers = self.numbers;
        let taken = numbers[position - 1];
        let group = numbers::power_of_two(position - 1);
        Changed {
            list: self.without(group),
            answer: Ok(taken),
        }
    }

    // Takes out the parts of a group, a mask of positions, so that the others move down past them, or hands the list back as it was.
    pub fn take_out_group(self, group: usize) -> Listed
        ensures { result ≡ group_taken_out self group }
    {
        let verdict = self.group_verdict(group);
        if let Err(refusal) = verdict {
            return Listed {
                list: self,
                verdict: Err(refusal),
            };
        }
        Listed {
            list: self.without(group),
            verdict: Ok(()),
        }
    }

    // The verdict on a list and a group of its parts that is to leave.
    fn group_verdict(self, group: usize) -> Result<(), Refusal>
        ensures { result ≡ and_then (broken_refusal self) (take_out_group_refusal self group) }
    {
        let verdict = self.judged();
        if let Err(refusal) = verdict {
            return Err(refusal);
        }
        let count = self.count;
        let known = masks::group_verdict(count, group);
        if let Err(refusal) = known {
            return Err(refusal);
        }
        if masks::size(group) == count {
            return Err(Reason::InEverySet.at(0));
        }
        Ok(())
    }

    // The list without the parts of a group of it: the others move together, and the mark stays.
    fn without(self, group: usize) -> PartList
        requires count_le_most_parts { self.count ≤ most_parts }
        requires group_bound { group < 2 ^ self.count }
        ensures { result ≡ list_without group self }
    {
        let count = self.count;
        let numbers = self.numbers;
        let cells = record_numbers::cells(&numbers[..count], group);
        PartList {
            count: count - masks::size(group),
            mark: self.mark,
            numbers: cells,
        }
    }

    // The number that the next part gets: never one that was issued before.
    fn next_number(self) -> u64
        requires { self.mark ≤ top_number }
        ensures { result ≡ self.mark + 1 }
    {
        self.mark + 1
    }

    // Whether a list that may have been built by hand keeps the rules of the type.
    fn judged(self) -> Result<(), Refusal>
        ensures { result ≡ broken_refusal self }
    {
        let count = self.count;
        let numbers = self.numbers;
        if PartList::MOST_PARTS < count {
            return Err(Reason::WrongPartCount.at(0));
        }
        record_numbers::judge(self.mark, &numbers[..count])
    }
}

// A refused change leaves the list as it was.
fn unchanged(list: PartList, reason: Reason, place: usize) -> Changed
    ensures { result ≡ changed list (Err (at reason place)) }
{
    Changed {
        list,
        answer: Err(Refusal { reason, place }),
    }
}
