// The retired part numbers of a record (02, §8): the numbers of parts that left are filed, rising, and the highest 64 are kept.
#![tactic(auto)]

ghost use Rattle.std.specs.Prelude.{◌≡◌, ◌+◌, ◌≤◌, length, take};
ghost use Rattle.record_numbers.specs.Numbering.{named};
ghost use Rattle.record_retired.specs.Retired.{most_retired, inserted, kept, filed, filed_all, retired_of};
ghost use Rattle.record_retired.specs.Steps.{in_front};

// The most retired numbers of a record.
pub const MOST_RETIRED: usize = 64;

// The retired numbers, rising. The cells behind the last number hold 0.
#[derive(Clone, Copy)]
pub struct Retired {
    pub count: usize,
    pub numbers: [u64; MOST_RETIRED],
}

// The retired numbers after the parts of a group left: the numbers at its positions are filed one after the other. A position behind the last
// number has none, and of more than 64 retired numbers the last 64 count.
pub fn filed_group(retired: &[u64], numbers: &[u64], group: usize) -> Retired
    ensures { result ≡ retired_of (filed_all (named numbers.now group) (kept retired.now)) }
{
    let mut filing = latest(retired);
    let mut left = group;
    for &number in numbers {
        if left % 2 == 1 {
            filing = file(filing, number);
        }
        left /= 2;
    }
    filing
}

// The last 64 of some numbers.
fn latest(numbers: &[u64]) -> Retired
    ensures { result ≡ retired_of (kept numbers.now) }
{
    let count = numbers.len().min(MOST_RETIRED);
    let mut cells = [0; MOST_RETIRED];
    cells[..count].copy_from_slice(&numbers[numbers.len() - count..]);
    Retired {
        count,
        numbers: cells,
    }
}

// The retired numbers with one number more filed.
fn file(filing: Retired, number: u64) -> Retired
    requires { filing.count ≤ most_retired }
    ensures { result ≡ retired_of (filed number (take filing.count filing.numbers)) }
{
    let more = insert(&filing.numbers[..filing.count], number);
    latest(&more[..=filing.count])
}

// Some numbers with one put in front of the first that is above it. What stands in the cells behind them does not count.
#[tactic(auto, using(crate::proofs::Places::place_inside))]
fn insert(numbers: &[u64], number: u64) -> [u64; MOST_RETIRED + 1]
    requires { length numbers.now ≤ most_retired }
    ensures { take (length numbers.now + 1) result ≡ inserted number numbers.now }
{
    let place = place(numbers, number);
    let mut cells = [0; MOST_RETIRED + 1];
    cells[..place].copy_from_slice(&numbers[..place]);
    cells[place] = number;
    cells[place + 1..=numbers.len()].copy_from_slice(&numbers[place..]);
    cells
}

// How many numbers stand in front of the first that is above a number.
fn place(numbers: &[u64], number: u64) -> usize
    ensures { result ≡ in_front number numbers.now }
{
    numbers
        .iter()
        .position(|&other| number < other)
        .unwrap_or(numbers.len())
}
