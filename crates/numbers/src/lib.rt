// Factorials up to 16, as fixed numbers, binomials by their formula, powers of 2, a number cut at 16, whether a number is in its range, and
// the numbers of a list. Callers use what the functions mean, not how they find it.
#![tactic(auto)]

ghost use Rattle.std.specs.Prelude.{◌≡◌, ◌&&◌, ◌^◌, min, leb, get_or};
ghost use Rattle.numbers.specs.Counts.{factorial as «n!», choose, up_to_16};

const FACTORIALS: [u64; 17] = [
    1,
    1,
    2,
    6,
    24,
    120,
    720,
    5040,
    40320,
    362880,
    3628800,
    39916800,
    479001600,
    6227020800,
    87178291200,
    1307674368000,
    20922789888000,
];

// n! for n up to 16, and 0 above.
pub fn factorial(n: usize) -> u64
    ensures { result ≡ up_to_16 n («n!» n) }
{
    cell(&FACTORIALS, n)
}

// C(n,k) for n up to 16, and 0 above: by the product formula, where c(0) is 1 and c(i) is c(i-1) × (n-i+1) / i.
#[tactic(auto, using(crate::proofs::Counts::choose_above, crate::proofs::Counts::choose_none, crate::proofs::Counts::step_small, crate::proofs::Counts::step_next))]
pub fn binomial(n: usize, k: usize) -> u32
    ensures { result ≡ up_to_16 n (choose n k) }
{
    if 16 < n || n < k {
        return 0;
    }
    let mut c: u32 = 1;
    for i in 1..=k {
        c = c * (n - i + 1) as u32 / i as u32;
    }
    c
}

// 2^n for n up to 16, and 0 above.
pub fn power_of_two(n: usize) -> usize
    ensures { result ≡ up_to_16 n (2 ^ n) }
{
    if n <= 16 { 1 << n } else { 0 }
}

// The number, and 16 where it is over 16.
pub fn at_most_16(number: usize) -> usize
    ensures { result ≡ min number 16 }
{
    if number < 16 { number } else { 16 }
}

// Whether a number is 1 to `limit`.
pub fn in_range(number: usize, limit: usize) -> bool
    ensures { result ≡ leb 1 number && leb number limit }
{
    (1..=limit).contains(&number)
}

// The number at an index of a list, and 0 beyond the last.
pub fn cell(list: &[u64], at: usize) -> u64
    ensures { result ≡ get_or list.now at 0 }
{
    list.get(at).copied().unwrap_or(0)
}
