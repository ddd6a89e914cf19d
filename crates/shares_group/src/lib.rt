// A group of parts: the checks of a call with a table and a group, and sums that path sets are added to.
#![tactic(auto)]

ghost use Rattle.std.specs.Prelude.{◌≡◌, ◌+◌, ◌%◌, ◌^◌, slice_index, slice_set};
ghost use Rattle.answer.specs.Outcome.{and_then, room};
ghost use Rattle.shares_claim.specs.Refusals.{shares_refusal};

use answer::Refusal;

// The verdict on a call with a table and a group that needs so many cells for its result and is lent so many.
pub fn judge(
    n: usize,
    table: &[u8],
    group: usize,
    needed: usize,
    lent: usize,
) -> Result<(), Refusal>
    ensures { result ≡ and_then (shares_refusal n table.now group) (room needed lent) }
{
    group_verdict(n, table, group)?;
    answer::room(needed, lent)
}

// The verdict on a table and a group.
#[tactic(auto, unfolding(shares_claim::specs::Refusals::shares_refusal))]
fn group_verdict(n: usize, table: &[u8], group: usize) -> Result<(), Refusal>
    ensures { result ≡ shares_refusal n table.now group }
{
    structure::table_verdict(n, table)?;
    masks::group_verdict(n, group)
}

// Adds an amount to the number at an index, modulo 2^64; beyond the last number nothing is done.
pub fn add(sums: &mut [u64], at: usize, amount: u64)
    ensures { sums.new ≡ slice_set sums.old at ((slice_index sums.old at + amount) % 2 ^ 64) }
{
    if at < sums.len() {
        sums[at] = sums[at].wrapping_add(amount);
    }
}
