// A group's shares by both routes, set by set and through h(x,z): by either they are the counts of failure orders (01, "Counting").
#![tactic(auto)]

ghost use Rattle.std.specs.Prelude.{◌≡◌};
ghost use Rattle.answer.specs.Outcome.{outcome};
ghost use Rattle.theory_sets.specs.Tables.{in_table};
ghost use Rattle.shares_claim.specs.Claim.{group_counts};
ghost use Rattle.shares_claim.specs.Refusals.{shares_refusal};
ghost use Rattle.shares.specs.Both.{both, both_delivered};

use answer::Refusal;

// The m shares of a group set by set into one lent buffer and through h(x,z) into another: both are the counts of failure orders.
pub fn shares_by_both_routes(
    n: usize,
    table: &[u8],
    group: usize,
    first: &mut [i64],
    second: &mut [i64],
) -> Result<usize, Refusal>
    ensures { outcome result (both first.new second.new) ≡ both_delivered (shares_refusal n table.now group) (group_counts n (in_table table.now) group) first.old second.old }
{
    let m = masks::size(group);
    let room = first.len().min(second.len());
    shares_group::judge(n, table, group, m, room)?;
    let _ = shares_by_sets::shares_by_sets(n, table, group, first);
    let _ = shares_by_polynomial::shares_by_reliability(n, table, group, second);
    Ok(m)
}
