// Signed numbers and counts: the magnitude of a signed number, and the difference of two counts as a signed one.
#![tactic(auto)]

ghost use Rattle.std.specs.Prelude.{◌≡◌, nat_abs};
ghost use Rattle.integers.specs.Differences.{difference as difference_of};

// The magnitude of a number, whatever its sign.
pub fn magnitude(value: i64) -> u64
    ensures { result ≡ nat_abs value }
{
    value.unsigned_abs()
}

// The limit of the counts that have a difference.
const LIMIT: u64 = 1 << 62;

// What was added less what was taken, for counts below 2^62, and 0 where one is larger.
pub fn difference(added: u64, taken: u64) -> i64
    ensures { result ≡ difference_of added taken }
{
    if added < LIMIT && taken < LIMIT {
        added as i64 - taken as i64
    } else {
        0
    }
}
