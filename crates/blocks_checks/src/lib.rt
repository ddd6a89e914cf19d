// Whether a machine can be made of blocks as they are given: the structure of the blocks, their sizes, and their path counts one after another
// (02, §10).
#![tactic(auto)]

ghost use Rattle.std.specs.Prelude.{◌≡◌, ◌≤◌, length};
ghost use Rattle.theory_blocks.specs.Blocks.{parts_in};
ghost use Rattle.blocks_checks.specs.Given.{size_at, start_of};
ghost use Rattle.blocks_checks.specs.Refusals.{sizes_refusal, vectors_refusal, block_counts_refusal, blocks_refusal};

use answer::{Reason, Refusal};
use vector_kind::Kind;

// The verdict on a table over blocks, with their sizes and vectors.
#[tactic(auto, unfolding(crate::specs::Refusals::blocks_refusal))]
pub fn blocks_verdict(
    blocks: usize,
    table: &[u8],
    sizes: &[usize],
    vectors: &[i64],
) -> Result<(), Refusal>
    ensures { result ≡ blocks_refusal blocks table.now sizes.now vectors.now }
{
    structure::table_verdict(blocks, table)?;
    if sizes.len() != blocks {
        return Err(Reason::WrongVectorLength.at(0));
    }
    sizes_verdict(sizes)?;
    counts_verdict(sizes, vectors)
}

// The verdict on the sizes: each 1 to 16.
fn sizes_verdict(sizes: &[usize]) -> Result<(), Refusal>
    ensures { result ≡ sizes_refusal sizes.now (length sizes.now) }
{
    for &size in sizes {
        if !numbers::in_range(size, 16) {
            return Err(Reason::WrongPartCount.at(0));
        }
    }
    Ok(())
}

// The verdict on the vectors of blocks whose sizes are right, and on all their parts together.
#[tactic(auto, using(crate::proofs::Given::start_parts), unfolding(crate::specs::Refusals::block_counts_refusal))]
fn counts_verdict(sizes: &[usize], vectors: &[i64]) -> Result<(), Refusal>
    requires sizes_len_bound { length sizes.now ≤ 16 }
    requires sizes_value { sizes_refusal sizes.now (length sizes.now) ≡ Ok tt }
    ensures { result ≡ block_counts_refusal (length sizes.now) sizes.now vectors.now }
{
    let parts = parts_in(sizes);
    if vectors.len() != parts + sizes.len() {
        return Err(Reason::WrongVectorLength.at(0));
    }
    vectors_verdict(sizes, vectors)?;
    if 16 < parts {
        return Err(Reason::ManyParts.at(0));
    }
    Ok(())
}

// How many parts the blocks have in all: up to 256.
fn parts_in(sizes: &[usize]) -> usize
    requires sizes_len_bound { length sizes.now ≤ 16 }
    requires sizes_value { sizes_refusal sizes.now (length sizes.now) ≡ Ok tt }
    ensures { (result ≡ parts_in (size_at sizes.now) (length sizes.now)) × (result ≤ 256) }
{
    sizes.iter().sum()
}

// The verdict on the vectors, one after another, each whole before the next.
fn vectors_verdict(sizes: &[usize], vectors: &[i64]) -> Result<(), Refusal>
    requires { length vectors.now ≡ start_of sizes.now (length sizes.now) }
    ensures { result ≡ vectors_refusal sizes.now vectors.now (length sizes.now) }
{
    let mut start: usize = 0;
    for &size in sizes {
        let end = start + size + 1;
        vector_conversion::judge(Kind::PathCounts, size, &vectors[start..end])?;
        start = end;
    }
    Ok(())
}
