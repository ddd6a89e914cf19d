// Idle parts of a structure (02, §9): a table to the mask of the parts that change nothing.
#![tactic(auto)]

ghost use Rattle.std.specs.Prelude.{◌≡◌};
ghost use Rattle.answer.specs.Outcome.{valued};
ghost use Rattle.theory_sets.specs.Tables.{in_table};
ghost use Rattle.theory_sets.specs.Idle.{idle_parts};
ghost use Rattle.structure.specs.Checks.{table_refusal};

use answer::Refusal;

// The mask of the idle parts of a table.
pub fn idle_parts(n: usize, table: &[u8]) -> Result<usize, Refusal>
    ensures { result ≡ valued (table_refusal n table.now) (idle_parts n (in_table table.now)) }
{
    structure::table_verdict(n, table)?;
    let loaded = structure_words::load(table);
    Ok(structure_closure::idle_parts(&loaded, n))
}
