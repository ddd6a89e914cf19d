// Between the two forms of a structure: a list of sets to a table, and a table to its minimal path sets (01, "Structures").
#![tactic(auto)]

ghost use Rattle.std.specs.Prelude.{◌≡◌};
ghost use Rattle.answer.specs.Outcome.{outcome, delivered};
ghost use Rattle.theory_sets.specs.Structures.{listed, minimal_sets};
ghost use Rattle.theory_sets.specs.Tables.{in_table, table_of};
ghost use Rattle.structure.specs.Checks.{list_refusal, table_refusal};

use answer::Refusal;

// The table of a list of sets, into a lent buffer.
pub fn table_of_list(n: usize, list: &[u16], table: &mut [u8]) -> Result<usize, Refusal>
    ensures { outcome result table.new ≡ delivered (list_refusal n list.now) (table_of n (listed list.now)) table.old }
{
    structure::list_verdict(n, list)?;
    let listed = structure_words::marked(list);
    let reached = structure_closure::spread(&listed, n);
    structure::hand_out_table(n, &reached, table)
}

// The minimal path sets of a table, ascending, into a lent buffer.
pub fn minimal_sets(n: usize, table: &[u8], sets: &mut [u16]) -> Result<usize, Refusal>
    ensures { outcome result sets.new ≡ delivered (table_refusal n table.now) (minimal_sets n (in_table table.now)) sets.old }
{
    structure::table_verdict(n, table)?;
    let loaded = structure_words::load(table);
    let minimal = structure_closure::irredundant(&loaded, n);
    structure_words::list(&minimal, sets)
}
