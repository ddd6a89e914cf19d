// The report of a design record of either edition (01, "The report program"; 02, §8).
#![tactic(auto)]

ghost use Rattle.std.specs.Prelude.{◌≡◌, ◌≤◌, length};
ghost use Rattle.answer.specs.Outcome.{outcome};
ghost use Rattle.answer.specs.Placed.{placed};
ghost use Rattle.record_editions.specs.Contents.{design_in};
ghost use Rattle.theory_sets.specs.Tables.{in_table};
ghost use Rattle.structure.specs.Checks.{table_refusal};
ghost use Rattle.report_text.specs.Reports.{report_of};
ghost use Rattle.report_text.specs.Reporting.{report_buffers, handed_out, reported};
ghost use Rattle.report_text.specs.Inside.{table_text};

use answer::Refusal;
use record_parts::PartList;

// The report of a record and the record's table, into two lent buffers. No report is longer than 4,096 bytes.
pub fn report(bytes: &[u8], table: &mut [u8], text: &mut [u8]) -> Result<usize, Refusal>
    ensures text_after { outcome result (report_buffers table.new text.new) ≡ reported bytes.now table.old text.old }
    ensures bytes_len_bound { length (report_of (design_in bytes.now)) ≤ 4096 }
{
    let mut own_table = [0u8; 8192];
    let mut own_text = [0u8; 4096];
    let read = record_editions::whole_with_words(bytes);
    let contents = read.contents;
    let size = record::store_table(read, &mut own_table)?;
    let end = put_table(
        &mut own_text,
        contents.list,
        contents.sets,
        &own_table[..size],
    );
    hand_out_both(&own_table[..size], &own_text[..end], table, text)
}

// The text of a machine's table, with its part list and the number of its minimal sets.
fn put_table(text: &mut [u8], list: PartList, sets: usize, table: &[u8]) -> usize
    requires { table_refusal list.count table.now ≡ Ok tt }
    ensures text_after { outcome result text.new ≡ placed text.old 0 (table_text list sets (in_table table.now)) }
    ensures table_len_bound { length (table_text list sets (in_table table.now)) ≤ 4096 }
{
    let mut counts = [0i64; 17];
    let mut signature = [0i64; 17];
    let mut domination = [0i64; 17];
    let mut importance = [0u64; 17];
    let n = list.count;
    figures::figures(
        n,
        table,
        &mut counts,
        &mut signature,
        &mut domination,
        &mut importance,
    )
    .unwrap();
    report_figures::put_figures(text, list, sets, &signature, &domination[1..], &importance)
}

// A table and a text into two lent buffers.
fn hand_out_both(
    own_table: &[u8],
    own_text: &[u8],
    table: &mut [u8],
    text: &mut [u8],
) -> Result<usize, Refusal>
    ensures { outcome result (report_buffers table.new text.new) ≡ handed_out own_table.now own_text.now table.old text.old }
{
    answer::room(own_table.len(), table.len())?;
    answer::room(own_text.len(), text.len())?;
    answer::hand_out(own_table, table)?;
    answer::hand_out(own_text, text)
}
