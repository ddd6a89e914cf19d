// The static library: every entry point for C, each passing on to the function behind it.
#![tactic(auto)]

ghost use Rattle.std.specs.Prelude.{◌≡◌, ◌-◌};
ghost use Rattle.answer.specs.Outcome.{at, outcome, retold, delivered, valued};
ghost use Rattle.theory_sets.specs.Structures.{listed, minimal_sets};
ghost use Rattle.theory_sets.specs.Tables.{in_table, table_of};
ghost use Rattle.theory_sets.specs.Idle.{idle_parts};
ghost use Rattle.theory_cuts.specs.Cuts.{minimal_cuts, by_cuts, dual_table};
ghost use Rattle.structure.specs.Checks.{list_refusal, table_refusal};
ghost use Rattle.structure_patterns.specs.Patterns.{patterned, pattern_refusal};
ghost use Rattle.theory_figures.specs.Figures.{path_counts, tails, signatures, dominations, importances};
ghost use Rattle.figures.specs.All.{buffers_of, all_figures};
ghost use Rattle.shares_claim.specs.Refusals.{shares_refusal};
ghost use Rattle.shares_claim.specs.SetBySet.{shares_by_sets};
ghost use Rattle.shares_claim.specs.Reliability.{shares_by_reliability, reliability_cells};
ghost use Rattle.shares_claim.specs.Claim.{group_counts};
ghost use Rattle.shares.specs.Both.{both, both_delivered};
ghost use Rattle.theory_joint.specs.Joint.{joint_square};
ghost use Rattle.joint.specs.Refusals.{joint_refusal};
ghost use Rattle.blocks_checks.specs.Refusals.{blocks_refusal};
ghost use Rattle.blocks.specs.Whole.{counts_of_blocks};
ghost use Rattle.vector_kind.specs.Kinds.{kind_of, kind_refusal};
ghost use Rattle.vector_conversion.specs.Vectors.{vector_refusal, converted};
ghost use Rattle.record.specs.Contents.{cursor, step_at};
ghost use Rattle.record_editions.specs.declared.Edition.TheVariants.{First, Second};
ghost use Rattle.record_editions.specs.Contents.{whole_contents, contents_at, record_refusal, design_in, edition_given, retired_given, end_given};
ghost use Rattle.record_lines.specs.Changes.{add_part, take_out, take_out_group, add_set, convert};
ghost use Rattle.record_lines.specs.Records.{entered_record, first_record, changed_record};
ghost use Rattle.record_numbers.specs.Numbering.{named};
ghost use Rattle.record_naming.specs.Naming.{found_mask, named_refusal};
ghost use Rattle.record_by_number.specs.Parts.{part_position, parts_mask, changed_there};
ghost use Rattle.drawing_text.specs.Drawings.{record_of_drawing};
ghost use Rattle.drawing_text.specs.Writing.{drawing_of_record};
ghost use Rattle.sheet.specs.Saving.{sheet_as, saved_sheet, tail_sheet_refusal};
ghost use Rattle.sheet.specs.Sheets.{sheet_of};
ghost use Rattle.sheet_entries.specs.Answers.{entries_delivered};
ghost use Rattle.report_lines.specs.Lines.{refused_line};
ghost use Rattle.report_text.specs.Reporting.{report_buffers, reported};
ghost use Rattle.nahokipe.specs.Answers.{of_verdict, of_number, of_contents, of_step, of_entries_read};

use answer::Refusal;
use record::{Contents, Cursor, Step};
use sheet_entries::EntriesRead;
use structure_patterns::Pattern;

// What a host is handed: number 0 and the length written, or the position or mask that was asked for; or a refusal's number and place.
#[repr(C)]
#[derive(Drop)]
pub struct Answer {
    pub number: u8,
    pub value: usize,
}

// What reading a record hands out: number and value as above; of an accepted record its part list, how many sets it has, and which of its
// bytes carry them.
#[repr(C)]
#[derive(Drop)]
pub struct Record {
    pub number: u8,
    pub value: usize,
    pub parts: usize,
    pub mark: u64,
    pub numbers: [u64; 16],
    pub sets: usize,
    pub offset: usize,
    pub length: usize,
}

// What a step along the sets of a record hands out: 1, the set and where the walk is behind it; or 0 at the end.
#[repr(C)]
#[derive(Drop)]
pub struct NextSet {
    pub given: u8,
    pub set: u64,
    pub next: usize,
    pub left: usize,
}

// What reading a sheet hands out: number and value as above, and the kind's number and n; 1 and 0 of a refused sheet.
#[repr(C)]
#[derive(Drop)]
pub struct Sheet {
    pub number: u8,
    pub value: usize,
    pub kind: u8,
    pub n: usize,
}

// The verdict on a list of sets.
#[unsafe(no_mangle)]
pub extern "C" fn nahokipe_list_verdict(n: usize, list: &[u16]) -> Answer
    ensures { result ≡ of_verdict (list_refusal n list.now) }
{
    of_verdict(structure::list_verdict(n, list))
}

// The verdict on a table.
#[unsafe(no_mangle)]
pub extern "C" fn nahokipe_table_verdict(n: usize, table: &[u8]) -> Answer
    ensures { result ≡ of_verdict (table_refusal n table.now) }
{
    of_verdict(structure::table_verdict(n, table))
}

// The table of a list of sets.
#[unsafe(no_mangle)]
pub extern "C" fn nahokipe_table_of_list(n: usize, list: &[u16], table: &mut [u8]) -> Answer
    ensures { outcome result table.new ≡ retold of_number (delivered (list_refusal n list.now) (table_of n (listed list.now)) table.old) }
{
    of_number(structure_forms::table_of_list(n, list, table))
}

// The minimal path sets of a table.
#[unsafe(no_mangle)]
pub extern "C" fn nahokipe_minimal_sets(n: usize, table: &[u8], sets: &mut [u16]) -> Answer
    ensures { outcome result sets.new ≡ retold of_number (delivered (table_refusal n table.now) (minimal_sets n (in_table table.now)) sets.old) }
{
    of_number(structure_forms::minimal_sets(n, table, sets))
}

// The table of a list of cut sets.
#[unsafe(no_mangle)]
pub extern "C" fn nahokipe_table_of_cuts(n: usize, cuts: &[u16], table: &mut [u8]) -> Answer
    ensures { outcome result table.new ≡ retold of_number (delivered (list_refusal n cuts.now) (table_of n (by_cuts n cuts.now)) table.old) }
{
    of_number(structure_cuts::table_of_cuts(n, cuts, table))
}

// The minimal cut sets of a table.
#[unsafe(no_mangle)]
pub extern "C" fn nahokipe_minimal_cuts(n: usize, table: &[u8], cuts: &mut [u16]) -> Answer
    ensures { outcome result cuts.new ≡ retold of_number (delivered (table_refusal n table.now) (minimal_cuts n (in_table table.now)) cuts.old) }
{
    of_number(structure_cuts::minimal_cuts(n, table, cuts))
}

// The dual of a table.
#[unsafe(no_mangle)]
pub extern "C" fn nahokipe_dual(n: usize, table: &[u8], buffer: &mut [u8]) -> Answer
    ensures { outcome result buffer.new ≡ retold of_number (delivered (table_refusal n table.now) (dual_table n table.now) buffer.old) }
{
    of_number(structure_cuts::dual(n, table, buffer))
}

// The mask of the idle parts of a table.
#[unsafe(no_mangle)]
pub extern "C" fn nahokipe_idle_parts(n: usize, table: &[u8]) -> Answer
    ensures { result ≡ of_number (valued (table_refusal n table.now) (idle_parts n (in_table table.now))) }
{
    of_number(structure_idle::idle_parts(n, table))
}

// The table of the machine that runs exactly if at least k of n parts work.
#[unsafe(no_mangle)]
pub extern "C" fn nahokipe_table_at_least(n: usize, k: usize, table: &mut [u8]) -> Answer
    ensures { outcome result table.new ≡ retold of_number (delivered (pattern_refusal n k) (table_of n (patterned Pattern.AtLeast n k)) table.old) }
{
    of_number(structure_patterns::table_of_pattern(Pattern::AtLeast, n, k, table))
}

// The table of the machine that is stopped exactly by k failed neighbours in a row.
#[unsafe(no_mangle)]
pub extern "C" fn nahokipe_table_of_row(n: usize, k: usize, table: &mut [u8]) -> Answer
    ensures { outcome result table.new ≡ retold of_number (delivered (pattern_refusal n k) (table_of n (patterned Pattern.Row n k)) table.old) }
{
    of_number(structure_patterns::table_of_pattern(Pattern::Row, n, k, table))
}

// The same in a ring.
#[unsafe(no_mangle)]
pub extern "C" fn nahokipe_table_of_ring(n: usize, k: usize, table: &mut [u8]) -> Answer
    ensures { outcome result table.new ≡ retold of_number (delivered (pattern_refusal n k) (table_of n (patterned Pattern.Ring n k)) table.old) }
{
    of_number(structure_patterns::table_of_pattern(Pattern::Ring, n, k, table))
}

// The path counts φ(0) to φ(n) of a table.
#[unsafe(no_mangle)]
pub extern "C" fn nahokipe_path_counts(n: usize, table: &[u8], cells: &mut [i64]) -> Answer
    ensures { outcome result cells.new ≡ retold of_number (delivered (table_refusal n table.now) (path_counts n (in_table table.now)) cells.old) }
{
    of_number(figures::path_counts(n, table, cells))
}

// The tail T(0) to T(n) of a table.
#[unsafe(no_mangle)]
pub extern "C" fn nahokipe_tail(n: usize, table: &[u8], cells: &mut [i64]) -> Answer
    ensures { outcome result cells.new ≡ retold of_number (delivered (table_refusal n table.now) (tails n (in_table table.now)) cells.old) }
{
    of_number(figures::tail(n, table, cells))
}

// The signature N(1) to N(n) of a table.
#[unsafe(no_mangle)]
pub extern "C" fn nahokipe_signature(n: usize, table: &[u8], cells: &mut [i64]) -> Answer
    ensures { outcome result cells.new ≡ retold of_number (delivered (table_refusal n table.now) (signatures n (in_table table.now)) cells.old) }
{
    of_number(figures::signature(n, table, cells))
}

// The domination d(0) to d(n) of a table.
#[unsafe(no_mangle)]
pub extern "C" fn nahokipe_domination(n: usize, table: &[u8], cells: &mut [i64]) -> Answer
    ensures { outcome result cells.new ≡ retold of_number (delivered (table_refusal n table.now) (dominations n (in_table table.now)) cells.old) }
{
    of_number(figures::domination(n, table, cells))
}

// The Barlow-Proschan counts of all parts, by position.
#[unsafe(no_mangle)]
pub extern "C" fn nahokipe_importance(n: usize, table: &[u8], cells: &mut [u64]) -> Answer
    ensures { outcome result cells.new ≡ retold of_number (delivered (table_refusal n table.now) (importances n (in_table table.now)) cells.old) }
{
    of_number(figures::importance(n, table, cells))
}

// The path counts, the signature, the domination and the importances of a table at once.
#[unsafe(no_mangle)]
pub extern "C" fn nahokipe_figures(
    n: usize,
    table: &[u8],
    counts: &mut [i64],
    signature: &mut [i64],
    domination: &mut [i64],
    importance: &mut [u64],
) -> Answer
    ensures { outcome result (buffers_of counts.new signature.new domination.new importance.new) ≡ retold of_verdict (all_figures n table.now (buffers_of counts.old signature.old domination.old importance.old)) }
{
    of_verdict(figures::figures(n, table, counts, signature, domination, importance))
}

// The shares of a group, set by set.
#[unsafe(no_mangle)]
pub extern "C" fn nahokipe_shares_by_sets(
    n: usize,
    table: &[u8],
    group: usize,
    cells: &mut [i64],
) -> Answer
    ensures { outcome result cells.new ≡ retold of_number (delivered (shares_refusal n table.now group) (shares_by_sets n (in_table table.now) group) cells.old) }
{
    of_number(shares_by_sets::shares_by_sets(n, table, group, cells))
}

// The shares of a group through h(x,z).
#[unsafe(no_mangle)]
pub extern "C" fn nahokipe_shares_by_reliability(
    n: usize,
    table: &[u8],
    group: usize,
    cells: &mut [i64],
) -> Answer
    ensures { outcome result cells.new ≡ retold of_number (delivered (shares_refusal n table.now group) (shares_by_reliability n (in_table table.now) group) cells.old) }
{
    of_number(shares_by_polynomial::shares_by_reliability(n, table, group, cells))
}

// The coefficients of h(x,z), where x stands for the parts of the group.
#[unsafe(no_mangle)]
pub extern "C" fn nahokipe_reliability(
    n: usize,
    table: &[u8],
    group: usize,
    cells: &mut [i64],
) -> Answer
    ensures { outcome result cells.new ≡ retold of_number (delivered (shares_refusal n table.now group) (reliability_cells n (in_table table.now) group) cells.old) }
{
    of_number(shares_polynomial::reliability(n, table, group, cells))
}

// The shares of a group by both routes: the counts of failure orders, twice.
#[unsafe(no_mangle)]
pub extern "C" fn nahokipe_shares_by_both_routes(
    n: usize,
    table: &[u8],
    group: usize,
    first: &mut [i64],
    second: &mut [i64],
) -> Answer
    ensures { outcome result (both first.new second.new) ≡ retold of_number (both_delivered (shares_refusal n table.now group) (group_counts n (in_table table.now) group) first.old second.old) }
{
    of_number(shares::shares_by_both_routes(n, table, group, first, second))
}

// The square of counts of two machines with the same parts: in how many failure orders which failure stops the first, and which the second.
#[unsafe(no_mangle)]
pub extern "C" fn nahokipe_joint_signature(
    n: usize,
    first: &[u8],
    second: &[u8],
    cells: &mut [u64],
) -> Answer
    ensures { outcome result cells.new ≡ retold of_number (delivered (joint_refusal n first.now second.now) (joint_square n (in_table first.now) (in_table second.now)) cells.old) }
{
    of_number(joint::joint_signature(n, first, second, cells))
}

// The path counts of a machine made of blocks.
#[unsafe(no_mangle)]
pub extern "C" fn nahokipe_path_counts_of_blocks(
    blocks: usize,
    table: &[u8],
    sizes: &[usize],
    vectors: &[i64],
    cells: &mut [i64],
) -> Answer
    ensures { outcome result cells.new ≡ retold of_number (delivered (blocks_refusal blocks table.now sizes.now vectors.now) (counts_of_blocks blocks table.now sizes.now vectors.now) cells.old) }
{
    of_number(blocks::path_counts_of_blocks(blocks, table, sizes, vectors, cells))
}

// The verdict on a vector, whose kind comes as a number.
#[unsafe(no_mangle)]
pub extern "C" fn nahokipe_vector_verdict(kind: u8, n: usize, entries: &[i64]) -> Answer
    ensures { result ≡ of_verdict (kind_refusal kind (vector_refusal (kind_of kind) n entries.now)) }
{
    of_verdict(vector::judge_numbered(kind, n, entries))
}

// A vector as one of another kind; both kinds come as numbers.
#[unsafe(no_mangle)]
pub extern "C" fn nahokipe_convert(
    kind: u8,
    n: usize,
    entries: &[i64],
    target: u8,
    cells: &mut [i64],
) -> Answer
    ensures { outcome result cells.new ≡ retold of_number (delivered (kind_refusal kind (kind_refusal target (vector_refusal (kind_of kind) n entries.now))) (converted (kind_of target) (kind_of kind) n entries.now) cells.old) }
{
    of_number(vector::convert_numbered(kind, n, entries, target, cells))
}

// A vector saved as a sheet, a tail as the signature; its kind comes as a number.
#[unsafe(no_mangle)]
pub extern "C" fn nahokipe_save_sheet(
    kind: u8,
    n: usize,
    entries: &[i64],
    buffer: &mut [u8],
) -> Answer
    ensures { outcome result buffer.new ≡ retold of_number (delivered (kind_refusal kind (vector_refusal (kind_of kind) n entries.now)) (saved_sheet (kind_of kind) n entries.now) buffer.old) }
{
    of_number(sheet::save_sheet_numbered(kind, n, entries, buffer))
}

// A vector saved as a sheet of the kind that is named; both kinds come as numbers.
#[unsafe(no_mangle)]
pub extern "C" fn nahokipe_save_sheet_as(
    kind: u8,
    n: usize,
    entries: &[i64],
    target: u8,
    buffer: &mut [u8],
) -> Answer
    ensures { outcome result buffer.new ≡ retold of_number (delivered (tail_sheet_refusal target (kind_refusal kind (kind_refusal target (vector_refusal (kind_of kind) n entries.now)))) (sheet_as (kind_of target) (kind_of kind) n entries.now) buffer.old) }
{
    of_number(sheet::save_sheet_as_numbered(kind, n, entries, target, buffer))
}

// The entries of a sheet.
#[unsafe(no_mangle)]
pub extern "C" fn nahokipe_read_sheet(bytes: &[u8], cells: &mut [i64]) -> Sheet
    ensures { outcome result cells.new ≡ retold of_entries_read (entries_delivered (sheet_of bytes.now) cells.old) }
{
    of_entries_read(sheet_entries::read_sheet(bytes, cells))
}

// What stands in the record that the bytes are.
#[unsafe(no_mangle)]
pub extern "C" fn nahokipe_whole_record(bytes: &[u8]) -> Record
    ensures { result ≡ of_contents (whole_contents bytes.now) }
{
    of_contents(record_editions::whole_record(bytes))
}

// What stands in the record at a position; what comes after it is not looked at.
#[unsafe(no_mangle)]
pub extern "C" fn nahokipe_record_at(bytes: &[u8], start: usize) -> Record
    ensures { result ≡ of_contents (contents_at bytes.now start) }
{
    of_contents(record_editions::read_record(bytes, start))
}

// The next set of a record where it stands, on a walk that has so many left.
#[unsafe(no_mangle)]
pub extern "C" fn nahokipe_next_set(bytes: &[u8], next: usize, left: usize) -> NextSet
    ensures { result ≡ of_step (step_at bytes.now (cursor next left)) }
{
    let at = Cursor { next, left };
    of_step(at.step(bytes))
}

// The table of a record.
#[unsafe(no_mangle)]
pub extern "C" fn nahokipe_table_of_record(bytes: &[u8], table: &mut [u8]) -> Answer
    ensures { outcome result table.new ≡ retold of_number (delivered (record_refusal bytes.now) (table_of (design_in bytes.now).parts.count (listed (design_in bytes.now).sets)) table.old) }
{
    of_number(record_editions::table_of_record(bytes, table))
}

// The position after the record that stands at a position.
#[unsafe(no_mangle)]
pub extern "C" fn nahokipe_record_end(bytes: &[u8], start: usize) -> Answer
    ensures { result ≡ of_number (end_given bytes.now start) }
{
    of_number(record_editions::record_end(bytes, start))
}

// The edition of a record: 1 or 2.
#[unsafe(no_mangle)]
pub extern "C" fn nahokipe_edition(bytes: &[u8]) -> Answer
    ensures { result ≡ of_number (edition_given bytes.now) }
{
    of_number(record_editions::edition_of(bytes))
}

// The retired numbers of a record.
#[unsafe(no_mangle)]
pub extern "C" fn nahokipe_retired(bytes: &[u8], numbers: &mut [u64]) -> Answer
    ensures { outcome result numbers.new ≡ retold of_number (retired_given bytes.now numbers.old) }
{
    of_number(record_editions::retired_of(bytes, numbers))
}

// A record in edition 1.
#[unsafe(no_mangle)]
pub extern "C" fn nahokipe_to_edition_1(bytes: &[u8], buffer: &mut [u8]) -> Answer
    ensures { outcome result buffer.new ≡ retold of_number (changed_record (convert First) bytes.now buffer.old) }
{
    of_number(record_changes::to_edition_1(bytes, buffer))
}

// A record in edition 2.
#[unsafe(no_mangle)]
pub extern "C" fn nahokipe_to_edition_2(bytes: &[u8], buffer: &mut [u8]) -> Answer
    ensures { outcome result buffer.new ≡ retold of_number (changed_record (convert Second) bytes.now buffer.old) }
{
    of_number(record_changes::to_edition_2(bytes, buffer))
}

// A first record, of a list of sets.
#[unsafe(no_mangle)]
pub extern "C" fn nahokipe_first_record(n: usize, list: &[u16], buffer: &mut [u8]) -> Answer
    ensures { outcome result buffer.new ≡ retold of_number (first_record n list.now buffer.old) }
{
    of_number(record_changes::first_record(n, list, buffer))
}

// A record of parts that already have numbers.
#[unsafe(no_mangle)]
pub extern "C" fn nahokipe_entered_record(
    mark: u64,
    numbers: &[u64],
    list: &[u16],
    buffer: &mut [u8],
) -> Answer
    ensures { outcome result buffer.new ≡ retold of_number (entered_record mark numbers.now list.now buffer.old) }
{
    of_number(record_changes::entered_record(mark, numbers, list, buffer))
}

// The position of the part with a number, in a record.
#[unsafe(no_mangle)]
pub extern "C" fn nahokipe_position_of(bytes: &[u8], number: u64) -> Answer
    ensures { result ≡ of_number (part_position bytes.now number) }
{
    of_number(record_by_number::position_of(bytes, number))
}

// The mask of the parts with some numbers, of a part list.
#[unsafe(no_mangle)]
pub extern "C" fn nahokipe_mask_of(numbers: &[u64], wanted: &[u64]) -> Answer
    ensures { result ≡ of_number (found_mask numbers.now wanted.now) }
{
    of_number(record_naming::mask_of(numbers, wanted))
}

// The numbers of the parts of a mask, of a part list.
#[unsafe(no_mangle)]
pub extern "C" fn nahokipe_numbers_of(numbers: &[u64], mask: usize, cells: &mut [u64]) -> Answer
    ensures { outcome result cells.new ≡ retold of_number (delivered (named_refusal numbers.now mask) (named numbers.now mask) cells.old) }
{
    of_number(record_naming::numbers_of(numbers, mask, cells))
}

// A record with one part more.
#[unsafe(no_mangle)]
pub extern "C" fn nahokipe_add_part(bytes: &[u8], buffer: &mut [u8]) -> Answer
    ensures { outcome result buffer.new ≡ retold of_number (changed_record add_part bytes.now buffer.old) }
{
    of_number(record_changes::add_part(bytes, buffer))
}

// A record without the part at a position.
#[unsafe(no_mangle)]
pub extern "C" fn nahokipe_take_out(bytes: &[u8], position: usize, buffer: &mut [u8]) -> Answer
    ensures { outcome result buffer.new ≡ retold of_number (changed_record (take_out position) bytes.now buffer.old) }
{
    of_number(record_changes::take_out(bytes, position, buffer))
}

// A record without the parts of a group.
#[unsafe(no_mangle)]
pub extern "C" fn nahokipe_take_out_group(bytes: &[u8], group: usize, buffer: &mut [u8]) -> Answer
    ensures { outcome result buffer.new ≡ retold of_number (changed_record (take_out_group group) bytes.now buffer.old) }
{
    of_number(record_changes::take_out_group(bytes, group, buffer))
}

// A record with one path set more.
#[unsafe(no_mangle)]
pub extern "C" fn nahokipe_add_set(bytes: &[u8], set: u16, buffer: &mut [u8]) -> Answer
    ensures { outcome result buffer.new ≡ retold of_number (changed_record (add_set set) bytes.now buffer.old) }
{
    of_number(record_changes::add_set(bytes, set, buffer))
}

// A record without the part that has a number.
#[unsafe(no_mangle)]
pub extern "C" fn nahokipe_take_out_part(bytes: &[u8], number: u64, buffer: &mut [u8]) -> Answer
    ensures { outcome result buffer.new ≡ retold of_number (changed_there take_out (part_position bytes.now number) bytes.now buffer.old) }
{
    of_number(record_by_number::take_out_part(bytes, number, buffer))
}

// A record without the parts that have some numbers.
#[unsafe(no_mangle)]
pub extern "C" fn nahokipe_take_out_parts(bytes: &[u8], wanted: &[u64], buffer: &mut [u8]) -> Answer
    ensures { outcome result buffer.new ≡ retold of_number (changed_there take_out_group (parts_mask bytes.now wanted.now) bytes.now buffer.old) }
{
    of_number(record_by_number::take_out_parts(bytes, wanted, buffer))
}

// A record with the path set of the parts that have some numbers.
#[unsafe(no_mangle)]
pub extern "C" fn nahokipe_add_set_of_parts(
    bytes: &[u8],
    wanted: &[u64],
    buffer: &mut [u8],
) -> Answer
    ensures { outcome result buffer.new ≡ retold of_number (changed_there add_set (parts_mask bytes.now wanted.now) bytes.now buffer.old) }
{
    of_number(record_by_number::add_set_of_parts(bytes, wanted, buffer))
}

// The record of a drawing's text.
#[unsafe(no_mangle)]
pub extern "C" fn nahokipe_record_of_drawing(text: &[u8], buffer: &mut [u8]) -> Answer
    ensures { outcome result buffer.new ≡ retold of_number (record_of_drawing text.now buffer.old) }
{
    of_number(drawing_reading::record_of_drawing(text, buffer))
}

// The drawing's text of a record.
#[unsafe(no_mangle)]
pub extern "C" fn nahokipe_drawing_of_record(bytes: &[u8], buffer: &mut [u8]) -> Answer
    ensures { outcome result buffer.new ≡ retold of_number (drawing_of_record bytes.now buffer.old) }
{
    of_number(drawing_writing::drawing_of_record(bytes, buffer))
}

// The report of a record, and the record's table.
#[unsafe(no_mangle)]
pub extern "C" fn nahokipe_report(bytes: &[u8], table: &mut [u8], text: &mut [u8]) -> Answer
    ensures { outcome result (report_buffers table.new text.new) ≡ retold of_number (reported bytes.now table.old text.old) }
{
    of_number(report_text::report(bytes, table, text))
}

// The one line of a refusal.
#[unsafe(no_mangle)]
pub extern "C" fn nahokipe_refused_line(number: u8, place: usize, text: &mut [u8]) -> Answer
    ensures { outcome result text.new ≡ retold of_number (delivered (Ok tt) (refused_line number place) text.old) }
{
    of_number(report_lines::refused_line(number, place, text))
}

fn of_verdict(verdict: Result<(), Refusal>) -> Answer
    ensures { result ≡ of_verdict verdict }
{
    match verdict {
        Ok(()) => Answer {
            number: 0,
            value: 0,
        },
        Err(refusal) => Answer {
            number: refusal.reason.number(),
            value: refusal.place,
        },
    }
}

fn of_number(given: Result<usize, Refusal>) -> Answer
    ensures { result ≡ of_number given }
{
    match given {
        Ok(value) => Answer { number: 0, value },
        Err(refusal) => Answer {
            number: refusal.reason.number(),
            value: refusal.place,
        },
    }
}

fn of_contents(contents: Contents) -> Record
    ensures { result ≡ of_contents contents }
{
    let verdict = contents.verdict;
    let answer = of_verdict(verdict);
    let list = contents.list;
    let numbers = list.numbers;
    let offset = contents.begin;
    Record {
        number: answer.number,
        value: answer.value,
        parts: list.count,
        mark: list.mark,
        numbers,
        sets: contents.sets,
        offset,
        length: between(offset, contents.end),
    }
}

// How many bytes stand between two positions.
fn between(begin: usize, end: usize) -> usize
    ensures { result ≡ end - begin }
{
    if end < begin { 0 } else { end - begin }
}

fn of_step(step: Option<Step>) -> NextSet
    ensures { result ≡ of_step step }
{
    match step {
        None => NextSet {
            given: 0,
            set: 0,
            next: 0,
            left: 0,
        },
        Some(taken) => NextSet {
            given: 1,
            set: taken.set,
            next: taken.cursor.next,
            left: taken.cursor.left,
        },
    }
}

fn of_entries_read(read: Result<EntriesRead, Refusal>) -> Sheet
    ensures { result ≡ of_entries_read read }
{
    match read {
        Ok(told) => Sheet {
            number: 0,
            value: told.length,
            kind: told.kind.number(),
            n: told.n,
        },
        Err(refusal) => Sheet {
            number: refusal.reason.number(),
            value: refusal.place,
            kind: 1,
            n: 0,
        },
    }
}
