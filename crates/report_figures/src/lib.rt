// The text of a report, by the figures in it (01, "The report program").
#![tactic(auto)]

ghost use Rattle.std.specs.Prelude.{◌≡◌, ◌+◌, ◌*◌, ◌≤◌, length};
ghost use Rattle.answer.specs.Outcome.{outcome};
ghost use Rattle.answer.specs.Placed.{placed};
ghost use Rattle.record_numbers.specs.Numbering.{most_parts};
ghost use Rattle.text.specs.Texts.{lines};
ghost use Rattle.report_figures.specs.FiguresText.{cell_line, count_line, lines_by, text_by};

use record_parts::PartList;

// Puts the text of figures in front of a lent buffer: so many cells of each are printed as the list has parts. No text is longer than 4,096
// bytes.
pub fn put_figures(
    text: &mut [u8],
    list: PartList,
    sets: usize,
    signature: &[i64],
    domination: &[i64],
    importance: &[u64],
) -> usize
    ensures text_after { outcome result text.new ≡ placed text.old 0 (text_by list sets signature.now domination.now importance.now) }
    ensures importance_len_bound { length (text_by list sets signature.now domination.now importance.now) ≤ 4096 }
{
    if PartList::MOST_PARTS < list.count {
        return 0;
    }
    let mut own = [0u8; 4096];
    let end = put_lines(&mut own, list, sets, signature, domination, importance);
    text::put(text, 0, &own[..end])
}

// The first line and the three blocks of lines, in front.
fn put_lines(
    text: &mut [u8],
    list: PartList,
    sets: usize,
    signature: &[i64],
    domination: &[i64],
    importance: &[u64],
) -> usize
    requires count_le_most_parts { list.count ≤ most_parts }
    requires in_bounds { 4096 ≤ length text.old }
    ensures text_after { outcome result text.new ≡ placed text.old 0 (lines_by list sets signature.now domination.now importance.now) }
    ensures importance_len_bound { length (lines_by list sets signature.now domination.now importance.now) ≤ 4096 }
{
    let n = list.count;
    let orders = report_lines::put_first_line(text, 0, n, sets, list.mark);
    let dominations = put_cells(text, orders, b"order", n, signature);
    let parts = put_cells(text, dominations, b"dom", n, domination);
    put_counts(text, parts, list, importance)
}

// The lines of a vector's first cells, each with its number from 1 on. There is 0 behind the last cell.
fn put_cells<const N: usize>(
    text: &mut [u8],
    at: usize,
    word: &[u8; N],
    count: usize,
    cells: &[i64],
) -> usize
    requires word_len_bound { length word.now ≤ 5 }
    requires count_le_most_parts { count ≤ most_parts }
    requires count_in_bounds { at + 64 * count ≤ length text.old }
    ensures text_after { outcome result text.new ≡ placed text.old at (lines (cell_line word.now cells.now) count) }
    ensures count_len_bound { length (lines (cell_line word.now cells.now) count) ≤ 64 * count }
{
    let mut next = at;
    for i in 0..count {
        let worded = text::put(text, next, word);
        let figure = cells.get(i).copied().unwrap_or(0);
        next = report_lines::put_figure(text, worded, (i + 1) as u64, figure);
    }
    next
}

// The lines of the parts, by position.
fn put_counts(text: &mut [u8], at: usize, list: PartList, counts: &[u64]) -> usize
    requires count_le_most_parts { list.count ≤ most_parts }
    requires count_in_bounds { at + 64 * list.count ≤ length text.old }
    ensures text_after { outcome result text.new ≡ placed text.old at (lines (count_line list counts.now) list.count) }
    ensures count_len_bound { length (lines (count_line list counts.now) list.count) ≤ 64 * list.count }
{
    let mut next = at;
    for (i, &number) in list.numbers[..list.count].iter().enumerate() {
        let worded = text::put(text, next, b"part");
        let count = counts.get(i).copied().unwrap_or(0);
        next = report_lines::put_count(text, worded, number, count);
    }
    next
}
