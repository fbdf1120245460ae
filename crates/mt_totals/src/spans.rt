//! The spans of rows.

ghost use Rattle.mt_totals.specs.Totals.{HasSpans};

use mt_rows::RowList;

/// How many different spans rows have. It takes no memory.
pub(crate) fn span_count(rows: &RowList) -> usize
    ensures { HasSpans rows.now result }
{
    if rows.is_empty() {
        return 0;
    }
    let mut last = rows.span(0);
    let mut count = 1;
    for i in 1..rows.len() {
        let span = rows.span(i);
        if span != last {
            count += 1;
            last = span;
        }
    }
    count
}
