//! Rows of a segment as rows of the corpus.

ghost use Rattle.std.specs.Prelude.{◌≡◌, ℕ, ◌+◌, ◌<◌, ◌≤◌, ◌++◌, true, length, map, nat_eq, slice_index, OnOk};
ghost use Rattle.std.specs.List.{All, AllPairs, Contains, position_or_len};
ghost use Rattle.mt_match_spec.specs.Labels.{no_labels};
ghost use Rattle.mt_corpus_laws.specs.Joined.{placed};

use mt_base::{NoMemory, Row, Span};
use mt_rows::{RowList, Rows};

/// Where a number stands among these, or how many they are. None of those before `from` is it.
fn place_among(numbers: &[u32], from: usize, number: u32) -> usize
    requires { from ≤ position_or_len (nat_eq number) numbers.now }
    ensures { result ≡ position_or_len (nat_eq number) numbers.now }
{
    for place in from..numbers.len() {
        if number == numbers[place] {
            return place;
        }
    }
    numbers.len()
}

/// The row in the text with another number.
fn row_in(row: &Row, text: u32) -> Row
    ensures { result ≡ record { span = record { text = text; begin = row.now.span.begin; end = row.now.span.end }; labels = row.now.labels } }
{
    let span = row.span();
    Row::new(Span::new(text, span.begin(), span.end()), *row.labels())
}

/// Adds rows of a segment one by one, whose live texts have these numbers, behind those of so many earlier texts.
fn push_placed(rows: &mut Rows, more: &RowList, live: &[u32], before: u32) -> Result<(), NoMemory>
    requires ascending { AllPairs (λ number later. number < later) live.now }
    requires listed { All (λ row. Contains live.now row.span.text) more.now }
    requires room { before + length live.now ≤ 4294967295 }
    ensures { OnOk result (rows.new ≡ rows.old ++ map (placed before live.now) more.now) }
{
    let mut place = 0;
    for i in 0..more.len() {
        let row = more.get(i);
        place = place_among(live, place, row.span().text());
        rows.push(row_in(&row, before + place as u32))?;
    }
    Ok(())
}

/// Adds rows of a segment of which none has a label, by their spans. For the rest see `push_placed`.
fn push_spans(rows: &mut Rows, more: &RowList, live: &[u32], before: u32) -> Result<(), NoMemory>
    requires ascending { AllPairs (λ number later. number < later) live.now }
    requires listed { All (λ row. Contains live.now row.span.text) more.now }
    requires room { before + length live.now ≤ 4294967295 }
    requires unlabelled { All (λ row. row.labels ≡ no_labels) more.now }
    ensures { OnOk result (rows.new ≡ rows.old ++ map (placed before live.now) more.now) }
{
    more.len();
    let spans = more.as_spans();
    let mut place = 0;
    for i in 0..spans.len() {
        let span = spans[i];
        place = place_among(live, place, span.text());
        rows.push_unlabelled(Span::new(before + place as u32, span.begin(), span.end()))?;
    }
    Ok(())
}

/// Whether these numbers are 0, 1, 2 and so on.
fn are_from_zero(numbers: &[u32]) -> bool
    ensures { result ≡ true → (k : ℕ) → k < length numbers.now → slice_index numbers.now k ≡ k }
{
    for place in 0..numbers.len() {
        if numbers[place] as usize != place {
            return false;
        }
    }
    true
}

/// Adds rows of a segment, whose live texts have these numbers, behind those of so many earlier texts. The first rows whose texts keep their numbers are taken as they are.
pub(crate) fn add_placed(
    rows: &mut Rows,
    more: RowList,
    live: &[u32],
    before: u32,
) -> Result<(), NoMemory>
    requires ascending { AllPairs (λ number later. number < later) live.now }
    requires listed { All (λ row. Contains live.now row.span.text) more }
    requires room { before + length live.now ≤ 4294967295 }
    ensures { OnOk result (rows.new ≡ rows.old ++ map (placed before live.now) more) }
{
    if before == 0 && rows.is_empty() && are_from_zero(live) {
        *rows = more.into_rows();
        return Ok(());
    }
    if more.are_unlabelled() {
        return push_spans(rows, &more, live, before);
    }
    push_placed(rows, &more, live, before)
}
