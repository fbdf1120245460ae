//! Marks that say which items of a list are kept.

ghost use Rattle.std.specs.Prelude.{◌≡◌, ◌≤◌, length};
ghost use Rattle.mt_rows.specs.Marks.{kept};

/// Keeps the items whose mark is true, in order. Each item is put behind those that are kept, and the next one in its place where it is not: so nothing is guessed of the marks.
pub(crate) fn keep_marked<T: Copy + Drop>(items: &mut Vec<T>, marks: &[bool])
    requires { length items.old.items ≤ length marks.now }
    ensures { items.new.items ≡ kept marks.now items.old.items }
{
    let mut count = 0;
    for i in 0..items.len() {
        items[count] = items[i];
        if marks[i] {
            count += 1;
        }
    }
    items.truncate(count);
}
