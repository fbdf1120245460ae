//! Instances as small numbers.

ghost use Rattle.mt_count_spec.specs.Counts.{EachOnce};
ghost use Rattle.mt_instances.specs.Members.{HaveSameItems};

/// An instance of a text by numbers: that of its final name, and the places where it stands, one or two.
pub(crate) use mt_counts::Note as Entry;

/// Keeps one of equal entries, in order. It takes no memory.
pub(crate) fn keep_distinct(entries: &mut Vec<Entry>)
    ensures once { EachOnce entries.new.items }
    ensures same { HaveSameItems entries.old.items entries.new.items }
{
    entries.sort_unstable();
    entries.dedup();
}
