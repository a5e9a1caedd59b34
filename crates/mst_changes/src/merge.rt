ghost use Rattle.std.specs.Prelude.{◌≡◌, ◌++◌, List, Option, IfOk};
ghost use Rattle.std.specs.List.{flat_map};
ghost use Rattle.mst_rows.specs.Rows.{Row};
ghost use Rattle.mst_changes.specs.declared.subject.Subject.{Subject as SubjectOf};
ghost use Rattle.mst_changes.specs.declared.value.VectorOrRole.{VectorOrRole as VectorOrRoleOf};
ghost use Rattle.mst_changes.specs.Kept.{entries_at};
ghost use Rattle.mst_changes.specs.Merging.{Rise, first_subject as subject_first, value_first, entries_past};
ghost use Rattle.mst_changes.specs.ChangesText.{rows_at};
ghost use Rattle.mst_changes.specs.PortChanges.{counted};

use crate::change::put_change;
use crate::subject::{Entry, Subject, subject_order};
use crate::value::VectorOrRole;
use mst_rows::Rows;
use std::alloc::AllocError;
use std::cmp::Ordering;

/// The first subject of two lists of entries.
fn first_subject(olds: &[Entry], news: &[Entry]) -> Option<Subject>
    ensures { result ≡ subject_first olds.now news.now }
{
    match (olds, news) {
        ([], []) => None,
        ([old, ..], []) => Some(old.subject()),
        ([], [new, ..]) => Some(new.subject()),
        ([old, ..], [new, ..]) => match subject_order(&old.subject(), &new.subject()) {
            Ordering::Greater => Some(new.subject()),
            _ => Some(old.subject()),
        },
    }
}

/// What a list of entries has of a subject, if its first entry is there, and the entries past the subject.
fn split<'a>(subject: &Subject, entries: &'a [Entry]) -> (Option<VectorOrRole>, &'a [Entry])
    ensures value { result.0 ≡ value_first subject.now entries.now }
    ensures rest { result.1.now ≡ entries_past subject.now entries.now }
{
    match entries {
        [first, rest @ ..] if subject_order(&first.subject(), subject) == Ordering::Equal => {
            (Some(first.value), rest)
        }
        _ => (None, entries),
    }
}

/// Puts the rows of the subjects at which two lists of entries differ, in the order of subjects, and answers how many they
/// are, to the greatest number of 64 bits. It takes the entries of one subject after another from both lists.
pub(crate) fn put_merged<R: Rows>(
    olds: &[Entry],
    news: &[Entry],
    out: &mut R,
) -> Result<u64, AllocError>
    ensures { (subjects : List SubjectOf) (x y : SubjectOf → Option VectorOrRoleOf) → Rise subjects → olds.now ≡ entries_at x subjects → news.now ≡ entries_at y subjects
        → (first : R) (rows : List Row) → R.grew first out.old rows
        → IfOk result (λ count. (count ≡ counted (rows_at x y subjects)) × R.grew first out.new (rows ++ rows_at x y subjects)) }
{
    let mut count = 0u64;
    let mut olds_left = olds;
    let mut news_left = news;
    while let Some(subject) = first_subject(olds_left, news_left) {
        let (old, olds_past) = split(&subject, olds_left);
        let (new, news_past) = split(&subject, news_left);
        let put = put_change(&subject, &old, &new, out)?;
        count = count.saturating_add(put);
        olds_left = olds_past;
        news_left = news_past;
    }
    Ok(count)
}
