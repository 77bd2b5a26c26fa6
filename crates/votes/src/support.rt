ghost use Rattle.std.specs.Prelude.{◌≡◌, filter};
ghost use Rattle.std.specs.List.{slice_get};
ghost use Rattle.masks.specs.Lists.{every};
ghost use Rattle.kinds.specs.Models.{same_value};
ghost use Rattle.votes.specs.Entries.{values, supports, support};
ghost use Rattle.votes.specs.Meanings.{enough};

use kinds::Kind;

// Whether the entry is a value, and the same as `x`.
fn is_for<K: Kind>(e: &Option<K>, x: &K) -> bool
    ensures { result ≡ supports K.Kind.model x.now e.now }
{
    e.is_some_and(|y| y.same(x))
}

/// How many of the entries support `x`.
pub fn support_of<K: Kind>(entries: &[Option<K>], x: &K) -> usize
    ensures { result ≡ support K.Kind.model x.now entries.now }
{
    entries.iter().filter(|e| is_for(e, x)).count()
}

// Whether at least `least` entries support `x`.
// The entries and the least are passed on as they are: a struct for the two would be made once in each vote, and taken apart
// in each of these three functions.
fn has_enough<K: Kind>(entries: &[Option<K>], least: usize, x: &K) -> bool
    ensures { result ≡ enough K.Kind.model entries.now least x.now }
{
    support_of(entries, x) >= least
}

// The first value that has at least `least` entries.
pub(crate) fn first_with<K: Kind>(entries: &[Option<K>], least: usize) -> Option<K>
    ensures { result ≡ slice_get (filter (enough K.Kind.model entries.now least) (values entries.now)) 0 }
{
    entries
        .iter()
        .flatten()
        .find(|x| has_enough(entries, least, x))
        .copied()
}

// Whether every value that has at least `least` entries is `x`.
pub(crate) fn is_only<K: Kind>(entries: &[Option<K>], least: usize, x: &K) -> bool
    ensures { result ≡ every (same_value K.Kind.model x.now) (filter (enough K.Kind.model entries.now least) (values entries.now)) }
{
    entries
        .iter()
        .flatten()
        .all(|y| x.same(y) || !has_enough(entries, least, y))
}
