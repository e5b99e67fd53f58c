// Total accessors of lent slices: a read past the end answers what the caller gives, a write past the end does nothing.
// Functions over lent tables then need no `requires` for their indices.
#![tactic(auto)]

ghost use Rattle.std.specs.Prelude.{◌≡◌, get_or, set};

// Element i, or `other` past the end.
// The caller need not know that i lies inside.
pub fn get_or<T: Copy>(xs: &[T], i: usize, other: T) -> T
    ensures { result ≡ get_or xs.now i other }
{
    xs.get(i).copied().unwrap_or(other)
}

// Element i becomes v; past the end nothing changes.
// The caller need not know that i lies inside.
pub fn set<T: Copy>(xs: &mut [T], i: usize, v: T)
    ensures { xs.new ≡ set xs.old i v }
{
    if i < xs.len() {
        xs[i] = v;
    }
}
