// The operations of a state over its lent tables: `values`, a word for each value number, and `sets`, a row for each identifier.
// Each is total: it reads and writes any numbers, and says by one equation what the definition makes of them. After InferenceState of the Rust.
#![tactic(auto)]

ghost use Rattle.std.specs.Prelude.{◌≡◌};
ghost use Rattle.def_transfer.specs.State.{kind_of};
ghost use Rattle.lent_values.specs.Cells.{value_at};
ghost use Rattle.lent_sets.specs.Rows.{set_at};
ghost use Rattle.lent_work.specs.Access.{access_of};
ghost use Rattle.state_ops.specs.Use.{after_use};

use def_effects::{Session, Span};
use def_kinds::AbstractValue;
use lent_members::members;
use lent_sets::is_defined;
use lent_values::{join_entries, or_default, value_at};

// The kind of a place: the join of the entries of its values, Mutable {Other} where there is none.
// It looks at the words of the row and the entries of its members, and records no access.
pub fn kind_of(values: &[u64], sets: &[u64], i: u32) -> AbstractValue
    ensures { result ≡ kind_of (value_at values.now) (set_at sets.now i) }
{
    let entry = members(sets, i).fold(None, |entry, m| {
        join_entries(entry, value_at(values, m as usize))
    });
    or_default(entry)
}

// 1 + i, which is how a session holds an identifier.
// There are 512 of them; a larger number is none.
fn access_of(i: u32) -> u32
    ensures { result ≡ access_of i }
{
    if i < 512 { i + 1 } else { 0 }
}

// The session after a place was used: the first use of an undefined place is recorded, with its span.
// This is what kind_with_span does beside its answer.
pub fn after_use(sets: &[u64], session: Session, i: u32, span: Span) -> Session
    ensures { result ≡ after_use sets.now session i span }
{
    if is_defined(sets, i) {
        return session;
    }
    if session.access != 0 {
        return session;
    }
    let access = access_of(i);
    Session {
        next: session.next,
        access,
        span,
        entries: session.entries,
    }
}
