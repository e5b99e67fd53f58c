// What a lent context says of functions, identifiers and options, and the context places made Read.
// Each function is total: any numbers are read and written, and the contract says by one equation what the definition makes of them.
#![tactic(auto)]

ghost use Rattle.std.specs.Prelude.{◌≡◌, ◌+◌, ◌*◌};
ghost use Rattle.lent_tables.specs.Words as Words;
ghost use Rattle.lent_layout.specs.Layout as Layout;
ghost use Rattle.lent_layout.specs.Context.{held, SameSlices};
ghost use Rattle.lent_context.specs.Lent as Lent;
ghost use Rattle.lent_context.specs.Lent.{read_place, read_places};

use def_effects::Span;
use lent_layout::{CONTEXTS, Context, FUNCTIONS, IDENTIFIERS};

// ---- functions

// How many context places a function has.
// At most sixteen, else the context is refused.
pub fn context_count(context: &Context, f: u32) -> u32
    ensures { result ≡ Words.field Layout.functions context.now.functions.now f 1 }
{
    FUNCTIONS.field(context.functions, f as usize, 1)
}

// Whether a function has a tracked side effect.
// Bit 1 of its flags.
pub fn has_tracked_side_effect(context: &Context, f: u32) -> bool
    ensures { result ≡ Lent.has_tracked_side_effect (held context.now) f }
{
    FUNCTIONS.field(context.functions, f as usize, 0) / 2 % 2 == 1
}

// Context place k of a function becomes Read if it is a Capture of identifier i.
fn read_place(contexts: &mut [u32], f: u32, i: u32, k: u32)
    ensures { contexts.new ≡ read_place f i k contexts.old }
{
    let at = f as usize;
    let w = k as usize * 5;
    if CONTEXTS.field(contexts, at, w) != i {
        return;
    }
    if CONTEXTS.field(contexts, at, w + 1) != 3 {
        return;
    }
    CONTEXTS.put_field(contexts, at, w + 1, 2);
}

// So the first n context places of a function.
fn read_places(contexts: &mut [u32], f: u32, i: u32, n: u32)
    ensures { contexts.new ≡ read_places f i 0 n contexts.old }
{
    for k in 0..n {
        read_place(contexts, f, i, k);
    }
}

// The Capture context places of an identifier become Read, in a function's own copy.
// "Turns a Capture context place of its function into Read": each place of that identifier.
pub fn make_read(context: &mut Context, f: u32, i: u32)
    ensures kept { SameSlices context.old context.new }
    ensures does { held context.new ≡ Lent.make_read (held context.old) f i }
{
    let n = context_count(context, f);
    read_places(context.contexts, f, i, n);
}

// ---- identifiers and options

// Whether an identifier is a ref or a ref's value.
// Bit 0 of its flags: the answer of is_ref_or_ref_value.
pub fn is_ref(context: &Context, i: u32) -> bool
    ensures { result ≡ Lent.is_ref (held context.now) i }
{
    IDENTIFIERS.field(context.identifiers, i as usize, 0) % 2 == 1
}

// Whether an identifier is hoisted.
// Bit 1 of its flags: the Rust's map of hoisted context declarations.
pub fn is_hoisted(context: &Context, i: u32) -> bool
    ensures { result ≡ Lent.is_hoisted (held context.now) i }
{
    IDENTIFIERS.field(context.identifiers, i as usize, 0) / 2 % 2 == 1
}

// The access span of an identifier.
pub fn access_span(context: &Context, i: u32) -> Span
    ensures { result ≡ Lent.access_span (held context.now) i }
{
    let start = IDENTIFIERS.field(context.identifiers, i as usize, 2);
    let end = IDENTIFIERS.field(context.identifiers, i as usize, 3);
    Span { start, end }
}

// The name number of an identifier.
// 0 is no name.
pub fn name_of(context: &Context, i: u32) -> u32
    ensures { result ≡ Lent.name_of (held context.now) i }
{
    IDENTIFIERS.field(context.identifiers, i as usize, 1)
}

// Whether a freeze is transitive.
// "(either option on)".
pub fn is_transitive(context: &Context) -> bool
    ensures { result ≡ Lent.is_transitive (held context.now) }
{
    context.options != 0
}
