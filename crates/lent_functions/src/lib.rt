// The places of a function: those of its context, and those that it mutates inside.
#![tactic(auto)]

ghost use Rattle.std.specs.Prelude.{◌≡◌, ◌+◌, ◌*◌};
ghost use Rattle.lent_tables.specs.Words as Words;
ghost use Rattle.lent_tables.specs.Words.{place_in};
ghost use Rattle.lent_layout.specs.Layout as Layout;

use def_effects::Place;
use lent_layout::{CONTEXTS, Context, FUNCTIONS};

// Context place k of a function, from its own copy.
pub fn context_place(context: &Context, f: u32, k: u32) -> Place
    ensures { result ≡ place_in Layout.contexts context.now.contexts.now f (0 + k * 5) }
{
    CONTEXTS.place_in(context.contexts, f as usize, 0, k)
}

// The identifier of context place k of a function.
// The freeze walk asks for no more.
pub fn context_identifier(context: &Context, f: u32, k: u32) -> u32
    ensures { result ≡ Words.field Layout.contexts context.now.contexts.now f (k * 5) }
{
    CONTEXTS.field(context.contexts, f as usize, k as usize * 5)
}

// How many places a function mutates inside.
// At most 32, else the context is refused.
pub fn inside_count(context: &Context, f: u32) -> u32
    ensures { result ≡ Words.field Layout.functions context.now.functions.now f 2 }
{
    FUNCTIONS.field(context.functions, f as usize, 2)
}

// Place k of those that a function mutates inside.
// The early MutateFrozen goes through them.
pub fn inside_place(context: &Context, f: u32, k: u32) -> Place
    ensures { result ≡ place_in Layout.functions context.now.functions.now f (3 + k * 5) }
{
    FUNCTIONS.place_in(context.functions, f as usize, 3, k)
}
