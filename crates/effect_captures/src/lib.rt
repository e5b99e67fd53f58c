// What stands beside a CreateFunction: its captures in a slice of their own, and the kind of the new function.
#![tactic(auto)]

ghost use Rattle.std.specs.Prelude.{◌≡◌, length};
ghost use Rattle.lent_effects.specs.Records.{captures_of};
ghost use Rattle.effect_intern.specs.Interning.{chosen};
ghost use Rattle.effect_captures.specs.NewFunctions.{function_kind};
ghost use Rattle.lent_layout.specs.Layout.{one_run};
ghost use Rattle.lent_layout.specs.Context.{held};

use def_kinds::ValueKind;
use lent_effects::copy_captures;
use lent_layout::{Context, INTERNED, ONE_RUN, RUN_WORDS};

// The kind of a new function: Mutable if it captures what can be written, has a tracked side effect or a ref in its context, else Frozen.
pub fn function_kind(written: bool, tracked: bool, refs: bool) -> ValueKind
    ensures { result ≡ function_kind written tracked refs }
{
    if written || tracked || refs {
        return ValueKind::Mutable;
    }
    ValueKind::Frozen
}

// The captures beside an effect are copied to another slice of 81 words.
// A count, then sixteen places of five words.
#[tactic(auto, using(lent_effects::proofs::Laws::Capture::run_copied))]
fn copy_run(captures: &[u32], out: &mut [u32])
    ensures { length out.old ≡ one_run.width → captures_of out.new ≡ captures_of captures.now }
{
    ONE_RUN.copy_words(captures, 0, 0, RUN_WORDS as u32, out, 0);
}

// The captures of the effect that stands for another are copied to a slice of 81 words: those of its record where it was found, else those given.
// The table changes while they are gone through.
pub fn choose_captures(context: &Context, found: Option<u32>, captures: &[u32], out: &mut [u32])
    ensures { length out.old ≡ one_run.width
        → captures_of out.new ≡ chosen (held context.now) found (captures_of captures.now) }
{
    match found {
        Some(j) => copy_captures(INTERNED, context.effects, j as usize, out),
        None => copy_run(captures, out),
    }
}
