// The numbers of a diagnostic: its identity and its instance, found or new. After intern_aliasing_diagnostic of the Rust.
#![tactic(auto)]

ghost use Rattle.std.specs.Prelude.{◌≡◌};
ghost use Rattle.def_transfer.specs.Context as Context;
ghost use Rattle.lent_context.specs.Lent as Lent;
ghost use Rattle.lent_layout.specs.Context.{held};
ghost use Rattle.lent_world.specs.Promise.{seen, Kept, comes, Does, Unwritten};

use def_effects::{AliasingDiagnostic, Diagnostic};
use def_refusals::Refusal;
use lent_diagnostics::{find_identity, find_instance, identity_count};
use lent_layout::Numbered;
use lent_slices::set;
use lent_world::World;

// The identity of an equal message, or the next one; 10 refuses the 257th.
// Nothing is written: an identity stands in the records that have it.
pub fn identity_for(world: &World, d: Diagnostic) -> Result<u32, Refusal>
    ensures { Context.new_identity (Lent.find_identity (held world.now.context.now) d) (seen world.now)
        ≡ comes result (seen world.now) }
{
    if let Some(n) = find_identity(world.context, d) {
        return Ok(n);
    }
    let count = identity_count(world.context);
    if count >= 256 {
        return Err(Refusal::Diagnostics);
    }
    Ok(count as u32)
}

// The place of an equal record, or of a new one; 10 refuses the 257th.
pub fn instance_for(world: &mut World, x: Numbered) -> Result<u32, Refusal>
    ensures kept { Kept world.old world.new }
    ensures unwritten { Unwritten world.old world.new }
    ensures does { Does
        (Context.new_instance x.identity x.diagnostic
        (Lent.find_instance (held world.old.context.now) x.identity x.diagnostic))
        world.old world.new result }
{
    let context = &mut *world.context;
    if let Some(n) = find_instance(context, x) {
        return Ok(n);
    }
    let n = context.diagnostic_count;
    if n >= 256 {
        return Err(Refusal::Diagnostics);
    }
    set(context.diagnostics, n as usize, x);
    context.diagnostic_count = n + 1;
    Ok(n)
}

// Both numbers of a diagnostic, found or new; 10 refuses a 257th diagnostic or instance.
// This is intern_aliasing_diagnostic of the Rust.
pub fn intern_diagnostic(world: &mut World, d: Diagnostic) -> Result<AliasingDiagnostic, Refusal>
    ensures kept { Kept world.old world.new }
    ensures unwritten { Unwritten world.old world.new }
    ensures does { Does (Context.intern_diagnostic d) world.old world.new result }
{
    let identity = identity_for(world, d)?;
    let x = Numbered {
        identity,
        diagnostic: d,
    };
    let instance = instance_for(world, x)?;
    Ok(AliasingDiagnostic { identity, instance })
}
