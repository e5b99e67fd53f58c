// The number of a key: the one that is cached, or a fresh one.
#![tactic(auto)]

ghost use Rattle.def_transfer.specs.Context as Context;
ghost use Rattle.lent_keys.specs.KeyRecords.{whole};
ghost use Rattle.lent_world.specs.Promise.{Kept, Does};

use def_refusals::Refusal;
use lent_keys::WholeKey;
use lent_links::put_key;
use lent_search::{find_key, number_at, place_of};
use lent_world::World;

// The number cached under a key, or a fresh one, which moves the session's next number; 9 refuses a fresh number at next 512.
// This is get_or_create_value_id of the Rust.
pub fn get_or_create_value_id(world: &mut World, key: WholeKey) -> Result<u32, Refusal>
    ensures kept { Kept world.old world.new }
    ensures does { Does (Context.get_or_create_value_id (whole key.entry)) world.old world.new result }
{
    let context = &mut *world.context;
    let spot = find_key(context, key);
    if let Some(number) = number_at(context, spot) {
        return Ok(number);
    }
    let next = world.run.session.next;
    if next >= 512 {
        return Err(Refusal::Numbers);
    }
    put_key(world.context, place_of(spot), next, key);
    world.run.session.next = next + 1;
    Ok(next)
}
