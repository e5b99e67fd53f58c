// From the bytes of a job image to what is shown of it: all that the program `infer` does between reading and listing (document 01, 'The job image and its program').
// A host that wants more than a listing calls `image_read::read_image` and `call_apply::apply_signature` itself.
#![tactic(auto)]

ghost use Rattle.std.specs.Prelude.{◌≡◌};
ghost use Rattle.lent_copies.specs.Cleared.{Cleared};
ghost use Rattle.image_outcome.specs.Inferring.{settled, pieces_of};
ghost use Rattle.image_outcome.specs.Promise.{left_by, leaves_for, written_for, MeansPlain};
ghost use Rattle.lent_layout.specs.Context.{held, SameSlices, emptied};

use def_refusals::Refusal;
use image_pieces::Shown;
use image_read::read_image;
use image_run::{clear_work, memory_wrong, run_tables, settle};
use lent_layout::Context;

// The image is read and its job runs; what is shown of what comes of it, or the number with which it is refused.
// After a refusal the caller clears what stands in the tables.
fn run_image(
    bytes: &[u8],
    words: &mut [u32],
    values: &mut [u64],
    sets: &mut [u64],
    context: &mut Context,
    candidates: &mut [u32],
    output: &mut [u32],
    scratch64: &mut [u64],
    scratch32: &mut [u32],
) -> Result<Shown, Refusal>
    ensures kept { SameSlices context.old context.new }
    ensures does { settled (left_by result values.new sets.new output.new)
        ≡ leaves_for bytes.now words.old values.old sets.old (held context.old) candidates.old output.old scratch64.old
        scratch32.old }
{
    if memory_wrong(output, scratch64, scratch32) {
        return Err(Refusal::Length);
    }
    let job = read_image(bytes, words, values, sets, context, candidates)?;
    run_tables(
        values, sets, context, candidates, job, output, scratch64, scratch32,
    )
}

// From the bytes of an image to what is shown of it: the answer, and the values, sets and output list that it leaves.
// `image_listing::put_piece` reads these; its pieces, one after the other, are the listing that the definition infers of the bytes.
// Any bytes and any lists with any numbers in them may be lent. All else is scratch, "zero after each call"; after a refusal everything is zero.
pub fn infer_image(
    bytes: &[u8],
    words: &mut [u32],
    values: &mut [u64],
    sets: &mut [u64],
    context: &mut Context,
    candidates: &mut [u32],
    output: &mut [u32],
    scratch64: &mut [u64],
    scratch32: &mut [u32],
) -> Result<Shown, Refusal>
    ensures kept { SameSlices context.old context.new }
    ensures does { (left_by result values.new sets.new output.new
        ≡ leaves_for bytes.now words.old values.old sets.old (held context.old) candidates.old output.old scratch64.old
        scratch32.old)
        × (pieces_of (left_by result values.new sets.new output.new)
        ≡ written_for bytes.now words.old values.old sets.old (held context.old) candidates.old output.old scratch64.old
        scratch32.old)
        × Cleared words.old words.new
        × (held context.new ≡ emptied (held context.old))
        × Cleared candidates.old candidates.new
        × Cleared scratch64.old scratch64.new
        × Cleared scratch32.old scratch32.new
        × MeansPlain bytes.now }
{
    let shown = run_image(
        bytes, words, values, sets, context, candidates, output, scratch64, scratch32,
    );
    clear_work(words, context, candidates, scratch64, scratch32);
    settle(shown, values, sets, output);
    shown
}
