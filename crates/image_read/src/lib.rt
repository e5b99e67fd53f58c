// Reading a job image: the lent tables of the bytes of an image, or the class of refusal that they earn (document 01, 'The job image and its program').
// The tables are those that the call for an instruction is lent; what the image says beside them comes back by value.
#![tactic(auto)]

ghost use Rattle.std.specs.Prelude.{◌≡◌, length};
ghost use Rattle.def_image.specs.Layout as Image;
ghost use Rattle.def_image.specs.Layout.{count_of};
ghost use Rattle.image_words.specs.Loaded.{loaded};
ghost use Rattle.lent_copies.specs.Copies.{zeros};
ghost use Rattle.image_decode.specs.Decoded.{decoded_values, decoded_sets, decoded_context, decoded_candidates};
ghost use Rattle.image_job.specs.Reading.{said_of, tables, given, lent_wrong, read_words, read_image};
ghost use Rattle.lent_copies.specs.Cleared.{Cleared};
ghost use Rattle.lent_layout.specs.Context.{held, SameSlices, is_full, emptied};

use def_refusals::Refusal;
use image_class::words_refusal;
use image_decode::{decode_context, decode_sets, decode_values};
use image_decode_candidates::decode_candidates;
use image_job::{Job, job_of};
use image_words::{length_wrong, load_words};
use lent_layout::{
    CACHED, CANDIDATE_WORDS, CONTEXTS, Context, DIAGNOSTICS, EFFECT_ORDER, FUNCTIONS, IDENTIFIERS,
    INTERNED, KEY_ORDER, LINKS, UNUSED,
};

// The state of an image, in tables that may hold anything.
// They are cleared first: a number that the image does not name has no entry, an identifier no set.
fn fill_state(im: &[u32], values: &mut [u64], sets: &mut [u64])
    ensures { (values.new
        ≡ decoded_values im.now (count_of im.now Image.values) (zeros (length values.old)))
        × (sets.new ≡ decoded_sets im.now (count_of im.now Image.pairs) (zeros (length sets.old))) }
{
    values.fill(0);
    decode_values(im, values);
    sets.fill(0);
    decode_sets(im, sets);
}

// A context in which every number is zero.
pub fn empty_context(context: &mut Context)
    ensures kept { SameSlices context.old context.new }
    ensures does { held context.new ≡ emptied (held context.old) }
{
    context.options = 0;
    context.function_count = 0;
    context.effect_count = 0;
    context.key_count = 0;
    context.diagnostic_count = 0;
    context.identifiers.fill(0);
    context.functions.fill(0);
    context.contexts.fill(0);
    context.links.fill(0);
    context.keys.fill(0);
    context.key_order.fill(0);
    context.effects.fill(0);
    context.effect_order.fill(0);
    context.diagnostics.fill(UNUSED);
}

// The context of an image, in slices that may hold anything.
// "Interned effects, cached numbers, links and diagnostics start empty": it is cleared first.
fn fill_context(im: &[u32], context: &mut Context)
    ensures kept { SameSlices context.old context.new }
    ensures does { held context.new ≡ decoded_context im.now (emptied (held context.old)) }
{
    empty_context(context);
    decode_context(im, context);
}

// The candidates of an image as records, in a slice that may hold anything.
// Records after the last candidate are zero.
fn fill_candidates(im: &[u32], candidates: &mut [u32])
    ensures { candidates.new
        ≡ decoded_candidates im.now (count_of im.now Image.candidates)
        (zeros (length candidates.old)) }
{
    candidates.fill(0);
    decode_candidates(im, candidates);
}

// Words in hand: refused with the lowest class that they earn, all tables left as they were, or all tables filled.
// The length of `words` is the image's, so that nothing stands after its last word.
fn read_words(
    bytes: &[u8],
    words: &mut [u32],
    values: &mut [u64],
    sets: &mut [u64],
    context: &mut Context,
    candidates: &mut [u32],
) -> Result<Job, Refusal>
    ensures kept { SameSlices context.old context.new }
    ensures does { given (said_of result) values.new sets.new (held context.new) candidates.new
        ≡ read_words (loaded bytes.now (length words.old))
        (tables values.old sets.old (held context.old) candidates.old) }
{
    load_words(bytes, words);
    words_refusal(words)?;
    fill_state(words, values, sets);
    fill_context(words, context);
    fill_candidates(words, candidates);
    Ok(job_of(words))
}

// Whether each slice of a context has as many records as its table can have.
#[tactic(auto, unfolding(lent_layout::specs::Context::is_full))]
fn is_full(context: &Context) -> bool
    ensures { result ≡ is_full (held context.now) }
{
    context.identifiers.len() == (IDENTIFIERS.count * IDENTIFIERS.width) as usize
        && context.functions.len() == (FUNCTIONS.count * FUNCTIONS.width) as usize
        && context.contexts.len() == (CONTEXTS.count * CONTEXTS.width) as usize
        && context.links.len() == (LINKS.count * LINKS.width) as usize
        && context.keys.len() == (CACHED.count * CACHED.width) as usize
        && context.key_order.len() == (KEY_ORDER.count * KEY_ORDER.width) as usize
        && context.effects.len() == (INTERNED.count * INTERNED.width) as usize
        && context.effect_order.len() == (EFFECT_ORDER.count * EFFECT_ORDER.width) as usize
        && context.diagnostics.len() == DIAGNOSTICS
}

// Whether a lent list has the wrong length: scratch for the words of an image, and the tables at their full size.
// 16,384 words, 1,024 values, 512 rows of 16 words, a context with room for all, 64 records of 98 words.
#[tactic(auto, unfolding(image_job::specs::Reading::lent_wrong))]
fn lent_wrong(
    words: &[u32],
    values: &[u64],
    sets: &[u64],
    context: &Context,
    candidates: &[u32],
) -> bool
    ensures { result
        ≡ lent_wrong (length words.now) (length values.now) (length sets.now)
        (is_full (held context.now)) (length candidates.now) }
{
    words.len() != 16384
        || values.len() != 1024
        || sets.len() != 8192
        || !is_full(context)
        || candidates.len() != CANDIDATE_WORDS
}

// Reads a job image. Any bytes and any lists with any numbers in them may be lent.
// Refused with 1 to 5, "Order 1 to 5 over the whole input", it leaves the tables as they were; else they hold what the image says.
// `words` is scratch, and zero at the end. The call for an instruction takes the rows of `identifiers` identifiers and `candidates` records.
pub fn read_image(
    bytes: &[u8],
    words: &mut [u32],
    values: &mut [u64],
    sets: &mut [u64],
    context: &mut Context,
    candidates: &mut [u32],
) -> Result<Job, Refusal>
    ensures kept { SameSlices context.old context.new }
    ensures does { (given (said_of result) values.new sets.new (held context.new) candidates.new
        ≡ read_image bytes.now (length words.old)
        (tables values.old sets.old (held context.old) candidates.old))
        × Cleared words.old words.new }
{
    if lent_wrong(words, values, sets, context, candidates) || length_wrong(bytes) {
        words.fill(0);
        return Err(Refusal::Length);
    }
    let n = bytes.len() / 4;
    let job = read_words(bytes, &mut words[..n], values, sets, context, candidates);
    words.fill(0);
    job
}
