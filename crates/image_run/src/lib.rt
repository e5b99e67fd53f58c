// The job of the tables that an image filled: the call for its instruction, and what is shown of what came of it.
// What was lent is cleared here too.
#![tactic(auto)]

ghost use Rattle.std.specs.Prelude.{◌≡◌, ◌-◌, ◌≤◌, ◌++◌, Bool, length, take, Ok};
ghost use Rattle.call_outcome.specs.Calls.{outcome, told};
ghost use Rattle.def_effects.specs.declared.Session.{Session as ASession};
ghost use Rattle.image_job.specs.Reading.{said_of, tables};
ghost use Rattle.image_pieces.specs.Pieces.{answer_of};
ghost use Rattle.image_outcome.specs.Inferring.{Fits, job_call, memory_wrong, answered, keeps, left, settled};
ghost use Rattle.image_outcome.specs.Promise.{left_by};
ghost use Rattle.lent_copies.specs.Copies.{zeros};
ghost use Rattle.lent_copies.specs.Cleared.{Cleared};
ghost use Rattle.lent_layout.specs.Layout as Layout;
ghost use Rattle.lent_layout.specs.Context.{held, SameSlices, emptied};

use call_apply::apply_signature;
use call_outcome::Applied;
use def_refusals::Refusal;
use image_job::Job;
use image_pieces::{Shown, Told};
use image_read::empty_context;
use lent_copies::clear_scratch;
use lent_layout::{Context, EFFECT_WORDS, MOST_SAVED, OUTPUT_WORDS};

// ---- what is shown

// What is shown of what the call for an instruction answered.
// "OK: effects, walk entries."; "U: first undefined identifier."
fn shown_of(answer: Result<Applied, Refusal>) -> Result<Shown, Refusal>
    ensures { (session : ASession) (flag : Bool) → answer_of result ≡ answered (told session flag answer) }
{
    let applied = answer?;
    Ok(Shown {
        count: applied.count,
        entries: applied.entries,
        access: applied.session.access,
    })
}

// ---- the job

// The words from number m on become zero.
// The rows of identifiers that are not in the list.
fn clear_from(xs: &mut [u64], m: usize)
    ensures { m ≤ length xs.old → xs.new ≡ take m xs.old ++ zeros (length xs.old - m) }
{
    if m <= xs.len() {
        xs[m..].fill(0);
    }
}

// The job of the tables that were read: the call is lent the rows of the identifiers and the records of the candidates, and as much scratch as it asks for.
// Tables that hold an accepted image have room for it. The other rows are zero afterwards.
pub fn run_tables(
    values: &mut [u64],
    sets: &mut [u64],
    context: &mut Context,
    candidates: &[u32],
    job: Job,
    output: &mut [u32],
    scratch64: &mut [u64],
    scratch32: &mut [u32],
) -> Result<Shown, Refusal>
    ensures kept { SameSlices context.old context.new }
    ensures does { Fits sets.old candidates.now scratch64.old (said_of (Ok job))
        → length output.old ≡ Layout.output_words
        → length scratch32.old ≡ Layout.most_saved
        → left_by result values.new sets.new output.new
        ≡ keeps (length sets.old)
        (outcome
        (job_call (said_of (Ok job))
        (tables values.old sets.old (held context.old)
        candidates.now))) }
{
    let m = 16 * job.identifiers as usize;
    let n = EFFECT_WORDS * job.candidates as usize;
    let e = 1024 + m;
    if m > sets.len() || n > candidates.len() || e > scratch64.len() {
        return Err(Refusal::Length);
    }
    let applied = apply_signature(
        values,
        &mut sets[..m],
        false,
        context,
        job.session,
        &candidates[..n],
        job.lvalue,
        job.own,
        output,
        &mut scratch64[..e],
        scratch32,
    );
    clear_from(sets, m);
    shown_of(applied)
}

// ---- memory

// Whether the memory for the call has the wrong length.
// The tables are tested where the image is read.
#[tactic(auto, unfolding(image_outcome::specs::Inferring::memory_wrong))]
pub fn memory_wrong(output: &[u32], scratch64: &[u64], scratch32: &[u32]) -> bool
    ensures { result
        ≡ memory_wrong (length output.now) (length scratch64.now) (length scratch32.now) }
{
    output.len() != OUTPUT_WORDS || scratch64.len() != 9216 || scratch32.len() != MOST_SAVED
}

// What was read of an image becomes zero.
// The state stays: what is shown of it is read there.
fn clear_read(words: &mut [u32], context: &mut Context, candidates: &mut [u32])
    ensures kept { SameSlices context.old context.new }
    ensures words { Cleared words.old words.new }
    ensures context { held context.new ≡ emptied (held context.old) }
    ensures candidates { Cleared candidates.old candidates.new }
{
    words.fill(0);
    empty_context(context);
    candidates.fill(0);
}

// All that nothing is shown of becomes zero.
// "Scratch is zero after each call."
pub fn clear_work(
    words: &mut [u32],
    context: &mut Context,
    candidates: &mut [u32],
    scratch64: &mut [u64],
    scratch32: &mut [u32],
)
    ensures kept { SameSlices context.old context.new }
    ensures words { Cleared words.old words.new }
    ensures context { held context.new ≡ emptied (held context.old) }
    ensures candidates { Cleared candidates.old candidates.new }
    ensures scratch64 { Cleared scratch64.old scratch64.new }
    ensures scratch32 { Cleared scratch32.old scratch32.new }
{
    clear_read(words, context, candidates);
    clear_scratch(scratch64, scratch32);
}

// After a refusal the rest becomes zero too.
// "With a number come zero effects and count."
pub fn settle<T: Told>(shown: T, values: &mut [u64], sets: &mut [u64], output: &mut [u32])
    ensures { left (T.answer shown) values.new sets.new output.new
        ≡ settled (left (T.answer shown) values.old sets.old output.old) }
{
    match shown.told() {
        Ok(_) => {}
        Err(n) => {
            if n != 0 {
                values.fill(0);
                sets.fill(0);
                output.fill(0);
            }
        }
    }
}
