// The candidates of a job image as records of the lent list.
#![tactic(auto)]

ghost use Rattle.std.specs.Prelude.{◌≡◌, ◌+◌};
ghost use Rattle.def_effects.specs.Effects.{CreateFunction};
ghost use Rattle.lent_effects.specs.Records.{put_effect};
ghost use Rattle.def_image.specs.Layout as Image;
ghost use Rattle.def_image.specs.Layout.{count_of};
ghost use Rattle.def_image.specs.Decode.{place_at, places_from};
ghost use Rattle.image_decode.specs.Decoded as Decoded;
ghost use Rattle.image_decode.specs.Decoded.{decoded_candidate, decoded_candidates, head_at};
ghost use Rattle.lent_layout.specs.Layout.{candidate_table};

use def_effects::{AliasingDiagnostic, Place};
use def_kinds::ValueKind;
use image_class2::{Section, cell, count_of, creates_function};
use image_decode::{place_at, put_run};
use lent_effect_write::put_effect;
use lent_effects::AliasingEffect;
use lent_layout::CANDIDATES;

// The diagnostic of candidate k.
fn diagnostic_at(im: &[u32], k: u32) -> AliasingDiagnostic
    ensures { result ≡ Decoded.diagnostic_at im.now k }
{
    let identity = cell(im, Section::Candidates, k, 3);
    AliasingDiagnostic {
        identity,
        instance: identity,
    }
}

// The first place of candidate k.
// "a destination is the second, any other the first"
fn first_at(im: &[u32], k: u32) -> Place
    ensures { result ≡ place_at im.now (Image.first_place im.now k) }
{
    place_at(im, cell(im, Section::Candidates, k, 1))
}

// The second place of candidate k.
// "a destination is the second, any other the first"
fn second_at(im: &[u32], k: u32) -> Place
    ensures { result ≡ place_at im.now (Image.second_place im.now k) }
{
    place_at(im, cell(im, Section::Candidates, k, 2))
}

// The effect of candidate k, without captures.
// A number that is no code reads as Render; such an image is refused before it is used.
#[tactic(auto, unfolding(image_decode::specs::Decoded::head_at, image_decode::specs::Decoded::heads_at))]
fn head_at(im: &[u32], k: u32) -> AliasingEffect
    ensures { result ≡ head_at im.now k }
{
    let place = first_at(im, k);
    let from = place;
    let into = second_at(im, k);
    let reason = cell(im, Section::Candidates, k, 4);
    match cell(im, Section::Candidates, k, 0) {
        0 => AliasingEffect::Freeze { place, reason },
        1 => AliasingEffect::Mutate {
            place,
            reason: cell(im, Section::Candidates, k, 3),
        },
        2 => AliasingEffect::MutateConditionally { place },
        3 => AliasingEffect::MutateTransitive { place },
        4 => AliasingEffect::MutateTransitiveConditionally { place },
        5 => AliasingEffect::Capture { from, into },
        6 => AliasingEffect::Alias { from, into },
        7 => AliasingEffect::MaybeAlias { from, into },
        8 => AliasingEffect::Assign { from, into },
        9 => AliasingEffect::Create {
            into,
            kind: ValueKind::of_code(cell(im, Section::Candidates, k, 3)),
            reason,
        },
        10 => AliasingEffect::CreateFrom { from, into },
        11 => AliasingEffect::ImmutableCapture { from, into },
        13 => AliasingEffect::CreateFunction {
            function: cell(im, Section::Candidates, k, 5),
            into,
        },
        14 => AliasingEffect::MutateFrozen {
            place,
            error: diagnostic_at(im, k),
        },
        15 => AliasingEffect::MutateGlobal {
            place,
            error: diagnostic_at(im, k),
        },
        16 => AliasingEffect::Impure {
            place,
            error: diagnostic_at(im, k),
        },
        _ => AliasingEffect::Render { place },
    }
}

// A CreateFunction is written as candidate k, with its captures.
// "first and count of captures (16)": they are copied from the image's places.
fn decode_creation(im: &[u32], k: u32, xs: &mut [u32])
    ensures { xs.new
        ≡ put_effect candidate_table xs.old k
        (CreateFunction
        (places_from im.now (Image.captures_first im.now k)
        (Image.captures_count im.now k)) (Image.function im.now k)
        (place_at im.now (Image.second_place im.now k))) }
{
    let i = k as usize;
    let first = cell(im, Section::Candidates, k, 6);
    let n = cell(im, Section::Candidates, k, 7);
    CANDIDATES.put_field(xs, i, 0, 13);
    CANDIDATES.put_place(xs, i, 6, 0, second_at(im, k));
    CANDIDATES.put_field(xs, i, 14, cell(im, Section::Candidates, k, 5));
    CANDIDATES.put_field(xs, i, 17, n);
    put_run(CANDIDATES, xs, i, 18, im, first, n);
}

// Candidate k is written as its record.
// Of all effects a CreateFunction alone has captures.
#[tactic(auto, using(image_decode::proofs::Laws::Candidate::candidate_plain, image_decode::proofs::Laws::Candidate::candidate_creation))]
fn decode_candidate(im: &[u32], k: u32, xs: &mut [u32])
    ensures { xs.new ≡ decoded_candidate im.now k xs.old }
{
    if creates_function(im, k) {
        decode_creation(im, k, xs);
    } else {
        put_effect(CANDIDATES, xs, k as usize, head_at(im, k), &[0]);
    }
}

// All candidates of the image are written as records.
// As many as the header says, one after the other.
#[tactic(auto, using(image_decode::proofs::Laws::Read::after_more, image_decode::proofs::Laws::Read::after_none), unfolding(image_decode::specs::Decoded::decoded_candidates))]
pub fn decode_candidates(im: &[u32], xs: &mut [u32])
    ensures { xs.new ≡ decoded_candidates im.now (count_of im.now Image.candidates) xs.old }
{
    for k in 0..count_of(im, Section::Candidates) {
        decode_candidate(im, k, xs);
    }
}
