// The listing of a job, piece by piece, as bytes in a small lent buffer (document 01, 'The job image and its program').
// A host calls `put_piece` with each number below `piece_count`, and writes out what stands in the buffer after each call.
#![tactic(auto)]

ghost use Rattle.std.specs.Prelude.{◌≡◌, Ok};
ghost use Rattle.lent_values.specs.Cells.{value_at};
ghost use Rattle.def_image.specs.Listing.{value_line};
ghost use Rattle.image_text.specs.Texts.{cursor};
ghost use Rattle.image_pieces.specs.Pieces.{answer_of, piece_count, effect_line, listed_piece, refused_piece, piece, WritesInto, WritesLines, puts};

use image_lines::{
    put_effect_line, put_head, put_refusal, put_set_line, put_undefined, put_value_line,
};
use image_pieces::{PIECE_BYTES, Shown, Told};
use image_text::Text;

// No effect, no walk entry and no identifier.
const NOTHING: Shown = Shown {
    count: 0,
    entries: 0,
    access: 0,
};

// The lines of the effects from one number on, up to another.
// Of 70 or fewer a piece's buffer holds the lines.
fn put_effects(buffer: &mut [u8], output: &[u32], count: u32, from: u32, to: u32) -> usize
    ensures { WritesLines 70 (effect_line output.now count) from to buffer.old buffer.new result }
{
    let mut text = Text { buffer, at: 0 };
    for k in from..to {
        put_effect_line(&mut text, output, count, k);
    }
    text.at
}

// The lines of the values from one number on, up to another.
// Of 93 or fewer a piece's buffer holds the lines.
fn put_values(buffer: &mut [u8], values: &[u64], from: u32, to: u32) -> usize
    ensures { WritesLines 93 (λ v. value_line v (value_at values.now v)) from to buffer.old buffer.new result }
{
    let mut text = Text { buffer, at: 0 };
    for v in from..to {
        put_value_line(&mut text, values, v);
    }
    text.at
}

// Piece k of a refusal: its line, and no more.
// "A refusal prints only `REFUSED n`."
fn put_refused_piece(buffer: &mut [u8], n: u32, k: u32) -> usize
    ensures { WritesInto buffer.old buffer.new result (refused_piece n k) }
{
    if k == 0 { put_refusal(buffer, n) } else { 0 }
}

// Piece k of a listing: the first line, a run of effects or of values, an identifier, or the last line.
fn put_listed_piece(
    shown: Shown,
    k: u32,
    values: &[u64],
    sets: &[u64],
    output: &[u32],
    buffer: &mut [u8],
) -> usize
    ensures { WritesInto buffer.old buffer.new result
        (listed_piece (answer_of (Ok shown)) values.now sets.now output.now k) }
{
    match k {
        0 => put_head(buffer, shown.count, shown.entries),
        1..=16 => {
            let from = 70 * (k - 1);
            put_effects(buffer, output, shown.count, from, from + 70)
        }
        17..=27 => {
            let from = 93 * (k - 17) + 1;
            put_values(buffer, values, from, from + 93)
        }
        28..=539 => put_set_line(buffer, sets, k - 28),
        540 => put_undefined(buffer, shown.access),
        _ => 0,
    }
}

// How many pieces a listing has.
// Past them every piece is empty.
pub fn piece_count() -> u32
    ensures { result ≡ piece_count }
{
    541
}

// Writes piece k of what `image_infer::infer_image` answered and left, from the first byte of the buffer on, and answers how long it is.
// Any lists with any numbers in them may be lent. A buffer of `image_pieces::PIECE_BYTES` bytes suffices for each piece; a shorter one is left as it was.
#[tactic(auto, using(image_pieces::proofs::Laws::Ways::puts_short))]
pub fn put_piece<T: Told>(
    shown: T,
    k: u32,
    values: &[u64],
    sets: &[u64],
    output: &[u32],
    buffer: &mut [u8],
) -> usize
    ensures { cursor result buffer.new ≡ puts (piece (T.answer shown) values.now sets.now output.now k) buffer.old }
{
    if buffer.len() < PIECE_BYTES {
        return 0;
    }
    match shown.told() {
        Ok(shown) => put_listed_piece(shown, k, values, sets, output, buffer),
        Err(n) => {
            // 0 is the number of no refusal.
            if n == 0 {
                put_listed_piece(NOTHING, k, values, sets, output, buffer)
            } else {
                put_refused_piece(buffer, n, k)
            }
        }
    }
}
