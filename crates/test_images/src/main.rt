// Replays recorded images through `image_infer::infer_image`, and compares each listing, piece by piece, with the recorded one, byte for byte.
// The lists are docs/VECTORS.md's, part 4; their names are the arguments. Prints of each list the first records that failed, then how many were replayed.
#![tactic(auto)]

ghost use Rattle.std.specs.Prelude.{◌≤◌, ◌<◌, IfSome, length};

use def_refusals::Refusal;
use image_pieces::Shown;
use lent_layout::{
    CACHED, CANDIDATE_WORDS, CONTEXTS, Context, DIAGNOSTICS, EFFECT_ORDER, FUNCTIONS, IDENTIFIERS,
    INTERNED, KEY_ORDER, LINKS, MOST_SAVED, Numbered, OUTPUT_WORDS, UNUSED,
};
use std::env::FillError;
use std::io::Read;
use std::rt::{Env, Runtime};
use std::{fs, io};
use test_bytes::argument;

// All memory that an image needs, as in the program `infer`, and a piece of the recorded listing. It serves every record, with whatever the record before left in it.
// An image of a list may be longer than the 65,536 bytes that are accepted: it has to be refused.
#[derive(Drop)]
struct Memory {
    image: [u8; 65544],
    words: [u32; 16384],
    values: [u64; 1024],
    sets: [u64; 8192],
    identifiers: [u32; (IDENTIFIERS.count * IDENTIFIERS.width) as usize],
    functions: [u32; (FUNCTIONS.count * FUNCTIONS.width) as usize],
    contexts: [u32; (CONTEXTS.count * CONTEXTS.width) as usize],
    links: [u32; (LINKS.count * LINKS.width) as usize],
    keys: [u32; (CACHED.count * CACHED.width) as usize],
    key_order: [u32; (KEY_ORDER.count * KEY_ORDER.width) as usize],
    effects: [u32; (INTERNED.count * INTERNED.width) as usize],
    effect_order: [u32; (EFFECT_ORDER.count * EFFECT_ORDER.width) as usize],
    diagnostics: [Numbered; DIAGNOSTICS],
    candidates: [u32; CANDIDATE_WORDS],
    output: [u32; OUTPUT_WORDS],
    scratch64: [u64; 9216],
    scratch32: [u32; MOST_SAVED],
    buffer: [u8; image_pieces::PIECE_BYTES],
    recorded: [u8; image_pieces::PIECE_BYTES],
}

// How a listing goes: whether it is the recorded one as far as it was compared, and how many bytes of the recorded one are left.
#[derive(Clone, Copy)]
struct Compared {
    same: bool,
    left: usize,
}

// ---- reading a list; None where the file ends or cannot be read

// The next word of a file.
fn read_word(file: &mut impl Read) -> Option<u32> {
    let mut bytes = [0u8; 4];
    file.read_exact(&mut bytes).ok()?;
    Some(u32::from_le_bytes(bytes))
}

// The next byte of a file.
fn read_byte(file: &mut impl Read) -> Option<u8> {
    let mut bytes = [0u8; 1];
    file.read_exact(&mut bytes).ok()?;
    Some(bytes[0])
}

// The head of the next text: the count of its words, and its length, which has to fill as many words but one.
// Any other count is refused, since the records after it would be read from a wrong place.
fn read_length(file: &mut impl Read) -> Option<usize>
    ensures { IfSome result (λ n. n < 4294967296) }
{
    let count = read_word(file)?;
    let length = read_word(file)?;
    if count == length.div_ceil(4) + 1 {
        Some(length as usize)
    } else {
        None
    }
}

// Reads an image into a list, which it has to fit, and answers its length. Its last word is filled up with zeros.
fn read_image(file: &mut impl Read, image: &mut [u8]) -> Option<usize>
    ensures { IfSome result (λ n. n ≤ length image.new) }
{
    let length = read_length(file)?;
    let end = length.div_ceil(4) * 4;
    if end > image.len() {
        return None;
    }
    file.read_exact(&mut image[..end]).ok()?;
    if image[length..end].iter().all(|b| *b == 0) {
        Some(length)
    } else {
        None
    }
}

// ---- comparing a listing; None where the recorded one does not stand whole in the file

// Compares the next bytes of a recorded listing with a piece.
// A piece that is longer than what is left is a difference, and nothing is read.
fn same_piece(
    file: &mut impl Read,
    shown: &[u8],
    recorded: &mut [u8],
    before: Compared,
) -> Option<Compared> {
    let n = shown.len();
    if n > before.left {
        return Some(Compared {
            same: false,
            left: before.left,
        });
    }
    if n > recorded.len() {
        return None;
    }
    file.read_exact(&mut recorded[..n]).ok()?;
    Some(Compared {
        same: before.same && &recorded[..n] == shown,
        left: before.left - n,
    })
}

// Whether a listing is the recorded one, which comes next in the file: length, bytes, and zeros that fill its last word.
// It is read to its end also after a difference, since the next record follows.
fn same_listing(
    file: &mut impl Read,
    shown: Result<Shown, Refusal>,
    memory: &mut Memory,
) -> Option<bool> {
    let length = read_length(file)?;
    let mut seen = Compared {
        same: true,
        left: length,
    };
    for k in 0..image_listing::piece_count() {
        let n = image_listing::put_piece(
            shown,
            k,
            &memory.values,
            &memory.sets,
            &memory.output,
            &mut memory.buffer,
        );
        // A piece never runs past the buffer, so the test never fails; no contract here asks for it.
        if n > memory.buffer.len() {
            return None;
        }
        seen = same_piece(file, &memory.buffer[..n], &mut memory.recorded, seen)?;
    }
    // A recorded listing that goes on after the last piece is another one.
    let mut same = seen.same && seen.left == 0;
    for _ in 0..seen.left {
        read_byte(file)?;
    }
    for _ in length..length.div_ceil(4) * 4 {
        same = read_byte(file)? == 0 && same;
    }
    Some(same)
}

// ---- a list

// One record: an image is read, put through `infer_image`, and its listing compared. None where it does not stand whole in the file.
fn replay_record(file: &mut impl Read, memory: &mut Memory) -> Option<bool> {
    let n = read_image(file, &mut memory.image)?;
    let mut context = Context {
        options: 0,
        function_count: 0,
        effect_count: 0,
        key_count: 0,
        diagnostic_count: 0,
        identifiers: &mut memory.identifiers,
        functions: &mut memory.functions,
        contexts: &mut memory.contexts,
        links: &mut memory.links,
        keys: &mut memory.keys,
        key_order: &mut memory.key_order,
        effects: &mut memory.effects,
        effect_order: &mut memory.effect_order,
        diagnostics: &mut memory.diagnostics,
    };
    let shown = image_infer::infer_image(
        &memory.image[..n],
        &mut memory.words,
        &mut memory.values,
        &mut memory.sets,
        &mut context,
        &mut memory.candidates,
        &mut memory.output,
        &mut memory.scratch64,
        &mut memory.scratch32,
    );
    same_listing(file, shown, memory)
}

// Writes how a list went.
fn say_score(rt: &impl Print, path: &str, done: u32, failed: u32) -> io::Result<()> {
    println!(rt; "{path} {done} replayed, {failed} failed")
}

// The list that an argument names, record by record; the first five that failed are named, since a wrong build fails at very many.
// A list that cannot be opened or read, or goes on after its last record, counts as one failure more. Records are numbered from 0 on.
fn replay_list(rt: &impl Runtime, i: usize, memory: &mut Memory) -> io::Result<()> {
    let mut text = [0u8; 4096];
    let path = argument(rt, i, &mut text);
    let Ok(mut file) = fs::open(rt, path) else {
        println!(rt; "{path} cannot be opened")?;
        return say_score(rt, path, 0, 1);
    };
    let Some(count) = read_word(&mut file) else {
        println!(rt; "{path} has no count of records")?;
        return say_score(rt, path, 0, 1);
    };
    let mut failed: u32 = 0;
    for k in 0..count {
        match replay_record(&mut file, memory) {
            Some(true) => {}
            Some(false) => {
                if failed < 5 {
                    println!(rt; "{path} failed at record {k}")?;
                }
                failed = failed.saturating_add(1);
            }
            None => {
                // Where the next record begins is not known.
                println!(rt; "{path} cannot be read at record {k}")?;
                return say_score(rt, path, k, failed.saturating_add(1));
            }
        }
    }
    if read_byte(&mut file).is_some() {
        println!(rt; "{path} goes on after its last record")?;
        failed = failed.saturating_add(1);
    }
    say_score(rt, path, count, failed)
}

// Whether there is an argument i.
fn is_given(rt: &impl Env, i: usize) -> bool {
    !matches!(rt.arg(i, &mut []), Err(FillError::NotPresent))
}

// Every list that an argument names.
// Argument 0 is the program's own name.
fn main(rt: HostRuntime) -> io::Result<()> {
    let mut memory = Memory {
        image: [0; 65544],
        words: [0; 16384],
        values: [0; 1024],
        sets: [0; 8192],
        identifiers: [0; (IDENTIFIERS.count * IDENTIFIERS.width) as usize],
        functions: [0; (FUNCTIONS.count * FUNCTIONS.width) as usize],
        contexts: [0; (CONTEXTS.count * CONTEXTS.width) as usize],
        links: [0; (LINKS.count * LINKS.width) as usize],
        keys: [0; (CACHED.count * CACHED.width) as usize],
        key_order: [0; (KEY_ORDER.count * KEY_ORDER.width) as usize],
        effects: [0; (INTERNED.count * INTERNED.width) as usize],
        effect_order: [0; (EFFECT_ORDER.count * EFFECT_ORDER.width) as usize],
        diagnostics: [UNUSED; DIAGNOSTICS],
        candidates: [0; CANDIDATE_WORDS],
        output: [0; OUTPUT_WORDS],
        scratch64: [0; 9216],
        scratch32: [0; MOST_SAVED],
        buffer: [0; image_pieces::PIECE_BYTES],
        recorded: [0; image_pieces::PIECE_BYTES],
    };
    for i in 1..usize::MAX {
        if !is_given(&rt, i) {
            break;
        }
        replay_list(&rt, i, &mut memory)?;
    }
    Ok(())
}
