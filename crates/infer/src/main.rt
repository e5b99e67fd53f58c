// The program `infer`: a job image on standard input, its listing on standard output (document 01, 'The job image and its program').
// All work is in `image_infer::infer_image` and `image_listing::put_piece`. No contract says what is read or written: that standard input is read until
// its end is `test_bytes::read_full`, whose contract bounds only the count; that the pieces of the listing are written in their order and nothing else, these lines.
#![tactic(auto)]

use lent_layout::{
    CACHED, CANDIDATE_WORDS, CONTEXTS, Context, DIAGNOSTICS, EFFECT_ORDER, FUNCTIONS, IDENTIFIERS,
    INTERNED, KEY_ORDER, LINKS, MOST_SAVED, OUTPUT_WORDS, UNUSED,
};
use std::io;
use test_bytes::read_full;

// The listing of an image. All memory that the job needs stands here, on the stack: 1.7 MB.
// A function's memory is cleared as it begins and again where it is made; where nothing runs in between, that is one time.
fn list(rt: &impl Print, image: &[u8]) -> io::Result<()> {
    let mut words = [0u32; 16384];
    let mut values = [0u64; 1024];
    let mut sets = [0u64; 8192];
    let mut identifiers = [0u32; (IDENTIFIERS.count * IDENTIFIERS.width) as usize];
    let mut functions = [0u32; (FUNCTIONS.count * FUNCTIONS.width) as usize];
    let mut contexts = [0u32; (CONTEXTS.count * CONTEXTS.width) as usize];
    let mut links = [0u32; (LINKS.count * LINKS.width) as usize];
    let mut keys = [0u32; (CACHED.count * CACHED.width) as usize];
    let mut key_order = [0u32; (KEY_ORDER.count * KEY_ORDER.width) as usize];
    let mut effects = [0u32; (INTERNED.count * INTERNED.width) as usize];
    let mut effect_order = [0u32; (EFFECT_ORDER.count * EFFECT_ORDER.width) as usize];
    let mut diagnostics = [UNUSED; DIAGNOSTICS];
    let mut context = Context {
        options: 0,
        function_count: 0,
        effect_count: 0,
        key_count: 0,
        diagnostic_count: 0,
        identifiers: &mut identifiers,
        functions: &mut functions,
        contexts: &mut contexts,
        links: &mut links,
        keys: &mut keys,
        key_order: &mut key_order,
        effects: &mut effects,
        effect_order: &mut effect_order,
        diagnostics: &mut diagnostics,
    };
    let mut candidates = [0u32; CANDIDATE_WORDS];
    let mut output = [0u32; OUTPUT_WORDS];
    let mut scratch64 = [0u64; 9216];
    let mut scratch32 = [0u32; MOST_SAVED];
    let shown = image_infer::infer_image(
        image,
        &mut words,
        &mut values,
        &mut sets,
        &mut context,
        &mut candidates,
        &mut output,
        &mut scratch64,
        &mut scratch32,
    );
    let mut buffer = [0u8; image_pieces::PIECE_BYTES];
    for k in 0..image_listing::piece_count() {
        let length = image_listing::put_piece(shown, k, &values, &sets, &output, &mut buffer);
        // A piece never runs past the buffer, so the test always passes; no contract of this program asks for it.
        if length <= buffer.len() {
            rt.write_all(&buffer[..length])?;
        }
    }
    Ok(())
}

// Standard input until its end; 65,537 bytes are enough to know that it is too long.
fn main(rt: HostRuntime) -> io::Result<()> {
    let mut input = [0u8; 65537];
    let n = read_full(&mut rt.stdin(), &mut input)?;
    list(&rt, &input[..n])
}
