// The words of a job image, read from its lent bytes (document 01, 'The job image and its program').
// Every function is total, and its contract is one equation with the definition of crate `def_image`.
#![tactic(auto)]

ghost use Rattle.std.specs.Prelude.{◌≡◌, length};
ghost use Rattle.def_image.specs.Layout.{wrong_length, words_of, word};
ghost use Rattle.image_words.specs.Loaded.{loaded};

// Whether an image has a wrong length.
// "from 68 to 65,536 bytes and a multiple of 4 (else 1)"
#[tactic(auto, unfolding(def_image::specs::Layout::wrong_length))]
pub fn length_wrong(bytes: &[u8]) -> bool
    ensures { result ≡ wrong_length bytes.now }
{
    bytes.len() < 68 || bytes.len() > 65536 || bytes.len() % 4 != 0
}

// Word k of an image, or 0 past its end.
// "Little-endian u32 words". Fewer than four bytes at the end are no word, and such a length is refused.
pub fn word_at(bytes: &[u8], k: usize) -> u32
    ensures { result ≡ word (words_of bytes.now) k }
{
    if k >= bytes.len() / 4 {
        return 0;
    }
    let i = 4 * k;
    u32::from_le_bytes([bytes[i], bytes[i + 1], bytes[i + 2], bytes[i + 3]])
}

// Every word of the slice becomes the image's word at its place.
// Past the image's end that is 0.
pub fn load_words(bytes: &[u8], words: &mut [u32])
    ensures { words.new ≡ loaded bytes.now (length words.old) }
{
    for (k, word) in words.iter_mut().enumerate() {
        *word = word_at(bytes, k);
    }
}
