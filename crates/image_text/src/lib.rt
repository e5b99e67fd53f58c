// The pieces of a listing's lines: bytes, texts, numbers, columns and whole lines in a lent buffer (document 01, 'The job image and its program').
// Every method of a text writes from its place on and moves it on; what does not fit is left out.
#![tactic(auto)]

ghost use Rattle.std.specs.Prelude.{None, Some, [], ◌∷◌, ◌+◌, ◌%◌, ◌≡◌};
ghost use Rattle.def_image.specs.Listing.{decimal, line, mutation_reason, newline, undefined_identifier};
ghost use Rattle.image_text.specs.Texts.{column, cursor, cursor_of, Kept, put_all};

// A text that is being written: the lent buffer, and the place in it where the next byte goes.
#[derive(Drop)]
pub struct Text<'a> {
    pub buffer: &'a mut [u8],
    pub at: usize,
}

// The ASCII code of a number's last digit.
fn last_digit(n: u32) -> u8
    ensures { result ≡ 48 + n % 10 }
{
    b'0' + (n % 10) as u8
}

// A byte at a place of a buffer, and the place after it; past the end nothing changes.
// Every byte of a listing goes through it.
fn put_at(buffer: &mut [u8], at: usize, x: u8) -> usize
    ensures { cursor result buffer.new ≡ put_all (x ∷ []) (cursor at buffer.old) }
{
    if at < buffer.len() {
        buffer[at] = x;
        return at + 1;
    }
    at
}

// A number in decimal digits from a place of a buffer on, the highest first: those of its tenth come before its last one.
// The place goes by value: in a text that is lent from digit to digit it would be read from memory and written there for each.
fn put_digits(buffer: &mut [u8], at: usize, n: u32) -> usize
    ensures { cursor result buffer.new ≡ put_all (decimal n) (cursor at buffer.old) }
{
    if n < 10 {
        return put_at(buffer, at, last_digit(n));
    }
    let next = put_digits(buffer, at, n / 10);
    put_at(buffer, next, last_digit(n))
}

impl Text<'_> {
    // One byte is written, and the place moves on; past the end nothing changes.
    pub fn put_byte(&mut self, x: u8)
        ensures kept { Kept self.old self.new }
        ensures written { cursor_of self.new ≡ put_all (x ∷ []) (cursor_of self.old) }
    {
        self.at = put_at(self.buffer, self.at, x);
    }

    // Bytes are written, one after the other.
    pub fn put_bytes(&mut self, bytes: &[u8])
        ensures kept { Kept self.old self.new }
        ensures written { cursor_of self.new ≡ put_all bytes.now (cursor_of self.old) }
    {
        for x in bytes {
            self.put_byte(*x);
        }
    }

    // A number in decimal digits, the highest first.
    fn put_decimal(&mut self, n: u32)
        ensures kept { Kept self.old self.new }
        ensures written { cursor_of self.new ≡ put_all (decimal n) (cursor_of self.old) }
    {
        self.at = put_digits(self.buffer, self.at, n);
    }

    // A blank and a number.
    // The columns of a line are parted by blanks.
    pub fn put_number(&mut self, n: u32)
        ensures kept { Kept self.old self.new }
        ensures written { cursor_of self.new ≡ put_all (column (Some n)) (cursor_of self.old) }
    {
        self.put_byte(b' ');
        self.put_decimal(n);
    }

    // A blank and a dash.
    // "Absent is `-`."
    #[tactic(auto, unfolding(crate::specs::Texts::column, def_image::specs::Listing::shown))]
    pub fn put_absent(&mut self)
        ensures kept { Kept self.old self.new }
        ensures written { cursor_of self.new ≡ put_all (column None) (cursor_of self.old) }
    {
        self.put_bytes(b" -");
    }

    // A blank and a number that may be absent.
    // A column of a line.
    pub fn put_column(&mut self, x: Option<u32>)
        ensures kept { Kept self.old self.new }
        ensures written { cursor_of self.new ≡ put_all (column x) (cursor_of self.old) }
    {
        match x {
            None => self.put_absent(),
            Some(n) => self.put_number(n),
        }
    }

    // The end of a line.
    pub fn put_newline(&mut self)
        ensures kept { Kept self.old self.new }
        ensures written { cursor_of self.new ≡ put_all (newline ∷ []) (cursor_of self.old) }
    {
        self.put_byte(b'\n');
    }

    // A whole line: its word, its columns and its end.
    pub fn put_line(&mut self, word: &[u8], columns: &[Option<u32>])
        ensures kept { Kept self.old self.new }
        ensures written { cursor_of self.new ≡ put_all (line word.now columns.now) (cursor_of self.old) }
    {
        self.put_bytes(word);
        for x in columns {
            self.put_column(*x);
        }
        self.put_newline();
    }
}

// How a mutation reason is shown.
// "A mutation reason stands under reason by its code, none as `-`."
pub fn mutation_reason(r: u32) -> Option<u32>
    ensures { result ≡ mutation_reason r }
{
    (r != 0).then_some(r)
}

// The identifier of an access: "0, or 1 + identifier".
pub fn undefined_identifier(access: u32) -> Option<u32>
    ensures { result ≡ undefined_identifier access }
{
    access.checked_sub(1)
}
