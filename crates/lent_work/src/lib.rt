// What an instruction under way has by value: session, places initialized, counts.
#![tactic(auto)]

ghost use Rattle.std.specs.Prelude.{◌≡◌};
ghost use Rattle.lent_work.specs.Marks.{is_marked, marked};

use def_effects::Session;

// A bit for each identifier: whether its place was initialized in this instruction.
// Document 01's refusals 6 and 7 ask for it.
#[derive(Clone, Copy)]
pub struct Marks {
    pub words: [u64; 8],
}

// What an instruction under way has by value: the session, the state's function-expression flag, the places initialized in it,
// how many effects are listed, the entries of the Freeze under way, and those of all its Freezes.
#[derive(Clone, Copy)]
pub struct Run {
    pub session: Session,
    pub flag: bool,
    pub marks: Marks,
    pub listed: u32,
    pub freeze: u32,
    pub entries: u32,
}

// Whether identifier i is marked.
// There is no identifier past 511.
pub fn is_marked(m: Marks, i: u32) -> bool
    ensures { result ≡ is_marked m i }
{
    i < 512 && (m.words[(i / 64) as usize] >> (i % 64)) % 2 == 1
}

// The marks with identifier i.
// There is no identifier past 511.
pub fn mark(m: Marks, i: u32) -> Marks
    ensures { result ≡ marked m i }
{
    if i >= 512 {
        return m;
    }
    let mut r = m;
    let w = (i / 64) as usize;
    r.words[w] |= 1 << (i % 64);
    r
}
