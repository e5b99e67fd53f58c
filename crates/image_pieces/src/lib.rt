// The pieces in which a listing is written: definitions and laws in specs/, and what a job shows beside its tables, which they speak of.
#![tactic(auto)]

ghost use Rattle.std.specs.Prelude.{◌≡◌};
ghost use Rattle.image_pieces.specs.Pieces.{Answer, answer_of, answer_told, refused_as};

use def_refusals::Refusal;

// What a job that is not refused shows beside its tables: how many effects the output list holds, the walk entries,
// and the first undefined identifier, as 0 or 1 + identifier.
#[derive(Clone, Copy)]
pub struct Shown {
    pub count: u32,
    pub entries: u32,
    pub access: u32,
}

// What a job comes to: what it shows, or the refusal; and a bare number by which it is refused, whatever it is.
pub trait Told: Copy {
    ghost answer: { Self → Answer };

    // What it shows, or the number.
    fn told(self) -> Result<Shown, u32>
        ensures { answer_told result ≡ answer self };
}

impl Told for Result<Shown, Refusal> {
    ghost answer = { answer_of };

    fn told(self) -> Result<Shown, u32> {
        match self {
            Ok(shown) => Ok(shown),
            Err(refusal) => Err(refusal.number()),
        }
    }
}

impl Told for u32 {
    ghost answer = { refused_as };

    fn told(self) -> Result<Shown, u32> {
        Err(self)
    }
}

// How long the buffer of a piece is: these bytes suffice for each.
pub const PIECE_BYTES: usize = 5135;
