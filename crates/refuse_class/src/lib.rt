// The lower of two verdicts, or of two classes: every test of what is lent joins its parts by it.
#![tactic(auto)]

ghost use Rattle.std.specs.Prelude.{◌≡◌, ℕ};
ghost use Rattle.def_refusals.specs.Verdicts.{class_of};
ghost use Rattle.refuse_class.specs.Class.{lower};

use def_refusals::Verdict;

// What tells a class: a verdict, and the number of a class itself, whatever it is, of which 0 is none.
pub trait Class {
    ghost class: { Self → ℕ };

    // The one of the lower class, of which none is the highest.
    fn lower_of(self, other: Self) -> Self
        ensures { class result ≡ lower (class self) (class other) };
}

impl Class for Verdict {
    ghost class = { class_of };

    fn lower_of(self, other: Verdict) -> Verdict {
        match (self, other) {
            (Ok(()), _) => other,
            (Err(_), Ok(())) => self,
            (Err(x), Err(y)) => Err(x.min(y)),
        }
    }
}

impl Class for u32 {
    ghost class = { λ n. n };

    fn lower_of(self, other: u32) -> u32 {
        match (self, other) {
            (0, _) => other,
            (_, 0) => self,
            _ => self.min(other),
        }
    }
}

// The lower of two verdicts, of which one that finds nothing wrong is the highest; the same of two classes.
// "Order 1 to 5 over the whole input."
pub fn lower<V: Class>(a: V, b: V) -> V
    ensures { V.class result ≡ lower (V.class a) (V.class b) }
{
    a.lower_of(b)
}
