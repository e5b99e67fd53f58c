// The job of an image by value: its header, and what its tables hold.
#![tactic(auto)]

ghost use Rattle.std.specs.Prelude.{◌≡◌, Ok};
ghost use Rattle.image_job.specs.Reading.{job_of, said_of};

use def_effects::{NO_SPAN, Place, Session};
use image_class2::{Section, count_of, word};
use image_decode::place_at;

// What an accepted image says beside its tables: the session to start with, lvalue and own function (+ 1, or 0),
// how many identifiers are in its list, and how many candidates it has.
#[derive(Clone, Copy)]
pub struct Job {
    pub session: Session,
    pub lvalue: Place,
    pub own: u32,
    pub identifiers: u32,
    pub candidates: u32,
}

// What the words of an accepted image say beside the tables.
// "next number 1..512; lvalue's place index; own function + 1 or 0"; no access is recorded yet.
#[tactic(auto, unfolding(crate::specs::Reading::job_of))]
pub fn job_of(im: &[u32]) -> Job
    ensures { said_of (Ok result) ≡ job_of im.now }
{
    Job {
        session: Session {
            next: word(im, 2),
            access: 0,
            span: NO_SPAN,
            entries: 0,
        },
        lvalue: place_at(im, word(im, 3)),
        own: word(im, 4),
        identifiers: count_of(im, Section::Identifiers),
        candidates: count_of(im, Section::Candidates),
    }
}
