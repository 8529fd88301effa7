// What tests from outside are made of, where more than one crate of tests needs it.
#![tactic(auto)]

ghost use Rattle.std.specs.Prelude.{◌≡◌, [], ◌∷◌, pos, Some};
ghost use Rattle.history.specs.declared.answers.Answer.TheVariants as answer;

use history::{Answer, Offered, Verdict};
use log_block::Report;
use space::Trial;

// A trial of two figures.
pub fn at(tag: u32, x: i32, y: i32) -> Trial<[i32; 6]>
    ensures { result ≡ record { point = x ∷ y ∷ pos 0 ∷ pos 0 ∷ pos 0 ∷ pos 0 ∷ []; tag = tag } }
{
    Trial {
        point: [x, y, 0, 0, 0, 0],
        tag,
    }
}

// The answer to an offered trial that is judged.
pub fn judged(verdict: Verdict, displaced: usize) -> Answer
    ensures { result ≡ answer.Offered (record { verdict = verdict; displaced = displaced }) }
{
    Answer::Offered(Offered { verdict, displaced })
}

// What a fault is to tell.
pub fn report(number: u8, layer: u8, place: usize) -> Option<Report>
    ensures { result ≡ Some (record { number = number; layer = layer; place = place }) }
{
    Some(Report {
        number,
        layer,
        place,
    })
}
