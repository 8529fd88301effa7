// What one trial of a block adds to the sum of its block.
ghost use Rattle.std.specs.Prelude.{◌≡◌};
ghost use Rattle.archive.specs.Summing.{one_fed};

use history::{Denial, DeniedTrial, Fed, Offered, Verdict};

// What one trial came to, whose record is at this place.
pub(crate) fn one_fed(place: usize, answer: Result<Offered, Denial>) -> Fed
    ensures { result ≡ one_fed place answer }
{
    match answer {
        Ok(
            Offered {
                verdict: Verdict::PassedOver,
                displaced,
            },
        ) => Fed {
            passed: 1,
            displaced,
            ..Fed::default()
        },
        Ok(Offered { displaced, .. }) => Fed {
            entered: 1,
            displaced,
            ..Fed::default()
        },
        Err(Denial::OffGrid) => Fed {
            denied: 1,
            first: Some(DeniedTrial::OffGrid(place)),
            ..Fed::default()
        },
        Err(_) => Fed {
            denied: 1,
            first: Some(DeniedTrial::Full(place)),
            ..Fed::default()
        },
    }
}
