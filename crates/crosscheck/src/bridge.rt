// Between the figures of the second archive and the points and answers of the first.
use crate::blocks::Fault;
use crate::figures::Point;
use crate::narrow::{Narrow, narrowed};
use crate::told::{Fed, NotRestored, Told};
use archive::RestoreFault;
use history::{Answer, Denial, FeedFault, Offered};
use log_block::Report;

// A point of the first archive's spaces, told by its figures.
pub(crate) trait Figured: Copy {
    fn of_figures(figures: &Point) -> Self;

    fn figures(&self) -> Point;
}

// The figures of the first six places.
fn front(figures: &Point) -> [i64; 6] {
    let [a, b, c, d, e, f, ..] = *figures;
    [a, b, c, d, e, f]
}

// Those of the last six.
fn back(figures: &Point) -> [i64; 6] {
    let [.., a, b, c, d, e, f] = *figures;
    [a, b, c, d, e, f]
}

// The figures of two points together.
fn together(front: [i64; 6], back: [i64; 6]) -> Point {
    let [a, b, c, d, e, f] = front;
    let [g, h, i, j, k, l] = back;
    [a, b, c, d, e, f, g, h, i, j, k, l]
}

// Six figures in 32 bits. They are written out, as above, since a `map` to or from a type parameter gets no proof.
fn narrow_six<N: Narrow>(figures: [i64; 6]) -> [N; 6] {
    let [a, b, c, d, e, f] = figures;
    [
        narrowed(a),
        narrowed(b),
        narrowed(c),
        narrowed(d),
        narrowed(e),
        narrowed(f),
    ]
}

// Six figures of 32 bits as whole numbers.
fn wide_six<N: Narrow>(figures: [N; 6]) -> [i64; 6] {
    let [a, b, c, d, e, f] = figures;
    [a.into(), b.into(), c.into(), d.into(), e.into(), f.into()]
}

impl<A: Narrow> Figured for [A; 6] {
    fn of_figures(figures: &Point) -> [A; 6] {
        narrow_six(front(figures))
    }

    fn figures(&self) -> Point {
        together(wide_six(*self), [0; 6])
    }
}

impl<A: Narrow, B: Narrow> Figured for ([A; 6], [B; 6]) {
    fn of_figures(figures: &Point) -> ([A; 6], [B; 6]) {
        (narrow_six(front(figures)), narrow_six(back(figures)))
    }

    fn figures(&self) -> Point {
        together(wide_six(self.0), wide_six(self.1))
    }
}

// A fault in plain numbers.
impl From<Report> for Fault {
    fn from(report: Report) -> Fault {
        Fault {
            number: report.number,
            layer: report.layer,
            place: report.place,
        }
    }
}

// How an offered trial fared, in plain numbers.
impl From<Offered> for Told {
    fn from(offered: Offered) -> Told {
        Told::Judged {
            verdict: offered.verdict.number(),
            displaced: offered.displaced,
        }
    }
}

// What a feed came to.
impl From<history::Fed> for Fed {
    fn from(fed: history::Fed) -> Fed {
        Fed {
            entered: fed.entered,
            passed: fed.passed,
            denied: fed.denied,
            displaced: fed.displaced,
            first: fed.first.map(|denied| Fault::from(denied.report())),
        }
    }
}

// What a call was denied for.
impl From<Denial> for Told {
    fn from(denial: Denial) -> Told {
        Told::Denied(denial.number())
    }
}

// What a feed was refused for.
impl From<FeedFault> for Told {
    fn from(fault: FeedFault) -> Told {
        Told::Refused(Fault::from(fault.report()))
    }
}

// Why the first archive is not restored.
impl From<RestoreFault> for NotRestored {
    fn from(fault: RestoreFault) -> NotRestored {
        match fault {
            RestoreFault::Denied(denial) => NotRestored::Denied(denial.number()),
            RestoreFault::Block { index, fault } => {
                NotRestored::Block(index, Fault::from(fault.report()))
            }
        }
    }
}

// What a call told: what it was granted, or why it was not.
pub(crate) fn told<T, E: Into<Told>, F: FnOnce(T) -> Told>(said: Result<T, E>, granted: F) -> Told
    requires { F.IsAlwaysCallable granted }
{
    said.map_or_else(|denied| denied.into(), granted)
}

// What any call told, as a replay writes it beside the call.
impl From<Answer> for Told {
    fn from(answer: Answer) -> Told {
        match answer {
            Answer::Offered(offered) => Told::from(offered),
            Answer::Fed(fed) => Told::Fed(Fed::from(fed)),
            Answer::Audited(pair) => Told::Audited(pair),
            Answer::Listed(count) => Told::Listed(count),
            Answer::Saved(count) => Told::Saved(count),
            Answer::Denied(denial) => Told::from(denial),
            Answer::Refused(fault) => Told::from(fault),
        }
    }
}
