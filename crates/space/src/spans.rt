// Spans: which points have a box up to a given one, and which have it or one from it on, by the numbers that their bytes say. So a
// point's bytes tell how its box lies, before there is a point or a number of its box.

// Numbers at each of six places, from one to another, both of them included.
#[derive(Clone, Copy)]
pub struct Span {
    pub from: [i32; 6],
    pub to: [i32; 6],
}

// The numbers of the points whose box the given box equals or dominates, and of those whose box equals or dominates it.
#[derive(Clone, Copy)]
pub struct Spans {
    pub most: Span,
    pub least: Span,
}
