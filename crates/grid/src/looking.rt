// A look at many trials. Their figures are held against the levels of the point's box, objective by objective, and no number of theirs is
// asked for: none waits for an answer of another, so that the compiler looks at several at a time. That tells only of trials on the grid,
// which members are; where one is not, each is asked for its box.
ghost use Rattle.std.specs.Prelude.{◌≡◌, ℕ, ◌^◌, ◌<◌, ◌≤◌, ⊤, true, cond, List, map, length, slice_index, MatchOption};
ghost use Rattle.std.specs.List.{list_all};
ghost use Rattle.space.specs.Boxes.{six_boxes};
ghost use Rattle.space.specs.Looking.{look_by, look_of};
ghost use Rattle.grid.specs.Bytes.{zero_from};
ghost use Rattle.grid.specs.Levels.{InReach, Reached, each_place, from_on, level_of, on_grid, up_to};
ghost use Rattle.grid.specs.Space.{grid_meaning};

use crate::axis::Axis;
use crate::counts::{Counts, Missed, one_if};
use crate::figure::Figure;
use crate::levels::{Levels, levels_of};
use space::{Look, Trial};

// Adds the bits of q's figures past the first N to those seen at their places so far. It has to be in line, so that the compiler has no
// loop over the places and takes several of them at a time.
#[inline(always)]
fn add_past<F: Figure, const N: usize>(bits: &mut [u32; 6], q: &[F; 6])
    requires { N ≤ 6 }
    ensures { ((i : ℕ) → i < 6 → slice_index bits.new i ≡ 0) → ((i : ℕ) → i < 6 → slice_index bits.old i ≡ 0) × (zero_from F.Figure.bits N q.now ≡ true) }
{
    for i in N..6 {
        bits[i] |= q[i].to_bits();
    }
}

// Whether the figures of all these trials past the first N are zero: true says so, and false says nothing. Four trials are taken at a time:
// so the compiler puts the places of one trial side by side, as they stand, and not one place of several trials.
fn all_zero_past<F: Figure, const N: usize>(trials: &[Trial<[F; 6]>]) -> bool
    requires { N ≤ 6 }
    ensures { result ≡ true → list_all (λ t. zero_from F.Figure.bits N t.point) trials.now ≡ true }
{
    let mut bits = [0; 6];
    let mut k = 0;
    while trials.len() - k >= 4 {
        add_past::<F, N>(&mut bits, &trials[k].point);
        add_past::<F, N>(&mut bits, &trials[k + 1].point);
        add_past::<F, N>(&mut bits, &trials[k + 2].point);
        add_past::<F, N>(&mut bits, &trials[k + 3].point);
        k += 4;
    }
    for trial in &trials[k..] {
        add_past::<F, N>(&mut bits, &trial.point);
    }
    bits == [0; 6]
}

// Holds q's figures in the first N objectives against the levels, and widens the reach of the levels seen so far at each of these places, from
// the lowest to the highest. No place waits for another one. It has to be in line, so that the compiler has no loop over the places and holds
// several trials at a time.
#[inline(always)]
fn hold<F: Figure, const N: usize>(
    levels: &[Levels; 6],
    q: &[F; 6],
    lowest: &mut [i32; 6],
    highest: &mut [i32; 6],
) -> Missed
    requires { N ≤ 6 }
    ensures most { result.most ≡ cond (each_place F.Figure.bits up_to levels.now q.now N) 0 1 }
    ensures least { result.least ≡ cond (each_place F.Figure.bits from_on levels.now q.now N) 0 1 }
    ensures reach { Reached N (level_of F.Figure.bits levels.now q.now) lowest.old highest.old lowest.new highest.new }
{
    let mut most = 0;
    let mut least = 0;
    for i in 0..N {
        let level = levels[i].level(q[i]);
        most |= one_if(level > levels[i].top);
        least |= one_if(level < levels[i].bottom);
        lowest[i] = lowest[i].min(level);
        highest[i] = highest[i].max(level);
    }
    Missed { most, least }
}

// Whether all levels seen at the first N places are levels of the grid.
fn are_on_grid<const N: usize>(levels: &[Levels; 6], lowest: &[i32; 6], highest: &[i32; 6]) -> bool
    requires { N ≤ 6 }
    ensures { result ≡ true → (i : ℕ) → i < N → InReach levels.now lowest.now highest.now i }
{
    for i in 0..N {
        if lowest[i] < levels[i].lowest || levels[i].highest < highest[i] {
            return false;
        }
    }
    true
}

// A look at trials by the levels of the first N objectives; none where one is off the grid there.
fn scan<F: Figure, const N: usize>(levels: &[Levels; 6], trials: &[Trial<[F; 6]>]) -> Option<Look>
    requires { (N ≤ 6) × (length trials.now < 2 ^ 32) }
    ensures { MatchOption result ⊤ (λ look. (list_all (λ t. each_place F.Figure.bits on_grid levels.now t.point N) trials.now ≡ true) × (look ≡ look_by (λ t. each_place F.Figure.bits up_to levels.now t.point N) (λ t. each_place F.Figure.bits from_on levels.now t.point N) trials.now)) }
{
    let mut lowest = [i32::MAX; 6];
    let mut highest = [i32::MIN; 6];
    let mut counts = Counts::default();
    for (k, trial) in trials.iter().enumerate() {
        let missed = hold::<F, N>(levels, &trial.point, &mut lowest, &mut highest);
        counts = counts.with(k as u32, missed);
    }
    if are_on_grid::<N>(levels, &lowest, &highest) {
        Some(counts.end(trials.len() as u32))
    } else {
        None
    }
}

// How a box, by its numbers, lies to those of these trials, where there are N objectives: so the compiler has no loop over them. None where a
// trial is off the grid, or where there are more trials than 32 bits count.
fn look_on<A: Axis, const N: usize>(
    axes: &[A],
    numbers: &[u32; 6],
    trials: &[Trial<[A::Figure; 6]>],
) -> Option<Look>
    requires { (length axes.now ≡ N) × (N ≤ 6) }
    ensures { MatchOption result ⊤ (λ look. (p : List A.Figure) → numbers.now ≡ six_boxes (grid_meaning A.Figure.Figure.bits (map A.Axis.line axes.now)) p → (grid_meaning A.Figure.Figure.bits (map A.Axis.line axes.now)).admits p ≡ true → look ≡ look_of (grid_meaning A.Figure.Figure.bits (map A.Axis.line axes.now)) p trials.now) }
{
    if trials.len() > u32::MAX as usize || !all_zero_past::<A::Figure, N>(trials) {
        return None;
    }
    scan::<A::Figure, N>(&levels_of::<A, N>(axes, numbers), trials)
}

// How a box, by its numbers, lies to those of these trials, if all are on the grid.
pub(crate) fn look_on_grid<A: Axis>(
    axes: &[A],
    numbers: &[u32; 6],
    trials: &[Trial<[A::Figure; 6]>],
) -> Option<Look>
    ensures { MatchOption result ⊤ (λ look. (p : List A.Figure) → numbers.now ≡ six_boxes (grid_meaning A.Figure.Figure.bits (map A.Axis.line axes.now)) p → (grid_meaning A.Figure.Figure.bits (map A.Axis.line axes.now)).admits p ≡ true → look ≡ look_of (grid_meaning A.Figure.Figure.bits (map A.Axis.line axes.now)) p trials.now) }
{
    match axes.len() {
        1 => look_on::<A, 1>(axes, numbers, trials),
        2 => look_on::<A, 2>(axes, numbers, trials),
        3 => look_on::<A, 3>(axes, numbers, trials),
        4 => look_on::<A, 4>(axes, numbers, trials),
        5 => look_on::<A, 5>(axes, numbers, trials),
        6 => look_on::<A, 6>(axes, numbers, trials),
        _ => None,
    }
}
