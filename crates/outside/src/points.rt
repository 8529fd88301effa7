// Points of the house spaces for the tests.

// The point of one figure.
pub(crate) fn only<F: Copy + Default>(v: F) -> [F; 6] {
    let none = F::default();
    [v, none, none, none, none, none]
}
