// A point with the number of the settings that it was measured under.
#[derive(Clone, Copy)]
pub struct Trial<P> {
    pub point: P,
    pub tag: u32,
}
