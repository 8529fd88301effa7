// What every archive rests on: a space of points in which trials are compared, by its whole meaning
// and the laws that it keeps, and the second trait of those spaces whose points are also bytes.
#![tactic(auto)]

mod figures;
mod looking;
mod meaning;
mod recording;
mod refusal;
mod spans;
mod tagged;

pub use figures::number_at;
pub use looking::{Holders, Lie, Look, look_one_by_one};
pub use meaning::{Space, six_boxes};
pub use recording::{Recorded, Unread, Unwritten, blank, point_bytes, read_or_blank};
pub use refusal::{BadGrid, TooMany};
pub use spans::{Span, Spans};
pub use tagged::Trial;
