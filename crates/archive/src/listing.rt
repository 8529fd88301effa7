// List: the members' tags in row order.
ghost use Rattle.std.specs.Prelude.{◌≡◌, ◌≤◌, ◌++◌, map, length, drop};
ghost use Rattle.archive.specs.Lent.{lending};
ghost use Rattle.archive.specs.Listing.{ListRight};

use crate::holding::Archive;
use history::Denial;
use space::{Space, Trial};

// Writes the tags of these trials to the front of the list.
fn write_tags<P: Copy>(members: &[Trial<P>], tags: &mut [u32])
    requires { length members.now ≤ length tags.old }
    ensures { tags.new ≡ map (λ r. r.tag) members.now ++ drop (length members.now) tags.old }
{
    // by place in the list: what is written through a zipped `iter_mut` is not known afterwards
    for (i, member) in members.iter().enumerate() {
        tags[i] = member.tag;
    }
}

impl<S: Space> Archive<S> {
    // The list that `list` hands on.
    // Apart from `list`: this proof cites a law of the space in a file, and a wrong `list` is to be refused at its own line.
    fn list_members(&self, rows: &[Trial<S::Point>], tags: &mut [u32]) -> Result<usize, Denial>
        ensures { ListRight (S.Space.meaning self.now.space) (lending self.now rows.now tags.old) result tags.new }
    {
        let members = self.members(rows)?;
        if tags.len() < members.len() {
            return Err(Denial::ShortList);
        }
        write_tags(members, tags);
        Ok(members.len())
    }

    // Writes the members' tags to the front of the list, in row order, and answers how many they are.
    pub fn list(&self, rows: &[Trial<S::Point>], tags: &mut [u32]) -> Result<usize, Denial>
        ensures { ListRight (S.Space.meaning self.now.space) (lending self.now rows.now tags.old) result tags.new }
    {
        self.list_members(rows, tags)
    }
}
