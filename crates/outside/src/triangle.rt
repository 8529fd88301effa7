// Ten parts shared out among three uses, the third having what is left.
ghost use Rattle.std.specs.Prelude.{◌≡◌, ◌+◌, nat_le};
ghost use Rattle.outside.specs.Triangle.{part, triangle};
ghost use Rattle.outside.specs.Laws.{lawful_triangle};

use space::Space;

#[derive(Clone, Copy, PartialEq, Eq, Debug)]
pub struct Share {
    pub reads: u32,
    pub writes: u32,
}

impl Share {
    // The parts of use i.
    fn part(&self, i: usize) -> u32
        ensures { result ≡ part i self.now }
    {
        match i {
            0 => self.reads,
            1 => self.writes,
            2 => 10u64.saturating_sub(u64::from(self.reads) + u64::from(self.writes)) as u32,
            _ => 0,
        }
    }
}

// Whether there are at most three parts more.
fn near(parts: u32, than: u32) -> bool
    ensures { result ≡ nat_le parts (than + 3) }
{
    u64::from(parts) <= u64::from(than) + 3
}

#[derive(Clone, Copy)]
pub struct Triangle;

impl Space for Triangle {
    type Point = Share;

    ghost meaning = { λ _. triangle };

    ghost lawful = { λ s. lawful_triangle };

    fn objectives(&self) -> usize {
        3
    }

    fn admits(&self, p: &Share) -> bool {
        u64::from(p.reads) + u64::from(p.writes) <= 10
    }

    // the three are written out, here and in `covers`, as the definition has them
    fn no_worse(&self, p: &Share, q: &Share) -> bool {
        q.part(0) <= p.part(0) && q.part(1) <= p.part(1) && q.part(2) <= p.part(2)
    }

    fn extent(&self, i: usize) -> u32 {
        if i < 3 { 3 } else { 1 }
    }

    fn box_number(&self, i: usize, p: &Share) -> u32 {
        if self.admits(p) { p.part(i) / 4 } else { 0 }
    }

    fn covers(&self, p: &Share, q: &Share) -> bool {
        near(q.part(0), p.part(0)) && near(q.part(1), p.part(1)) && near(q.part(2), p.part(2))
    }
}
