// What is known of the members while a block is fed. Most blocks have many trials, and each is compared with every member: so the spans of
// the members' boxes are asked once for many of them. A trial is held against them by its bytes, as they stand in the block. To ask the spans
// takes longer than a look or two: so they are asked where trials enough may be held against them, and not after each trial that enters.
ghost use Rattle.std.specs.Prelude.{◌≡◌, ℕ, ◌<◌, ◌≤◌, ◌≢◌, true, false, List, map, length};
ghost use Rattle.std.specs.List.{range_with_len};
ghost use Rattle.space.specs.Spans.{each_in, signed_at};
ghost use Rattle.archive.specs.Knowing.{AllLong, Fitting, KnowsIfTold, Roomy, Tells, column, span_at, spans_at};

use space::{Recorded, Span, Spans, Trial, number_at};

// Of how many members the spans are kept. They stand in arrays and no `Vec`, since an archive has no heap; 64 are more than most archives
// hold, and take six kilobytes of the stack.
const MOST: usize = 64;

// One span of each member: the ends of one place stand together, so that the compiler compares several members at a time.
#[derive(Clone, Copy)]
pub(crate) struct Ends {
    from: [[i32; MOST]; 6],
    to: [[i32; MOST]; 6],
}

// The spans of all members, and how many objectives there are. It is one value for all trials of a block, and is learnt in place: copies of
// it would take longer than the trials.
#[derive(Drop)]
pub(crate) struct Known {
    most: Ends,
    least: Ends,
    count: usize,
    objectives: usize,
    // whether the spans are known
    told: bool,
}

// What the spans tell of a trial.
#[derive(Clone, Copy)]
pub(crate) enum Glance {
    // its box is shut out, and neither equals nor dominates a member's
    Shut,
    // the member in this row has its box, and it equals or dominates no other's
    Rival(usize),
    // too little to decide by
    Unclear,
}

// Keeps the numbers of member k, one in each row.
fn keep(rows: &mut [[i32; MOST]; 6], k: usize, numbers: &[i32; 6])
    requires { (k < 64) × AllLong rows.old }
    ensures long { AllLong rows.new }
    ensures kept { column rows.new k ≡ numbers.now }
    ensures others { (j : ℕ) → j ≢ k → column rows.new j ≡ column rows.old j }
{
    for i in 0..6 {
        rows[i][k] = numbers[i];
    }
}

// The number that the bytes say at place i.
fn signed_at(bytes: &[u8], i: usize) -> i32
    ensures { result ≡ signed_at bytes.now i }
{
    number_at(bytes, i).cast_signed()
}

// The numbers that the bytes say at so many places.
fn numbers<const N: usize>(bytes: &[u8]) -> [i32; N]
    ensures { result ≡ map (signed_at bytes.now) (range_with_len 0 N) }
{
    let mut numbers = [0; N];
    // by place: of an array of as many places as a parameter says, a proof learns nothing from `from_fn` or `iter_mut`
    for i in 0..N {
        numbers[i] = signed_at(bytes, i);
    }
    numbers
}

impl Ends {
    // Keeps the span of member k.
    fn keep(&mut self, k: usize, span: &Span)
        requires { (k < 64) × Roomy self.old }
        ensures room { Roomy self.new }
        ensures kept { span_at self.new k ≡ span.now }
        ensures others { (j : ℕ) → j ≢ k → span_at self.new j ≡ span_at self.old j }
    {
        keep(&mut self.from, k, &span.from);
        keep(&mut self.to, k, &span.to);
    }

    // Whether each of a point's numbers is in the span of member k. None waits for another one.
    fn have<const N: usize>(&self, k: usize, numbers: &[i32; N]) -> bool
        requires { (k < 64) × (N ≤ 6) }
        ensures { (bytes : List ℕ) → numbers.now ≡ map (signed_at bytes) (range_with_len 0 N) → result ≡ each_in N (span_at self.now k) bytes }
    {
        let mut all = true;
        for i in 0..N {
            all &= (self.from[i][k] <= numbers[i]) & (numbers[i] <= self.to[i][k]);
        }
        all
    }
}

impl Known {
    // Nothing is known.
    pub(crate) fn nothing() -> Known
        ensures room { Roomy result.most × Roomy result.least }
        ensures told { result.told ≡ false }
    {
        Known {
            most: Ends {
                from: [[0; MOST]; 6],
                to: [[0; MOST]; 6],
            },
            least: Ends {
                from: [[0; MOST]; 6],
                to: [[0; MOST]; 6],
            },
            count: 0,
            objectives: 0,
            told: false,
        }
    }

    // Whether the spans are known.
    pub(crate) fn is_told(&self) -> bool
        ensures { result ≡ self.now.told }
    {
        self.told
    }

    // Nothing is known any more, once the members have changed.
    pub(crate) fn forget(&mut self)
        ensures { (self.new.most ≡ self.old.most) × (self.new.least ≡ self.old.least) × (self.new.told ≡ false) }
    {
        self.told = false;
    }

    // Learns the spans of these members, if the space tells them and there is room for all.
    pub(crate) fn learn<S: Recorded>(&mut self, space: &S, members: &[Trial<S::Point>])
        requires { Roomy self.old.most × Roomy self.old.least }
        ensures room { Roomy self.new.most × Roomy self.new.least }
        ensures known { KnowsIfTold (S.Space.meaning space.now) (S.Recorded.recording space.now) members.now self.new }
    {
        self.forget();
        if members.len() > MOST {
            return;
        }
        self.count = members.len();
        self.objectives = space.objectives();
        // asked only for what it promises: that a point takes four bytes an objective
        let _ = space.width();
        let none = Span {
            from: [0; 6],
            to: [0; 6],
        };
        let mut spans = Spans {
            most: none,
            least: none,
        };
        for (k, member) in members.iter().enumerate() {
            if !space.spans(&member.point, 0, &mut spans) {
                return;
            }
            self.keep(k, &spans);
        }
        self.told = true;
    }

    // Keeps the spans of member k.
    fn keep(&mut self, k: usize, spans: &Spans)
        requires { (k < 64) × Roomy self.old.most × Roomy self.old.least }
        ensures room { Roomy self.new.most × Roomy self.new.least }
        ensures same { (self.new.count ≡ self.old.count) × (self.new.objectives ≡ self.old.objectives) × (self.new.told ≡ self.old.told) }
        ensures kept { spans_at self.new k ≡ spans.now }
        ensures others { (j : ℕ) → j ≢ k → spans_at self.new j ≡ spans_at self.old j }
    {
        self.most.keep(k, &spans.most);
        self.least.keep(k, &spans.least);
    }

    // What the spans tell of the trial whose point these bytes say.
    pub(crate) fn glance(&self, bytes: &[u8]) -> Glance
        requires { self.now.told ≡ true → Fitting self.now }
        ensures { Tells self.now bytes.now result }
    {
        if !self.told {
            return Glance::Unclear;
        }
        match self.objectives {
            1 => self.glance_at::<1>(bytes),
            2 => self.glance_at::<2>(bytes),
            3 => self.glance_at::<3>(bytes),
            4 => self.glance_at::<4>(bytes),
            5 => self.glance_at::<5>(bytes),
            _ => self.glance_at::<6>(bytes),
        }
    }

    // The same where there are so many objectives: the compiler knows how many, and has no loop over them.
    fn glance_at<const N: usize>(&self, bytes: &[u8]) -> Glance
        requires { (self.now.told ≡ true) × (self.now.count ≤ 64) × (N ≤ 6) × (self.now.objectives ≡ N) }
        ensures { Tells self.now bytes.now result }
    {
        // asked here and not before: so the compiler knows how many bytes there are, and reads each number at once
        if bytes.len() != 4 * N {
            return Glance::Unclear;
        }
        let numbers = numbers::<N>(bytes);
        let mut shut = false;
        let mut many = 0u32;
        let mut row = 0u32;
        for k in 0..self.count {
            let least = self.least.have(k, &numbers);
            shut |= self.most.have(k, &numbers);
            many += u32::from(least);
            // the sum of the rows: where there is one alone, that row
            row += if least { k as u32 } else { 0 };
        }
        match many {
            0 if shut => Glance::Shut,
            1 if self.most.have(row as usize, &numbers) => Glance::Rival(row as usize),
            _ => Glance::Unclear,
        }
    }
}
