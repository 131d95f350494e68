// First-in first-out queues in lent work: rings of depth places, of a width of W floats each. Only a push writes the work. No VecDeque,
// since the project's rules want fixed memory and no heap.
ghost use Rattle.std.specs.Prelude.{◌≡◌, ◌+◌, ◌*◌, ◌≤◌, ◌<◌};
ghost use Rattle.branch.specs.Queue.{Lies, fits, slot_of, place_of, floats_at, pop_def, PushedTo};

use crate::QueueFull;

// Where a ring stands in the work: the same for a whole replay. Ring, place and work are handed on apart. A view of the three for one call
// would be no plainer: each caller would build it of the same three, a push would need a second view, of `&mut` work, and `settle`, which
// pops while it reads, the ring beside the view. So the clause Lies says where a ring lies.
#[derive(Clone, Copy)]
pub struct Place {
    pub base: usize,
    pub depth: usize,
}

// The entries of a ring: count of them, from place head on; behind the last place comes the first.
#[derive(Clone, Copy)]
pub struct Ring {
    pub head: usize,
    pub count: usize,
}

impl Ring {
    pub(crate) fn fits(self, depth: usize) -> bool
        ensures { result ≡ fits self depth }
    {
        (self.head < depth) & (self.count <= depth)
    }

    // Which place has the entry i from the front; i is count for the next entry.
    #[tactic(auto, unfolding(crate::specs::Queue::slot_of))]
    fn slot(self, depth: usize, i: usize) -> usize
        requires { (self.head < depth) × ((i < depth) × (depth ≤ 9223372036854775807)) }
        ensures { (result ≡ slot_of depth self i) × (result < depth) }
    {
        let at = self.head + i;
        if at < depth {
            return at;
        }
        at - depth
    }

    // Where that place begins in the work.
    #[tactic(auto, unfolding(crate::specs::Queue::place_of))]
    fn offset(self, w: Place, width: usize, i: usize) -> usize
        requires head_lt_depth { (self.head < w.depth) × ((i < w.depth) × (0 < width)) }
        requires depth_bound { w.base + width * w.depth ≤ 9223372036854775807 }
        ensures { (result ≡ place_of width w self i) × (result + width ≤ w.base + width * w.depth) }
    {
        let at = self.slot(w.depth, i);
        w.base + width * at
    }

    #[tactic(auto, unfolding(crate::specs::Queue::floats_at))]
    pub(crate) fn entry<const W: usize>(self, w: Place, work: &[f64], i: usize) -> [f64; W]
        requires lies { Lies W work.now w self }
        requires i_lt_count { (i < self.count) × (0 < W) }
        ensures { result ≡ floats_at W work.now (place_of W w self i) }
    {
        let p = self.offset(w, W, i);
        let mut e = [0.0; W];
        e.copy_from_slice(&work[p..p + W]);
        e
    }

    // The entry goes behind the last. Nothing changes where no place is left. The push of Bsys shares the name alone.
    pub(crate) fn push<const W: usize>(
        &mut self,
        w: Place,
        work: &mut [f64],
        e: [f64; W],
    ) -> Result<(), QueueFull>
        requires lies { Lies W work.old w self.old }
        requires nonempty { 0 < W }
        ensures { PushedTo W work.old w self.old e.entry result self.new work.new }
    {
        if self.count == w.depth {
            return Err(QueueFull);
        }
        let p = self.offset(w, W, self.count);
        work[p..p + W].copy_from_slice(&e);
        self.count = self.count + 1;
        Ok(())
    }

    // The first entry goes.
    #[tactic(auto, unfolding(crate::specs::Queue::pop_def))]
    pub(crate) fn pop(&mut self, w: Place)
        requires { (self.old.head < w.depth) × (0 < self.old.count) }
        ensures { self.new ≡ pop_def w.depth self.old }
    {
        let at = self.head + 1;
        self.head = if at == w.depth { 0 } else { at };
        self.count = self.count - 1;
    }
}
