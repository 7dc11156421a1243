// What the check keeps from event to event.
ghost use Rattle.std.specs.Prelude.{◌≤◌};

// How many tasks are open, whether the current one has something to join, and the strands begun. No more is kept of the other open tasks:
// each has spawned the next, which is open, so it has something to join.
#[derive(Clone, Copy)]
pub struct Tasks {
    pub depth: usize,
    pub waits: bool,
    pub strands: usize,
    ghost within: { (1 ≤ depth) × (depth ≤ 64) × (1 ≤ strands) × (strands ≤ 4096) },
}
