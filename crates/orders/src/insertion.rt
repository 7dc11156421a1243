// A strand put right after any other one. A respacing starts at a mark: what stands ahead of it has the labels of its positions already.
ghost use Rattle.std.specs.Prelude.{◌≡◌, ◌+◌, ◌-◌, ◌≤◌, length};
ghost use Rattle.orders.specs.Order.{Walkable, order_of, relabel, changes, above};
ghost use Rattle.orders.specs.Model.{Inserted};
ghost use Rattle.orders.specs.Marked.{lower, Marked, Settles};

use crate::Base;
use crate::chain::link;
use crate::spacing::{SPACING, put, spaced};
use limits::STRANDS;

// Where the next respacing of an order starts: strand `from` stands at position `at`, and all that stand ahead of it have the labels of
// their positions. Before the first respacing that is strand 0, at position 0; after one, with every strand ahead, `from` means nothing. It
// is a number all the same: `lowered` sets it before anything walks from it, so an Option would only add a test that never fails.
#[derive(Clone, Copy)]
pub struct Mark {
    pub from: usize,
    pub at: usize,
}

// How many labels an insertion set or changed, and the mark after it.
#[derive(Clone, Copy)]
pub struct Placing {
    pub changed: usize,
    pub mark: Mark,
}

// Puts strand `new`, the next one, right after strand `after`, and returns how many labels that set or changed, with the mark after it.
// requires: the buffers hold an order of the strands below `new`, which only the calls before this one can show.
pub fn insert(
    labels: &mut [u64],
    links: &mut [u16],
    base: Base,
    after: usize,
    new: usize,
    mark: Mark,
) -> Placing
    requires { Marked labels.old links.old base.labels base.links after new mark }
    ensures inserted { Inserted labels.old links.old base.labels base.links after new labels.new links.new result.changed }
    ensures settles { Settles labels.old links.old base.labels base.links after new mark result.mark }
{
    let next = links[base.links + after];
    link(links, base, after, new, next);
    let a = labels[base.labels + after];
    let gap = above(labels, base, usize::from(next)) - a;
    let low = lowered(mark, after, a);
    if gap >= 2 {
        labels[base.labels + new] = a + gap / 2;
        return Placing {
            changed: 1,
            mark: low,
        };
    }
    labels[base.labels + new] = 0;
    let n = new + 1;
    let changed = respace(labels, links, base, low, n);
    let all = Mark { from: 0, at: n };
    Placing { changed, mark: all }
}

// The mark once something goes behind strand `after`, whose label is a: that strand, if it stands ahead of the mark, and so has the label
// of its position.
#[tactic(auto, unfolding(crate::specs::Marked::lower))]
fn lowered(mark: Mark, after: usize, a: u64) -> Mark
    ensures { result ≡ lower mark after a }
{
    let at = (a / SPACING) as usize;
    if at < mark.at {
        Mark { from: after, at }
    } else {
        mark
    }
}

// The label of strand `next`, or the largest number where that is none. `next` is a link, as the C interface has it in the buffer.
#[tactic(auto, unfolding(crate::specs::Order::above))]
fn above(labels: &[u64], base: Base, next: usize) -> u64
    requires { base.labels + 4096 ≤ length labels.now }
    ensures { result ≡ above labels.now base.labels next }
{
    if next < STRANDS {
        labels[base.labels + next]
    } else {
        u64::MAX
    }
}

// Gives position k of the order of n strands the label 2^51 + k * 2^52, from the mark on, and returns how many labels that changed.
#[tactic(auto, using(crate::proofs::Respaced::differ_few, crate::proofs::Respaced::order_below))]
fn respace(labels: &mut [u64], links: &[u16], base: Base, mark: Mark, n: usize) -> usize
    requires { Walkable labels.old links.now base.labels base.links mark.from mark.at n }
    ensures labels_after { labels.new ≡ relabel labels.old base.labels mark.at (order_of links.now base.links (n - mark.at) mark.from) }
    ensures value { result ≡ changes labels.old base.labels mark.at (order_of links.now base.links (n - mark.at) mark.from) }
{
    let mut s = mark.from;
    let mut changed = 0;
    for k in mark.at..n {
        changed += put(labels, base.labels + s, spaced(k));
        s = usize::from(links[base.links + s]);
    }
    changed
}
