// A strand put behind all others, in an order whose strands stand as they began: strand s stands at position s, so no link is followed.
ghost use Rattle.std.specs.Prelude.{◌≡◌, ◌+◌, ◌-◌, ◌≤◌, length};
ghost use Rattle.orders.specs.Order.{relabel, changes};
ghost use Rattle.orders.specs.Model.{Inserted};
ghost use Rattle.orders.specs.InTurn.{strands_from, Appendable, Appends};

use crate::Base;
use crate::chain::link;
use crate::spacing::{put, spaced};
use limits::NO_LINK;

// How many labels an append set or changed, and how many strands from the first on then have the labels of their positions. Beside `Placing`:
// the two share a count, and one type with a parameter would have to call the number and the mark by one name.
#[derive(Clone, Copy)]
pub struct Appending {
    pub changed: usize,
    pub settled: usize,
}

// Puts strand `new`, the next one, behind all others; the strands below `settled` have the labels of their positions. It leaves what
// `insert` after the last strand leaves.
// requires: the buffers hold the strands below `new` as they began, which only the calls before this one can show.
pub fn append(
    labels: &mut [u64],
    links: &mut [u16],
    base: Base,
    new: usize,
    settled: usize,
) -> Appending
    requires { Appendable labels.old links.old base.labels base.links new settled }
    ensures inserted { Inserted labels.old links.old base.labels base.links (new - 1) new labels.new links.new result.changed }
    ensures appends { Appends labels.old links.old base.labels base.links new settled result.settled }
{
    let last = new - 1;
    link(links, base, last, new, NO_LINK);
    let a = labels[base.labels + last];
    let gap = u64::MAX - a;
    if gap >= 2 {
        labels[base.labels + new] = a + gap / 2;
        return Appending {
            changed: 1,
            settled,
        };
    }
    labels[base.labels + new] = 0;
    let n = new + 1;
    let changed = respace(labels, base, settled, n);
    Appending {
        changed,
        settled: n,
    }
}

// Gives strand k the label of position k, from `at` on, and returns how many labels that changed. It shares `put` with the walk along the
// links, and not the loop: that would take a closure for the next strand, with a contract longer than the loop.
#[tactic(auto, using(crate::proofs::Respaced::differ_few))]
fn respace(labels: &mut [u64], base: Base, at: usize, n: usize) -> usize
    requires { (at ≤ n) × (n ≤ 4096) × (base.labels + 4096 ≤ length labels.old) }
    ensures labels_after { labels.new ≡ relabel labels.old base.labels at (strands_from at (n - at)) }
    ensures value { result ≡ changes labels.old base.labels at (strands_from at (n - at)) }
{
    let mut changed = 0;
    for k in at..n {
        changed += put(labels, base.labels + k, spaced(k));
    }
    changed
}
