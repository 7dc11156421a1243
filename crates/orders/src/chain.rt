// The links of an order, both ways.
ghost use Rattle.std.specs.Prelude.{◌≡◌, ◌+◌, ◌<◌, ◌≤◌, length};
ghost use Rattle.orders.specs.Order.{linked, next_in};

use crate::Base;
use limits::{BACK, STRANDS};

// Puts strand `new` between `after` and `next`, the strand after it, or NO_LINK. `next` is a link, as the C interface has it in the buffer:
// it is copied as it stands.
// requires: the links are there, and `next` is what they say.
pub fn link(links: &mut [u16], base: Base, after: usize, new: usize, next: u16)
    requires links_in_bounds { base.links + 8192 ≤ length links.old }
    requires after_bound { (after < 4096) × (new < 4096) }
    requires next_value { next ≡ next_in links.old base.links after }
    ensures { links.new ≡ linked links.old base.links after new }
{
    links[base.links + after] = new as u16;
    links[base.links + new] = next;
    links[base.links + BACK + new] = after as u16;
    let b = usize::from(next);
    if b < STRANDS {
        links[base.links + BACK + b] = new as u16;
    }
}
