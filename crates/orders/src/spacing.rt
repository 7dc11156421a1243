// The labels of a respacing, and whether one changes.
ghost use Rattle.std.specs.Prelude.{◌≡◌, ◌<◌, length, get_or, set};
ghost use Rattle.orders.specs.Order.{differ, spaced};

// How far apart the labels of two neighbours are: 2^52. That of position 0 is half of it.
pub const SPACING: u64 = 1 << 52;

// The label of position k: 2^51 + k * 2^52.
// requires: an order has 4,096 positions, and the label of any further one has more than 64 bits.
pub fn spaced(k: usize) -> u64
    requires { k < 4096 }
    ensures { result ≡ spaced k }
{
    SPACING / 2 + (k as u64) * SPACING
}

// Makes the entry at `at` `label`, and returns 1 if it was another number.
// requires: the entry is there.
#[tactic(auto, unfolding(crate::specs::Order::differ))]
pub fn put(labels: &mut [u64], at: usize, label: u64) -> usize
    requires { at < length labels.old }
    ensures labels_after { labels.new ≡ set labels.old at label }
    ensures value { result ≡ differ (get_or labels.old at 0) label }
{
    let changed = usize::from(labels[at] != label);
    labels[at] = label;
    changed
}
