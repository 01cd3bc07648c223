// How many words of a weight there are.
ghost use Rattle.std.specs.Prelude.{◌≡◌, ◌≤◌, ◌<◌, length};
ghost use Rattle.paper.specs.Words.{width};
ghost use Rattle.paper.specs.Listing.{listed};

use paper::Count;

// The number of words of weight v over n cells: each is the one before, times the cells left, by the cells taken. The division comes first and its rest after, so that no product is more than a word holds.
pub fn ways(n: u32, v: u32) -> Count
    requires { (n ≤ width) × (v < width) }
    ensures { result ≡ length (listed n v) }
{
    let mut count: Count = 1;
    for i in 0..v {
        let left = Count::from(n.saturating_sub(i));
        let taken = Count::from(i) + 1;
        count = count / taken * left + count % taken * left / taken;
    }
    count
}
