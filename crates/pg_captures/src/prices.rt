//! What the lists of prices need: how many men they are for, and their sums.
ghost use Rattle.std.specs.Prelude.{◌≡◌, ℕ, ◌*◌, ◌≤◌, length, sum};

/// The sum of a list of prices.
#[tactic(auto, using(crate::proofs::SumLemmas::first_sum, crate::proofs::SumLemmas::more_sum, crate::proofs::SumLemmas::whole_sum))]
pub fn price_sum(prices: &[u8]) -> u16
    requires { length prices.now ≤ 64 }
    ensures value { result ≡ sum prices.now }
    ensures few { result ≤ 16320 }
{
    let mut sum = 0u16;
    for i in 0..prices.len() {
        sum += u16::from(prices[i]);
    }
    sum
}
