//! Least assignments, held against every assignment of small matrices.

use super::*;

// Numbers that are the same at each run.
#[derive(Drop)]
struct Numbers {
    state: u64,
}

impl Numbers {
    fn below(&mut self, limit: u64) -> u64 {
        self.state = next(self.state);
        if limit == 0 {
            0
        } else {
            (self.state >> 20) % limit
        }
    }
}

// Costs of `targets` targets and `sources` sources, from 0 to 10 or none; the others are none.
fn random_costs(numbers: &mut Numbers, targets: usize, sources: usize, most: u64) -> Costs {
    let mut costs = [[255u8; MOST_MEN]; MOST_MEN];
    for t in 0..MOST_MEN {
        for s in 0..MOST_MEN {
            if t < targets && s < sources && numbers.below(5) != 0 {
                costs[t][s] = (numbers.below(most) % 256) as u8;
            }
        }
    }
    costs
}

// The sum of the assignment with this number, where a digit above the sources is a dummy; none where
// two targets get one source.
fn sum_of(costs: &Costs, targets: usize, sources: usize, dummy: u8, number: u32) -> Option<u16> {
    let base = sources.saturating_add(1).max(1);
    let mut number = number as usize;
    let mut used = 0u32;
    let mut sum = 0u16;
    for t in 0..MOST_MEN {
        if t < targets {
            let s = number % base;
            number /= base;
            if s < sources && s < MOST_MEN {
                if used >> s & 1 == 1 {
                    return None;
                }
                used |= 1 << s;
                sum = sum.saturating_add(u16::from(costs[t][s].min(dummy)));
            } else {
                sum = sum.saturating_add(u16::from(dummy));
            }
        }
    }
    Some(sum)
}

// The least sum of all assignments.
fn least_sum(costs: &Costs, targets: usize, sources: usize, dummy: u8) -> u16 {
    let mut count = 1u32;
    for _ in 0..targets {
        count = count.saturating_mul((sources.saturating_add(1) % 1000) as u32);
    }
    let mut least = u16::MAX;
    for number in 0..count {
        if let Some(sum) = sum_of(costs, targets, sources, dummy, number) {
            least = least.min(sum);
        }
    }
    least
}

// The prices are at most a dummy's cost, and no pair costs less than the difference; their difference
// is the value.
fn is_priced(costs: &Costs, targets: usize, dummy: u8, answer: &Assignment) -> bool {
    let mut gained = 0u16;
    let mut spent = 0u16;
    for t in 0..MOST_MEN {
        let price = answer.targets[t];
        gained = gained.saturating_add(u16::from(price));
        spent = spent.saturating_add(u16::from(answer.sources[t]));
        if price > dummy || answer.sources[t] > dummy || (t >= targets && price > 0) {
            return false;
        }
        for s in 0..MOST_MEN {
            if price > costs[t][s].saturating_add(answer.sources[s]) {
                return false;
            }
        }
    }
    gained == answer.value.saturating_add(spent)
}

#[test]
fn every_small_matrix_has_the_least_sum(rt: HostRuntime) {
    let mut numbers = Numbers {
        state: 0x9e37_79b9_7f4a_7c15,
    };
    for round in 0..40u32 {
        for targets in 0..6usize {
            for sources in 0..6usize {
                let dummy = if round % 2 == 0 { 65 } else { 17 };
                let most = if round % 3 == 0 { 3 } else { 30 };
                let costs = random_costs(&mut numbers, targets, sources, most);
                let answer = assign(&costs, targets, dummy);
                let least = least_sum(&costs, targets, sources, dummy);
                assert!(rt; answer.value == least, "{round} {targets} {sources}");
                assert!(rt; is_priced(&costs, targets, dummy, &answer));
            }
        }
    }
}

#[test]
fn large_matrices_are_priced(rt: HostRuntime) {
    let mut numbers = Numbers {
        state: 88172645463325252,
    };
    for round in 0..2000usize {
        let targets = round % 17;
        let sources = numbers.below(17) as usize;
        let costs = random_costs(&mut numbers, targets, sources, 11);
        let answer = assign(&costs, targets, 65);
        assert!(rt; is_priced(&costs, targets, 65, &answer), "{round}");
    }
}
