//! Which of the tariffs that were found are of use.

use pg_tariffs::Tariffs;
use pg_tolls::Tariff;
use std::alloc::{AllocError, Global};

// The most tariffs that are chosen.
const MOST_CHOSEN: usize = 64;

// How often each tariff has excluded a node, by its number.
pub(crate) fn uses_of(alloc: Global, tariffs: &Tariffs) -> Result<Vec<u64>, AllocError> {
    let mut uses = Vec::new(alloc);
    for number in 0..tariffs.len() {
        if let Some((_, count)) = tariffs.get(number) {
            uses.push(count)?;
        }
    }
    Ok(uses)
}

// How often each excluded one since it had been so often.
fn uses_since(uses: &[u64], before: &[u64], alloc: Global) -> Result<Vec<u64>, AllocError> {
    let mut since = Vec::new(alloc);
    for number in 0..uses.len() {
        let count = uses.get(number).copied().unwrap_or(0);
        let earlier = before.get(number).copied().unwrap_or(0);
        since.push(count.saturating_sub(earlier))?;
    }
    Ok(since)
}

// The number of the one that was used most, the first of several; none where none was used.
fn most_used(uses: &[u64]) -> Option<usize> {
    let mut most = 0u64;
    let mut found = None;
    for number in 0..uses.len() {
        let count = uses.get(number).copied().unwrap_or(0);
        if count > most {
            most = count;
            found = Some(number);
        }
    }
    found
}

// The tariffs that were used since they had been so often, those first that were used most, at most 64.
pub(crate) fn chosen(
    alloc: Global,
    tariffs: &Tariffs,
    before: &[u64],
) -> Result<Vec<Tariff>, AllocError> {
    let now = uses_of(alloc, tariffs)?;
    let mut uses = uses_since(now.as_slice(), before, alloc)?;
    let mut chosen = Vec::new(alloc);
    for _ in 0..MOST_CHOSEN {
        let Some(number) = most_used(uses.as_slice()) else {
            break;
        };
        if let Some(count) = uses.get_mut(number) {
            *count = 0;
        }
        if let Some((tariff, _)) = tariffs.get(number) {
            chosen.push(tariff)?;
        }
    }
    Ok(chosen)
}

// All tariffs, by their numbers.
pub(crate) fn all_of(alloc: Global, tariffs: &Tariffs) -> Result<Vec<Tariff>, AllocError> {
    let mut all = Vec::new(alloc);
    for number in 0..tariffs.len() {
        if let Some((tariff, _)) = tariffs.get(number) {
            all.push(tariff)?;
        }
    }
    Ok(all)
}
