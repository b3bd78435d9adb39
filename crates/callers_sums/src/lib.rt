//! What the programs of the structures' callers share: sums of numbers, items by chance, and lists of items.
#![tactic(auto)]

/// How many elements there are.
pub const SIZE: u64 = 1000;

/// How many numbers there were, and a sum by which two lists of them are told apart.
#[derive(Clone, Copy)]
pub struct Sum(u64, u64);

/// The sum of no number.
pub const EMPTY: Sum = Sum(0, 14695981039346656037);

impl Sum {
    /// Adds a number.
    pub fn add(&mut self, number: u64) {
        self.0 = self.0.wrapping_add(1);
        self.1 = (self.1 ^ number).wrapping_mul(1099511628211);
    }

    /// Adds a number that has to be there. Where it isn't, it adds the greatest one.
    pub fn add_found(&mut self, number: Option<&u64>) {
        self.add(*number.unwrap_or(&u64::MAX));
    }
}

/// Prints a sum in a line of its own, and returns whether it did.
pub fn tell(rt: &HostRuntime, what: &str, sum: Sum) -> bool {
    println!(rt; "{what}: {} numbers, {}", sum.0, sum.1).is_ok()
}

/// A number that looks random, below 2^31, for each turn another one.
pub fn chance(turn: u64) -> u64 {
    let mixed = turn.wrapping_mul(6364136223846793005);
    (mixed ^ (mixed >> 32)).wrapping_mul(6364136223846793005) >> 33
}

/// One of these items by such a number, or the default if there is none.
pub fn pick<T: Copy + Default>(items: &[T], turn: u64) -> T {
    let at = chance(turn) as usize % items.len().max(1);
    items.get(at).copied().unwrap_or_default()
}

/// Keeps an item that a call made, and returns whether it made one and this found room.
pub fn keep<T: Copy>(items: &mut Vec<T>, made: Option<T>) -> bool {
    matches!(made, Some(item) if items.push(item).is_ok())
}
