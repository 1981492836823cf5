//! Numbers that look random, and sums of them: what a swap is to add to each cell.

ghost use Rattle.std.specs.Prelude.{◌<◌};

/// How many cells the tables of the tests have.
pub const CELLS: usize = 8;

/// The cells from 0 on among which swaps move: their sum stays.
const ACCOUNTS: usize = 4;

/// A linear congruence, with the constants of Knuth's MMIX.
#[derive(Drop)]
pub struct Random {
    state: u64,
}

impl Random {
    pub fn new(seed: u64) -> Random {
        Random { state: seed }
    }

    /// A number below this one.
    pub fn below(&mut self, end: u64) -> u64
        requires { 0 < end }
        ensures { result < end }
    {
        self.state = self
            .state
            .wrapping_mul(6_364_136_223_846_793_005)
            .wrapping_add(1_442_695_040_888_963_407);
        (self.state >> 33) % end
    }
}

/// The counter that a worker alone raises: a field of 31 bits of a cell behind the accounts, so
/// that eight workers have one each.
#[derive(Clone, Copy)]
pub struct Counter {
    pub cell: usize,
    pub shift: u32,
}

impl Counter {
    pub fn of(worker: usize) -> Counter
        ensures cell { result.cell < CELLS }
        ensures shift { result.shift < 64 }
    {
        Counter {
            cell: ACCOUNTS + worker % ACCOUNTS,
            shift: if worker < ACCOUNTS { 0 } else { 31 },
        }
    }

    /// How far it is raised where the cell holds this value.
    pub fn raised(self, value: u64) -> u64
        requires { self.shift < 64 }
    {
        (value >> self.shift) & ((1 << 31) - 1)
    }
}

/// What one swap is to add to each cell, modulo 2^64: it raises the counter, or moves between two
/// accounts, or does both, or moves between all four. So one to four cells change.
pub fn amounts(random: &mut Random, counter: Counter) -> [u64; CELLS]
    requires cell { counter.cell < CELLS }
    requires shift { counter.shift < 64 }
{
    let much = 1 + random.below(9);
    let from = random.below(4) as usize;
    let to = (from + 1 + random.below(3) as usize) % ACCOUNTS;
    let kind = random.below(4);
    let mut amounts = [0u64; CELLS];
    if kind == 3 {
        for account in 0..ACCOUNTS {
            amounts[account] = if account % 2 == 0 {
                much
            } else {
                0u64.wrapping_sub(much)
            };
        }
        return amounts;
    }
    if kind != 0 {
        amounts[from] = 0u64.wrapping_sub(much);
        amounts[to] = much;
    }
    if kind != 1 {
        amounts[counter.cell] = 1 << counter.shift;
    }
    amounts
}

/// Adds the amounts of one swap, modulo 2^64.
pub fn add_amounts(sums: &mut [u64; CELLS], amounts: &[u64; CELLS]) {
    for cell in 0..CELLS {
        sums[cell] = sums[cell].wrapping_add(amounts[cell]);
    }
}
