// The interference table (document 01, "Interference"): stairs stored as rows, and V read from them.
#![tactic(auto)]

ghost use Rattle.std.specs.Prelude.{◌≡◌, ◌≤◌, true, false, leb, length};
ghost use Rattle.std.specs.List.Sorted.{IsPartitionPoint};
ghost use Rattle.table.specs.Lookup.{all_in, stairs_v, StairsFit};

// How many stairs there are, their distances and their totals. The places left are 0.
// Stays: fixed memory, no heap; a desk stores these three as they are.
#[derive(Clone, Copy)]
pub struct Table {
    pub n: usize,
    pub far: [u32; 993],
    pub tot: [u32; 993],
}

// Stairs lent to a question: the cycle, and of each stair the distance and the total.
#[derive(Clone, Copy)]
pub struct Stairs<'a> {
    pub cycle: u32,
    pub far: &'a [u32],
    pub tot: &'a [u32],
    pub ghost fits: { StairsFit cycle far.now tot.now },
}

// The last of the totals, 0 with none: of all stairs it is all blocked cells.
pub fn all_blocked(tot: &[u32]) -> u32
    ensures { result ≡ all_in tot.now (length tot.now) }
{
    tot.last().copied().unwrap_or(0)
}

impl<'a> Stairs<'a> {
    // The total of the last stair, 0 with none: all blocked cells.
    pub fn all_blocked(&self) -> u32
        ensures { result ≡ all_in self.now.tot.now (length self.now.tot.now) }
    {
        all_blocked(self.tot)
    }

    // How many stairs u reaches: a search by halves among lots of 64, and a count in the lot behind those reached. No
    // branch of the count hangs on u, and a branch that is guessed wrongly costs more than several distances.
    fn reached(&self, u: u32) -> usize
        ensures bound { result ≤ length self.now.far.now }
        ensures partitioned { IsPartitionPoint (λ d. leb d u ≡ true) (λ d. leb d u ≡ false) self.now.far.now result }
    {
        let (lots, _) = self.far.as_chunks::<64>();
        let before = 64 * lots.partition_point(|lot| lot[63] <= u);
        let rest = &self.far[before..];
        let mut n: u32 = 0;
        for d in &rest[..rest.len().min(64)] {
            n += u32::from(*d <= u);
        }
        before + n as usize
    }

    // V(t): the whole cycles in t times all blocked cells, plus the total of the last stair that the remainder reaches.
    pub fn interference(&self, t: u32) -> u64
        ensures { result ≡ stairs_v self.now.cycle self.now.far.now self.now.tot.now t }
    {
        let reached = self.reached(t % self.cycle);
        let rest = u64::from(all_blocked(&self.tot[..reached]));
        u64::from(t / self.cycle) * u64::from(self.all_blocked()) + rest
    }
}
