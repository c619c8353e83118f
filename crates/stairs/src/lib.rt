// The stairs from the runs: from each run there is a row of pairs, and the nearest head of all rows is taken each time.
// The heads are the leaves of a tree, so that the next head of a row is compared with five others and not with all.
#![tactic(auto)]

ghost use Rattle.std.specs.Prelude.{◌≡◌, List, ℕ, ◌+◌, ◌*◌, ◌/◌, ◌%◌, ◌≤◌, ◌<◌, length, get_or, set, replicate};
ghost use Rattle.meaning.specs.Runs.{dist};
ghost use Rattle.meaning.specs.Interference.{pairs, stairs_of};
ghost use Rattle.table.specs.Rows.{table_of};
ghost use Rattle.table.proofs.Rows.{grown};
ghost use Rattle.stairs.specs.Rows.{RunsFit};
ghost use Rattle.stairs.specs.Heads.{key_of, far_of, total_of, head_key, Moving};
ghost use Rattle.stairs.specs.Tree.{Nodes, Standing};

use meaning::Run;
use table::Table;

// The least leaf of a row that has no pair left: its key, times 32.
// Stays: no plainer as an Option, since the tree then compares one number no longer.
const DONE: u64 = 576_460_752_303_423_488;

// A pair of row i as a leaf, which is its key times 32, plus i: the nearer pair has the smaller one, and of two as near
// the one with the larger total.
#[tactic(auto, unfolding(crate::specs::Heads::key_of))]
fn leaf(far: u32, total: u32, i: usize) -> u64
    requires { (total ≤ 134_217_727) × (i < 32) }
    ensures { result ≡ key_of far total * 32 + i }
{
    u64::from(far) * 4_294_967_296 + (134_217_727 - u64::from(total)) * 32 + i as u64
}

// The distance of the pair with this leaf.
fn far_of(v: u64) -> u32
    ensures { result ≡ far_of (v / 32) }
{
    (v / 4_294_967_296) as u32
}

// The total of the pair with this leaf.
fn total_of(v: u64) -> u32
    ensures { result ≡ total_of (v / 32) }
{
    (134_217_727 - v / 32 % 134_217_728) as u32
}

// The distance from the start s to the start e, around the circle.
fn distance(cycle: u32, s: u32, e: u32) -> u32
    requires { (s < cycle) × (e < cycle) × (cycle ≤ 100_000_000) }
    ensures { result ≡ dist cycle s e }
{
    if s <= e { e - s } else { e + (cycle - s) }
}

// The j-th run behind run i, around.
// By a comparison: (i + j) % n would divide for each pair.
fn behind(i: usize, j: usize, n: usize) -> usize
    requires { (i < n) × (j < n) × (n ≤ 32) }
    ensures { (result ≡ (i + j) % n) × (result < n) }
{
    if i + j < n { i + j } else { i + j - n }
}

// Row i's head at its j-th pair, where t is the total length of the runs met before it.
fn head(cycle: u32, runs: &[Run], i: usize, j: usize, t: u32) -> u64
    requires { Moving cycle runs.now i j t }
    ensures { result ≡ head_key cycle runs.now i j * 32 + i }
{
    if runs.len() <= j {
        return DONE + i as u64;
    }
    let met = runs[behind(i, j, runs.len())];
    let d = distance(cycle, runs[i].start, met.start);
    leaf(d, t + met.len, i)
}

// Row i's leaf becomes v, and each node above it again the lesser of the two below. The answer is the least leaf.
fn put(tree: &mut [u64; 64], i: usize, v: u64) -> u64
    requires { (length tree.old ≡ 64) × (i < 32) × (v % 32 ≡ i) }
    ensures { (result ≡ get_or tree.new 1 0) × (length tree.new ≡ 64)
        × ((keys : List ℕ) → Nodes keys tree.old 0 → Nodes (set keys i (v / 32)) tree.new 0) }
{
    let mut k = 32 + i;
    let mut low = v;
    tree[k] = low;
    while 1 < k {
        let m = k / 2;
        // The other node below m: the two of them are 2 m and 2 m + 1.
        low = low.min(tree[4 * m + 1 - k]);
        tree[m] = low;
        k = m;
    }
    low
}

// The tree of all heads, where each row stands at its own run.
fn heads(cycle: u32, runs: &[Run]) -> [u64; 64]
    requires { RunsFit cycle runs.now }
    ensures { Standing cycle runs.now (replicate 32 0) result }
{
    let mut tree = [DONE; 64];
    for i in 0..runs.len() {
        put(&mut tree, i, head(cycle, runs, i, 0, 0));
    }
    tree
}

// One stair more, behind the others.
fn push(table: &mut Table, far: u32, tot: u32)
    requires { table.old.n < 993 }
    ensures { table.new ≡ grown table.old far tot }
{
    table.far[table.n] = far;
    table.tot[table.n] = tot;
    table.n += 1;
}

// The table of the runs: each time the nearest head, a stair if its total is over the last one's.
pub fn build(cycle: u32, runs: &[Run]) -> Table
    requires { (length runs.now ≤ 32) × RunsFit cycle runs.now }
    ensures { result ≡ table_of (stairs_of (pairs cycle runs.now)) }
{
    let mut tree = heads(cycle, runs);
    let mut pos = [0; 32];
    let mut table = Table {
        n: 0,
        far: [0; 993],
        tot: [0; 993],
    };
    let mut top = 0;
    let mut low = tree[1];
    while low < DONE {
        let i = (low % 32) as usize;
        let t = total_of(low);
        if top < t {
            push(&mut table, far_of(low), t);
            top = t;
        }
        pos[i] += 1;
        low = put(&mut tree, i, head(cycle, runs, i, pos[i], t));
    }
    table
}
