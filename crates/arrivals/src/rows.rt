// The streams that count for a response, as rows of numbers in range.
ghost use Rattle.arrivals.specs.Rows.{RowsFit};

// How many streams there are, and the period, the jitter and the wire time of each.
// Stays: fixed memory, no heap; and a row of one number is passed over many streams at a time.
#[derive(Clone, Copy)]
pub struct Rows {
    pub n: usize,
    pub per: [u32; 64],
    pub jit: [u32; 64],
    pub cost: [u32; 64],
    pub ghost fit: { RowsFit per jit cost n },
}
