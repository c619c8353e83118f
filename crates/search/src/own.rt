// The stream that is asked about, as numbers in range.
ghost use Rattle.std.specs.Prelude.{◌≡◌, ◌+◌, ◌*◌, ◌≤◌};
ghost use Rattle.meaning.specs.Arrivals.{most_in};
ghost use Rattle.meaning.proofs.Later.{next_of};
ghost use Rattle.search.specs.Asked.{OwnFits, asked};

use arrivals::frames_wire;

// Of the stream asked about: the largest wire time of a lower priority, its wire time, its period and its jitter.
#[derive(Clone, Copy)]
pub struct Own {
    pub lower: u32,
    pub wire: u32,
    pub period: u32,
    pub jitter: u32,
    pub ghost fits: { OwnFits (asked lower wire period jitter) },
}

impl Own {
    ghost use Rattle.search.specs.Searches.{asked_stream};

    // The most of its frames in a closed stretch of x ns.
    pub fn frames_in(&self, x: u32) -> u32
        requires { x ≤ 100_000_000 }
        ensures { (result ≡ most_in (asked_stream self.now) x) × (1 ≤ result) × (result ≤ 20_001) }
    {
        arrivals::frames_in(x, self.period, self.jitter)
    }

    // When one frame more of it than in x ns can come.
    pub fn next_after(&self, x: u32) -> u32
        requires { x ≤ 100_000_000 }
        ensures { (result ≡ next_of (asked_stream self.now) x) × (result ≤ 200_000_000) }
    {
        arrivals::next_after(x, self.period, self.jitter)
    }

    // What it asks for by itself: L, and the wire time of its frames in x.
    pub fn load(&self, x: u32) -> u64
        requires { x ≤ 100_000_000 }
        ensures { (result ≡ self.now.lower + most_in (asked_stream self.now) x * self.now.wire)
            × (result ≤ 60_002_000_000) }
    {
        u64::from(self.lower) + frames_wire(self.frames_in(x), self.wire)
    }
}
