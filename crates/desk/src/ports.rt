// The bare desk, and opening its port (document 01, "Opening: 4, 5").
ghost use Rattle.std.specs.Prelude.{◌≡◌};
ghost use Rattle.meaning.specs.Desks.{bare, edited};
ghost use Rattle.meaning.specs.Calls.{open_port};
ghost use Rattle.ranges.specs.Numbers.{port_of};
ghost use Rattle.desk.specs.Desks.{held, desk_of, Fit, edit_reply};

use crate::parts::{entries_of, keep_stairs};
use crate::{Desk, Reply};
use meaning::{Slot, Stream};
use ranges::PortNumbers;
use rows::Keyed;

// The bare desk: it has no port, and every place is free.
pub fn bare() -> Desk
    ensures { (result ≡ desk_of bare) × Fit result }
{
    Desk {
        opened: false,
        rate: 0,
        cycle: 0,
        guard: 0,
        header: 0,
        nslots: 0,
        slots: [Slot::free(); 32],
        nstreams: 0,
        streams: [Stream::free(); 64],
        nstairs: 0,
        far: [0; 993],
        tot: [0; 993],
    }
}

// The desk with its port opened; it holds no slot and no stream yet.
pub fn open_port(d: Desk, p: PortNumbers) -> Reply<()>
    requires { Fit d }
    ensures { (result ≡ edit_reply (edited (held d) (open_port (port_of p) (held d)))) × Fit result.desk }
{
    let mut made = entries_of(&d);
    let answer = made.hold_port(p);
    keep_stairs(d, made, answer)
}
