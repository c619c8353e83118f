// Adding and removing streams (document 01, "Adding a stream: 4, 5, 7, 8", "Removing: 4, 9").
ghost use Rattle.std.specs.Prelude.{◌≡◌};
ghost use Rattle.meaning.specs.Desks.{edited};
ghost use Rattle.meaning.specs.Calls.{add_stream, remove_stream};
ghost use Rattle.ranges.specs.Numbers.{stream_of};
ghost use Rattle.desk.specs.Desks.{held, Fit, edit_reply};

use crate::parts::{entries_of, keep_stairs};
use crate::{Desk, Reply};
use ranges::StreamNumbers;

// The desk with one stream more.
pub fn add_stream(d: Desk, j: StreamNumbers) -> Reply<()>
    requires { Fit d }
    ensures { (result ≡ edit_reply (edited (held d) (add_stream (stream_of j) (held d)))) × Fit result.desk }
{
    let mut more = entries_of(&d);
    let answer = more.hold_stream(j);
    keep_stairs(d, more, answer)
}

// The desk without the stream that has this id.
pub fn remove_stream(d: Desk, id: u64) -> Reply<()>
    requires { Fit d }
    ensures { (result ≡ edit_reply (edited (held d) (remove_stream id (held d)))) × Fit result.desk }
{
    let mut fewer = entries_of(&d);
    let answer = fewer.drop_stream(id);
    keep_stairs(d, fewer, answer)
}
