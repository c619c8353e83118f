// What a window has to cover besides the frames of the stream asked about.
ghost use Rattle.search.specs.Searches.{TableBounds};

use arrivals::Rows;
use table::Stairs;

// The streams beside it, and the stairs. All blocked cells and V(0) are within the horizon, and V grows.
#[derive(Clone, Copy)]
pub struct Demand<'a> {
    pub rows: &'a Rows,
    pub stairs: Stairs<'a>,
    pub ghost bounds: { TableBounds stairs },
}
