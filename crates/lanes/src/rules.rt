// The rows of a page as the tests in lanes take them.
ghost use Rattle.std.specs.Prelude.{◌≤◌, length};
ghost use Rattle.lanes.specs.Lanes.{LowBodies};

// The rows in words and, row by row, the lanes in which the low part of the row's body holds.
#[derive(Clone, Copy)]
pub struct Rules<'a> {
    pub rows: &'a [u64],
    pub lows: &'a [u64],
    pub ghost fit: { length rows.now ≤ length lows.now },
    pub ghost bodies: { LowBodies rows.now lows.now },
}
