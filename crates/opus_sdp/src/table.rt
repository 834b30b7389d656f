//! The known parameters (RFC 7587, 6.1), in the order in which they are printed.
ghost use Rattle.std.specs.Prelude.{◌≡◌, ◌<◌, ◌≤◌};
ghost use Rattle.opus_sdp.specs.Table.{row_at, row_of};

/// How many known parameters there are.
pub(crate) const ROWS: usize = 8;

/// A row of the table: a known name in small letters, and the numbers that it allows.
#[derive(Clone, Copy)]
pub(crate) struct Row {
    pub(crate) name: &'static [u8],
    pub(crate) least: u32,
    pub(crate) most: u32,
}

impl Row {
    /// The row with this index.
    #[tactic(auto, unfolding(crate::specs::Table::table))]
    pub(crate) fn at(row: usize) -> Row
        requires { row < ROWS }
        ensures name { result.name.now ≡ (row_at row).name }
        ensures least { result.least ≡ (row_at row).least }
        ensures most { result.most ≡ (row_at row).most }
    {
        match row {
            0 => Row::new(b"maxplaybackrate", 8000, 48_000),
            1 => Row::new(b"sprop-maxcapturerate", 8000, 48_000),
            2 => Row::new(b"maxaveragebitrate", 6000, 510_000),
            3 => Row::new(b"stereo", 0, 1),
            4 => Row::new(b"sprop-stereo", 0, 1),
            5 => Row::new(b"cbr", 0, 1),
            6 => Row::new(b"useinbandfec", 0, 1),
            _ => Row::new(b"usedtx", 0, 1),
        }
    }

    fn new(name: &'static [u8], least: u32, most: u32) -> Row
        ensures name { result.name.now ≡ name.now }
        ensures least { result.least ≡ least }
        ensures most { result.most ≡ most }
    {
        Row { name, least, most }
    }
}

/// The index of a name's row, letters in any case, or `ROWS` where the name isn't known.
pub(crate) fn row_of(name: &[u8]) -> usize
    ensures row { result ≡ row_of name.now }
    ensures within { result ≤ ROWS }
{
    for row in 0..ROWS {
        if name.eq_ignore_ascii_case(Row::at(row).name) {
            return row;
        }
    }
    ROWS
}
