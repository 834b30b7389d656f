//! The parameters of a line, one after another.
ghost use Rattle.std.specs.Prelude.{◌≡◌, ◌<◌, ◌≤◌, ◌+◌, ◌^◌, ◌∷◌, [], ◌++◌, true, false, List, length, map, IfOk, option_map, ◌==◌, ℕ};
ghost use Rattle.opus_sdp.specs.Table.{row_of};
ghost use Rattle.opus_sdp.specs.Fault.{has_name};
ghost use Rattle.opus_sdp.specs.Parts.{Part, part_at, name_of};
ghost use Rattle.opus_sdp.specs.Params.{fmtp_of};
ghost use Rattle.opus_sdp.specs.declared.param.Param.{Param};

use crate::names::Names;
use crate::table::{ROWS, Row, row_of};
use crate::text::{blanks, trim_end};
use crate::written::Written;
use crate::{Fmtp, Param, Params, SdpFault};
use opus_io::{Bytes, NoMemory};
use std::alloc::Global;
use text_numbers::read_number;

/// The parameters in front of a place in a line.
#[derive(Drop)]
pub(crate) struct Found {
    /// The numbers of the known ones, in the order of the table.
    numbers: [Option<u32>; ROWS],
    others: Vec<Param>,
    /// The names of the others.
    names: Names,
}

impl Found {
    ghost use Rattle.opus_sdp.specs.Written.{IsWritten};
    ghost use Rattle.opus_sdp.specs.Found.{Stands, Takes, TakesAll, piece_parts};

    /// No parameter.
    pub(crate) fn new(alloc: Global) -> Found
        ensures { Stands result [] }
    {
        Found {
            numbers: [None; ROWS],
            others: Vec::new(alloc),
            names: Names::new(alloc),
        }
    }

    /// Takes the piece that stands at a place between two `;`: a parameter, or blanks alone.
    pub(crate) fn take_piece(
        &mut self,
        alloc: Global,
        at: usize,
        piece: &[u8],
    ) -> Result<(), SdpFault>
        requires { at + length piece.now < 2 ^ 64 }
        ensures { (before : List Param) → Stands self.old before
            → TakesAll result self.new before (piece_parts at piece.now) }
    {
        let front = blanks(piece);
        let text = trim_end(&piece[front..]);
        if text.is_empty() {
            return Ok(());
        }
        self.take(alloc, at + front, text)
    }

    // Takes a parameter that has no blank at its ends.
    fn take(&mut self, alloc: Global, at: usize, text: &[u8]) -> Result<(), SdpFault>
        requires { at + length text.now < 2 ^ 64 }
        ensures { (before : List Param) → Stands self.old before
            → Takes result self.new before (part_at at text.now) }
    {
        let Some(written) = Written::read(at, text) else {
            return Err(SdpFault::Name(at as u64));
        };
        let row = row_of(written.name);
        if row < ROWS {
            self.take_known(row, written)
        } else {
            self.take_other(alloc, written)
        }
    }

    // Takes a parameter with the name of a row.
    fn take_known(&mut self, row: usize, written: Written<'_>) -> Result<(), SdpFault>
        requires { row < ROWS }
        ensures { (before : List Param) (p : Part) → Stands self.old before → IsWritten written.entry p
            → has_name p.text ≡ true → row_of (name_of p.text) ≡ row → Takes result self.new before p }
    {
        if self.numbers[row].is_some() {
            return Err(SdpFault::Repeat(written.at as u64));
        }
        let known = Row::at(row);
        let number = read_number(written.value, known.least, known.most);
        if number.is_none() {
            return Err(SdpFault::Value(written.value_at as u64));
        }
        self.numbers[row] = number;
        Ok(())
    }

    // Takes a parameter with a name that isn't known.
    fn take_other(&mut self, alloc: Global, written: Written<'_>) -> Result<(), SdpFault>
        ensures { (before : List Param) (p : Part) → Stands self.old before → IsWritten written.entry p
            → has_name p.text ≡ true → row_of (name_of p.text) ≡ ROWS → Takes result self.new before p }
    {
        if !self.names.add(alloc, written.name)? {
            return Err(SdpFault::Repeat(written.at as u64));
        }
        let param = Param {
            name: Bytes::copy(alloc, written.name)?,
            value: Bytes::copy(alloc, written.value)?,
        };
        self.others.push(param).map_err(|_| NoMemory)?;
        Ok(())
    }

    /// What the parameters say together.
    pub(crate) fn finish(self, payload_type: u8) -> Fmtp
        ensures { (params : List Param) → Stands self params → result ≡ fmtp_of payload_type params }
    {
        let numbers = self.numbers;
        Fmtp {
            payload_type,
            max_playback_rate: numbers[0],
            max_capture_rate: numbers[1],
            max_average_bitrate: numbers[2],
            stereo: flag(numbers[3]),
            sprop_stereo: flag(numbers[4]),
            cbr: flag(numbers[5]),
            in_band_fec: flag(numbers[6]),
            dtx: flag(numbers[7]),
            others: Params::from_vec(self.others),
        }
    }
}

// Whether the number is 1.
fn flag(number: Option<u32>) -> Option<bool>
    ensures { result ≡ option_map (λ n. n == 1) number }
{
    number.map(|n| n == 1)
}
