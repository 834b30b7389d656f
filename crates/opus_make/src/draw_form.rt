//! Drawing the form of a packet.
ghost use Rattle.std.specs.Prelude.{◌≡◌, ◌+◌, ◌/◌, ◌%◌, ◌≤◌, ◌<◌, false};
ghost use Rattle.opus_make.specs.Draws.{next_state, drawn};
ghost use Rattle.opus_make.specs.Plan.{form_at, state_behind_form};
ghost use Rattle.opus_make.specs.Values.{form_value};

use crate::draws::Draws;
use crate::form::Form;

/// Draws the form of a packet of this shape, whose frames have so many samples.
pub(crate) fn draw_form(draws: &mut Draws, shape: u16, samples: u32) -> Form
    requires shape { shape < 5 }
    requires least { 120 ≤ samples }
    requires most { samples ≤ 2880 }
    ensures form { form_value result ≡ form_at shape samples draws.old.state }
    ensures state { draws.new.state ≡ state_behind_form shape draws.old.state }
{
    match shape {
        0 => plain_form(0, 1),
        1 => plain_form(1, 2),
        2 => plain_form(2, 2),
        _ => draw_coded_form(draws, shape == 4, samples),
    }
}

// Code 0, 1 or 2.
fn plain_form(code: u8, count: u8) -> Form
    requires code { code < 4 }
    requires some { 1 ≤ count }
    requires most { count ≤ 48 }
    ensures code { result.code ≡ code }
    ensures vbr { result.vbr ≡ false }
    ensures count { result.count ≡ count }
    ensures pad { result.pad ≡ 0 }
{
    Form {
        code,
        vbr: false,
        count,
        pad: 0,
    }
}

// Code 3, whose number of frames and padding are drawn.
fn draw_coded_form(draws: &mut Draws, vbr: bool, samples: u32) -> Form
    requires least { 120 ≤ samples }
    requires most { samples ≤ 2880 }
    ensures code { result.code ≡ 3 }
    ensures vbr { result.vbr ≡ vbr }
    ensures count { result.count ≡ 1 + drawn draws.old.state % (5760 / samples) }
    ensures pad { result.pad ≡ (drawn draws.old.state / 64) % 8 }
    ensures state { draws.new.state ≡ next_state draws.old.state }
{
    let number = u32::from(draws.draw());
    Form {
        code: 3,
        vbr,
        count: 1 + (number % (5760 / samples)) as u8,
        pad: (number / 64 % 8) as u8,
    }
}
