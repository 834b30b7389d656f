//! Drawing a packet.
ghost use Rattle.std.specs.Prelude.{◌≡◌, ◌≤◌, ◌<◌, ◌%◌, map, replicate, All};
ghost use Rattle.arrayvec.specs.ArrayVec.{array_vec_len};
ghost use Rattle.opus_make.specs.Draws.{state_after, draws as numbers};
ghost use Rattle.opus_make.specs.Plan.{plan_at, state_behind_plan, lengths_at, state_behind_lengths};
ghost use Rattle.opus_make.specs.Values.{form_value, plan_value};

use crate::draw_form::draw_form;
use crate::draws::Draws;
use crate::form::Form;
use crate::plan::Plan;
use arrayvec::ArrayVec;
use opus_toc::Toc;

/// Draws a packet.
pub(crate) fn draw_plan(draws: &mut Draws) -> Plan
    ensures plan { plan_value result ≡ plan_at draws.old.state }
    ensures state { draws.new.state ≡ state_behind_plan draws.old.state }
{
    let number = draws.draw();
    let config = (number % 32) as u8;
    let samples = Toc::new(config, false, 0).samples();
    let form = draw_form(draws, number / 64 % 5, samples);
    let lengths = draw_lengths(draws, form);
    Plan {
        config,
        stereo: number / 32 % 2 == 1,
        form,
        lengths,
    }
}

// The frames' lengths: one that is drawn for all, or one for each.
fn draw_lengths(draws: &mut Draws, form: Form) -> ArrayVec<u16, 48>
    ensures lengths { result.items ≡ lengths_at (form_value form) draws.old.state }
    ensures counted { array_vec_len result ≡ form.count }
    ensures short { All (λ n. n < 300) result.items }
    ensures state { draws.new.state ≡ state_behind_lengths (form_value form) draws.old.state }
{
    if form.code == 2 || form.vbr {
        draw_each(draws, form.count)
    } else {
        let length = draws.draw() % 300;
        equal(length, form.count)
    }
}

// So many lengths, each drawn.
fn draw_each(draws: &mut Draws, count: u8) -> ArrayVec<u16, 48>
    requires { count ≤ 48 }
    ensures lengths { result.items ≡ map (λ number. number % 300) (numbers count draws.old.state) }
    ensures counted { array_vec_len result ≡ count }
    ensures short { All (λ n. n < 300) result.items }
    ensures state { draws.new.state ≡ state_after draws.old.state count }
{
    let mut lengths = ArrayVec::new();
    for _ in 0..count {
        lengths.push(draws.draw() % 300);
    }
    lengths
}

// So many equal lengths.
fn equal(length: u16, count: u8) -> ArrayVec<u16, 48>
    requires count { count ≤ 48 }
    requires short { length < 300 }
    ensures lengths { result.items ≡ replicate count length }
    ensures counted { array_vec_len result ≡ count }
    ensures short { All (λ n. n < 300) result.items }
{
    let mut lengths = ArrayVec::new();
    for _ in 0..count {
        lengths.push(length);
    }
    lengths
}
