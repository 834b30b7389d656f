//! The law on norm of what norm wrote: the contract of a function that does nothing.
ghost use Rattle.std.specs.Prelude.{◌≡◌, ◌≤◌, ℕ, List, Option};
ghost use Rattle.job_loop.specs.Shown.{Shown};
ghost use Rattle.job_loop.specs.Meaning.{going, outcome};
ghost use Rattle.job_loop.specs.declared.input_end.InputEnd.{InputEnd};
ghost use Rattle.opus_words.specs.declared.form.Form.{Form};
ghost use Rattle.pack_records.specs.declared.cut.Cut.{Cut};
ghost use Rattle.stream_records.specs.declared.item.StreamsItem.{StreamsItem};
ghost use Rattle.stream_records.specs.Holds.{Choices};
ghost use Rattle.stream_jobs.specs.Norm.{norm};
ghost use Rattle.stream_jobs.specs.StreamEnds.{ends_in};
ghost use Rattle.stream_jobs.specs.NormAgain.{IsNormAgain};

/// What norm wrote of an input of multistream packets, of up to 255 streams, is a whole input of the same form, with records
/// that hold the same as those one by one: in range, in what is lost, and of all streams in the values and the padding
/// bytes that are kept. Norm with the same choice leaves it as it is.
pub fn norm_leaves_what_it_wrote_of_streams()
    ensures again { (form : Form) (c : Choices) (x : List ℕ) (rs : List (Shown StreamsItem)) (cut : Option Cut)
        (end : InputEnd Cut) (text : List ℕ) → c.streams ≤ 255 → ends_in form c x rs cut
        → outcome (norm form c.streams c.padding) rs end ≡ going text tt → IsNormAgain form c rs text }
{}
