//! The law on what norm keeps of multistream packets: the contract of a function that does nothing.
ghost use Rattle.std.specs.Prelude.{◌≡◌, ◌↔◌, ◌≤◌, ℕ, List, Option, map};
ghost use Rattle.job_loop.specs.Shown.{Shown};
ghost use Rattle.job_loop.specs.Meaning.{going, outcome};
ghost use Rattle.job_loop.specs.declared.input_end.InputEnd.{InputEnd};
ghost use Rattle.opus_feed.specs.declared.padding.Padding.TheVariants.{Drop, Keep};
ghost use Rattle.opus_multi.specs.Streams.{SpelledStream};
ghost use Rattle.opus_multi.specs.Forms.{bare};
ghost use Rattle.opus_words.specs.declared.form.Form.{Form};
ghost use Rattle.pack_records.specs.declared.cut.Cut.{Cut};
ghost use Rattle.stream_records.specs.declared.item.StreamsItem.{StreamsItem};
ghost use Rattle.stream_records.specs.Holds.{Choices, HoldsStreams, held_as};
ghost use Rattle.stream_jobs.specs.Each.{made_of};
ghost use Rattle.job_ends.specs.Each.{writes};
ghost use Rattle.stream_jobs.specs.Norm.{norm, norm_makes};
ghost use Rattle.stream_jobs.specs.StreamEnds.{ends_in};
ghost use Rattle.stream_jobs.specs.Contents.{Content, AreContents};

/// Two inputs of multistream packets that norm takes have one output exactly where their records hold the same one by one:
/// in range, in what is lost, and of all streams in the values and the padding bytes that are kept. All inputs that norm
/// takes have such records. Where padding bytes are kept, all of them are, and where they are dropped, none.
pub fn norm_keeps_what_the_records_hold_alone()
    ensures same { (form : Form) (c d : Choices) (rs ss : List (Shown StreamsItem)) (xs ys : List Content)
        (u v : InputEnd Cut) (a b : List ℕ) → c.streams ≤ 255 → d.streams ≡ c.streams
        → AreContents form c rs xs → AreContents form d ss ys
        → outcome (norm form c.streams c.padding) rs u ≡ going a tt
        → outcome (norm form d.streams d.padding) ss v ≡ going b tt → (a ≡ b) ↔ (xs ≡ ys) }
    ensures contents { (form : Form) (c : Choices) (x : List ℕ) (rs : List (Shown StreamsItem)) (cut : Option Cut)
        (end : InputEnd Cut) (text : List ℕ) → ends_in form c x rs cut
        → outcome (norm form c.streams c.padding) rs end ≡ going text tt
        → (xs : List Content) × AreContents form c rs xs }
    ensures kept { (form : Form) (streams number start range : ℕ) (bytes : List ℕ) (r : Shown StreamsItem)
        (text : List ℕ) (holds : HoldsStreams (record { streams = streams; padding = Keep }) start range bytes r)
        → made_of streams (norm_makes form streams Keep) number r ≡ writes text
        → map (held_as Keep) holds.streams ≡ map (λ s. record { value = s.value; tail = s.tail }) holds.streams }
    ensures dropped { (ss : List SpelledStream) → map (held_as Drop) ss ≡ map bare (map (λ s. s.value) ss) }
{}
