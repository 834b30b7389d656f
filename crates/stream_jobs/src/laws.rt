//! Laws on the jobs over multistream packets: each is the contract of a function that does nothing.
ghost use Rattle.std.specs.Prelude.{◌≡◌, ◌↔◌, ◌≤◌, ℕ, List, Some, length, map, slice_get};
ghost use Rattle.std.specs.List.{AllByRecursion};
ghost use Rattle.job_loop.specs.Shown.{Shown};
ghost use Rattle.job_loop.specs.Meaning.{going, broke, outcome};
ghost use Rattle.job_loop.specs.declared.input_end.InputEnd.{InputEnd};
ghost use Rattle.job_loop.specs.declared.input_end.InputEnd.TheVariants as ends;
ghost use Rattle.opus_packet.specs.Tail.{max_tail};
ghost use Rattle.opus_feed.specs.declared.padding.Padding.TheVariants.{Drop};
ghost use Rattle.opus_multi.specs.Streams.{SpelledStream, AreStreams};
ghost use Rattle.opus_multi.specs.Forms.{kept_multistream};
ghost use Rattle.opus_words.specs.declared.form.Form.{Form};
ghost use Rattle.opus_words.specs.declared.form.Form.TheVariants.{Demo};
ghost use Rattle.pack_records.specs.declared.cut.Cut.{Cut};
ghost use Rattle.job_ends.specs.Refusal.{told, refusal_of};
ghost use Rattle.pack_jobs.specs.Records.{record_bytes};
ghost use Rattle.job_ends.specs.Each.{IsUncut, Made, writes, texts_from, AreWritten, FirstRefusedBy};
ghost use Rattle.stream_records.specs.declared.item.StreamsItem.{StreamsItem};
ghost use Rattle.stream_records.specs.Holds.{Choices, HoldsStreams, held_as, spelling_of};
ghost use Rattle.stream_jobs.specs.declared.refusal.StreamWhy.{StreamWhy};
ghost use Rattle.stream_jobs.specs.declared.refusal.StreamWhy.TheVariants.{StoreCut};
ghost use Rattle.stream_jobs.specs.Refusal.{StreamRefusal};
ghost use Rattle.stream_jobs.specs.Each.{Makes, made_of, each, each_of};
ghost use Rattle.stream_jobs.specs.StreamsIn.{streams_in};
ghost use Rattle.stream_jobs.specs.Norm.{norm_makes};
ghost use Rattle.stream_jobs.specs.Apart.{stream_record, stream_records, apart_makes};
ghost use Rattle.stream_jobs.specs.Extract.{extract_makes};
ghost use Rattle.stream_jobs.specs.Show.{stream_lines, show_makes};
ghost use Rattle.stream_jobs.specs.Join.{part_of, joined};

/// A job that makes something of each record by itself has written what it makes of all of them, exactly where it refuses
/// none and no cut follows. Refused, it has written what it makes of those before the first refused one, or before the cut.
pub fn a_job_on_each_record_writes_them_in_order()
    ensures each { (streams : ℕ) (makes : Makes)
        → each streams makes ≡ each_of (λ number r. made_of streams makes (told number) r) }
    ensures written { (made : ℕ → Shown StreamsItem → Made StreamWhy) (rs : List (Shown StreamsItem)) (end : InputEnd Cut)
        (text : List ℕ) → (outcome (each_of made) rs end ≡ going text tt)
        ↔ (AreWritten made 0 rs × IsUncut end × (text ≡ texts_from made 0 rs)) }
    ensures refused { (made : ℕ → Shown StreamsItem → Made StreamWhy) (rs : List (Shown StreamsItem)) (end : InputEnd Cut)
        (f : StreamRefusal) (at : FirstRefusedBy made rs f)
        → outcome (each_of made) rs end ≡ broke (texts_from made 0 at.before) f }
    ensures cut { (made : ℕ → Shown StreamsItem → Made StreamWhy) (rs : List (Shown StreamsItem)) (c : Cut)
        → AreWritten made 0 rs → outcome (each_of made) rs (ends.Cut c)
        ≡ broke (texts_from made 0 rs) (refusal_of (told (length rs)) c.place StoreCut) }
{}

/// The bytes lent of a record spell the values of its streams; and so do those of any multistream packet.
pub fn lent_bytes_spell_the_streams_of_a_record()
    ensures record_values { (c : Choices) (start range : ℕ) (bytes : List ℕ) (r : Shown StreamsItem)
        (holds : HoldsStreams c start range bytes r)
        → streams_in c.streams r.bytes ≡ map (λ s. s.value) holds.streams }
    ensures packet_values { (ss : List SpelledStream) (bytes : List ℕ) → AreStreams ss bytes
        → streams_in (length ss) bytes ≡ map (λ s. s.value) ss }
{}

/// Of a record that holds a multistream packet, apart writes a record for each stream, in their order.
pub fn apart_writes_a_record_for_each_stream()
    ensures { (c : Choices) (number start range : ℕ) (bytes : List ℕ) (r : Shown StreamsItem)
        (holds : HoldsStreams c start range bytes r) → made_of c.streams (apart_makes c.streams) number r
        ≡ writes (stream_records (map (λ s. s.value) holds.streams)) }
{}

/// Of a record that holds a multistream packet, extract writes a record for the stream that is chosen.
pub fn extract_writes_the_stream_that_is_chosen()
    ensures { (c : Choices) (number stream start range : ℕ) (bytes : List ℕ) (r : Shown StreamsItem)
        (holds : HoldsStreams c start range bytes r) (s : SpelledStream)
        → slice_get holds.streams stream ≡ Some s
        → made_of c.streams (extract_makes c.streams stream) number r ≡ writes (stream_record s.value) }
{}

/// Of a record that holds a multistream packet, show writes the lines of each stream, by its value and how it was spelled.
pub fn show_writes_the_lines_of_each_stream()
    ensures { (c : Choices) (number start range : ℕ) (bytes : List ℕ) (r : Shown StreamsItem)
        (holds : HoldsStreams c start range bytes r) → made_of c.streams (show_makes c.streams) number r
        ≡ writes (stream_lines number 0 (map (spelling_of c.padding) holds.streams)
        (map (λ s. s.value) holds.streams)) }
{}

/// The packets that apart writes of a record, joined again, are the record that norm writes with range 0.
pub fn what_apart_writes_joins_to_what_norm_writes()
    ensures { (ss : List SpelledStream) → joined (map (λ s. part_of (Some s.value) 0) ss)
        ≡ record_bytes Demo 0 (kept_multistream (map (held_as Drop) ss)) }
{}

/// Of a record that holds a multistream packet, norm writes the kept form of its streams: where padding bytes are dropped,
/// of all; and where they are kept, of those that have 65,535 of them at most.
pub fn norm_writes_the_kept_form_of_all_streams()
    ensures dropped { (form : Form) (streams number start range : ℕ) (bytes : List ℕ) (r : Shown StreamsItem)
        (holds : HoldsStreams (record { streams = streams; padding = Drop }) start range bytes r)
        → made_of streams (norm_makes form streams Drop) number r
        ≡ writes (record_bytes form range (kept_multistream (map (held_as Drop) holds.streams))) }
    ensures kept { (form : Form) (c : Choices) (number start range : ℕ) (bytes : List ℕ) (r : Shown StreamsItem)
        (holds : HoldsStreams c start range bytes r)
        → AllByRecursion (λ s. length s.tail ≤ max_tail) holds.streams
        → made_of c.streams (norm_makes form c.streams c.padding) number r
        ≡ writes (record_bytes form range (kept_multistream (map (held_as c.padding) holds.streams))) }
{}
