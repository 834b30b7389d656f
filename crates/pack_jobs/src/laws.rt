//! Laws on the jobs over packets: each is the contract of a function that does nothing.
ghost use Rattle.std.specs.List.{AllByRecursion};
ghost use Rattle.std.specs.Prelude.{◌≡◌, ◌≢◌, ◌↔◌, ◌≤◌, ◌<◌, ◌^◌, ℕ, false, List, [], ◌∷◌, ◌++◌, Option, Some, None, IfSome, length, flat_map};
ghost use Rattle.job_loop.specs.Shown.{Shown};
ghost use Rattle.job_loop.specs.Meaning.{going, broke, outcome, run_text};
ghost use Rattle.job_loop.specs.declared.input_end.InputEnd.{InputEnd};
ghost use Rattle.job_loop.specs.declared.input_end.InputEnd.TheVariants as ends;
ghost use Rattle.opus_packet.specs.Value.{PacketValue, IsPacketValue};
ghost use Rattle.opus_packet.specs.Tail.{max_tail};
ghost use Rattle.opus_repack.specs.Joined.{IsSameKind};
ghost use Rattle.opus_feed.specs.declared.framing.Framing.{Framing};
ghost use Rattle.opus_feed.specs.declared.padding.Padding.{Padding};
ghost use Rattle.opus_feed.specs.declared.padding.Padding.TheVariants.{Drop, Keep};
ghost use Rattle.opus_words.specs.declared.form.Form.{Form};
ghost use Rattle.opus_words.specs.declared.form.Form.TheVariants.{Raw, SelfDelimited};
ghost use Rattle.pack_records.specs.declared.cut.Cut.{Cut};
ghost use Rattle.pack_records.specs.declared.item.Item.{Item};
ghost use Rattle.pack_records.specs.Fits.{form_of};
ghost use Rattle.pack_records.specs.Holds.{HoldsPacket};
ghost use Rattle.pack_jobs.specs.declared.refusal.Why.{Why};
ghost use Rattle.pack_jobs.specs.declared.refusal.Why.TheVariants.{StoreCut};
ghost use Rattle.pack_jobs.specs.Refusal.{Refusal};
ghost use Rattle.job_ends.specs.Refusal.{told, refusal_of};
ghost use Rattle.pack_jobs.specs.Norm.{is_long, norm};
ghost use Rattle.pack_jobs.specs.Check.{check};
ghost use Rattle.pack_jobs.specs.Written.{normal_record, AreTaken, FirstRefused, AreGood, FirstBad, lines_from};
ghost use Rattle.job_ends.specs.Each.{IsUncut, Made, texts_from, AreWritten, FirstRefusedBy};
ghost use Rattle.pack_jobs.specs.SameRecords.{AreRecordsOf, AgreeOneByOne};
ghost use Rattle.pack_jobs.specs.Each.{each};
ghost use Rattle.pack_jobs.specs.Show.{show, shown_from};
ghost use Rattle.pack_jobs.specs.Split.{pieces, split_record, split, HasFullPieces};
ghost use Rattle.pack_jobs.specs.Merge.{merge};
ghost use Rattle.pack_jobs.specs.Pad.{pad};
ghost use Rattle.pack_jobs.specs.Groups.{Part, IsCutInto, CanAllMerge, values_of, frames_of, texts_of, part_frames, AreLent};
ghost use Rattle.pack_jobs.specs.PackEnds.{ends_in};
ghost use Rattle.pack_jobs.specs.Again.{IsReadAgain};

/// What norm writes for records is their canonical records joined, exactly where it takes them all and no cut follows.
/// Refused, it has written the records before the refused one, or all before the cut.
pub fn norm_writes_each_record_in_its_kept_form()
    ensures taken { (form : Form) (padding : Padding) (rs : List (Shown Item)) (end : InputEnd Cut)
        (text : List ℕ) → (outcome (norm form padding) rs end ≡ going text tt)
        ↔ (AreTaken padding rs × IsUncut end × (text ≡ flat_map (normal_record form) rs)) }
    ensures refused { (form : Form) (padding : Padding) (rs : List (Shown Item)) (end : InputEnd Cut)
        (f : Refusal) (at : FirstRefused padding rs f)
        → outcome (norm form padding) rs end ≡ broke (flat_map (normal_record form) at.before) f }
    ensures cut { (form : Form) (padding : Padding) (rs : List (Shown Item)) (c : Cut) → AreTaken padding rs
        → outcome (norm form padding) rs (ends.Cut c)
        ≡ broke (flat_map (normal_record form) rs) (refusal_of (told (length rs)) c.place StoreCut) }
{}

/// Check writes a line for each record: for all of them, but in form self none behind the first bad one.
pub fn check_writes_a_line_for_each_record()
    ensures all { (form : Form) (rs : List (Shown Item)) (end : InputEnd Cut) → form ≢ SelfDelimited
        → run_text (outcome (check form) rs end) ≡ lines_from 0 rs }
    ensures good { (form : Form) (rs : List (Shown Item)) (end : InputEnd Cut) → AreGood rs
        → run_text (outcome (check form) rs end) ≡ lines_from 0 rs }
    ensures self_delimited { (rs : List (Shown Item)) (end : InputEnd Cut) (f : Refusal)
        (at : FirstBad rs f) → outcome (check SelfDelimited) rs end
        ≡ broke (lines_from 0 (at.before ++ at.first ∷ [])) f }
{}

/// Check refuses an input for its first bad record, or where none is bad for the cut of its store, and past the limit
/// for neither, but in form self.
pub fn check_names_the_first_fault()
    ensures bad { (form : Form) (rs : List (Shown Item)) (end : InputEnd Cut) (f : Refusal)
        → FirstBad rs f → end ≢ ends.Past
        → (text : List ℕ) × (outcome (check form) rs end ≡ broke text f) }
    ensures cut { (form : Form) (rs : List (Shown Item)) (c : Cut) → AreGood rs
        → outcome (check form) rs (ends.Cut c)
        ≡ broke (lines_from 0 rs) (refusal_of (told (length rs)) c.place StoreCut) }
    ensures closed { (form : Form) (rs : List (Shown Item)) → AreGood rs
        → outcome (check form) rs ends.Closed ≡ going (lines_from 0 rs) tt }
    ensures past { (form : Form) (rs : List (Shown Item)) → form ≢ SelfDelimited
        → outcome (check form) rs ends.Past ≡ going (lines_from 0 rs) tt }
{}

/// A job that makes something of each record by itself has written what it makes of all of them, exactly where it refuses
/// none and no cut follows. Refused, it has written what it makes of the records before the refused one, or of all.
pub fn a_job_on_each_record_writes_them_in_order()
    ensures written { (made : ℕ → Shown Item → Made Why) (rs : List (Shown Item)) (end : InputEnd Cut)
        (text : List ℕ) → (outcome (each made) rs end ≡ going text tt)
        ↔ (AreWritten made 0 rs × IsUncut end × (text ≡ texts_from made 0 rs)) }
    ensures refused { (made : ℕ → Shown Item → Made Why) (rs : List (Shown Item)) (end : InputEnd Cut) (f : Refusal)
        (at : FirstRefusedBy made rs f) → outcome (each made) rs end ≡ broke (texts_from made 0 at.before) f }
    ensures cut { (made : ℕ → Shown Item → Made Why) (rs : List (Shown Item)) (c : Cut) → AreWritten made 0 rs
        → outcome (each made) rs (ends.Cut c)
        ≡ broke (texts_from made 0 rs) (refusal_of (told (length rs)) c.place StoreCut) }
{}

/// What show writes is the lines of each record, of a lost one too, up to the first record that holds no packet.
pub fn show_writes_the_lines_of_each_record()
    ensures written { (rs : List (Shown Item)) (end : InputEnd Cut) (text : List ℕ)
        → (outcome show rs end ≡ going text tt) ↔ (AreGood rs × IsUncut end × (text ≡ shown_from 0 rs)) }
    ensures refused { (rs : List (Shown Item)) (end : InputEnd Cut) (f : Refusal)
        (at : FirstBad rs f) → outcome show rs end ≡ broke (shown_from 0 at.before) f }
    ensures cut { (rs : List (Shown Item)) (c : Cut) → AreGood rs
        → outcome show rs (ends.Cut c) ≡ broke (shown_from 0 rs) (refusal_of (told (length rs)) c.place StoreCut) }
{}

/// What split writes is the pieces of each packet, and each lost record, up to the first record that holds no packet.
pub fn split_writes_the_pieces_of_each_packet()
    ensures written { (form : Form) (most : ℕ) (rs : List (Shown Item)) (end : InputEnd Cut) (text : List ℕ)
        → (outcome (split form most) rs end ≡ going text tt)
        ↔ (AreGood rs × IsUncut end × (text ≡ flat_map (split_record form most) rs)) }
    ensures refused { (form : Form) (most : ℕ) (rs : List (Shown Item)) (end : InputEnd Cut) (f : Refusal)
        (at : FirstBad rs f) → outcome (split form most) rs end ≡ broke (flat_map (split_record form most) at.before) f }
    ensures cut { (form : Form) (most : ℕ) (rs : List (Shown Item)) (c : Cut) → AreGood rs
        → outcome (split form most) rs (ends.Cut c)
        ≡ broke (flat_map (split_record form most) rs) (refusal_of (told (length rs)) c.place StoreCut) }
{}

/// The pieces of a packet are packets of its kind, of so many frames each, the last one of as many at most, and have
/// all of its frames in order.
pub fn pieces_keep_all_frames()
    ensures frames { (most : ℕ) (v : PacketValue) → 1 ≤ most → flat_map (λ p. p.frames) (pieces most v) ≡ v.frames }
    ensures kind { (most : ℕ) (v : PacketValue) → AllByRecursion (IsSameKind v) (pieces most v) }
    ensures packets { (most : ℕ) (v : PacketValue) → 1 ≤ most → IsPacketValue v
        → AllByRecursion IsPacketValue (pieces most v) }
    ensures counts { (most : ℕ) (v : PacketValue) → 1 ≤ most → HasFullPieces most (pieces most v) }
{}

/// What merge writes is the records in groups, cut at each lost record and behind every so many packets: each group as
/// one packet with the range of its last record, and each lost record as it is. The packets of a group have one kind, and
/// last at most 120 ms. Nothing is refused exactly where the records are such groups.
pub fn merge_writes_each_group_as_one_packet()
    ensures written { (form : Form) (most : Option ℕ) (rs : List (Shown Item)) (text : List ℕ)
        → IfSome most (λ n. 1 ≤ n) → AreLent rs → (outcome (merge form most) rs ends.Closed ≡ going text tt)
        ↔ ((parts : List Part) × IsCutInto most rs parts × CanAllMerge parts × (text ≡ texts_of form parts)) }
{}

/// No frame is lost where records are merged: the groups have all frames of the records, in order.
pub fn groups_keep_all_frames()
    ensures frames { (most : Option ℕ) (rs : List (Shown Item)) (parts : List Part) → IsCutInto most rs parts
        → flat_map part_frames parts ≡ frames_of (values_of rs) }
{}

/// No frame is lost: what merge and split wrote of a whole input of several records, and pad of one packet or a store, is a
/// whole input of the same form, and its packets have all frames of the packets before, in order.
pub fn what_is_written_has_all_frames()
    ensures merge { (form : Form) (most : Option ℕ) (x : List ℕ) (rs : List (Shown Item)) (text : List ℕ)
        → form ≢ Raw → IfSome most (λ n. 1 ≤ n) → ends_in form Drop x rs None
        → outcome (merge form most) rs ends.Closed ≡ going text tt → (ss : List (Shown Item))
        × ends_in form Drop text ss None × (frames_of (values_of ss) ≡ frames_of (values_of rs)) }
    ensures split { (form : Form) (most : ℕ) (x : List ℕ) (rs : List (Shown Item)) (text : List ℕ)
        → form ≢ Raw → 1 ≤ most → ends_in form Drop x rs None
        → outcome (split form most) rs ends.Closed ≡ going text tt → (ss : List (Shown Item))
        × ends_in form Drop text ss None × (frames_of (values_of ss) ≡ frames_of (values_of rs)) }
    ensures pad { (form : Form) (size : ℕ) (x : List ℕ) (rs : List (Shown Item)) (text : List ℕ)
        → form ≢ SelfDelimited → ends_in form Drop x rs None
        → outcome (pad form size) rs ends.Closed ≡ going text tt → (ss : List (Shown Item))
        × ends_in form Drop text ss None × (frames_of (values_of ss) ≡ frames_of (values_of rs)) }
{}

/// Two inputs that norm takes have one output exactly where their records agree one by one: in range, in what is lost,
/// and in kept form, which is that of one value with one list of kept padding bytes. All inputs that norm takes have such
/// records. Where padding bytes are kept, all of a packet that norm takes are, and where they are dropped, none.
pub fn norm_keeps_the_records_alone()
    ensures same { (form : Form) (p q : Padding) (rs ss : List (Shown Item)) (c d : InputEnd Cut)
        (a b : List ℕ) → AreRecordsOf form rs → AreRecordsOf form ss
        → outcome (norm form p) rs c ≡ going a tt → outcome (norm form q) ss d ≡ going b tt
        → (a ≡ b) ↔ AgreeOneByOne rs ss }
    ensures forms { (framing : Framing) (v w : PacketValue) (tail rest : List ℕ)
        → IsPacketValue v → IsPacketValue w → length tail ≤ max_tail → length rest ≤ max_tail
        → (form_of framing v tail ≡ form_of framing w rest) ↔ ((v ≡ w) × (tail ≡ rest)) }
    ensures records { (form : Form) (padding : Padding) (x : List ℕ) (rs : List (Shown Item)) (cut : Option Cut)
        (end : InputEnd Cut) (text : List ℕ) → ends_in form padding x rs cut
        → outcome (norm form padding) rs end ≡ going text tt → AreRecordsOf form rs }
    ensures kept { (framing : Framing) (start range : ℕ) (bytes : List ℕ) (r : Shown Item)
        (holds : HoldsPacket Keep framing start range bytes r) → is_long Keep holds.shape ≡ false
        → r.bytes ≡ form_of framing holds.value holds.tail }
    ensures dropped { (framing : Framing) (start range : ℕ) (bytes : List ℕ) (r : Shown Item)
        (holds : HoldsPacket Drop framing start range bytes r) → r.bytes ≡ form_of framing holds.value [] }
{}

/// What norm wrote of a whole input is a whole input of the same form, with records that agree with those one by one,
/// and norm leaves it as it is.
pub fn norm_leaves_what_it_wrote()
    ensures again { (form : Form) (padding : Padding) (x : List ℕ) (rs : List (Shown Item)) (text : List ℕ)
        → ends_in form padding x rs None → outcome (norm form padding) rs ends.Closed ≡ going text tt
        → IsReadAgain form padding rs text }
{}

/// A number that fits into 64 bits is told as it is.
pub fn a_number_of_64_bits_is_told_as_it_is()
    ensures same { (n : ℕ) → n < 2 ^ 64 → told n ≡ n }
{}
