//! Laws of lines and of the job sdp: each is the contract of a function that does nothing.
ghost use Rattle.std.specs.Prelude.{◌≡◌, ◌⊎◌, ℕ, ◌+◌, true, false, List, [], ◌∷◌, ◌++◌, map, Option, None, Some};
ghost use Rattle.job_loop.specs.Shown.{Shown};
ghost use Rattle.job_loop.specs.Meaning.{goes, stops, going, outcome, end_of};
ghost use Rattle.job_loop.specs.declared.input_end.InputEnd.TheVariants.{Closed};
ghost use Rattle.opus_sdp.specs.Grammar.{are_blank};
ghost use Rattle.opus_sdp.specs.SdpLine.{SdpValue, IsSdpLine, sdp_fault, sdp_text};
ghost use Rattle.opus_sdp.specs.declared.fault.SdpFault.{SdpFault};
ghost use Rattle.text_jobs.specs.declared.line.Line.{Line};
ghost use Rattle.text_jobs.specs.declared.line.NoCut.{NoCut};
ghost use Rattle.text_jobs.specs.Lines.{joined, LineEnds};
ghost use Rattle.text_jobs.specs.Sdp.{sdp, sdp_step, sdp_refusal};

/// Each input is its lines, each with a newline behind it; the last one may lack it.
pub fn an_input_is_its_lines()
    ensures some { (x : List ℕ) → (rs : List (Shown Line)) × LineEnds x rs None }
    ensures joined { (x : List ℕ) (rs : List (Shown Line)) (cut : Option NoCut) → LineEnds x rs cut
        → (joined (map (λ r. r.bytes) rs) ≡ x) ⊎ (joined (map (λ r. r.bytes) rs) ≡ x ++ 10 ∷ []) }
{}

/// A line becomes the printed form of what it says, and a newline. One of blanks becomes nothing. Any other is refused
/// for its first fault.
pub fn a_line_becomes_what_it_says()
    ensures printed { (a : SdpValue) (number : ℕ) (r : Shown Line) → IsSdpLine a r.bytes
        → sdp_step number r ≡ goes (sdp_text a ++ 10 ∷ []) (number + 1) }
    ensures blank { (number : ℕ) (r : Shown Line) → are_blank r.bytes ≡ true
        → sdp_step number r ≡ goes [] (number + 1) }
    ensures refused { (fault : SdpFault) (number : ℕ) (r : Shown Line) → are_blank r.bytes ≡ false
        → sdp_fault r.bytes ≡ Some fault → sdp_step number r ≡ stops [] (sdp_refusal number r.item.start fault) }
{}

/// What the job writes for an input, it writes again for that text.
pub fn what_is_written_is_written_again()
    ensures { (x : List ℕ) (rs : List (Shown Line)) (cut : Option NoCut) (text : List ℕ) → LineEnds x rs cut
        → outcome sdp rs (end_of cut) ≡ going text tt
        → (ss : List (Shown Line)) × LineEnds text ss None × (outcome sdp ss Closed ≡ going text tt) }
{}
