//! Laws on stores: each is the contract of a function that does nothing.
ghost use Rattle.std.specs.Prelude.{◌≡◌, ◌↔◌, ◌⊎◌, ◌^◌, ◌<◌, ◌≤◌, ℕ, List, ◌++◌, length, take, drop};
ghost use Rattle.std.specs.List.{AllByRecursion};
ghost use Rattle.rec_store.specs.DemoStore.{demo_head, demo_record, IsDemoRecord, NoWholeRecord};
ghost use Rattle.rec_store.specs.DemoCut.{IsDemoCut, IsWithinRecord};
ghost use Rattle.rec_store.specs.Dump.{DumpRecord, IsDumpRecord, dump_record_bytes, IsRtcp, IsCut, packet_of_record, record_of_packet};
ghost use Rattle.rec_store.specs.DumpLine.{IsBadLine};
ghost use Rattle.rec_store.specs.DumpStore.{AreBytes, IsDump, IsStoreCut, IsOpeningPart, IsRecordCut, IsBadLength, IsDumpHead};
ghost use Rattle.rec_store.specs.declared.dump_opening.DumpHead.{DumpHead as HeadValue};

/// The same bytes begin with one record at most.
pub fn bytes_begin_with_one_record()
    ensures range { (r s : ℕ) (p q xs ys : List ℕ) → IsDemoRecord r p → IsDemoRecord s q
        → demo_record r p ++ xs ≡ demo_record s q ++ ys → r ≡ s }
    ensures payload { (r s : ℕ) (p q xs ys : List ℕ) → IsDemoRecord r p → IsDemoRecord s q
        → demo_record r p ++ xs ≡ demo_record s q ++ ys → p ≡ q }
    ensures rest { (r s : ℕ) (p q xs ys : List ℕ) → IsDemoRecord r p → IsDemoRecord s q
        → demo_record r p ++ xs ≡ demo_record s q ++ ys → xs ≡ ys }
{}

/// Eight bytes are a head.
pub fn eight_bytes_are_a_head()
    ensures head { (bytes : List ℕ) → AllByRecursion (λ byte. byte < 256) bytes → 8 ≤ length bytes
        → (len range : ℕ) × (len < 2 ^ 32) × (range < 2 ^ 32)
        × (bytes ≡ demo_head len range ++ drop 8 bytes) }
{}

/// A head with its payload, whatever stands behind it, begins with the record.
pub fn a_head_and_its_payload_are_a_record()
    ensures fits { (len range : ℕ) (body : List ℕ) → len < 2 ^ 32 → range < 2 ^ 32
        → len ≤ length body → IsDemoRecord range (take len body) }
    ensures record { (len range : ℕ) (body : List ℕ) → len ≤ length body
        → demo_head len range ++ body ≡ demo_record range (take len body) ++ drop len body }
{}

/// Where the head or its payload is cut, no whole record stands.
pub fn a_cut_record_is_none()
    ensures head { (bytes : List ℕ) → length bytes < 8 → NoWholeRecord bytes }
    ensures payload { (len range : ℕ) (part : List ℕ) → len < 2 ^ 32 → range < 2 ^ 32
        → length part < len → NoWholeRecord (demo_head len range ++ part) }
{}

/// A store is cut, so that it is no whole one and some bytes behind it make it one, exactly where it ends within a
/// record.
pub fn a_cut_store_ends_within_a_record()
    ensures { (x : List ℕ) → AreBytes x → IsDemoCut x ↔ IsWithinRecord x }
{}

/// The same bytes begin with one record of a capture at most.
pub fn bytes_begin_with_one_dump_record()
    ensures same { (r s : DumpRecord) (xs ys : List ℕ) → IsDumpRecord r → IsDumpRecord s
        → dump_record_bytes r ++ xs ≡ dump_record_bytes s ++ ys → r ≡ s }
    ensures rest { (r s : DumpRecord) (xs ys : List ℕ) → IsDumpRecord r → IsDumpRecord s
        → dump_record_bytes r ++ xs ≡ dump_record_bytes s ++ ys → xs ≡ ys }
{}

/// The record that is written for a packet has this packet, whole, and is no RTCP.
pub fn a_written_dump_record_has_its_packet()
    ensures fits { (offset : ℕ) (packet : List ℕ) → offset < 2 ^ 32 → length packet ≤ 65527
        → IsDumpRecord (record_of_packet offset packet) }
    ensures packet { (offset : ℕ) (packet : List ℕ)
        → packet_of_record (record_of_packet offset packet) ≡ packet }
    ensures rtp { (offset : ℕ) (packet : List ℕ) → 1 ≤ length packet
        → IsRtcp (record_of_packet offset packet) → ⊥ }
    ensures whole { (offset : ℕ) (packet : List ℕ)
        → IsCut (record_of_packet offset packet) → ⊥ }
{}

/// Sixteen bytes are a head of a capture.
pub fn sixteen_bytes_are_a_dump_head()
    ensures { (bytes : List ℕ) → AreBytes bytes → length bytes ≡ 16
        → (head : HeadValue) × IsDumpHead head bytes }
{}

/// The same bytes are a capture with one head and one list of records at most.
pub fn a_capture_has_one_reading()
    ensures head { (x : List ℕ) (a b : HeadValue) (rs ss : List DumpRecord) → IsDump x a rs → IsDump x b ss
        → a ≡ b }
    ensures records { (x : List ℕ) (a b : HeadValue) (rs ss : List DumpRecord) → IsDump x a rs → IsDump x b ss
        → rs ≡ ss }
{}

/// A capture is cut exactly where its bytes end within its opening or within a record.
pub fn a_cut_capture_ends_within_a_part()
    ensures { (x : List ℕ) → IsStoreCut x ↔ (IsOpeningPart x ⊎ IsRecordCut x) }
{}

/// A first line that goes wrong goes wrong at one place, whatever follows. Nothing behind it makes the bytes a
/// capture, so they are no cut one.
pub fn a_bad_line_stays_bad()
    ensures longer { (x more : List ℕ) (place : ℕ) → IsBadLine x place → IsBadLine (x ++ more) place }
    ensures once { (x : List ℕ) (a b : ℕ) → IsBadLine x a → IsBadLine x b → a ≡ b }
    ensures no_capture { (x more : List ℕ) (place : ℕ) (head : HeadValue) (rs : List DumpRecord)
        → IsBadLine x place → IsDump (x ++ more) head rs → ⊥ }
    ensures no_cut { (x : List ℕ) (place : ℕ) → IsBadLine x place → IsStoreCut x → ⊥ }
{}

/// The same of a record's length that is below 8.
pub fn a_bad_length_stays_bad()
    ensures longer { (x more : List ℕ) (place : ℕ) → IsBadLength x place → IsBadLength (x ++ more) place }
    ensures once { (x : List ℕ) (a b : ℕ) → IsBadLength x a → IsBadLength x b → a ≡ b }
    ensures no_capture { (x more : List ℕ) (place : ℕ) (head : HeadValue) (rs : List DumpRecord)
        → IsBadLength x place → IsDump (x ++ more) head rs → ⊥ }
    ensures no_cut { (x : List ℕ) (place : ℕ) → IsBadLength x place → IsStoreCut x → ⊥ }
    ensures no_bad_line { (x : List ℕ) (a b : ℕ) → IsBadLine x a → IsBadLength x b → ⊥ }
{}
