//! What follows from the wire format alone, apart from any code. Each function does nothing: its
//! contract is the law.

ghost use Rattle.std.specs.Prelude.{◌≡◌, ◌<◌, ℕ, List, [], ◌∷◌, ◌++◌, length, slice_index};
ghost use Rattle.std.specs.List.{flat_map};
ghost use Rattle.net_message.specs.declared.message.Message.{Message};
ghost use Rattle.net_message.specs.Wire.{IsWire};
ghost use Rattle.net_message.specs.declared.fault.WireError.{WireError};
ghost use Rattle.net_message.specs.declared.fault.WireError.TheVariants as errors;
ghost use Rattle.net_frames.specs.Stream.{Held, Rest, Stream, AreBytes, Reads, Feeds, Refuses};

/// No bytes are two frames, nor the fronts of two.
pub fn no_bytes_have_two_readings()
    ensures { (first second x y : List ℕ) (m n : Message) → IsWire first m → IsWire second n → first ++ x ≡ second ++ y
        → (m ≡ n) × (first ≡ second) × (x ≡ y) }
{}

/// No frame has two spellings.
pub fn no_frame_has_two_spellings()
    ensures { (first second : List ℕ) (m : Message) → IsWire first m → IsWire second m
        → first ≡ second }
{}

/// A frame's bytes alone are the stream of that frame, with nothing after it.
pub fn a_frame_is_a_stream()
    ensures { (bytes : List ℕ) (m : Message) → IsWire bytes m → Stream bytes (m ∷ []) (Rest []) }
{}

/// After a frame the rest is read as if it stood alone.
pub fn the_rest_is_read_as_if_alone()
    ensures alone { (first rest : List ℕ) (m : Message) (ms : List Message) (end : Held) → IsWire first m
        → Stream rest ms end → Stream (first ++ rest) (m ∷ ms) end }
    ensures together { (first rest : List ℕ) (m : Message) (ms : List Message) (end : Held) → IsWire first m
        → Stream (first ++ rest) (m ∷ ms) end → Stream rest ms end }
{}

/// Bytes have one reading as a stream: the frames, and what is held after them.
pub fn a_stream_has_one_reading()
    ensures { (bytes : List ℕ) (ms ns : List Message) (end other : Held) → AreBytes bytes
        → Stream bytes ms end → Stream bytes ns other → (ms ≡ ns) × (end ≡ other) }
{}

/// However bytes are cut into pieces, reading piece by piece gives the frames of the whole.
pub fn no_cut_changes_the_frames()
    ensures whole { (pieces : List (List ℕ)) (ms : List Message) (end : Held)
        → Reads (Rest []) pieces ms end → Stream (flat_map (λ piece. piece) pieces) ms end }
    ensures same { (pieces others : List (List ℕ)) (ms ns : List Message) (end other : Held)
        → AreBytes (flat_map (λ piece. piece) pieces)
        → flat_map (λ piece. piece) pieces ≡ flat_map (λ piece. piece) others
        → Reads (Rest []) pieces ms end → Reads (Rest []) others ns other → (ms ≡ ns) × (end ≡ other) }
{}

/// What is encoded is read back: of a frame's bytes a new reader answers that frame alone and holds
/// nothing, or is out of memory.
pub fn what_is_encoded_is_read_back()
    ensures frames { (bytes : List ℕ) (m : Message) (ms : List Message) (end : Held) → AreBytes bytes → IsWire bytes m
        → Feeds (Rest []) bytes ms end → (ms ≡ m ∷ []) × (end ≡ Rest []) }
    ensures error { (bytes : List ℕ) (m : Message) (error : WireError) (end : Held) → AreBytes bytes → IsWire bytes m
        → Refuses (Rest []) bytes error end → error ≡ errors.Memory }
{}

/// What is read is encoded back: if a new reader answers one frame of some bytes, and holds
/// nothing, the bytes are that frame's.
pub fn what_is_read_is_encoded_back()
    ensures { (bytes : List ℕ) (m : Message) → Feeds (Rest []) bytes (m ∷ []) (Rest [])
        → IsWire bytes m }
{}

/// A reader holds less than one frame, which has at most 65,540 bytes.
pub fn what_is_held_is_less_than_a_frame()
    ensures { (bytes rest : List ℕ) (ms : List Message) → Stream bytes ms (Rest rest)
        → length rest < 65540 }
{}
