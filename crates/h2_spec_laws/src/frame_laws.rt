//! Laws of frames: what is written is read back, the preface is found, and payloads are made of their parts.
//! Each law is the contract of a function with an empty body; definitions: `h2_spec/specs/Frames/Frame.antt`,
//! `h2_spec/specs/Frames/Payload.antt`.

ghost use Rattle.std.specs.Prelude.{◌≡◌, ◌+◌, ◌<◌, ◌≤◌, ℕ, List, ◌++◌, length, take, true, false, Some, IfOk};
ghost use Rattle.h2_spec.specs.Frames.Frame.{Frame, IsSendable, Preface, WholeFrame, NoItem, Got, frame_octets, head_sent, head_at, next, preface};
ghost use Rattle.h2_spec.specs.Frames.FrameType.{PADDED, has};
ghost use Rattle.h2_spec.specs.Frames.Payload.{data_part, headers_part, octets_if, fixed_len, pad_or_0};

/// The octets of a frame begin with its head, and are its item at any limit that is not below its length, whatever
/// follows them (RFC 9113, 4.1 and 4.2).
pub fn frames_are_read_back()
    ensures head { (f : Frame) (rest : List ℕ) → IsSendable f → head_at (frame_octets f ++ rest) ≡ Some (head_sent f) }
    ensures item { (limit : ℕ) (f : Frame) (rest : List ℕ) → IsSendable f → length f.payload ≤ limit → next false limit (frame_octets f ++ rest) ≡ Got (WholeFrame (head_sent f) f.payload) (9 + length f.payload) }
{}

/// The preface is an item whatever follows it, and is awaited as long as the octets are the beginning of it (RFC
/// 9113, 3.4).
pub fn the_preface_is_found()
    ensures whole { (limit : ℕ) (rest : List ℕ) → next true limit (preface ++ rest) ≡ Got Preface 24 }
    ensures awaited { (limit : ℕ) (b rest : List ℕ) → b ++ rest ≡ preface → length b < 24 → next true limit b ≡ NoItem }
{}

/// A payload of DATA or HEADERS is its fixed octets, its content or fragment, and its padding, which is as long as it
/// says (RFC 9113, 6.1 and 6.2).
pub fn payloads_are_their_parts()
    ensures data { (flags : ℕ) (p : List ℕ) → IfOk (data_part flags p) (λ d. (take (octets_if (has flags PADDED) 1) p ++ (d.content ++ d.padding) ≡ p) × (length d.padding ≡ pad_or_0 d.pad)) }
    ensures headers { (flags : ℕ) (p : List ℕ) → IfOk (headers_part flags p) (λ h. (take (fixed_len flags) p ++ (h.fragment ++ h.padding) ≡ p) × (length h.padding ≡ pad_or_0 h.pad)) }
{}
