//! What goes out for each item of a client, where a script adds frames to what the server sends. Definitions:
//! `specs/Woven.antt`.

ghost use Rattle.std.specs.Prelude.{◌≡◌, ◌++◌, ◌≤◌, false, true, length, take, option_map, IfOk, OnOk, is_some, None, Some};
ghost use Rattle.h2_spec.specs.Octets.{big_endian};
ghost use Rattle.h2_cmd_dialogue.specs.Steps.{incoming_of};
ghost use Rattle.h2_cmd_dialogue.specs.Woven.{after_item, base_of, goes_out, kept, last_of, last_sent, later, next_step, no_parts, no_steps_taken, parts_of, parts_with, picked_frame, picked_frames, reset_by, resets, script_frame, script_frames, script_octets, stopped, stream_sent, with_item};

use crate::item::behind;
use crate::step::{Incoming, PROBE, ScriptFrame, Step, based, with_request};
use h2_explain_words::sent::next_frame;
use h2_frame::{FrameRef, Part, append_frame, part_of};
use h2_spec::frames::{PING, RST_STREAM};
use h2_spec::octets::{first_octets, octets_up_to};
use std::alloc::{AllocError, Global};
use std::marker::Model;

/// The longest payload of a frame (RFC 9113, 4.1).
const LONGEST: usize = 16_777_215;

/// How far the steps of a dialogue were taken.
#[derive(Drop)]
pub struct Weaver {
    /// How many steps were taken.
    pub taken: usize,
    /// One less than the stream of the client's first request; none before it.
    pub base: Option<u32>,
    /// The streams that the script has reset.
    pub reset: Vec<u32>,
}

impl Model for Weaver {
    ghost use Rattle.h2_cmd_dialogue.specs.Woven as woven;

    ghost Value = { woven.Weaving };

    ghost view = { λ w. record { taken = w.taken; base = w.base; reset = w.reset.items } };
}

/// The number that the last four octets of a head write for a frame of the script.
fn stream_sent(base: u32, frame: &ScriptFrame) -> u32
    ensures { result ≡ stream_sent base frame.now.head }
{
    let stream = based(base, frame.head.stream);
    if frame.head.reserved {
        stream.saturating_add(2_147_483_648)
    } else {
        stream
    }
}

/// The last stream that GOAWAY of the script says, as it is sent, where it counts from the client's first request.
fn last_of(base: u32, last: u32) -> Option<u32>
    ensures { result ≡ last_of base last }
{
    if last % 2 == 1 && last != 2_147_483_647 {
        Some(last.saturating_add(base))
    } else {
        None
    }
}

/// That of a frame of the script, if it is GOAWAY.
fn last_sent(base: u32, frame: &ScriptFrame) -> Option<u32>
    ensures { result ≡ last_sent base frame.now.head frame.now.payload }
{
    let frame = FrameRef {
        head: frame.head,
        payload: frame.payload.as_slice(),
    };
    match part_of(frame) {
        Ok(Part::Goaway(last, _)) => last_of(base, last),
        _ => None,
    }
}

/// The octets of a number.
fn four_octets(number: u32) -> [u8; 4]
    ensures value { result ≡ big_endian 4 number }
    ensures length { length result ≡ 4 }
{
    let octets = number.to_be_bytes();
    [octets[0], octets[1], octets[2], octets[3]]
}

/// At most this many of the first octets.
fn at_most(octets: &[u8], most: usize) -> &[u8]
    ensures value { result.now ≡ take most octets.now }
    ensures within { length result.now ≤ most }
{
    if octets.len() <= most {
        return octets;
    }
    octets_up_to(octets, most)
}

/// Appends a frame of the script.
fn put_frame(base: u32, frame: &ScriptFrame, out: &mut Vec<u8>) -> Result<(), AllocError>
    ensures { OnOk result (out.new.items ≡ out.old.items ++ script_frame base frame.now) }
{
    let (kind, flags) = (frame.head.kind, frame.head.flags);
    let stream = stream_sent(base, frame);
    let payload = frame.payload.as_slice();
    match last_sent(base, frame) {
        None => append_frame(kind, flags, stream, &[], at_most(payload, LONGEST), out),
        Some(last) => {
            let rest = at_most(behind(payload, 4), LONGEST - 4);
            append_frame(kind, flags, stream, &four_octets(last), rest, out)
        }
    }
}

/// Appends frames of the script.
fn put_frames(base: u32, frames: &[ScriptFrame], out: &mut Vec<u8>) -> Result<(), AllocError>
    ensures { OnOk result (out.new.items ≡ out.old.items ++ script_frames base frames.now) }
{
    for frame in frames {
        put_frame(base, frame, out)?;
    }
    Ok(())
}

/// Appends what a step sends: its frames, and a PING where the client has to do something then.
fn put_script(base: u32, step: &Step, out: &mut Vec<u8>) -> Result<(), AllocError>
    ensures { OnOk result (out.new.items ≡ out.old.items ++ script_octets base step.now) }
{
    put_frames(base, step.frames.as_slice(), out)?;
    if step.wanted.is_empty() {
        return Ok(());
    }
    append_frame(PING, 0, 0, &[], &PROBE, out)
}

/// The stream that a frame of the script resets, if it does.
fn reset_by(base: u32, frame: &ScriptFrame) -> Option<u32>
    ensures { result ≡ reset_by base frame.now }
{
    if frame.head.kind == RST_STREAM && frame.head.stream != 0 {
        Some(based(base, frame.head.stream))
    } else {
        None
    }
}

/// Appends the streams that frames of the script reset.
fn put_resets(base: u32, frames: &[ScriptFrame], reset: &mut Vec<u32>) -> Result<(), AllocError>
    ensures { OnOk result (reset.new.items ≡ reset.old.items ++ resets base frames.now) }
{
    for frame in frames {
        if let Some(stream) = reset_by(base, frame) {
            match reset.push(stream) {
                Ok(()) => {}
                Err(_) => return Err(AllocError),
            }
        }
    }
    Ok(())
}

/// What the server sends for an item, apart, and what the script sends after it.
#[derive(Drop)]
pub struct Parts {
    /// The frames of the server that go out.
    pub sent: Vec<u8>,
    /// Those that do not.
    pub withheld: Vec<u8>,
    /// Those of the script.
    pub script: Vec<u8>,
}

impl Model for Parts {
    ghost use Rattle.h2_cmd_dialogue.specs.Woven as woven;

    ghost Value = { woven.Parts };

    ghost view = { λ p. record { sent = p.sent.items; withheld = p.withheld.items; script = p.script.items } };
}

/// Appends a frame that the server sends; to what is withheld where the script has reset its stream.
fn put_frame_apart(
    reset: &[u32],
    frame: FrameRef<'_>,
    octets: &[u8],
    out: &mut Vec<u8>,
    withheld: &mut Vec<u8>,
) -> Result<(), AllocError>
    ensures out { OnOk result (out.new.items ≡ out.old.items ++ picked_frame false reset.now frame.entry.head octets.now) }
    ensures withheld { OnOk result (withheld.new.items ≡ withheld.old.items ++ picked_frame true reset.now frame.entry.head octets.now) }
{
    let count = 9usize.saturating_add(frame.head.length as usize);
    let octets = first_octets(octets, count);
    if reset.contains(&frame.head.stream) {
        withheld.extend_from_slice(octets)
    } else {
        out.extend_from_slice(octets)
    }
}

/// Appends the frames that the server sends; to what is withheld those on streams that the script has reset.
fn put_frames_apart(
    reset: &[u32],
    sent: &[u8],
    out: &mut Vec<u8>,
    withheld: &mut Vec<u8>,
) -> Result<(), AllocError>
    ensures out { OnOk result (out.new.items ≡ out.old.items ++ picked_frames false reset.now (length sent.now) sent.now) }
    ensures withheld { OnOk result (withheld.new.items ≡ withheld.old.items ++ picked_frames true reset.now (length sent.now) sent.now) }
{
    let mut rest = sent;
    for _frame in 0..sent.len() {
        let Some((frame, behind)) = next_frame(rest) else {
            return Ok(());
        };
        put_frame_apart(reset, frame, rest, out, withheld)?;
        rest = behind;
    }
    Ok(())
}

impl Parts {
    /// Nothing.
    fn new(alloc: Global) -> Parts
        ensures { result ≡ no_parts }
    {
        Parts {
            sent: Vec::new(alloc),
            withheld: Vec::new(alloc),
            script: Vec::new(alloc),
        }
    }

    /// What the server sends for an item goes out, but what is on streams that the script has reset.
    fn put_sent(&mut self, reset: &[u32], sent: &[u8]) -> Result<(), AllocError>
        ensures { OnOk result (self.new ≡ record self.old {
          sent = self.old.sent ++ kept reset.now sent.now;
          withheld = self.old.withheld ++ stopped reset.now sent.now;
        }) }
    {
        if reset.is_empty() {
            return self.sent.extend_from_slice(sent);
        }
        put_frames_apart(reset, sent, &mut self.sent, &mut self.withheld)
    }

    /// What the server sends for an item does not go out.
    fn withhold(&mut self, sent: &[u8]) -> Result<(), AllocError>
        ensures { OnOk result (self.new ≡ record self.old { withheld = self.old.withheld ++ sent.now }) }
    {
        self.withheld.extend_from_slice(sent)
    }

    /// What a step sends goes out.
    fn put_script(&mut self, base: u32, step: &Step) -> Result<(), AllocError>
        ensures { OnOk result (self.new ≡ record self.old { script = self.old.script ++ script_octets base step.now }) }
    {
        put_script(base, step, &mut self.script)
    }

    /// What goes out.
    pub fn into_out(self) -> Result<Vec<u8>, AllocError>
        ensures { IfOk result (λ out. out.items ≡ goes_out self) }
    {
        let Self { sent, script, .. } = self;
        let mut out = sent;
        out.extend_from_slice(script.as_slice())?;
        Ok(out)
    }
}

impl Weaver {
    /// Nothing was taken.
    pub fn new(alloc: Global) -> Weaver
        ensures { result ≡ no_steps_taken }
    {
        Weaver {
            taken: 0,
            base: None,
            reset: Vec::new(alloc),
        }
    }

    /// How many steps were taken.
    pub fn taken(&self) -> usize
        ensures { result ≡ self.now.taken }
    {
        self.taken
    }

    /// The number that odd streams of the script are raised by, with this item.
    pub fn base_with(&self, item: Incoming<'_>) -> u32
        ensures { result ≡ base_of (with_item self.now (incoming_of item.entry)).base }
    {
        match with_request(self.base, item) {
            Some(base) => base,
            None => 0,
        }
    }

    /// The number that odd streams of the script are raised by.
    pub fn base(&self) -> u32
        ensures { result ≡ base_of self.now.base }
    {
        match self.base {
            Some(base) => base,
            None => 0,
        }
    }

    /// The step that this item is for, if it is one.
    fn next_step<'s>(&self, steps: &'s [Step], item: Incoming<'_>) -> Option<&'s Step>
        ensures { option_map (λ s. s.now) result ≡ next_step steps.now self.now (incoming_of item.entry) }
    {
        let Some(step) = steps.get(self.taken) else {
            return None;
        };
        if step.awaited.names(self.base(), item) {
            Some(step)
        } else {
            None
        }
    }

    /// A step is taken: gives what goes out with it.
    fn take_step(&mut self, alloc: Global, step: &Step, sent: &[u8]) -> Result<Parts, AllocError>
        ensures state { OnOk result (self.new ≡ later self.old (Some step.now)) }
        ensures parts { IfOk result (λ parts. parts ≡ parts_with self.old (Some step.now) sent.now) }
    {
        let base = self.base();
        let mut parts = Parts::new(alloc);
        if step.is_instead {
            parts.withhold(sent)?;
        } else {
            parts.put_sent(self.reset.as_slice(), sent)?;
        }
        parts.put_script(base, step)?;
        put_resets(base, step.frames.as_slice(), &mut self.reset)?;
        self.taken = self.taken.saturating_add(1);
        Ok(parts)
    }

    /// No step is taken: gives what goes out.
    fn take_none(&self, alloc: Global, sent: &[u8]) -> Result<Parts, AllocError>
        ensures { IfOk result (λ parts. parts ≡ parts_with self.now None sent.now) }
    {
        let mut parts = Parts::new(alloc);
        parts.put_sent(self.reset.as_slice(), sent)?;
        Ok(parts)
    }

    /// An item came, for which the server sends this: gives what goes out of it and what does not, what the script sends, and
    /// whether a step was taken.
    ///
    /// `AllocError` where memory is refused: the dialogue can't go on.
    pub fn weave(
        &mut self,
        alloc: Global,
        steps: &[Step],
        item: Incoming<'_>,
        sent: &[u8],
    ) -> Result<(Parts, bool), AllocError>
        ensures state { OnOk result (self.new ≡ after_item steps.now self.old (incoming_of item.entry)) }
        ensures parts { IfOk result (λ woven. woven.0 ≡ parts_of steps.now self.old (incoming_of item.entry) sent.now) }
        ensures step { IfOk result (λ woven. woven.1 ≡ is_some (next_step steps.now (with_item self.old (incoming_of item.entry)) (incoming_of item.entry))) }
    {
        self.base = with_request(self.base, item);
        match self.next_step(steps, item) {
            Some(step) => {
                let parts = self.take_step(alloc, step, sent)?;
                Ok((parts, true))
            }
            None => {
                let parts = self.take_none(alloc, sent)?;
                Ok((parts, false))
            }
        }
    }
}
