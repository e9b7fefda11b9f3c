//! DATA on a connection (RFC 9113, 6.1): what a frame of it brings, and what its stream and the counts become. Definition:
//! `data_at` of h2_spec's `specs/Effect.antt`.

ghost use Rattle.std.specs.Prelude.{◌≡◌, ◌<◌, ◌^◌, length, Ok};
ghost use Rattle.h2_frame.specs.Parts.{data_seen};
ghost use Rattle.h2_spec.specs.Effect as rule;
ghost use Rattle.h2_spec.specs.Frames.FrameType.{END_STREAM, has};
ghost use Rattle.h2_spec.specs.Frames.Payload.{OfData, part_of};
ghost use Rattle.h2_spec.specs.Requests.Answer.{picked};
ghost use Rattle.h2_spec.specs.Requests.Headers.{makes};
ghost use Rattle.h2_conn.specs.Blocks.{IsStopped};
ghost use Rattle.h2_spec.specs.Does.{Settles};
ghost use Rattle.h2_conn_rules.specs.Sound.{HasBody};

use crate::state::State;
use h2_conn_rules::data::{on_data, only_takes, take, take_last};
use h2_frame::{DataPart, Outgoing};
use h2_spec::frames::{END_STREAM, Head};
use h2_spec::reactions::{ReceivedData, Verdict};
use h2_spec::streams::Stream;
use std::alloc::{AllocError, Allocator};

/// What a frame of DATA brings.
#[inline(always)]
pub fn incoming(head: &Head, payload: &[u8], part: DataPart<'_>) -> ReceivedData
    requires fits { length payload.now < 2 ^ 24 }
    requires part { part_of head.now payload.now ≡ Ok (OfData (data_seen part)) }
    ensures { result ≡ rule.incoming head.now payload.now (data_seen part.entry) }
{
    let content = part.content.len() as u32;
    ReceivedData {
        octets: payload.len() as u32,
        content,
        ends: head.has(END_STREAM),
    }
}

/// What a frame of DATA without padding brings: all of its payload is content.
pub fn plain_incoming(head: &Head) -> ReceivedData
    ensures { result ≡ record { octets = head.now.length; content = head.now.length; ends = has head.now.flags END_STREAM } }
{
    ReceivedData {
        octets: head.length,
        content: head.length,
        ends: head.has(END_STREAM),
    }
}

impl<'b, A: Allocator + Copy> State<'b, A> {
    /// The length of the body of a stream's answer.
    #[inline(always)]
    fn body_length(&self, stream: &Stream) -> u64
        requires { HasBody self.now.book stream.now }
        ensures { result ≡ length (picked self.now.book stream.now.pick).body }
    {
        self.book.answer(stream.pick).body.len() as u64
    }

    /// DATA. What is frequent has its own rules, which test nothing again.
    #[inline(never)]
    pub fn on_data<O: Outgoing<'b, A>>(
        &mut self,
        id: u32,
        incoming: ReceivedData,
        out: &mut O,
    ) -> Result<Verdict, AllocError>
        requires stopped { IsStopped self.old.block }
        ensures { Settles self.old (O.octets out.old) (makes self.old (rule.data_at self.old id incoming)) result self.new (O.octets out.new) }
    {
        self.look_up(id);
        let stream = self.stream_at(id);
        if !only_takes(&self.core, incoming, &stream) {
            return self.on_other_data(id, incoming, out);
        }
        if incoming.ends {
            let body = self.body_length(&stream);
            let reaction = take_last(self.config, self.core(), body, incoming, stream);
            self.conclude_in_place(reaction, out)
        } else {
            let reaction = take(self.config, self.core(), incoming, stream);
            self.conclude_in_place(reaction, out)
        }
    }

    /// DATA that is refused or ignored. It is apart, so that what is frequent moves no values for it.
    #[inline(never)]
    fn on_other_data<O: Outgoing<'b, A>>(
        &mut self,
        id: u32,
        incoming: ReceivedData,
        out: &mut O,
    ) -> Result<Verdict, AllocError>
        requires stopped { IsStopped self.old.block }
        ensures { Settles self.old (O.octets out.old) (makes self.old (rule.data_at self.old id incoming)) result self.new (O.octets out.new) }
    {
        self.look_up(id);
        let stream = self.stream_at(id);
        let body = self.body_length(&stream);
        let reaction = on_data(self.config, self.core(), body, incoming, stream);
        self.conclude_in_place(reaction, out)
    }
}
