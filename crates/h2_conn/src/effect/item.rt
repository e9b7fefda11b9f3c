//! What one item does: the checks, the rule of its frame's type, and then the pending output is sent (RFC 9113, 5 and
//! 6). Definitions: `effect` of h2_spec's `specs/Effect.antt`, `step` of `specs/Trace.antt`.

ghost use Rattle.std.specs.Prelude.{◌≡◌, ℕ, List, false, true, ◌<◌, ◌^◌, length, None, Ok, IfOk, IsTrue, OnOk, OnErr};
ghost use Rattle.std.specs.List.{list_any};
ghost use Rattle.h2_frame.specs.Items.{item_of};
ghost use Rattle.h2_frame.specs.Parts.{part_seen, settings_in};
ghost use Rattle.h2_spec.specs.Checks as checks;
ghost use Rattle.h2_spec.specs.Effect as rule;
ghost use Rattle.h2_spec.specs.Frames.Frame.{Preface, WholeFrame};
ghost use Rattle.h2_spec.specs.Frames.FrameType.{DATA, PADDED, has};
ghost use Rattle.h2_spec.specs.Requests.Headers.{makes};
ghost use Rattle.h2_spec.specs.Causes.Ignored.{ignored_of};
ghost use Rattle.h2_spec.specs.Frames.Payload.{part_of};
ghost use Rattle.h2_spec.specs.Stream.{is_live, kind_of, put, reset_as, stream_at};
ghost use Rattle.h2_spec.specs.Trace.{step};
ghost use Rattle.h2_conn.specs.Blocks.{IsStopped};
ghost use Rattle.h2_spec.specs.Does.{Does, IsShort, Settles};
ghost use Rattle.h2_conn.specs.Shown.{Shows, fields_at_hand, item_fields, part_fields};
ghost use Rattle.h2_streams.specs.Kept.{is_ready};

use crate::effect::data_frame::{incoming, plain_incoming};
use crate::field_block::scratch::Scratch;
use crate::state::State;
use h2_conn_rules::change::only_counts;
use h2_conn_rules::checks::{oversize, refusal};
use h2_conn_rules::control::{ignore, on_goaway, on_ping};
use h2_conn_rules::reset::on_reset;
use h2_conn_rules::settings::settings_rule;
use h2_frame::{FrameRef, Item, Outgoing, Part, SettingsPart, part_of};
use h2_spec::causes::Cause;
use h2_spec::connection::{ConnectionState, Phase};
use h2_spec::frames::{ACK, Head};
use h2_spec::ignored::Ignored;
use h2_spec::reactions::Verdict;
use std::alloc::{AllocError, Allocator};

impl<'b, A: Allocator + Copy> State<'b, A> {
    /// The stream of the open block.
    fn block_stream(&self) -> Option<u32>
        ensures { result ≡ rule.block_stream self.now.block }
    {
        match &self.block {
            None => None,
            Some(block) => Some(block.stream()),
        }
    }

    /// RST_STREAM.
    #[inline(never)]
    fn on_reset<O: Outgoing<'b, A>>(&mut self, id: u32, out: &mut O) -> Result<Verdict, AllocError>
        requires stopped { IsStopped self.old.block }
        ensures { Settles self.old (O.octets out.old) (makes self.old (rule.reset_at self.old id)) result self.new (O.octets out.new) }
    {
        if self.only_resets(id) {
            self.reset(id);
            return Ok(Verdict {
                cause: None,
                ignored: None,
            });
        }
        let stream = self.stream_at(id);
        let reaction = on_reset(self.core(), stream);
        self.conclude_leaving_counts(reaction, out)
    }

    /// Looks the stream up. Where it returns `true` it is live, and no stream can send.
    #[inline(always)]
    fn only_resets(&mut self, id: u32) -> bool
        ensures same { self.new ≡ self.old }
        ensures live { IsTrue result → is_live (kind_of self.new.core.last self.new.streams id) ≡ true }
        ensures idle { IsTrue result → list_any is_ready self.new.streams ≡ false }
    {
        self.look_up(id) && self.streams.none_ready()
    }

    /// The peer resets a live stream.
    #[inline(always)]
    fn reset(&mut self, id: u32)
        requires stopped { IsStopped self.old.block }
        requires live { is_live (kind_of self.old.core.last self.old.streams id) ≡ true }
        ensures { self.new ≡ record self.old { streams = put (reset_as true (stream_at self.old.core.last self.old.streams id)) self.old.streams } }
    {
        self.streams.reset(id, true);
    }

    /// SETTINGS without ACK.
    #[inline(never)]
    fn on_settings<O: Outgoing<'b, A>>(
        &mut self,
        part: SettingsPart<'_>,
        out: &mut O,
    ) -> Result<Verdict, AllocError>
        requires stopped { IsStopped self.old.block }
        ensures { Settles self.old (O.octets out.old) (makes self.old (rule.on_settings self.old (settings_in part.entry))) result self.new (O.octets out.new) }
    {
        let greatest = self.streams.greatest_send();
        let reaction = settings_rule(&greatest, self.core(), part);
        self.conclude(reaction, out)
    }

    /// PING.
    #[inline(always)]
    fn on_ping<O: Outgoing<'b, A>>(
        &mut self,
        is_answer: bool,
        octets: [u8; 8],
        out: &mut O,
    ) -> Result<Verdict, AllocError>
        requires stopped { IsStopped self.old.block }
        ensures { Settles self.old (O.octets out.old) (makes self.old (rule.on_ping self.old.core is_answer octets)) result self.new (O.octets out.new) }
    {
        let reaction = on_ping(self.core(), is_answer, octets);
        self.conclude_leaving_counts(reaction, out)
    }

    /// GOAWAY.
    #[inline(never)]
    fn on_goaway<O: Outgoing<'b, A>>(
        &mut self,
        last: u32,
        code: u32,
        out: &mut O,
    ) -> Result<Verdict, AllocError>
        requires stopped { IsStopped self.old.block }
        ensures { Settles self.old (O.octets out.old) (makes self.old (rule.on_goaway self.old.core last code)) result self.new (O.octets out.new) }
    {
        let reaction = on_goaway(self.core(), last, code);
        self.conclude(reaction, out)
    }

    /// PRIORITY and frames of unknown types: ignored for this reason. Where no stream can send there is nothing to do.
    #[inline(never)]
    fn on_ignored<O: Outgoing<'b, A>>(
        &mut self,
        reason: Ignored,
        out: &mut O,
    ) -> Result<Verdict, AllocError>
        requires stopped { IsStopped self.old.block }
        ensures { Settles self.old (O.octets out.old) (makes self.old (rule.ignore self.old.core reason)) result self.new (O.octets out.new) }
    {
        if self.streams.none_ready() {
            return Ok(Verdict {
                cause: None,
                ignored: Some(reason),
            });
        }
        let reaction = ignore(self.core(), reason);
        self.conclude_leaving_counts(reaction, out)
    }

    // Each type has a function that makes its change. Where all join in one value, it is moved through
    // memory: 90 instructions an item. The small ones are inlined, since a function of a connection exists
    // once for each type and lifetime of what is sent.
    /// A frame that has passed the checks, by what it holds.
    fn on_part<O: Outgoing<'b, A>>(
        &mut self,
        head: &Head,
        payload: &[u8],
        part: Part<'_>,
        scratch: &mut Scratch<A>,
        out: &mut O,
    ) -> Result<Verdict, AllocError>
        requires fits { length payload.now < 2 ^ 24 }
        requires part { part_of head.now payload.now ≡ Ok (part_seen part) }
        requires passed { checks.refusal (rule.block_stream self.old.block) self.old.core.phase head.now ≡ None }
        ensures settles { Settles self.old (O.octets out.old) (rule.frame_effect self.old head.now payload.now (part_seen part.entry))
            result self.new (O.octets out.new) }
        ensures fields { OnOk result (Shows (part_fields self.old head.now (part_seen part.entry))
            (fields_at_hand self.new.block scratch.new.decoding.fields)) }
    {
        match part {
            Part::Data(part) => self.on_data(head.stream, incoming(head, payload, part), out),
            Part::Headers(part) => self.on_headers(head, part, scratch, out),
            Part::Priority => self.on_ignored(Ignored::Priority, out),
            Part::RstStream(_) => self.on_reset(head.stream, out),
            Part::Settings(part) => self.on_settings(part, out),
            Part::SettingsAck => self.on_acknowledged(out),
            Part::PushPromise => self.fail(Cause::PushPromiseFromClient, out),
            Part::Ping(octets) => self.on_ping(head.has(ACK), octets, out),
            Part::Goaway(last, code) => self.on_goaway(last, code, out),
            Part::WindowUpdate(increment) => { self.on_window_update(head.stream, increment, out) }
            Part::Continuation(octets) => self.on_continuation(head, octets, scratch, out),
            Part::Unknown => self.on_ignored(Ignored::UnknownType, out),
        }
    }

    /// A frame: the checks of its head, the form of its payload, and then what it holds.
    fn on_frame<O: Outgoing<'b, A>>(
        &mut self,
        frame: FrameRef<'_>,
        scratch: &mut Scratch<A>,
        out: &mut O,
    ) -> Result<Verdict, AllocError>
        requires fits { length frame.payload.now < 2 ^ 24 }
        ensures settles { Settles self.old (O.octets out.old) (rule.item_effect self.old (WholeFrame frame.entry.head frame.entry.payload.now))
            result self.new (O.octets out.new) }
        ensures fields { OnOk result (Shows (item_fields self.old (WholeFrame frame.entry.head frame.entry.payload.now))
            (fields_at_hand self.new.block scratch.new.decoding.fields)) }
    {
        match refusal(self.block_stream(), self.core.phase, &frame.head) {
            Some(cause) => self.fail(cause, out),
            None => match part_of(frame) {
                Err(cause) => self.fail(cause, out),
                Ok(part) => self.on_part(&frame.head, frame.payload, part, scratch, out),
            },
        }
    }

    // Of DATA without padding the length alone matters, so what completes a frame that two pieces share is
    // not copied. DATA of 16,384 octets in pieces of 8,000 took a quarter more.
    /// A frame of DATA without padding, of whose payload its length alone matters: the checks of its head, and then the rule.
    #[tactic(auto, unfolding(h2_spec::specs::Effect::effect, h2_spec::specs::Trace::step))]
    pub(crate) fn on_plain_data<O: Outgoing<'b, A>>(
        &mut self,
        head: &Head,
        out: &mut O,
    ) -> Result<Verdict, AllocError>
        requires kind { head.now.kind ≡ DATA }
        requires unpadded { has head.now.flags PADDED ≡ false }
        ensures ok { OnOk result ((payload : List ℕ) → length payload ≡ head.now.length
            → Does (step self.old (WholeFrame head.now payload)) (O.octets out.old) self.new (O.octets out.new)) }
        ensures err { OnErr result ((self.new ≡ self.old) × (O.octets out.new ≡ O.octets out.old)) }
    {
        match refusal(self.block_stream(), self.core.phase, head) {
            Some(cause) => self.fail(cause, out),
            None => self.on_data(head.stream, plain_incoming(head), out),
        }
    }

    /// The client's preface has arrived: SETTINGS is awaited (RFC 9113, 3.4).
    fn on_preface<O: Outgoing<'b, A>>(&mut self, out: &mut O) -> Result<Verdict, AllocError>
        ensures { Settles self.old (O.octets out.old) (rule.item_effect self.old Preface) result self.new (O.octets out.new) }
    {
        let change = only_counts(ConnectionState {
            phase: Phase::Settings,
            ..self.core
        });
        self.apply_change(&change, out)
    }

    /// One item: what it does, and then the pending output is sent; all or nothing. Answers how it is judged: for which
    /// cause it is a connection error or a stream error, or for which reason it is ignored.
    ///
    /// # Errors
    ///
    /// `AllocError` where memory was refused: the state, its open block included, and `out` are as before the item.
    #[inline(always)]
    #[tactic(auto, unfolding(h2_spec::specs::Effect::effect, h2_spec::specs::Effect::cause_of, h2_spec::specs::Causes::Ignored::ignored_of, h2_spec::specs::Trace::step))]
    pub fn item<O: Outgoing<'b, A>>(
        &mut self,
        item: &Item<'_>,
        scratch: &mut Scratch<A>,
        out: &mut O,
    ) -> Result<Verdict, AllocError>
        requires short { IsShort (item_of item.now) }
        ensures ok { OnOk result (Does (step self.old (item_of item.now)) (O.octets out.old) self.new (O.octets out.new)) }
        ensures verdict { IfOk result (λ verdict. verdict
            ≡ record { cause = rule.cause_of self.old (item_of item.now); ignored = ignored_of self.old (item_of item.now) }) }
        ensures fields { OnOk result (Shows (item_fields self.old (item_of item.now)) (fields_at_hand self.new.block scratch.new.decoding.fields)) }
        ensures err { OnErr result ((self.new ≡ self.old) × (O.octets out.new ≡ O.octets out.old)) }
    {
        match item {
            Item::Preface => self.on_preface(out),
            Item::BadPreface => self.fail(Cause::BadPreface, out),
            Item::Oversize(head) => self.fail(oversize(head), out),
            Item::Frame(frame) => self.on_frame(*frame, scratch, out),
        }
    }
}
