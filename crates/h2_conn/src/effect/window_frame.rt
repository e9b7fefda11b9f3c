//! WINDOW_UPDATE on a connection (RFC 9113, 6.9): on stream 0, and on a stream, whose window is raised in place where
//! nothing else is done. Definition: `on_window_update` of h2_spec's `specs/Effect.antt`.

ghost use Rattle.std.specs.Prelude.{◌≡◌, false, true, IsTrue};
ghost use Rattle.std.specs.List.{list_any};
ghost use Rattle.h2_spec.specs.Effect as rule;
ghost use Rattle.h2_spec.specs.Requests.Headers.{makes};
ghost use Rattle.h2_spec.specs.Stream.{octets_waiting, put, stream_at};
ghost use Rattle.h2_spec.specs.WindowUpdate as window;
ghost use Rattle.h2_conn.specs.Blocks.{IsStopped};
ghost use Rattle.h2_spec.specs.Does.{Settles};
ghost use Rattle.h2_conn_rules.specs.Plain.{only_raises};
ghost use Rattle.h2_streams.specs.Kept.{is_ready};
ghost use Rattle.h2_streams.specs.Raised.{raised};

use crate::state::State;
use h2_conn_rules::window_update::{connection_window, on_window, only_raises};
use h2_frame::Outgoing;
use h2_spec::reactions::Verdict;
use h2_streams::octets_waiting;
use std::alloc::{AllocError, Allocator};

impl<'b, A: Allocator + Copy> State<'b, A> {
    /// WINDOW_UPDATE on the connection.
    #[inline(always)]
    fn on_connection_window<O: Outgoing<'b, A>>(
        &mut self,
        increment: u32,
        out: &mut O,
    ) -> Result<Verdict, AllocError>
        requires stopped { IsStopped self.old.block }
        ensures { Settles self.old (O.octets out.old) (makes self.old (window.connection_window self.old.core increment)) result self.new (O.octets out.new) }
    {
        let reaction = connection_window(self.core(), increment);
        self.conclude_in_place(reaction, out)
    }

    /// WINDOW_UPDATE on a stream.
    #[inline(never)]
    fn on_stream_window<O: Outgoing<'b, A>>(
        &mut self,
        id: u32,
        increment: u32,
        out: &mut O,
    ) -> Result<Verdict, AllocError>
        requires stopped { IsStopped self.old.block }
        ensures { Settles self.old (O.octets out.old) (makes self.old (rule.window_at self.old id increment)) result self.new (O.octets out.new) }
    {
        self.look_up(id);
        if self.only_raises(id, increment) {
            self.raise(id, increment);
            return Ok(Verdict {
                cause: None,
                ignored: None,
            });
        }
        self.on_other_window(id, increment, out)
    }

    /// Whether an increment raises the send window of a stream and does nothing else: nothing can be sent, before and then.
    #[inline(always)]
    fn only_raises(&self, id: u32, increment: u32) -> bool
        ensures raises { IsTrue result → only_raises increment (stream_at self.now.core.last self.now.streams id) ≡ true }
        ensures idle { IsTrue result → list_any is_ready self.now.streams ≡ false }
        ensures nothing { IsTrue result → octets_waiting (stream_at self.now.core.last self.now.streams id) ≡ 0 }
    {
        let stream = self.stream_at(id);
        only_raises(increment, &stream) && self.streams.none_ready() && octets_waiting(&stream) == 0
    }

    /// Raises the send window of a stream in place.
    #[inline(always)]
    fn raise(&mut self, id: u32, increment: u32)
        requires stopped { IsStopped self.old.block }
        requires raises { only_raises increment (stream_at self.old.core.last self.old.streams id) ≡ true }
        ensures { self.new ≡ record self.old { streams = put (raised increment (stream_at self.old.core.last self.old.streams id)) self.old.streams } }
    {
        self.streams.raise(id, increment);
    }

    /// WINDOW_UPDATE on a stream that does more or less than that, which is seldom, so this is apart.
    #[inline(never)]
    fn on_other_window<O: Outgoing<'b, A>>(
        &mut self,
        id: u32,
        increment: u32,
        out: &mut O,
    ) -> Result<Verdict, AllocError>
        requires stopped { IsStopped self.old.block }
        ensures { Settles self.old (O.octets out.old) (makes self.old (rule.window_at self.old id increment)) result self.new (O.octets out.new) }
    {
        let reaction = on_window(self.core(), increment, self.stream_at(id));
        self.conclude_leaving_counts(reaction, out)
    }

    /// WINDOW_UPDATE.
    #[inline(always)]
    pub fn on_window_update<O: Outgoing<'b, A>>(
        &mut self,
        id: u32,
        increment: u32,
        out: &mut O,
    ) -> Result<Verdict, AllocError>
        requires stopped { IsStopped self.old.block }
        ensures { Settles self.old (O.octets out.old) (makes self.old (rule.on_window_update self.old id increment)) result self.new (O.octets out.new) }
    {
        if id == 0 {
            return self.on_connection_window(increment, out);
        }
        self.on_stream_window(id, increment, out)
    }
}
