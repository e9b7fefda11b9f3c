//! The acknowledgement of the server's settings, with which they come into force (RFC 9113, 6.5.3). Definition:
//! `acknowledged` of h2_spec's `specs/SettingsFrame.antt`.

ghost use Rattle.h2_spec.specs.Requests.Headers.{Makes, makes};
ghost use Rattle.h2_spec.specs.SettingsFrame as settings;
ghost use Rattle.h2_spec.specs.State.{configured};
ghost use Rattle.h2_conn.specs.Blocks.{IsStopped};
ghost use Rattle.h2_spec.specs.Does.{Settles};
ghost use Rattle.h2_spec.specs.Effect as rule;

use crate::state::State;
use h2_conn_rules::change::{ignoring, only_counts, verdict_of};
use h2_conn_rules::settings::comes_into_force;
use h2_conn_send::{send_and_update, with_sent};
use h2_frame::Outgoing;
use h2_spec::ignored::Ignored;
use h2_spec::reactions::Verdict;
use std::alloc::{AllocError, Allocator};

impl<'b, A: Allocator + Copy> State<'b, A> {
    // Order: places for a higher limit, which need memory; what every change does; then the limit itself.
    /// The peer has acknowledged the server's settings: the first time they come into force, later it is ignored.
    #[inline(never)]
    pub fn on_acknowledged<O: Outgoing<'b, A>>(
        &mut self,
        out: &mut O,
    ) -> Result<Verdict, AllocError>
        requires stopped { IsStopped self.old.block }
        ensures { Settles self.old (O.octets out.old) (makes self.old (rule.on_settings_ack self.old)) result self.new (O.octets out.new) }
    {
        if self.core.acked {
            let change = ignoring(Ignored::SecondAcknowledgement, only_counts(self.core));
            self.apply_change(&change, out)
        } else {
            self.come_into_force(out)
        }
    }

    // Window and unreturned octets make up the initial window in force on every live stream, so the move
    // can't fail.
    /// The server's settings come into force: the limit of the header table, the receive windows of live streams, and
    /// the longest frame. The header table keeps its entries and its maximum (RFC 7541, 4.2).
    ///
    /// # Errors
    ///
    /// `AllocError` where memory was refused for the entries that a higher limit lets the table hold: nothing is done.
    fn come_into_force<O: Outgoing<'b, A>>(&mut self, out: &mut O) -> Result<Verdict, AllocError>
        requires stopped { IsStopped self.old.block }
        ensures { let change = settings.comes_into_force self.old.core (configured self.old.config) in
            Settles self.old (O.octets out.old) (Makes self.old change) result self.new (O.octets out.new) }
    {
        let own = self.config.configured();
        let change = comes_into_force(self.core, own);
        let before = self.table.limit();
        self.table.set_limit(before.max(own.table))?;
        match send_and_update(self.book, &mut self.streams, &change, out) {
            Ok(count) => {
                self.core = with_sent(change.core, count);
                self.table.lower_limit(own.table);
                Ok(verdict_of(&change))
            }
            Err(error) => {
                self.table.lower_limit(before);
                Err(error)
            }
        }
    }
}
