//! A connection that is explained while it is driven over a wire.
//! Definitions: `specs/ExplainedConns.antt`.

ghost use Rattle.std.specs.Prelude.{◌≡◌, ℕ, List, [], ◌++◌, Bool, true, false, None, is_none, IfErr, IfOk};
ghost use Rattle.std.specs.Io.KnownBytes.{Appends};
ghost use Rattle.h2_serve.specs.Faults.{failed_by, is_of_printing, not_written};
ghost use Rattle.h2_serve.specs.Numbered.{Grows, PrintsPrefixed, prefixed};
ghost use Rattle.h2_serve.specs.Serves.{Grew};
ghost use Rattle.h2_serve.specs.ExplainedConns.{Concludes, GoesOn, IsWatched, whole};
ghost use Rattle.std.proofs.Common.{refl, ◌∙◌};
ghost use Rattle.h2_serve.specs.Passes.{goes-cut, goes-more, goes-none, grows-more, grows-none, prints-none, prints-then};

use crate::Driven;
use crate::explained::keeper::Keeper;
use crate::explained::numbered::Printer;
use crate::fault::ServeFault;
use h2_conn::Conn;
use h2_explain::{ItemOutbox, RunExplainer, Summary};
use h2_io::{Gathered, Output};
use std::alloc::{AllocError, Global};

/// More octets than a connection ever has: those of a million reads are less.
const MOST: usize = 1 << 63;

/// What is known of a connection once its end was explained.
#[derive(Clone, Copy)]
pub struct Conclusion {
    /// Whether memory was refused for some of the explanation, which is not printed.
    pub is_cut: bool,
    /// What sums the connection up; nothing where memory was refused while it was driven.
    pub summary: Option<Summary>,
}

/// A connection that is driven, its explanation, and what prints and keeps it.
#[derive(Drop)]
pub(crate) struct ExplainedConn<'b, 'o, O, K> {
    pub(crate) alloc: Global,
    pub(crate) conn: Conn<'b, Global>,
    pub(crate) explanation: RunExplainer,
    pub(crate) printer: Printer<'o, O>,
    pub(crate) keeper: &'o mut K,
    /// How many octets came.
    pub(crate) came: usize,
    /// Whether memory was refused.
    pub(crate) failed: bool,
}

impl<'b, O: Output, K: Keeper> Driven<ItemOutbox<'b, Global>> for ExplainedConn<'b, '_, O, K> {
    ghost connection = { λ w. whole w.failed w.conn.state w.explanation.held.items };

    ghost is_ready = { λ w. IsWatched w.failed w.conn w.explanation w.came
        × (O.has_failed w.printer.output.now ≡ failed_by w.printer.fault) };

    ghost passes = { λ refused w octets x. w.failed ≡ false
        → (x.failed ≡ refused) × (x.printer.prefix.items ≡ w.printer.prefix.items) × (x.printer.json ≡ w.printer.json)
        × (x.printer.output.ghost_name ≡ w.printer.output.ghost_name)
        × GoesOn refused w.conn w.explanation
        (λ more. PrintsPrefixed w.printer.prefix.items w.printer.json w.printer.fresh w.printer.fault (O.written w.printer.output.now)
        more x.printer.fresh x.printer.fault (O.written x.printer.output.now))
        octets x.conn x.explanation
        × Grows w.printer.fault x.printer.fault (O.written w.printer.output.now) (O.written x.printer.output.now) };

    fn begin_read(&mut self, octets: &[u8]) {
        self.keeper.keep_read(octets);
        self.explanation.begin_read(&self.conn);
    }

    fn portion(&self, octets: &[u8]) -> usize {
        self.explanation.portion(&self.conn, octets)
    }

    fn take_octets(
        &mut self,
        piece: &[u8],
        out: &mut ItemOutbox<'b, Global>,
    ) -> Result<(), AllocError> {
        let came = self.came.saturating_add(piece.len());
        if came >= MOST {
            self.failed = true;
            return Err(AllocError);
        }
        self.came = came;
        let mut text = Gathered::new(self.alloc);
        let fed = self.explanation.feed(
            self.alloc,
            &mut self.conn,
            piece,
            out,
            &mut text,
            self.keeper,
        );
        self.printer.print_gathered(&text);
        match fed {
            Ok(()) => Ok(()),
            Err(_) => {
                self.failed = true;
                Err(AllocError)
            }
        }
    }

    fn end_code(&self) -> Option<u32> {
        self.conn.ended()
    }

    fn is_failed(&self) -> bool {
        self.failed
    }

    ghost passes_none = { λ w going. (
      going,
      refl,
      refl,
      refl,
      goes-none _ _ _ (prints-none w.printer.prefix.items w.printer.json w.printer.fresh w.printer.fault (O.written w.printer.output.now)),
      grows-none w.printer.fault (O.written w.printer.output.now),
    ) };

    ghost passes_more = { λ refused w x y a b first later going.
        let one = first going in
        let two = later one.0 in (
          two.0,
          two.1 ∙ one.1,
          two.2 ∙ one.2,
          two.3 ∙ one.3,
          goes-more refused _ _ _ _ _ _ _ _ _ a b (λ s t p q. prints-then _ _ _ _ _ _ _ _ _ _ _ _ _ s t one.1 one.2 p q) one.4 two.4,
          grows-more _ _ _ _ _ _ one.5 two.5,
        ) };

    ghost passes_cut = { λ w x a b first going.
        let one = first going in
        (one.0, one.1, one.2, one.3, goes-cut _ w.conn x.conn w.explanation x.explanation a b one.4, one.5) };
}

impl<'b, 'o, O: Output, K: Keeper> ExplainedConn<'b, 'o, O, K> {
    /// Prints the end of the explanation, and sums the connection up.
    fn print_end(&mut self) -> Conclusion
        requires ready { IsWatched self.old.failed self.old.conn self.old.explanation self.old.came }
        requires flag { O.has_failed self.old.printer.output.now ≡ failed_by self.old.printer.fault }
        ensures ended { Concludes self.old.failed result self.old.conn self.old.explanation
            (λ more. PrintsPrefixed self.old.printer.prefix.items self.old.printer.json self.old.printer.fresh self.old.printer.fault
            (O.written self.old.printer.output.now) more self.new.printer.fresh self.new.printer.fault (O.written self.new.printer.output.now)) }
        ensures flag { O.has_failed self.new.printer.output.now ≡ failed_by self.new.printer.fault }
        ensures grows { Grows self.old.printer.fault self.new.printer.fault (O.written self.old.printer.output.now) (O.written self.new.printer.output.now) }
        ensures lost { is_none result.summary ≡ self.old.failed }
        ensures same_reference { self.new.printer.output.ghost_name ≡ self.old.printer.output.ghost_name }
    {
        if self.failed {
            return Conclusion {
                is_cut: true,
                summary: None,
            };
        }
        let mut text = Gathered::new(self.alloc);
        let ended = self.explanation.end(self.alloc, &self.conn, &mut text);
        self.printer.print_gathered(&text);
        Conclusion {
            is_cut: ended.is_err(),
            summary: Some(self.explanation.summary(&self.conn)),
        }
    }

    /// Prints the end of the explanation, and sums the connection up; a fault says why not all that was explained was
    /// printed. Gives the output back.
    pub(crate) fn finish(self) -> (Result<Conclusion, ServeFault>, &'o mut O)
        requires ready { IsWatched self.failed self.conn self.explanation self.came }
        requires flag { O.has_failed self.printer.output.now ≡ failed_by self.printer.fault }
        ensures ended { IfOk result.0 (λ x. Concludes self.entry.failed x self.entry.conn self.entry.explanation
            (λ more. (self.entry.printer.fault ≡ None) × Appends (O.written self.entry.printer.output.now) (O.written result.1.now)
            (prefixed self.entry.printer.prefix.items self.entry.printer.json self.entry.printer.fresh more))) }
        ensures flag { O.has_failed result.1.now ≡ not_written result.0 }
        ensures grew { not_written result.0 ≡ false → (failed_by self.entry.printer.fault ≡ false)
            × Grew (O.written self.entry.printer.output.now) (O.written result.1.now) }
        ensures lost { IfOk result.0 (λ x. is_none x.summary ≡ self.entry.failed) }
        ensures fault { IfErr result.0 (λ fault. is_of_printing fault ≡ true) }
        ensures same_reference { result.1.ghost_name ≡ self.entry.printer.output.ghost_name }
    {
        let mut watched = self;
        let conclusion = watched.print_end();
        let Self { printer, .. } = watched;
        let (output, fault) = printer.into_parts();
        match fault {
            None => (Ok(conclusion), output),
            Some(fault) => (Err(fault.of_server()), output),
        }
    }
}
