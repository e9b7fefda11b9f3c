//! HEADERS and CONTINUATION on a connection: a block is opened or goes on, and what it results in is made (RFC 9113,
//! 6.2 and 6.10). Definitions: `on_headers` of h2_spec's `specs/Effect.antt`, `continuation` of
//! `specs/Requests/Headers.antt`.

ghost use Rattle.std.specs.Prelude.{◌≡◌, ◌<◌, ◌^◌, false, true, length, option_map, None, Some, IfNone, IfOk, IfSome, OnOk, OnErr};
ghost use Rattle.h2_frame.specs.Parts.{headers_seen};
ghost use Rattle.h2_spec.specs.Requests.Headers as headers;
ghost use Rattle.h2_spec.specs.Requests.Headers.{Breaks};
ghost use Rattle.h2_spec.specs.State.{is_due};
ghost use Rattle.h2_spec.specs.Stream.{stream_at};
ghost use Rattle.h2_spec.specs.ReactionTable.{headers_cell};
ghost use Rattle.h2_conn.specs.OpenBlocks.{block_after};
ghost use Rattle.h2_conn.specs.Blocks.{IsOpenAt, IsOpenFor, IsStopped, at_end, decoding_of, going_on, limited, makes_open};
ghost use Rattle.h2_conn.specs.Counts.{with_counts};
ghost use Rattle.h2_spec.specs.Does.{Settles};
ghost use Rattle.h2_conn.specs.Blocks.{stopped};
ghost use Rattle.h2_spec.specs.Effect as rule;
ghost use Rattle.h2_conn.specs.Fragments.{IsSized, after_of, before_of};
ghost use Rattle.h2_conn.specs.Records.{records};
ghost use Rattle.h2_conn.specs.Shown.{Shows, fields_at_hand, fields_continued, fields_of_headers, fields_with};
ghost use Rattle.h2_conn_rules.specs.Block.{cell_of};
ghost use Rattle.h2_conn_rules.specs.Sound.{IsSoundChange, in_force, updated_records};
ghost use Rattle.h2_table.specs.Edits.{IsEdit};

use crate::field_block::block_end::block_ends;
use crate::field_block::decoding::Decoding;
use crate::field_block::open_block::{fresh_block, leave_open};
use crate::field_block::scratch::Scratch;
use crate::field_block::tentative::Tentative;
use crate::state::State;
use h2_conn_rules::block::{goes_on, headers_purpose};
use h2_frame::{HeadersPart, Outgoing};
use h2_spec::causes::Cause;
use h2_spec::connection::{BlockView, Purpose};
use h2_spec::frames::{END_HEADERS, Head};
use h2_spec::reactions::{Change, Verdict};
use h2_table::Edit;
use std::alloc::{AllocError, Allocator};

impl<'b, A: Allocator + Copy> State<'b, A> {
    /// A change of a fragment is made, and then block and table; or nothing.
    ///
    /// # Errors
    ///
    /// `AllocError` where memory was refused; the block is as it was before the fragment.
    #[inline(always)]
    fn finish<O: Outgoing<'b, A>>(
        &mut self,
        shown: Option<BlockView>,
        change: &Change,
        decoding: &mut Decoding<A>,
        tentative: Tentative<A>,
        edit: &mut Edit<A>,
        out: &mut O,
    ) -> Result<Verdict, AllocError>
        requires stopped { IsStopped self.old.block }
        requires sized { IsSized decoding.old tentative }
        requires belongs { IsEdit (limited self.old.core.own.table self.old.table) edit.old }
        requires sound { IsSoundChange self.old.book (records self.old) (in_force self.old.core) change.now }
        requires known { IsOpenFor (updated_records change.now.record_update (records self.old)) (block_after shown (after_of decoding.old tentative)) }
        requires same { change.now.core ≡ with_counts self.old.core change.now.core }
        ensures settles { Settles self.old (O.octets out.old) (makes_open self.old edit.old shown (after_of decoding.old tentative) change.now)
            result self.new (O.octets out.new) }
        ensures fields { OnOk result (fields_at_hand self.new.block decoding.new.fields ≡ decoding.old.fields) }
        ensures decoding { OnErr result (decoding.new ≡ before_of decoding.old tentative) }
    {
        match self.apply_in_place(change, out) {
            Ok(verdict) => {
                decoding.take_over(tentative);
                leave_open(&mut self.block, shown, decoding);
                self.table.commit(edit);
                Ok(verdict)
            }
            Err(_) => {
                decoding.give_up(tentative);
                Err(AllocError)
            }
        }
    }

    /// A fragment is a connection error; or nothing is done, and the block is as it was before the fragment.
    fn refuse<O: Outgoing<'b, A>>(
        &mut self,
        cause: Cause,
        decoding: &mut Decoding<A>,
        tentative: Tentative<A>,
        out: &mut O,
    ) -> Result<Verdict, AllocError>
        requires sized { IsSized decoding.old tentative }
        ensures settles { Settles self.old (O.octets out.old) (Breaks cause) result self.new (O.octets out.new) }
        ensures fields { OnOk result (fields_at_hand self.new.block decoding.new.fields ≡ decoding.old.fields) }
        ensures decoding { OnErr result (decoding.new ≡ before_of decoding.old tentative) }
    {
        match self.fail(cause, out) {
            Ok(verdict) => Ok(verdict),
            Err(_) => {
                decoding.give_up(tentative);
                Err(AllocError)
            }
        }
    }

    // A function apart from `ends`: each local is zeroed where its function begins, some 150 instructions a
    // fragment.
    /// A fragment was decoded after which its block goes on; or nothing is done, as `finish` says.
    #[inline(always)]
    fn goes_on<O: Outgoing<'b, A>>(
        &mut self,
        shown: BlockView,
        decoding: &mut Decoding<A>,
        tentative: Tentative<A>,
        edit: &mut Edit<A>,
        out: &mut O,
    ) -> Result<Verdict, AllocError>
        requires stopped { IsStopped self.old.block }
        requires sized { IsSized decoding.old tentative }
        requires belongs { IsEdit (limited self.old.core.own.table self.old.table) edit.old }
        requires open { IsOpenAt (records self.old) shown.stream decoding.old.purpose }
        ensures settles { Settles self.old (O.octets out.old) (going_on self.old edit.old shown decoding.old tentative) result self.new (O.octets out.new) }
        ensures fields { OnOk result (fields_at_hand self.new.block decoding.new.fields ≡ decoding.old.fields) }
        ensures decoding { OnErr result (decoding.new ≡ before_of decoding.old tentative) }
    {
        let change = goes_on(self.core(), decoding.purpose);
        self.finish(Some(shown), &change, decoding, tentative, edit, out)
    }

    /// A fragment was decoded that ends its block: HEADERS or CONTINUATION with END_HEADERS; or nothing is done, as
    /// `finish` says.
    #[inline(never)]
    fn ends<O: Outgoing<'b, A>>(
        &mut self,
        shown: BlockView,
        decoding: &mut Decoding<A>,
        tentative: Tentative<A>,
        edit: &mut Edit<A>,
        out: &mut O,
    ) -> Result<Verdict, AllocError>
        requires stopped { IsStopped self.old.block }
        requires sized { IsSized decoding.old tentative }
        requires belongs { IsEdit (limited self.old.core.own.table self.old.table) edit.old }
        requires open { IsOpenAt (records self.old) shown.stream decoding.old.purpose }
        ensures settles { Settles self.old (O.octets out.old) (at_end self.old edit.old shown decoding.old tentative) result self.new (O.octets out.new) }
        ensures fields { OnOk result (fields_at_hand self.new.block decoding.new.fields ≡ decoding.old.fields) }
        ensures decoding { OnErr result (decoding.new ≡ before_of decoding.old tentative) }
    {
        match decoding.bad_end(&tentative) {
            Some(cause) => self.refuse(cause, decoding, tentative, out),
            None => {
                let change = block_ends(
                    self.book,
                    self.config,
                    self.core(),
                    &self.streams,
                    &shown,
                    decoding.purpose,
                    &decoding.collected,
                );
                self.finish(None, &change, decoding, tentative, edit, out)
            }
        }
    }

    /// The open block as it is shown, and its decoding, taken out of the state into `decoding`: it is only shown until the
    /// block is put in again.
    fn take_decoding(&mut self, decoding: &mut Decoding<A>) -> Option<BlockView>
        ensures taken { option_map (λ shown. (shown, decoding.new)) result ≡ decoding_of self.old.block }
        ensures stopped { self.new ≡ stopped self.old }
        ensures unchanged { IfNone result (self.new ≡ self.old) }
        ensures known { IfSome result (λ shown. IsOpenAt (records self.old) shown.stream decoding.new.purpose) }
    {
        match &mut self.block {
            None => None,
            Some(block) => block.take_out(decoding),
        }
    }

    /// The block that was taken out of the state, as it was.
    fn put_back(&mut self, shown: BlockView, decoding: &mut Decoding<A>)
        requires known { IsOpenAt (records self.old) shown.stream decoding.old.purpose }
        ensures { self.new ≡ record self.old { block = Some (record { shown = shown; decoding = Some decoding.old }) } }
    {
        leave_open(&mut self.block, Some(shown), decoding);
    }

    /// Whether the next block has to begin with a size update (RFC 7541, 4.2).
    fn is_due(&self) -> bool
        ensures { result ≡ is_due self.now }
    {
        self.table.due()
    }

    /// What a fragment of a block results in. The block's decoding is taken out where it goes on.
    ///
    /// # Errors
    ///
    /// `AllocError` where memory was refused; the block is as it was before the fragment.
    fn on_fragment<O: Outgoing<'b, A>>(
        &mut self,
        shown: BlockView,
        decoding: &mut Decoding<A>,
        edit: &mut Edit<A>,
        octets: &[u8],
        end_headers: bool,
        out: &mut O,
    ) -> Result<Verdict, AllocError>
        requires stopped { IsStopped self.old.block }
        requires known { IsOpenAt (records self.old) shown.stream decoding.old.purpose }
        ensures settles { Settles self.old (O.octets out.old) (headers.fragment self.old shown decoding.old octets.now end_headers)
            result self.new (O.octets out.new) }
        ensures fields { OnOk result (fields_at_hand self.new.block decoding.new.fields ≡ fields_with self.old shown decoding.old octets.now) }
        ensures decoding { OnErr result (decoding.new ≡ decoding.old) }
    {
        let mut tentative = decoding.unchanged();
        match self.fragment(edit, &mut tentative, shown, decoding, octets) {
            Ok(Ok(shown)) => {
                if end_headers {
                    self.ends(shown, decoding, tentative, edit, out)
                } else {
                    self.goes_on(shown, decoding, tentative, edit, out)
                }
            }
            Ok(Err(cause)) => self.refuse(cause, decoding, tentative, out),
            Err(_) => {
                decoding.give_up(tentative);
                Err(AllocError)
            }
        }
    }

    /// CONTINUATION: the open block goes on; an error where there is none.
    #[inline(never)]
    pub fn on_continuation<O: Outgoing<'b, A>>(
        &mut self,
        head: &Head,
        octets: &[u8],
        scratch: &mut Scratch<A>,
        out: &mut O,
    ) -> Result<Verdict, AllocError>
        ensures settles { Settles self.old (O.octets out.old) (rule.on_continuation self.old head.now octets.now) result self.new (O.octets out.new) }
        ensures fields { OnOk result (Shows (fields_continued self.old self.old.block octets.now) (fields_at_hand self.new.block scratch.new.decoding.fields)) }
    {
        match self.take_decoding(&mut scratch.decoding) {
            None => self.fail(Cause::ContinuationOutsideBlock, out),
            Some(shown) => {
                let end_headers = head.has(END_HEADERS);
                let result = self.on_fragment(
                    shown,
                    &mut scratch.decoding,
                    &mut scratch.edit,
                    octets,
                    end_headers,
                    out,
                );
                if result.is_err() {
                    self.put_back(shown, &mut scratch.decoding);
                }
                result
            }
        }
    }

    /// What HEADERS on a stream open a block for, or the cause of the connection error.
    #[inline(always)]
    fn purpose_at(&self, id: u32) -> Result<Purpose, Cause>
        ensures rule { cell_of result ≡ headers_cell id (stream_at self.now.core.last self.now.streams id).kind }
        ensures known { IfOk result (λ purpose. IsOpenAt (records self.now) id purpose) }
    {
        self.consistent();
        headers_purpose(id, self.stream_at(id).kind)
    }

    /// HEADERS: a block is opened for what the written table says of the stream, or an error.
    #[inline(always)]
    pub fn on_headers<O: Outgoing<'b, A>>(
        &mut self,
        head: &Head,
        part: HeadersPart<'_>,
        scratch: &mut Scratch<A>,
        out: &mut O,
    ) -> Result<Verdict, AllocError>
        requires stopped { IsStopped self.old.block }
        ensures settles { Settles self.old (O.octets out.old) (rule.headers_at self.old head.now (headers_seen part.entry)) result self.new (O.octets out.new) }
        ensures fields { OnOk result (Shows (fields_of_headers self.old head.now (headers_seen part.entry))
            (fields_at_hand self.new.block scratch.new.decoding.fields)) }
    {
        match self.purpose_at(head.stream) {
            Err(cause) => self.fail(cause, out),
            Ok(purpose) => {
                scratch.decoding.renew(purpose, self.is_due());
                let end_headers = head.has(END_HEADERS);
                let shown = fresh_block(head);
                self.on_fragment(
                    shown,
                    &mut scratch.decoding,
                    &mut scratch.edit,
                    part.fragment,
                    end_headers,
                    out,
                )
            }
        }
    }
}
