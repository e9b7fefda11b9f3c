//! Fragments of field blocks, from HEADERS and CONTINUATION (RFC 9113, 4.3, 6.2 and 6.10). Definition: `fragment` of
//! h2_spec's `specs/Requests/Headers.antt`.

ghost use Rattle.std.specs.Prelude.{◌≡◌, Bool, IfOk};
ghost use Rattle.h2_spec.specs.Requests.Headers as rule;
ghost use Rattle.h2_table.specs.Edits.{IsEdit};
ghost use Rattle.h2_conn.specs.Blocks.{effect_read, limited, with_table};
ghost use Rattle.h2_conn.specs.Fragments.{IsSized, IsUntouched, after_of, before_of};
ghost use Rattle.h2_conn.specs.Shown.{fields_with};

use crate::field_block::decoding::Decoding;
use crate::field_block::tentative::Tentative;
use crate::state::State;
use h2_conn_rules::block::{fault_cause, is_block_too_large};
use h2_spec::causes::Cause;
use h2_spec::connection::BlockView;
use h2_table::Edit;
use std::alloc::{AllocError, Allocator};

impl<'b, A: Allocator + Copy> State<'b, A> {
    /// A fragment of a block is decoded: the block as it is shown with it, or why it is a connection error. The state does not
    /// change: `edit` becomes the one that makes the header table the one after the fragment (or after its instructions in
    /// front of a fault), `tentative` what takes the block back or on. `edit` may be of any table: its memory is used again.
    ///
    /// # Errors
    ///
    /// `AllocError` where memory for the added entries, the fields or the octets that are left was refused.
    #[inline(always)]
    pub fn fragment(
        &self,
        edit: &mut Edit<A>,
        tentative: &mut Tentative<A>,
        shown: BlockView,
        decoding: &mut Decoding<A>,
        octets: &[u8],
    ) -> Result<Result<BlockView, Cause>, AllocError>
        requires untouched { IsUntouched decoding.old tentative.old }
        ensures before { before_of decoding.new tentative.new ≡ before_of decoding.old tentative.old }
        ensures sized { IsSized decoding.new tentative.new }
        ensures purpose { decoding.new.purpose ≡ decoding.old.purpose }
        ensures stream { IfOk result (λ read. IfOk read (λ view. view.stream ≡ shown.stream)) }
        ensures belongs { IfOk result (λ read. IsEdit (limited self.now.core.own.table self.now.table) edit.new) }
        ensures fields { IfOk result (λ read. decoding.new.fields ≡ fields_with self.now shown (before_of decoding.old tentative.old) octets.now) }
        ensures effect { IfOk result (λ read. (end_headers : Bool)
            → effect_read (with_table self.now edit.new) (after_of decoding.new tentative.new) end_headers read
            ≡ rule.fragment self.now shown (before_of decoding.old tentative.old) octets.now end_headers) }
    {
        let count = shown.octets as usize + octets.len();
        if is_block_too_large(count) {
            edit.begin(&self.table);
            return Ok(Err(Cause::BlockTooLarge));
        }
        match decoding.decode(&self.table, edit, tentative, octets) {
            Ok(()) => Ok(Ok(BlockView {
                octets: count as u32,
                list_size: decoding.list_size(),
                ..shown
            })),
            Err(fault) => match fault_cause(fault) {
                Some(cause) => Ok(Err(cause)),
                None => Err(AllocError),
            },
        }
    }
}
