//! A fragment of a field block that is decoded but not taken over: the block can still go back to how far it was
//! before. Definitions: `decoded` of h2_spec's `specs/Hpack/Block.antt`, and `specs/Blocks.antt` and `specs/Fragments.antt`
//! here.

ghost use Rattle.std.specs.Prelude.{◌≡◌, ◌≢◌, IfErr, OnOk};
ghost use Rattle.h2_hpack_instruction.specs.declared.fault.BlockFault.TheVariants.{NoMemory};
ghost use Rattle.h2_table.specs.Edits.{IsEdit, edited};
ghost use Rattle.h2_conn.specs.OpenBlocks.{bad_end};
ghost use Rattle.h2_conn.specs.Fragments.{HasFault, IsSized, IsUntouched, after_fragment, after_of, before_of, decoded_on};

use crate::field_block::decoding::Decoding;
use h2_conn_rules::block::refused_end;
use h2_fields::collected::Savepoint;
use h2_fields::fragment::decode_piece;
use h2_fields::rest::{Rest, RestChange};
use h2_hpack_instruction::fault::BlockFault;
use h2_spec::causes::Cause;
use h2_table::{DynTable, Edit};
use std::alloc::Allocator;
use std::marker::Model;
use std::mem;

/// What takes a block that is decoded with a fragment more back to how far it was before the fragment, or on to how far
/// it is after it.
#[derive(Drop)]
pub struct Tentative<A: Allocator> {
    /// The octets that are left before the fragment and after it.
    rest: RestChange<A>,
    /// The end of the fields before the fragment.
    savepoint: Savepoint,
}

impl<A: Allocator> Model for Tentative<A> {
    ghost use Rattle.h2_conn.specs.Fragments as fragments;

    ghost Value = { fragments.Tentative };

    ghost view = { λ t. record { savepoint = t.savepoint; before = t.rest.before; after = t.rest.after; all = t.rest.all } };
}

impl<A: Allocator + Copy> Decoding<A> {
    /// No fragment is decoded. The octets that are left are taken out of the block until it is taken over or given up.
    #[inline(always)]
    pub fn unchanged(&mut self) -> Tentative<A>
        ensures before { before_of self.new result ≡ self.old }
        ensures after { after_of self.new result ≡ self.old }
        ensures untouched { IsUntouched self.new result }
    {
        let savepoint = self.collected.savepoint();
        let none = Rest::new(self.collected.allocator());
        let rest = RestChange::unchanged(mem::replace(&mut self.rest, none));
        Tentative { rest, savepoint }
    }

    /// Decodes a fragment over an edit of the table, which does not change. `tentative` has the octets that were left before
    /// the fragment, and then those after it too: they are out of the block until it is taken over or given up. `edit` may
    /// be of any table: its memory is used again.
    ///
    /// # Errors
    ///
    /// As those of `decode_piece`.
    #[inline(always)]
    pub fn decode(
        &mut self,
        table: &DynTable<A>,
        edit: &mut Edit<A>,
        tentative: &mut Tentative<A>,
        octets: &[u8],
    ) -> Result<(), BlockFault>
        requires untouched { IsUntouched self.old tentative.old }
        ensures before { before_of self.new tentative.new ≡ before_of self.old tentative.old }
        ensures sized { IsSized self.new tentative.new }
        ensures purpose { self.new.purpose ≡ self.old.purpose }
        ensures belongs { IsEdit table.now edit.new }
        ensures decoded { OnOk result (decoded_on table.now.limit table.now.table self.old tentative.old octets.now
            ≡ after_fragment (edited table.now.table.entries edit.new) (after_of self.new tentative.new)) }
        ensures faulty { IfErr result (λ fault. fault ≢ NoMemory
            → HasFault fault (decoded_on table.now.limit table.now.table self.old tentative.old octets.now)) }
        ensures read { IfErr result (λ fault. fault ≢ NoMemory
            → (decoded_on table.now.limit table.now.table self.old tentative.old octets.now).progress.fields ≡ self.new.fields) }
    {
        decode_piece(
            &mut self.collected,
            table,
            edit,
            &mut tentative.rest,
            octets,
        )
    }

    /// The block becomes what it was before the fragment.
    #[inline(always)]
    pub fn give_up(&mut self, tentative: Tentative<A>)
        requires sized { IsSized self.old tentative }
        ensures { self.new ≡ before_of self.old tentative }
    {
        let Tentative { rest, savepoint } = tentative;
        self.collected.restore(savepoint);
        self.rest = rest.give_up();
    }

    /// The block becomes what it is after the fragment.
    pub fn take_over(&mut self, tentative: Tentative<A>)
        ensures { self.new ≡ after_of self.old tentative }
    {
        let Tentative { rest, savepoint: _ } = tentative;
        self.rest = rest.take_over();
    }

    /// Why the block can't end after the fragment, if it can't: an instruction is begun and not ended, or a size update
    /// is due (RFC 9113, 4.3 and 4.3.1).
    #[inline(always)]
    pub fn bad_end(&self, tentative: &Tentative<A>) -> Option<Cause>
        ensures { result ≡ bad_end (after_of self.now tentative.now) }
    {
        refused_end(tentative.rest.is_whole(), self.collected.is_due())
    }
}
