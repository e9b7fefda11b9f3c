//! The laws of blocks that are shown, and of the header table that is followed by them, on functions that do nothing: the
//! contract is the law. They speak of specs/ShownBlock.antt and specs/FollowedTable.antt, and of `decoded_with` of h2_spec,
//! specs/Requests/Headers.antt.

ghost use Rattle.std.specs.Prelude.{◌≡◌, ℕ, Bool, List};
ghost use Rattle.h2_spec.specs.declared.reactions.Change.{Change};
ghost use Rattle.h2_spec.specs.Requests.Headers.{Makes, decoded_with, fragment};
ghost use Rattle.h2_spec.specs.State.{Decoding, State};
ghost use Rattle.h2_spec.specs.declared.connection.BlockView.{BlockView};
ghost use Rattle.h2_explain_item.specs.FollowedTable.{EntryListed, IsFollowedTo, TableFollowed, block_followed, following};
ghost use Rattle.h2_explain_item.specs.ShownBlock.{BlocksRead, IsShownAsDecoded, IsSpelled, progress_in, read_on};

use h2_explain_words::laws::fields_are_spelled_in_their_order;

/// The fields that are shown of a block are those that the connection has decoded, each with the spelling of the instruction
/// that gave it, however the block is cut into fragments.
pub fn a_block_is_shown_as_it_is_decoded()
    ensures { (s : State) (d : Decoding) (b : BlocksRead) (octets : List ℕ) → IsSpelled d b →
        let e = decoded_with s d octets in IsShownAsDecoded s.core.own.table (progress_in s d) b e (read_on b e.progress.fields s.core.own.table octets) }
{
    let _law = fields_are_spelled_in_their_order();
}

/// The table that is followed is the connection's: what the blocks that are shown enter and evict leaves the table that their
/// decoding leaves, up to an instruction that is refused, however they are cut into fragments; that of the state which a
/// fragment makes (RFC 7541, 2.3.2 and 4).
pub fn the_table_followed_is_the_connections()
    ensures decoded { (s : State) (d : Decoding) (b : BlocksRead) (octets : List ℕ) (item : ℕ) (f : TableFollowed) (listed : List EntryListed) →
        IsSpelled d b → IsFollowedTo s.table d.fields b f →
        let p = (decoded_with s d octets).progress in
        let after = read_on b p.fields s.core.own.table octets in
        IsFollowedTo p.table p.fields after (block_followed item s.core.own.table after p.fields (following f listed)).followed }
    ensures made { (s t : State) (v : BlockView) (d : Decoding) (octets : List ℕ) (ends : Bool) (change : Change) →
        fragment s v d octets ends ≡ Makes t change → (decoded_with s d octets).progress.table ≡ t.table }
{
    let _law = fields_are_spelled_in_their_order();
}
