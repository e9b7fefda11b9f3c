//! How the fields of a field block are spelled, read from its octets alone (RFC 7541, 6). No table is held and no string
//! is decoded: how many instructions were carried out is seen by how many fields the connection has decoded. The
//! definitions are in specs/Spelled.antt.

ghost use Rattle.std.specs.Prelude.{◌≡◌, ◌≤◌, length, drop, map, false, IfOk, OnOk};
ghost use Rattle.h2_spec.specs.Hpack.Instruction.{instr_at};
ghost use Rattle.h2_hpack_instruction.specs.Shapes.{mode_of, name_of, shape_of};
ghost use Rattle.h2_explain_words.specs.Spelled.{IsStep, after, literal_spelling, read_more, read_to, some_if, spelling_seen, stopped_at, stopped_by, unread, with_given, with_update};

use h2_hpack_instruction::instruction::Mode;
use h2_hpack_instruction::shape::{Point, RawName, Shape, ShapeFault, shape_from, short_index};
use h2_spec::octets::octets_from;
use std::alloc::{AllocError, Allocator, Global};
use std::marker::Model;

/// How many spellings of a block there may be for their memory to be used again.
const REUSED: usize = 256;

/// How a field was spelled.
#[derive(Clone, Copy)]
pub enum Spelling {
    /// An index of the tables (RFC 7541, 6.1).
    Indexed(u64),
    /// A literal: what becomes of it, the index of its name, or whether its name is a Huffman string, and whether its
    /// value is one (RFC 7541, 6.2).
    Literal(Mode, Option<u64>, bool, bool),
}

/// What decoding stopped at.
#[derive(Clone, Copy)]
pub enum Stopped {
    /// An index that no entry has (RFC 7541, 2.3.3 and 6.1).
    Index(u64),
    /// A table size update after a field, or above the limit (RFC 7541, 4.2 and 6.3).
    Update(u64),
    /// A string that is no Huffman string, or an integer that is too long (RFC 7541, 5.1 and 5.2).
    Other,
}

/// What the instructions of a block gave.
#[derive(Drop)]
struct Taken<A: Allocator> {
    /// How each field was spelled.
    given: Vec<Spelling, A>,
    /// The table size updates.
    updates: Vec<u64, A>,
}

impl<A: Allocator> Model for Taken<A> {
    ghost use Rattle.std.specs.Prelude.{map};
    ghost use Rattle.h2_explain_words.specs.Spelled as spec;

    ghost Value = { spec.Taken };

    ghost view = { λ t. record { given = map spec.spelling_seen t.given.items; updates = t.updates.items } };
}

/// The spellings of one block after another, each as far as the connection has decoded it.
#[derive(Drop)]
pub struct Spellings<A: Allocator = Global> {
    taken: Taken<A>,
    /// The octets after the instructions that were carried out.
    rest: Vec<u8, A>,
}

impl<A: Allocator> Model for Spellings<A> {
    ghost use Rattle.h2_explain_words.specs.Spelled.{BlockSpelled};

    ghost Value = { BlockSpelled };

    ghost view = { λ s. record { taken = s.taken; rest = s.rest.items } };
}

/// How a literal is spelled; `huffman` says whether its value is a Huffman string.
pub fn literal_spelling(mode: Mode, name: RawName<'_>, huffman: bool) -> Spelling
    ensures { spelling_seen result ≡ literal_spelling (mode_of mode) (name_of name.entry) huffman }
{
    match name {
        RawName::Ref(index) => Spelling::Literal(mode, Some(index), false, huffman),
        RawName::Named(name) => Spelling::Literal(mode, None, name.huffman, huffman),
    }
}

/// What an instruction is that was refused; `is_index` says whether for an index that no entry has.
fn stopped_by(is_index: bool, shape: Shape<'_>) -> Stopped
    ensures { result ≡ stopped_by is_index (shape_of shape.entry) }
{
    match shape {
        Shape::Indexed(index) => Stopped::Index(index),
        Shape::Update(max) => Stopped::Update(max),
        Shape::Literal(_, RawName::Ref(index), _) => {
            if is_index {
                Stopped::Index(index)
            } else {
                Stopped::Other
            }
        }
        Shape::Literal(_, RawName::Named(_), _) => Stopped::Other,
    }
}

impl<A: Allocator> Taken<A> {
    /// Notes how a field is spelled, and says whether the block has given it: `count` is how many there are.
    fn note(&mut self, count: usize, spelling: Spelling) -> Result<bool, AllocError>
        ensures taken { IfOk result (λ taken. some_if taken self.new ≡ with_given count self.old (spelling_seen spelling)) }
        ensures stays { IfOk result (λ taken. taken ≡ false → self.new ≡ self.old) }
    {
        if self.given.len() < count {
            self.given.push(spelling)?;
            Ok(true)
        } else {
            Ok(false)
        }
    }

    /// Notes a table size update, and says whether it was carried out: in front of a field, or of none where it is at most
    /// the limit.
    fn update(&mut self, count: usize, limit: u32, max: u64) -> Result<bool, AllocError>
        ensures taken { IfOk result (λ taken. some_if taken self.new ≡ with_update count limit self.old max) }
        ensures stays { IfOk result (λ taken. taken ≡ false → self.new ≡ self.old) }
    {
        if self.given.len() < count || (count == 0 && max <= u64::from(limit)) {
            self.updates.push(max)?;
            Ok(true)
        } else {
            Ok(false)
        }
    }

    /// Notes an instruction, and says whether it was carried out.
    fn take(&mut self, count: usize, limit: u32, shape: Shape<'_>) -> Result<bool, AllocError>
        ensures taken { IfOk result (λ taken. some_if taken self.new ≡ after count limit self.old (shape_of shape.entry)) }
        ensures stays { IfOk result (λ taken. taken ≡ false → self.new ≡ self.old) }
    {
        match shape {
            Shape::Update(max) => self.update(count, limit, max),
            Shape::Indexed(index) => self.note(count, Spelling::Indexed(index)),
            Shape::Literal(mode, name, value) => {
                self.note(count, literal_spelling(mode, name, value.huffman))
            }
        }
    }

    /// Takes the instruction at the front of octets, and says how many octets it has; none where it is not whole, or was
    /// not carried out. An index of one octet, which is most frequent, is read by itself.
    fn read_one(
        &mut self,
        count: usize,
        limit: u32,
        octets: &[u8],
    ) -> Result<Option<usize>, AllocError>
        ensures { IfOk result (λ step. IsStep count limit self.old octets.now self.new step) }
    {
        if let Some(index) = short_index(Point::start(), octets) {
            let taken = self.note(count, Spelling::Indexed(index))?;
            return Ok(if taken { Some(1) } else { None });
        }
        match shape_from(Point::start(), octets) {
            Ok((shape, used)) => {
                let taken = self.take(count, limit, shape)?;
                Ok(if taken { Some(used) } else { None })
            }
            Err(_) => Ok(None),
        }
    }

    /// Takes the instructions at the front of octets that were carried out, and says how many octets they have.
    fn read_all(&mut self, count: usize, limit: u32, octets: &[u8]) -> Result<usize, AllocError>
        ensures within { IfOk result (λ used. used ≤ length octets.now) }
        ensures read { IfOk result (λ used. read_to count limit self.old octets.now ≡ record { taken = self.new; rest = drop used octets.now }) }
    {
        let mut at = 0;
        loop {
            match self.read_one(count, limit, octets_from(octets, at))? {
                Some(used) => at += used,
                None => return Ok(at),
            }
        }
    }
}

impl<A: Allocator> Spellings<A> {
    /// No block was read. Takes no memory.
    pub fn new(alloc: A) -> Self
    where
        A: Copy,
        ensures { result ≡ unread }
    {
        Spellings {
            taken: Taken {
                given: Vec::new(alloc),
                updates: Vec::new(alloc),
            },
            rest: Vec::new(alloc),
        }
    }

    /// A new block begins. The memory is used again, unless it is that of a large block.
    pub fn begin(&mut self)
        ensures { self.new ≡ unread }
    {
        let count = self.taken.given.len();
        self.taken.given.clear();
        self.taken.updates.clear();
        self.rest.clear();
        if count > REUSED {
            self.taken.given.shrink_to_fit();
        }
    }

    /// Reads a fragment more of a block that has given `count` fields with it, by a connection whose header table has
    /// `limit` octets at most: the instructions that gave these fields, and the table size updates before them. Those
    /// after them are left: the first of these was refused, or is not whole.
    ///
    /// # Errors
    ///
    /// `AllocError` where memory was refused; the block should not be read any further.
    pub fn read(&mut self, count: usize, limit: u32, fragment: &[u8]) -> Result<(), AllocError>
        ensures { OnOk result (self.new ≡ read_more count limit self.old fragment.now) }
    {
        if self.rest.is_empty() {
            let used = self.taken.read_all(count, limit, fragment)?;
            return self.rest.extend_from_slice(octets_from(fragment, used));
        }
        self.rest.extend_from_slice(fragment)?;
        let used = self.taken.read_all(count, limit, self.rest.as_slice())?;
        self.rest.drain(..used);
        Ok(())
    }

    /// How the fields of the block so far were spelled, in their order.
    pub fn given(&self) -> &[Spelling]
        ensures { map spelling_seen result.now ≡ self.now.taken.given }
    {
        self.taken.given.as_slice()
    }

    /// The table size updates of the block so far, in octets, in their order (RFC 7541, 6.3).
    pub fn updates(&self) -> &[u64]
        ensures { result.now ≡ self.now.taken.updates }
    {
        self.taken.updates.as_slice()
    }

    /// What the octets after the instructions that were carried out are: of the instruction that was refused, where one
    /// was. `is_index` says whether it was for an index that no entry has.
    pub fn stopped(&self, is_index: bool) -> Option<Stopped>
        ensures { result ≡ stopped_at is_index (instr_at self.now.rest) }
    {
        match shape_from(Point::start(), self.rest.as_slice()) {
            Ok((shape, _)) => Some(stopped_by(is_index, shape)),
            Err(ShapeFault::TooLong) => Some(Stopped::Other),
            Err(ShapeFault::More(_)) => None,
        }
    }

    /// How many octets there are after the instructions that were carried out.
    pub fn cut(&self) -> usize
        ensures { result ≡ length self.now.rest }
    {
        self.rest.len()
    }

    /// These octets: they begin with the instruction that is not whole, or was refused.
    pub fn rest(&self) -> &[u8]
        ensures { result.now ≡ self.now.rest }
    {
        self.rest.as_slice()
    }
}
