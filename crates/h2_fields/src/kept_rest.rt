//! The octets of an open field block that begin an instruction and do not end it, kept to go on with later (RFC 9113,
//! 4.3). What is kept of a long string at one time after another shares the octets in chunks, by counted pointers, so a
//! chunk is in memory once however often it is kept. Contracts see the octets alone.

ghost use Rattle.std.specs.Prelude.{◌≡◌, ◌↔◌, ◌≤◌, ◌+◌, ◌*◌, IfOk, drop, length, take, true};
ghost use Rattle.std.specs.List.{concat};

use crate::rest::Rest;
use h2_hpack_instruction::shape::Point;
use h2_spec::octets::{octets_from, octets_up_to};
use std::alloc::{AllocError, Allocator};
use std::marker::Model;
use std::rc::Rc;

/// How many octets a chunk has.
const CHUNK_OCTETS: usize = 1_024;

/// Octets that kept rests share; contracts see the octets.
#[derive(Drop)]
struct SharedChunk<A: Allocator> {
    octets: Rc<Vec<u8, A>, A>,
}

impl<A: Allocator> Model for SharedChunk<A> {
    ghost use Rattle.std.specs.Prelude.{ℕ, List};

    ghost Value = { List ℕ };

    ghost view = { λ s. s.octets.value.items };
}

impl<A: Allocator + Copy> SharedChunk<A> {
    /// A copy of the octets, which can be shared.
    fn of(octets: &[u8], alloc: A) -> Result<Self, AllocError>
        ensures { IfOk result (λ shared. shared ≡ octets.now) }
    {
        let copy = Vec::from_slice(alloc, octets)?;
        Ok(SharedChunk {
            octets: Rc::new(alloc, copy)?,
        })
    }

    /// Another owner of these octets, which are not copied.
    fn share(&self) -> Result<Self, AllocError>
        ensures { IfOk result (λ shared. shared ≡ self.now) }
    {
        Ok(SharedChunk {
            octets: self.octets.clone()?,
        })
    }

    /// Whether it has these octets.
    fn is(&self, octets: &[u8]) -> bool
        ensures { (result ≡ true) ↔ (self.now ≡ octets.now) }
    {
        self.octets.as_ref().as_slice() == octets
    }
}

// Chunks of 1,024 octets, shared with the checkpoint before where they are equal: copies took 24 times the
// hex for a long string in frames of one octet.
/// The rest of a field block as it was: whole chunks, the octets after them, and where reading goes on in all of them.
pub struct KeptRest<A: Allocator> {
    /// Whole chunks, which other kept rests can have too.
    chunks: Vec<SharedChunk<A>, A>,
    /// The octets after them, fewer than a chunk has.
    last: Vec<u8, A>,
    point: Point,
}

impl<A: Allocator> Model for KeptRest<A> {
    ghost use Rattle.std.specs.Prelude.{ℕ, List, ◌++◌};
    ghost use Rattle.std.specs.List.{concat};
    ghost use Rattle.h2_hpack_instruction.specs.Resume.{IsRest};

    ghost Value = { List ℕ };

    ghost view = { λ r. concat r.chunks.items ++ r.last.items };

    ghost invariant = { λ r. IsRest (concat r.chunks.items ++ r.last.items) r.point };
}

/// By hand, so that a function that drops one makes one call, where a derived `Drop` would drop each part there.
impl<A: Allocator> Drop for KeptRest<A> {
    fn drop(self) {
        let Self {
            chunks: _,
            last: _,
            point: _,
        } = self;
    }
}

impl<A: Allocator + Copy> Rest<A> {
    /// The rest as it is now. Chunks that it has in common with `earlier` are not copied: both have them then.
    ///
    /// # Errors
    ///
    /// `AllocError` where the memory was refused; `self` is as it was.
    pub fn keep(&self, earlier: Option<&KeptRest<A>>) -> Result<KeptRest<A>, AllocError>
        ensures same { IfOk result (λ kept. kept ≡ self.now) }
    {
        let octets = self.octets.as_slice();
        let alloc = *self.octets.allocator();
        let count = octets.len() / CHUNK_OCTETS;
        let chunks = shared_chunks(octets, count, earlier, alloc)?;
        let last = Vec::from_slice(alloc, octets_from(octets, count * CHUNK_OCTETS))?;
        Ok(KeptRest {
            chunks,
            last,
            point: self.point,
        })
    }
}

impl<A: Allocator + Copy> KeptRest<A> {
    /// The rest that was kept, in memory of its own.
    ///
    /// # Errors
    ///
    /// `AllocError` where the memory was refused; `self` is as it was.
    pub fn restore(&self) -> Result<Rest<A>, AllocError>
        ensures same { IfOk result (λ rest. rest ≡ self.now) }
    {
        let mut octets = octets_of(self.chunks.as_slice(), *self.last.allocator())?;
        octets.extend_from_slice(self.last.as_slice())?;
        Ok(Rest {
            octets,
            point: self.point,
        })
    }
}

/// The chunk of an earlier rest at a place; none if there is none.
fn earlier_at<A: Allocator>(
    earlier: Option<&KeptRest<A>>,
    place: usize,
) -> Option<&SharedChunk<A>> {
    match earlier {
        Some(earlier) => earlier.chunks.get(place),
        None => None,
    }
}

/// The octets of a chunk, by its place.
fn chunk_at(octets: &[u8], place: usize) -> &[u8]
    requires { (place + 1) * 1024 ≤ length octets.now }
    ensures { result.now ≡ take 1024 (drop (place * 1024) octets.now) }
{
    octets_up_to(octets_from(octets, place * CHUNK_OCTETS), CHUNK_OCTETS)
}

/// A chunk of these octets, shared with an earlier one where that is the same.
fn share_or_copy<A: Allocator + Copy>(
    octets: &[u8],
    earlier: Option<&SharedChunk<A>>,
    alloc: A,
) -> Result<SharedChunk<A>, AllocError>
    ensures { IfOk result (λ shared. shared ≡ octets.now) }
{
    if let Some(shared) = earlier {
        if shared.is(octets) {
            return shared.share();
        }
    }
    SharedChunk::of(octets, alloc)
}

/// The first octets in that many chunks, shared with those of an earlier rest.
fn shared_chunks<A: Allocator + Copy>(
    octets: &[u8],
    count: usize,
    earlier: Option<&KeptRest<A>>,
    alloc: A,
) -> Result<Vec<SharedChunk<A>, A>, AllocError>
    requires { count * 1024 ≤ length octets.now }
    ensures { IfOk result (λ chunks. concat chunks.items ≡ take (count * 1024) octets.now) }
{
    let mut chunks = Vec::with_capacity(alloc, count)?;
    for i in 0..count {
        let chunk = share_or_copy(chunk_at(octets, i), earlier_at(earlier, i), alloc)?;
        chunks.push(chunk)?;
    }
    Ok(chunks)
}

/// The octets of chunks, one after another.
fn octets_of<A: Allocator + Copy>(
    chunks: &[SharedChunk<A>],
    alloc: A,
) -> Result<Vec<u8, A>, AllocError>
    ensures { IfOk result (λ octets. octets.items ≡ concat chunks.now) }
{
    let mut octets = Vec::new(alloc);
    for chunk in chunks {
        octets.extend_from_slice(chunk.octets.as_ref().as_slice())?;
    }
    Ok(octets)
}
