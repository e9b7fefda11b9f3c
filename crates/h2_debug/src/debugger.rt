//! A debugger: a position in the run of a new connection over octets, moved forward and back. The program does not call
//! `view`, `show`, `replayed`, and `break_at` to `break_sent`, which are for users of the library: it writes the text of
//! `conn`. A checkpoint of the place at each multiple of 64 is kept from when it is first left, so that no move runs more
//! than 63 items again. A place is made again from its checkpoint and the records of the farthest place that was reached.
//! Definitions: h2_spec's `specs/Texts/Debug.antt` for positions and breakpoints, `specs/Debugging.antt` for what a debugger
//! represents.

ghost use Rattle.std.specs.Prelude.{◌≡◌, ◌⊎◌, ◌+◌, ◌-◌, ◌<◌, ◌≤◌, ◌==◌, [], ◌∷◌, nat_lt, ◌++◌, IfErr, IfOk, IfSome, OnErr, OnOk, length, min, slice_get, nat_le, ◌&&◌, false, true, None, Some, if◌then◌else◌};
ghost use Rattle.h2_spec.specs.Texts.Debug.{AtPosition, OnSent, OnStream, OnType, stop};
ghost use Rattle.h2_spec.specs.Texts.Show.{show};
ghost use Rattle.h2_spec.specs.Texts.View.{view};
ghost use Rattle.std.specs.String.{string_bytes};
ghost use Rattle.h2_spec.specs.State.{is_allowed};
ghost use Rattle.h2_debug.specs.Breakpoints.{break_of};
ghost use Rattle.h2_spec.specs.declared.causes.Cause.TheVariants.{IntegerTooLong};
ghost use Rattle.h2_explain_item.specs.Special.{has_cases, has_reason_cases};
ghost use Rattle.h2_debug.specs.Cases.{can_be_special, case_at};
ghost use Rattle.h2_debug.specs.Debugging as spec;
ghost use Rattle.h2_debug.specs.Debugging.{farthest_or, fed, moved, moved_by, moved_counting, replay_start};
ghost use Rattle.h2_debug.specs.Faults.{IsRefused, end_fault, load_fault, start_fault};
ghost use Rattle.h2_debug.specs.Places.{IsAt, at, cause_at, end, events, ignored_at, sent_octets_at};
ghost use Rattle.h2_debug.specs.Stops.{IsStop};
ghost use Rattle.h2_debug.specs.declared.fault.DebugFault.TheVariants.{NoMemory, OutOfRange};

use crate::breakpoints::Break;
use crate::fault::DebugFault;
use crate::places::cases::{
    advance_to, advance_until, block_octets, case_ahead, is_ended_by, next_stream,
};
use crate::places::forward::{
    LEG, SPACING, forward_to, forward_to_stop, keep_and_advance, keep_if_due,
};
use crate::places::kept_place::KeptPlace;
use crate::places::place::Place;
use crate::places::source::Source;
use h2_conn::view::View;
use h2_conn::{Conn, ConnFault};
use h2_explain_item::diagnosis::special::{
    case_of_integer, has_cases, has_reason_cases, special_reason,
};
use h2_request_book::book::Book;
use h2_spec::causes::Cause;
use h2_spec::connection::Config;
use h2_spec::ignored::Ignored;
use h2_spec::special_cases::SpecialCase;
use std::alloc::{AllocError, Allocator};
use std::marker::Model;
use std::mem;

/// A position in the run of a new connection over octets.
///
/// Position `p` is the state after `p` items; the end is the number of items in the octets.
/// A contract sees the run, the breakpoints, the position, the greatest position that was reached, how many items were
/// run to the present position since the last `back` or `go` began, and how many of its items that one ran again.
/// Where a call is refused the debugger is as it was.
pub struct Debugger<'b, A: Allocator> {
    book: &'b Book<A>,
    config: Config,
    octets: Vec<u8, A>,
    breaks: Vec<Break, A>,
    present: Place<'b, A>,
    /// The farthest place, where the present one is not it.
    farthest: Option<Place<'b, A>>,
    kept: Vec<KeptPlace<'b, A>, A>,
    reached: usize,
    replayed: usize,
}

impl<'b, A: Allocator> Model for Debugger<'b, A> {
    ghost use Rattle.std.specs.Prelude.{map};
    ghost use Rattle.h2_debug.specs.Breakpoints.{break_of};
    ghost use Rattle.h2_debug.specs.Debugging.{Debugging, IsKept, farthest_or};

    ghost Value = { Debugging };

    ghost view = { λ d. record { run = record { book = d.book.now; config = d.config; octets = d.octets.items }; breaks = map break_of d.breaks.items; position = d.present.position; reached = d.reached; ran = d.present.ran; replayed = d.replayed } };

    ghost invariant = { λ d. IsKept (record { book = d.book.now; config = d.config; octets = d.octets.items }) d.present (farthest_or d.farthest d.present) d.kept.items d.reached d.replayed };
}

/// By hand, as that of `Place`.
impl<'b, A: Allocator> Drop for Debugger<'b, A> {
    fn drop(self) {
        let Self {
            book: _,
            config: _,
            octets: _,
            breaks: _,
            present: _,
            farthest: _,
            kept: _,
            reached: _,
            replayed: _,
        } = self;
    }
}

/// What is kept at an index.
fn kept_at<'k, 'b, A: Allocator>(kept: &'k [KeptPlace<'b, A>], index: usize) -> &'k KeptPlace<'b, A>
    requires { index < length kept.now }
    ensures { slice_get kept.now index ≡ Some result.now }
{
    &kept[index]
}

/// Whether a position is between two others, or is one of them.
fn is_between(low: usize, position: usize, high: usize) -> bool
    ensures { result ≡ (nat_le position high && nat_le low position) }
{
    position <= high && low <= position
}

/// Takes a place as the present one. The place that is left is kept where it is the farthest one; none is where the
/// new one is farther than any that was reached. It takes no memory.
fn arrive<'b, A: Allocator + Copy>(
    present: &mut Place<'b, A>,
    farthest: &mut Option<Place<'b, A>>,
    reached: usize,
    place: Place<'b, A>,
)
    ensures present { present.new ≡ place.entry }
    ensures ahead { reached < place.entry.position → farthest_or farthest.new place.entry ≡ place.entry }
    ensures behind { place.entry.position ≤ reached → farthest_or farthest.new place.entry ≡ farthest_or farthest.old present.old }
{
    let is_ahead = reached < place.position();
    let left = mem::replace(present, place);
    if is_ahead {
        *farthest = None;
        return;
    }
    if farthest.is_none() {
        *farthest = Some(left);
    }
}

/// Lets the farthest place go where the present position is farther than any that was reached.
fn pass<A: Allocator>(farthest: &mut Option<Place<'_, A>>, reached: usize, position: usize)
    ensures { farthest.new ≡ (if nat_lt reached position then None else farthest.old) }
{
    if reached < position {
        *farthest = None;
    }
}

impl<'b, A: Allocator + Copy> Debugger<'b, A> {
    /// A debugger at position 0 of the run of a new connection over octets, with no breakpoint.
    ///
    /// # Errors
    ///
    /// `BadConfig` where a limit or a setting is outside its range (`Config::is_allowed`); otherwise
    /// `NoMemory`.
    pub fn load(book: &'b Book<A>, config: Config, octets: Vec<u8, A>) -> Result<Self, DebugFault>
        ensures ok { IfOk result (λ d. d ≡ record { run = record { book = book.now; config = config; octets = octets.items }; breaks = []; position = 0; reached = 0; ran = 0; replayed = 0 }) }
        ensures allowed { OnOk result (is_allowed config ≡ true) }
        ensures fault { IfErr result (λ fault. fault ≡ load_fault (is_allowed config)) }
    {
        let alloc = *octets.allocator();
        let source = Source {
            book,
            config,
            octets: octets.as_slice(),
        };
        let present = match Place::start(&source, alloc) {
            Ok(place) => place,
            Err(ConnFault::BadConfig) => return Err(DebugFault::BadConfig),
            Err(_) => return Err(DebugFault::NoMemory),
        };
        let kept = Vec::new(alloc);
        Ok(Debugger {
            book,
            config,
            octets,
            breaks: Vec::new(alloc),
            present,
            farthest: None,
            kept,
            reached: 0,
            replayed: 0,
        })
    }

    /// Feeds the run more octets, after all that it has. The position and the breakpoints stay. `NoMemory` leaves the
    /// debugger as it was.
    pub fn feed(&mut self, more: &[u8]) -> Result<(), DebugFault>
        ensures ok { OnOk result (self.new ≡ fed more.now self.old) }
        ensures fault { IfErr result (λ fault. fault ≡ NoMemory) }
        ensures unchanged { OnErr result (self.new ≡ self.old) }
    {
        self.octets.extend_from_slice(more)?;
        Ok(())
    }

    /// A copy of the present place; `AllocError` if it is out of memory.
    fn copy_present(&self) -> Result<Place<'b, A>, AllocError>
        ensures { IfOk result (λ p. IsAt self.now.run p × (p.position ≡ self.now.position) × (p.ran ≡ self.now.ran)) }
    {
        self.present.try_clone()
    }

    /// Whether an item follows. It takes no memory.
    fn has_next(&self) -> bool
        ensures more { result ≡ nat_lt self.now.position (end self.now.run) }
        ensures last { result ≡ false → self.now.position ≡ end self.now.run }
    {
        let source = Source {
            book: self.book,
            config: self.config,
            octets: self.octets.as_slice(),
        };
        self.present.has_next(&source)
    }

    /// The place where a move to a position starts: the greatest one of which a checkpoint is kept that is not after it, or
    /// the present one where that is between the two. It has taken no item yet.
    /// `AllocError` if it is out of memory.
    fn start_for(&mut self, target: usize) -> Result<Place<'b, A>, AllocError>
        ensures place { IfOk result (λ p. IsAt self.old.run p × (p.position ≡ replay_start target self.old) × (p.ran ≡ 0)) }
        ensures same { self.new ≡ self.old }
    {
        let index = target.min(self.reached) / SPACING;
        let near = is_between(index * SPACING, self.present.position(), target);
        if near {
            let mut place = self.copy_present()?;
            place.count_anew();
            return Ok(place);
        }
        let kept = kept_at(self.kept.as_slice(), index);
        match &mut self.farthest {
            None => kept.restore(&mut self.present),
            Some(place) => kept.restore(place),
        }
    }

    // A move ahead starts at the last kept place on its way: the items up to there need not be taken again.
    /// The place where a move ahead to a position starts, as `start_for` finds it, but the items up to it are counted after
    /// those that were run to the present position. `AllocError` if it is out of memory.
    fn start_ahead(&mut self, target: usize) -> Result<Place<'b, A>, AllocError>
        requires { self.old.position ≤ target }
        ensures at { IfOk result (IsAt self.old.run) }
        ensures start { IfOk result (λ p. p.position ≡ replay_start target self.old) }
        ensures ran { IfOk result (λ p. p.ran ≡ self.old.ran + (p.position - self.old.position)) }
        ensures same { self.new ≡ self.old }
    {
        let mut place = self.start_for(target)?;
        place.count_from(&self.present);
        Ok(place)
    }

    /// Moves from a place to a position or the end, if it comes as far as `least`, and returns the new position.
    /// `None` and `AllocError` change nothing.
    fn move_to(
        &mut self,
        mut place: Place<'b, A>,
        target: usize,
        least: usize,
    ) -> Result<Option<usize>, AllocError>
        requires place { IsAt self.old.run place }
        requires known { place.position ≤ self.old.reached }
        requires ahead { place.position ≤ target }
        ensures some { IfOk result (λ moves. IfSome moves (λ p. (p ≡ min target (end self.old.run)) × (least ≤ p) × (self.new ≡ moved_by (place.entry.ran + (p - place.entry.position)) p self.old))) }
        ensures none { IfOk result (λ moves. moves ≡ None → (min target (end self.old.run) < least) × (self.new ≡ self.old)) }
        ensures unchanged { OnErr result (self.new ≡ self.old) }
    {
        keep_if_due(&self.present, &mut self.kept)?;
        let source = Source {
            book: self.book,
            config: self.config,
            octets: self.octets.as_slice(),
        };
        forward_to(&source, &mut place, target, &mut self.kept)?;
        let position = place.position();
        if position < least {
            return Ok(None);
        }
        arrive(&mut self.present, &mut self.farthest, self.reached, place);
        self.reached = position.max(self.reached);
        Ok(Some(position))
    }

    /// Takes the next item in place, and returns the new position. `AllocError` leaves the debugger as it was.
    fn step_one(&mut self) -> Result<usize, AllocError>
        requires { self.old.position < end self.old.run }
        ensures ok { IfOk result (λ p. (p ≡ self.old.position + 1) × (self.new ≡ moved p self.old)) }
        ensures unchanged { OnErr result (self.new ≡ self.old) }
    {
        let source = Source {
            book: self.book,
            config: self.config,
            octets: self.octets.as_slice(),
        };
        keep_and_advance(&source, &mut self.present, &mut self.kept)?;
        let position = self.present.position();
        pass(&mut self.farthest, self.reached, position);
        self.reached = position.max(self.reached);
        Ok(position)
    }

    /// Moves forward by some items, or to the end if fewer follow, and returns the new position. `AllocError` leaves the
    /// debugger as it was.
    fn step_some(&mut self, count: usize) -> Result<usize, AllocError>
        requires some { 0 < count }
        requires more { self.old.position < end self.old.run }
        ensures ok { IfOk result (λ p. (p ≡ min (self.old.position + count) (end self.old.run)) × (self.new ≡ moved p self.old)) }
        ensures unchanged { OnErr result (self.new ≡ self.old) }
    {
        let start = self.present.position();
        if count == 1 {
            return self.step_one();
        }
        let target = start.saturating_add(count);
        let place = self.start_ahead(target)?;
        match self.move_to(place, target, start)? {
            None => Ok(start),
            Some(position) => Ok(position),
        }
    }

    /// Moves forward by `count` items, or to the end if fewer follow, and returns the new position. A count of 0 is
    /// accepted anywhere and moves nothing.
    ///
    /// # Errors
    ///
    /// Both leave the debugger as it was, and come only with a count above 0: `AtEnd` where no item follows, which takes
    /// no memory; elsewhere `NoMemory`.
    pub fn step(&mut self, count: usize) -> Result<usize, DebugFault>
        ensures ok { IfOk result (λ p. (p ≡ min (self.old.position + count) (end self.old.run)) × (self.new ≡ moved p self.old)) }
        ensures more { OnOk result (0 < count → self.old.position < end self.old.run) }
        ensures fault { IfErr result (λ fault. fault ≡ end_fault (self.old.position == end self.old.run)) }
        ensures nonzero { OnErr result (0 < count) }
        ensures unchanged { OnErr result (self.new ≡ self.old) }
    {
        let here = self.present.position();
        if count == 0 {
            return Ok(here);
        }
        if !self.has_next() {
            return Err(DebugFault::AtEnd);
        }
        let position = self.step_some(count)?;
        Ok(position)
    }

    /// Moves back by `count` items, or to position 0 if fewer came before, and returns the new position.
    /// A count of 0 is accepted anywhere: it moves nothing, and sets `replayed` to 0.
    ///
    /// # Errors
    ///
    /// `AtStart` at position 0 where the count is above 0; elsewhere `NoMemory`. Both leave the debugger as it was.
    pub fn back(&mut self, count: usize) -> Result<usize, DebugFault>
        ensures ok { IfOk result (λ p. (p ≡ self.old.position - count) × (self.new ≡ moved_counting p self.old)) }
        ensures more { OnOk result (0 < count → 0 < self.old.position) }
        ensures fault { IfErr result (λ fault. fault ≡ start_fault self.old.position) }
        ensures nonzero { OnErr result (0 < count) }
        ensures unchanged { OnErr result (self.new ≡ self.old) }
    {
        let before = self.present.position();
        if count == 0 {
            self.present.count_anew();
            self.replayed = 0;
            return Ok(before);
        }
        if before == 0 {
            return Err(DebugFault::AtStart);
        }
        self.go(before.saturating_sub(count))
    }

    /// Moves to a position, and returns it.
    ///
    /// # Errors
    ///
    /// `OutOfRange` where there are fewer items, which takes no memory at the end of the run; else `NoMemory`. Both leave
    /// the debugger as it was.
    pub fn go(&mut self, target: usize) -> Result<usize, DebugFault>
        ensures ok { IfOk result (λ p. (p ≡ target) × (self.new ≡ moved_counting p self.old)) }
        ensures within { OnOk result (target ≤ end self.old.run) }
        ensures fault { IfErr result (λ fault. IsRefused OutOfRange (end self.old.run < target) fault) }
        ensures at_end { self.old.position ≡ end self.old.run → self.old.position < target → IfErr result (λ fault. fault ≡ OutOfRange) }
        ensures unchanged { OnErr result (self.new ≡ self.old) }
    {
        if self.present.position() < target && !self.has_next() {
            return Err(DebugFault::OutOfRange);
        }
        let place = self.start_for(target)?;
        let first_runs = target.saturating_sub(self.reached);
        match self.move_to(place, target, target)? {
            None => Err(DebugFault::OutOfRange),
            Some(position) => {
                self.replayed = self.present.ran() - first_runs;
                Ok(position)
            }
        }
    }

    /// Moves forward to the next position that a breakpoint matches, or to the end, and returns the new position.
    ///
    /// # Errors
    ///
    /// Both leave the debugger as it was: `AtEnd` where no item follows, which takes no memory; elsewhere `NoMemory`.
    pub fn run(&mut self) -> Result<usize, DebugFault>
        ensures ok { IfOk result (λ p. (p ≡ stop self.old.breaks (events self.old.run) self.old.position) × (self.new ≡ moved p self.old)) }
        ensures more { OnOk result (self.old.position < end self.old.run) }
        ensures first { IfOk result (λ p. IsStop self.old.breaks (events self.old.run) self.old.position p) }
        ensures fault { IfErr result (λ fault. fault ≡ end_fault (self.old.position == end self.old.run)) }
        ensures unchanged { OnErr result (self.new ≡ self.old) }
    {
        if !self.has_next() {
            return Err(DebugFault::AtEnd);
        }
        let position = self.run_on()?;
        Ok(position)
    }

    /// Takes items at a place up to the first one that a breakpoint matches, or to a position, or the end; the place counts
    /// them. `AllocError` if it is out of memory; the debugger is as it was either way.
    fn walk(&mut self, place: &mut Place<'b, A>, bound: usize) -> Result<(), AllocError>
        requires place { IsAt self.old.run place.old }
        requires known { place.old.position ≤ self.old.reached }
        requires ahead { place.old.position ≤ bound }
        ensures at { IsAt self.old.run place.new }
        ensures ran { place.new.ran ≡ place.old.ran + (place.new.position - place.old.position) }
        ensures position { OnOk result (place.new.position ≡ min bound (stop self.old.breaks (events self.old.run) place.old.position)) }
        ensures same { self.new ≡ self.old }
    {
        let source = Source {
            book: self.book,
            config: self.config,
            octets: self.octets.as_slice(),
        };
        forward_to_stop(
            &source,
            place,
            self.breaks.as_slice(),
            bound,
            &mut self.kept,
        )
    }

    // Made again from what is kept each 16,384 items, so that records are not in memory twice.
    /// Takes a copy of the present place over positions that were reached before, up to the first one that a breakpoint
    /// matches, or until no more than a leg of them is ahead. After each leg, and where one matches, the place is made
    /// again from what is kept, so that it shares the records of the farthest one; this is at least one item back, where
    /// no breakpoint matches. `AllocError` if it is out of memory.
    fn walk_reached(&mut self, place: &mut Place<'b, A>) -> Result<(), AllocError>
        requires place { IsAt self.old.run place.old }
        requires here { place.old.position ≡ self.old.position }
        requires ran { place.old.ran ≡ self.old.ran }
        requires more { self.old.position < end self.old.run }
        ensures at { OnOk result (IsAt self.old.run place.new) }
        ensures known { OnOk result (place.new.position ≤ self.old.reached) }
        ensures later { OnOk result (self.old.position ≤ place.new.position) }
        ensures ran { OnOk result (place.new.ran ≡ self.old.ran + (place.new.position - self.old.position)) }
        ensures before { OnOk result (place.new.position < stop self.old.breaks (events self.old.run) self.old.position) }
        ensures stop { OnOk result (stop self.old.breaks (events self.old.run) place.new.position ≡ stop self.old.breaks (events self.old.run) self.old.position) }
        ensures same { self.new ≡ self.old }
    {
        let reached = self.reached;
        while reached - place.position() > LEG {
            let bound = place.position() + LEG + 1;
            self.walk(place, bound)?;
            let position = place.position();
            if position < bound {
                *place = self.start_ahead(position - 1)?;
                return Ok(());
            }
            *place = self.start_ahead(bound - 1)?;
        }
        Ok(())
    }

    /// Moves from a place to the first position that a breakpoint matches, or to the end, and returns the new position.
    /// `AllocError` leaves the debugger as it was.
    fn run_from(&mut self, mut place: Place<'b, A>) -> Result<usize, AllocError>
        requires place { IsAt self.old.run place }
        requires known { place.position ≤ self.old.reached }
        requires more { place.position < end self.old.run }
        ensures ok { IfOk result (λ p. (p ≡ stop self.old.breaks (events self.old.run) place.entry.position) × (self.new ≡ moved_by (place.entry.ran + (p - place.entry.position)) p self.old)) }
        ensures unchanged { OnErr result (self.new ≡ self.old) }
    {
        keep_if_due(&self.present, &mut self.kept)?;
        let source = Source {
            book: self.book,
            config: self.config,
            octets: self.octets.as_slice(),
        };
        forward_to_stop(
            &source,
            &mut place,
            self.breaks.as_slice(),
            usize::MAX,
            &mut self.kept,
        )?;
        let position = place.position();
        arrive(&mut self.present, &mut self.farthest, self.reached, place);
        self.reached = position.max(self.reached);
        Ok(position)
    }

    /// Moves forward to the next position that a breakpoint matches, or to the end, and returns the new position.
    /// `AllocError` leaves the debugger as it was.
    fn run_on(&mut self) -> Result<usize, AllocError>
        requires { self.old.position < end self.old.run }
        ensures ok { IfOk result (λ p. (p ≡ stop self.old.breaks (events self.old.run) self.old.position) × (self.new ≡ moved p self.old)) }
        ensures unchanged { OnErr result (self.new ≡ self.old) }
    {
        if self.breaks.is_empty() {
            return self.step_some(usize::MAX);
        }
        let mut place = self.copy_present()?;
        self.walk_reached(&mut place)?;
        self.run_from(place)
    }

    /// Adds a breakpoint. `NoMemory` leaves the debugger as it was.
    pub fn break_on(&mut self, stop: Break) -> Result<(), DebugFault>
        ensures ok { OnOk result (self.new ≡ record self.old { breaks = self.old.breaks ++ break_of stop ∷ [] }) }
        ensures fault { IfErr result (λ fault. fault ≡ NoMemory) }
        ensures unchanged { OnErr result (self.new ≡ self.old) }
    {
        self.breaks.push(stop)?;
        Ok(())
    }

    /// Stops runs at this position. `NoMemory` leaves the debugger as it was.
    pub fn break_at(&mut self, position: usize) -> Result<(), DebugFault>
        ensures ok { OnOk result (self.new ≡ record self.old { breaks = self.old.breaks ++ AtPosition position ∷ [] }) }
        ensures fault { IfErr result (λ fault. fault ≡ NoMemory) }
        ensures unchanged { OnErr result (self.new ≡ self.old) }
    {
        self.break_on(Break::Position(position))
    }

    /// Stops runs after an item whose frame has this type. `NoMemory` leaves the debugger as it was.
    pub fn break_type(&mut self, kind: u8) -> Result<(), DebugFault>
        ensures ok { OnOk result (self.new ≡ record self.old { breaks = self.old.breaks ++ OnType kind ∷ [] }) }
        ensures fault { IfErr result (λ fault. fault ≡ NoMemory) }
        ensures unchanged { OnErr result (self.new ≡ self.old) }
    {
        self.break_on(Break::Type(kind))
    }

    /// Stops runs after an item on this stream. `NoMemory` leaves the debugger as it was.
    pub fn break_stream(&mut self, stream: u32) -> Result<(), DebugFault>
        ensures ok { OnOk result (self.new ≡ record self.old { breaks = self.old.breaks ++ OnStream stream ∷ [] }) }
        ensures fault { IfErr result (λ fault. fault ≡ NoMemory) }
        ensures unchanged { OnErr result (self.new ≡ self.old) }
    {
        self.break_on(Break::Stream(stream))
    }

    /// Stops runs after an item for which a frame of this type is sent. `NoMemory` leaves the debugger as it was.
    pub fn break_sent(&mut self, kind: u8) -> Result<(), DebugFault>
        ensures ok { OnOk result (self.new ≡ record self.old { breaks = self.old.breaks ++ OnSent kind ∷ [] }) }
        ensures fault { IfErr result (λ fault. fault ≡ NoMemory) }
        ensures unchanged { OnErr result (self.new ≡ self.old) }
    {
        self.break_on(Break::Sent(kind))
    }

    /// Removes all breakpoints. It takes no memory.
    pub fn clear(&mut self)
        ensures { self.new ≡ record self.old { breaks = [] } }
    {
        self.breaks.clear();
    }

    /// The view of the state at the present position; `AllocError` if it is out of memory.
    pub fn view(&self, alloc: A) -> Result<View<A>, AllocError>
        ensures { IfOk result (λ shown. shown ≡ view (at self.now.run self.now.position)) }
    {
        self.present.view(alloc)
    }

    /// The text of that view, line by line; `AllocError` if it is out of memory.
    pub fn show(&self, alloc: A) -> Result<String<A>, AllocError>
        ensures { IfOk result (λ text. string_bytes text ≡ show (view (at self.now.run self.now.position))) }
    {
        self.conn().show(alloc)
    }

    /// The connection at the present position, which can be written as text without memory.
    pub fn conn(&self) -> &Conn<'b, A>
        ensures state { result.now.state ≡ at self.now.run self.now.position }
        ensures works { result.now.failed ≡ false }
    {
        self.present.conn()
    }

    /// The octets sent for the item that leads to the present position; at position 0 the opening SETTINGS. It takes
    /// no memory.
    pub fn sent(&self) -> &[u8]
        ensures { result.now ≡ sent_octets_at self.now.run self.now.position }
    {
        self.present.sent()
    }

    /// Why the item that leads to the present position was a connection error or a stream error, if it was one; none at
    /// position 0. It takes no memory.
    pub fn cause(&self) -> Option<Cause>
        ensures { result ≡ cause_at self.now.run self.now.position }
    {
        self.present.reasons().cause
    }

    /// Why the item that leads to the present position was ignored, if it was; none at position 0. It takes no memory.
    pub fn ignored(&self) -> Option<Ignored>
        ensures { result ≡ ignored_at self.now.run self.now.position }
    {
        self.present.reasons().ignored
    }

    /// The special case of the error at the present position, an integer that is too long; all items up to it are taken from
    /// this place on.
    fn integer_case_from(&self, mut place: Place<'b, A>) -> Result<Option<SpecialCase>, AllocError>
        requires at { IsAt self.now.run place }
        requires start { place.position ≡ 0 }
        requires cause { cause_at self.now.run self.now.position ≡ Some IntegerTooLong }
        ensures { IfOk result (λ case. case ≡ case_at self.now.run self.now.position) }
    {
        let position = self.present.position();
        let source = Source {
            book: self.book,
            config: self.config,
            octets: self.octets.as_slice(),
        };
        let octets = block_octets(*self.octets.allocator(), &source, &mut place, position)?;
        Ok(case_of_integer(octets.as_slice()))
    }

    /// The same. It ends the connection.
    fn integer_case(&mut self) -> Result<Option<SpecialCase>, AllocError>
        requires { cause_at self.old.run self.old.position ≡ Some IntegerTooLong }
        ensures case { IfOk result (λ case. case ≡ case_at self.old.run self.old.position) }
        ensures same { self.new ≡ self.old }
    {
        let place = self.start_for(0)?;
        self.integer_case_from(place)
    }

    /// The special case of the error with this cause that the item after a position is; the items up to it are taken from this
    /// place on.
    fn error_case_from(
        &self,
        mut place: Place<'b, A>,
        before: usize,
        cause: Cause,
    ) -> Result<Option<SpecialCase>, AllocError>
        requires at { IsAt self.now.run place }
        requires ahead { place.position ≤ before - 1 }
        requires last { self.now.position ≡ before + 1 }
        requires cause { cause_at self.now.run self.now.position ≡ Some cause }
        requires other { cause ≡ IntegerTooLong → ⊥ }
        ensures { IfOk result (λ case. case ≡ case_at self.now.run self.now.position) }
    {
        let source = Source {
            book: self.book,
            config: self.config,
            octets: self.octets.as_slice(),
        };
        let continued = advance_until(&source, &mut place, before)?;
        let octets = source.octets_from(place.used());
        case_ahead(
            *self.octets.allocator(),
            place.conn(),
            octets,
            cause,
            continued,
        )
    }

    /// The special case of the error with this cause that the item at the present position is.
    fn error_case(&mut self, cause: Cause) -> Result<Option<SpecialCase>, AllocError>
        requires cause { cause_at self.old.run self.old.position ≡ Some cause }
        requires other { cause ≡ IntegerTooLong → ⊥ }
        ensures case { IfOk result (λ case. case ≡ case_at self.old.run self.old.position) }
        ensures same { self.new ≡ self.old }
    {
        let before = self.pos().saturating_sub(1);
        let place = self.start_for(before.saturating_sub(1))?;
        self.error_case_from(place, before, cause)
    }

    /// The special case of an error with this cause, if it is one; no memory is taken where it can't be.
    fn cause_case(&mut self, cause: Cause) -> Result<Option<SpecialCase>, AllocError>
        requires { cause_at self.old.run self.old.position ≡ Some cause }
        ensures case { IfOk result (λ case. case ≡ case_at self.old.run self.old.position) }
        ensures memory { OnErr result (has_cases cause ≡ true) }
        ensures same { self.new ≡ self.old }
    {
        if !has_cases(cause) {
            return Ok(None);
        }
        match cause {
            Cause::IntegerTooLong => self.integer_case(),
            _ => self.error_case(cause),
        }
    }

    /// The special case of the item after a position, which is ignored for this reason: the items up to it are taken from one
    /// place on for its stream, and from the start on for how the client's side of that ended.
    fn reason_case_from(
        &self,
        mut last: Place<'b, A>,
        mut first: Place<'b, A>,
        before: usize,
        reason: Ignored,
    ) -> Result<Option<SpecialCase>, AllocError>
        requires last_at { IsAt self.now.run last }
        requires ahead { last.position ≤ before }
        requires first_at { IsAt self.now.run first }
        requires start { first.position ≡ 0 }
        requires last { self.now.position ≡ before + 1 }
        requires cause { cause_at self.now.run self.now.position ≡ None }
        requires reason { ignored_at self.now.run self.now.position ≡ Some reason }
        ensures { IfOk result (λ case. case ≡ case_at self.now.run self.now.position) }
    {
        let source = Source {
            book: self.book,
            config: self.config,
            octets: self.octets.as_slice(),
        };
        advance_to(&source, &mut last, before)?;
        let stream = next_stream(&source, &mut last)?;
        let ended = is_ended_by(&source, &mut first, stream, before)?;
        Ok(special_reason(reason, ended))
    }

    /// The special case of the item at the present position, which is ignored for this reason; no memory is taken where it
    /// can't be one.
    fn reason_case(&mut self, reason: Ignored) -> Result<Option<SpecialCase>, AllocError>
        requires cause { cause_at self.old.run self.old.position ≡ None }
        requires reason { ignored_at self.old.run self.old.position ≡ Some reason }
        ensures case { IfOk result (λ case. case ≡ case_at self.old.run self.old.position) }
        ensures memory { OnErr result (has_reason_cases reason ≡ true) }
        ensures same { self.new ≡ self.old }
    {
        if !has_reason_cases(reason) {
            return Ok(None);
        }
        let before = self.pos().saturating_sub(1);
        let last = self.start_for(before)?;
        let first = self.start_for(0)?;
        self.reason_case_from(last, first, before, reason)
    }

    /// Which special case the error of the item that leads to the present position is, or why it was ignored, if it is one:
    /// `explain` names the same.
    ///
    /// `NoMemory` leaves the debugger as it was, and comes only where the cause or the reason has special cases. Then the items
    /// from a kept place on are taken once more, at most 65; all of them for an integer that is too long, and for a frame that is
    /// ignored on a stream that was reset.
    pub fn special_case(&mut self) -> Result<Option<SpecialCase>, DebugFault>
        ensures case { IfOk result (λ case. case ≡ case_at self.old.run self.old.position) }
        ensures memory { OnErr result (can_be_special (cause_at self.old.run self.old.position) (ignored_at self.old.run self.old.position) ≡ true) }
        ensures fault { IfErr result (λ fault. fault ≡ NoMemory) }
        ensures same { self.new ≡ self.old }
    {
        match (self.cause(), self.ignored()) {
            (Some(cause), _) => Ok(self.cause_case(cause)?),
            (None, Some(reason)) => Ok(self.reason_case(reason)?),
            (None, None) => Ok(None),
        }
    }

    /// The present position: how many items came before it. It takes no memory.
    pub fn pos(&self) -> usize
        ensures is { result ≡ self.now.position }
        ensures within { result ≤ end self.now.run }
    {
        self.present.position()
    }

    /// How many items the last accepted `back` or `go` ran again, at most 63; 0 before the first one.
    /// An item counts where the position after it had been reached before that call: these are the items that were run,
    /// which the place counts, but those that were run for the first time. It takes no memory.
    pub fn replayed(&self) -> usize
        ensures is { result ≡ self.now.replayed }
        ensures few { result ≤ 63 }
    {
        self.replayed
    }
}
