//! Octets of its own and octets that are lent, in one order: each loan is at a place among the own ones. Octets leave
//! from the front and from the end without being moved. Definitions: `specs/Loans.antt`.

ghost use Rattle.std.specs.Prelude.{◌≡◌, ℕ, ◌+◌, ◌-◌, ◌<◌, ◌≤◌, ◌^◌, ◌++◌, [], length, take, drop, if◌then◌else◌, is_ok, IsOk, IsSome, IsTrue, OnOk, OnErr};
ghost use Rattle.std.specs.Vec.{vec_capacity, vec_len};
ghost use Rattle.h2_frame.specs.Loans.{first_loan, IsPutShorter, IsShortened, IsTaken};
ghost use Rattle.std.specs.VecDeque.{deque_capacity, deque_len};

use h2_spec::octets::{octets_from, octets_up_to};
use std::alloc::{AllocError, Allocator};
use std::collections::VecDeque;
use std::marker::Model;

/// Octets that are lent: they are in front of the own octet at this place.
#[derive(Clone, Copy)]
pub(crate) struct Loan<'b> {
    pub(crate) at: usize,
    pub(crate) octets: &'b [u8],
}

/// Own octets with loans among them. A contract sees all octets in order.
#[derive(Drop)]
pub(crate) struct Lending<'b, A: Allocator> {
    own: Vec<u8, A>,
    /// How many of the own octets are gone: they were taken from the front.
    gone: usize,
    loans: VecDeque<Loan<'b>, A>,
}

impl<'b, A: Allocator> Model for Lending<'b, A> {
    ghost use Rattle.std.specs.Prelude.{ℕ, List, length};
    ghost use Rattle.h2_frame.specs.Loans.{AreLoans, spread};

    ghost Value = { List ℕ };

    ghost view = { λ l. spread l.gone l.own.items l.loans.items };

    ghost invariant = { λ l. AreLoans l.gone (length l.own.items) l.loans.items };
}

/// Appends the front of a payload, which most often is none; nothing where memory is refused.
#[inline(always)]
fn append_front<A: Allocator>(own: &mut Vec<u8, A>, front: &[u8]) -> Result<(), AllocError>
    ensures items { own.new.items ≡ (if is_ok result then own.old.items ++ front.now else own.old.items) }
    ensures capacity { vec_capacity own.old ≤ vec_capacity own.new }
    ensures succeeds { vec_len own.old + length front.now ≤ vec_capacity own.old → IsOk result }
{
    if front.is_empty() {
        return Ok(());
    }
    own.extend_from_slice(front)
}

impl<'b, A: Allocator + Copy> Lending<'b, A> {
    /// No octets. Takes no memory.
    pub(crate) fn new(alloc: A) -> Self
        ensures { result ≡ [] }
    {
        Lending {
            own: Vec::new(alloc),
            gone: 0,
            loans: VecDeque::new(alloc),
        }
    }
}

impl<'b, A: Allocator> Lending<'b, A> {
    pub(crate) fn memory(&self) -> &A {
        self.own.allocator()
    }

    /// Whether some of the octets are lent.
    #[inline(always)]
    pub(crate) fn has_loans(&self) -> bool {
        !self.loans.is_empty()
    }

    /// Appends copies of a head and of a payload in two parts; nothing where memory is refused.
    #[inline(always)]
    pub(crate) fn copy(
        &mut self,
        head: &[u8; 9],
        front: &[u8],
        rest: &[u8],
    ) -> Result<(), AllocError>
        requires fits { length front.now + length rest.now < 2 ^ 24 }
        ensures ok { OnOk result (self.new ≡ self.old ++ head.now ++ front.now ++ rest.now) }
        ensures no_memory { OnErr result (self.new ≡ self.old) }
    {
        self.own.reserve(9 + (front.len() + rest.len()))?;
        self.own.extend_from_slice(head)?;
        append_front(&mut self.own, front)?;
        self.own.extend_from_slice(rest)?;
        Ok(())
    }

    /// Appends a copy of a head, and a payload by reference; nothing where memory is refused.
    #[inline(always)]
    pub(crate) fn lend(&mut self, head: &[u8; 9], payload: &'b [u8]) -> Result<(), AllocError>
        requires some { 0 < length payload.now }
        ensures ok { OnOk result (self.new ≡ self.old ++ head.now ++ payload.now) }
        ensures no_memory { OnErr result (self.new ≡ self.old) }
    {
        self.loans.reserve(1)?;
        self.own.extend_from_slice(head)?;
        self.loans.push_back_reserved(Loan {
            at: self.own.len(),
            octets: payload,
        });
        Ok(())
    }

    /// Some of the first octets, where they are in one place; none only where there are none.
    pub(crate) fn front(&self) -> &[u8]
        ensures first { result.now ≡ take (length result.now) self.now }
        ensures some { 0 < length self.now → 0 < length result.now }
    {
        match first_loan(&self.loans) {
            None => octets_from(self.own.as_slice(), self.gone),
            Some(loan) if self.gone < loan.at => {
                octets_from(octets_up_to(self.own.as_slice(), loan.at), self.gone)
            }
            Some(loan) => loan.octets,
        }
    }

    /// Takes some of the first octets out: at least one, at most this many. Returns how many.
    fn remove_some(&mut self, most: usize) -> usize
        requires within { (0 < most) × (most ≤ length self.old) }
        ensures some { (0 < result) × (result ≤ most) }
        ensures rest { self.new ≡ drop result self.old }
    {
        match first_loan(&self.loans) {
            None => {
                // The proof reads here how many there can be.
                let _len = self.own.len();
                self.gone += most;
                most
            }
            Some(loan) if self.gone < loan.at => {
                let count = most.min(loan.at - self.gone);
                self.gone += count;
                count
            }
            Some(loan) => {
                let count = most.min(loan.octets.len());
                shorten_front(&mut self.loans, count);
                count
            }
        }
    }

    /// Takes this many of the first octets out.
    pub(crate) fn remove_front(&mut self, count: usize)
        requires { count ≤ length self.old }
        ensures { self.new ≡ drop count self.old }
    {
        let mut left = count;
        while left > 0 {
            left -= self.remove_some(left);
        }
        self.forget_gone();
    }

    /// Where no octets are left, the own ones that are gone are dropped.
    fn forget_gone(&mut self)
        ensures { self.new ≡ self.old }
    {
        if are_none(&self.loans) && self.gone == self.own.len() {
            self.own.clear();
            self.gone = 0;
        }
    }

    /// Drops some of the last octets: at least one, at most this many. Returns how many.
    fn cut_some(&mut self, most: usize) -> usize
        requires within { (0 < most) × (most ≤ length self.old) }
        ensures some { (0 < result) × (result ≤ most) }
        ensures rest { self.new ≡ take (length self.old - result) self.old }
    {
        match take_last(&mut self.loans) {
            None => {
                self.own.truncate(self.own.len() - most);
                most
            }
            Some(loan) if loan.at < self.own.len() => {
                let count = most.min(self.own.len() - loan.at);
                self.loans.push_back_reserved(loan);
                self.own.truncate(self.own.len() - count);
                count
            }
            Some(loan) => {
                let count = most.min(loan.octets.len());
                put_shorter(&mut self.loans, loan, count);
                count
            }
        }
    }

    /// Drops this many of the last octets.
    pub(crate) fn cut(&mut self, count: usize)
        requires { count ≤ length self.old }
        ensures { self.new ≡ take (length self.old - count) self.old }
    {
        let mut left = count;
        while left > 0 {
            left -= self.cut_some(left);
        }
    }
}

/// The first of these loans.
fn first_loan<'b, A: Allocator>(loans: &VecDeque<Loan<'b>, A>) -> Option<Loan<'b>>
    ensures { result ≡ first_loan loans.now.items }
{
    match loans.front() {
        None => None,
        Some(loan) => Some(*loan),
    }
}

/// Whether there are no loans.
#[inline(always)]
fn are_none<A: Allocator>(loans: &VecDeque<Loan<'_>, A>) -> bool
    ensures { IsTrue result → loans.now.items ≡ [] }
{
    loans.is_empty()
}

/// Takes octets off the front of the first loan, and the loan itself where they are all of its octets.
fn shorten_front<A: Allocator>(loans: &mut VecDeque<Loan<'_>, A>, count: usize)
    ensures { IsShortened (drop count) count loans.old.items loans.new.items }
{
    let Some(loan) = loans.pop_front() else {
        return;
    };
    if count < loan.octets.len() {
        loans.push_front_reserved(Loan {
            at: loan.at,
            octets: octets_from(loan.octets, count),
        });
    }
}

/// Takes the last of these loans out.
fn take_last<'b, A: Allocator>(loans: &mut VecDeque<Loan<'b>, A>) -> Option<Loan<'b>>
    ensures taken { IsTaken loans.old.items result loans.new.items }
    ensures room { IsSome result → deque_len loans.new < deque_capacity loans.new }
{
    loans.pop_back()
}

/// Puts a loan after the others without its last octets, this many; where it has no more, it is dropped.
fn put_shorter<'b, A: Allocator>(loans: &mut VecDeque<Loan<'b>, A>, loan: Loan<'b>, count: usize)
    requires { deque_len loans.old < deque_capacity loans.old }
    ensures { IsPutShorter loans.old.items loan.entry count loans.new.items }
{
    if count < loan.octets.len() {
        loans.push_back_reserved(Loan {
            at: loan.at,
            octets: octets_up_to(loan.octets, loan.octets.len() - count),
        });
    }
}
