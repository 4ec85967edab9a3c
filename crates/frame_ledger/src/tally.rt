//! One quantity of all outputs.
ghost use Rattle.std.specs.Prelude.{◌≡◌, ◌+◌, ◌^◌, ◌<◌, ◌≤◌, ◌↔◌, length, sum, slice_index, replicate, IfOk, OnOk, OnErr, IsTrue};
ghost use Rattle.frame_ledger.specs.Balance.{Raises};

use std::alloc::{AllocError, Global};
use std::marker::Model;
use std::sync::ledger::{Blank, Book, Ledger, Share};

/// A quantity of all outputs together would pass 2^63-1.
#[derive(Clone, Copy, PartialEq, Eq, Debug)]
pub struct AtLimit;

const LIMIT: u64 = 0x7fff_ffff_ffff_ffff;

/// A number for each output, beside a book whose total is their sum. Contracts see the numbers.
pub struct Tally<L: Ledger> {
    numbers: Vec<u64>,
    total: u64,
    book: Book<L>,
}

impl<L: Ledger> Drop for Tally<L> {
    fn drop(self) {
        let Tally {
            numbers: _,
            total: _,
            book: _,
        } = self;
    }
}

impl<L: Ledger> Model for Tally<L> {
    ghost use Rattle.std.specs.Prelude.{◌≡◌, ◌^◌, ◌<◌, ℕ, List, sum};

    ghost Value = { List ℕ };

    ghost view = { λ t. t.numbers.items };

    ghost invariant = { λ t. (t.total ≡ sum t.numbers.items) × (t.book.total ≡ t.total) × (t.total < 2 ^ 63) };
}

impl<L: Ledger> Tally<L> {
    /// A number of 0 for each output, and the share that has all parts.
    pub fn open(
        alloc: Global,
        blank: Blank,
        outputs: usize,
    ) -> Result<(Tally<L>, Share<L>), AllocError>
        requires { (blank.name ≡ L.name) × (blank.parts ≡ L.parts) }
        ensures numbers { IfOk result (λ r. r.0 ≡ replicate outputs 0) }
        ensures share { IfOk result (λ r. (r.1.parts ≡ L.parts) × (r.1.amount ≡ 0)) }
    {
        let mut numbers: Vec<u64> = Vec::new(alloc);
        numbers.resize(outputs, 0)?;
        let (book, share) = blank.open::<L>();
        Ok((
            Tally {
                numbers,
                total: 0,
                book,
            },
            share,
        ))
    }

    /// Whether `n` more keep all outputs together at or below 2^63-1.
    pub fn has_room(&self, n: u64) -> bool
        ensures { IsTrue result ↔ (sum self.now + n < 2 ^ 63) }
    {
        n <= LIMIT - self.total
    }

    /// Adds `n` to an output's number and to the share. It takes no memory.
    pub fn raise(&mut self, output: usize, share: &mut Share<L>, n: u64) -> Result<(), AtLimit>
        requires output { output < length self.old }
        requires part { 0 < share.old.parts }
        ensures ok { OnOk result (Raises self.old self.new output share.old share.new n) }
        ensures err { OnErr result ((self.new ≡ self.old) × (share.new ≡ share.old) × (2 ^ 63 ≤ sum self.old + n)) }
        ensures parts { share.new.parts ≡ share.old.parts }
    {
        if !self.has_room(n) {
            return Err(AtLimit);
        }
        self.numbers[output] += n;
        self.total += n;
        self.book.add(share, n);
        Ok(())
    }

    /// Sets the number of each output, and adds to the share what all together have grown. It takes no
    /// memory.
    pub fn raise_to(&mut self, share: &mut Share<L>, numbers: &[u64])
        requires outputs { length numbers.now ≡ length self.old }
        requires grown { sum self.old ≤ sum numbers.now }
        requires room { sum numbers.now < 2 ^ 63 }
        requires part { 0 < share.old.parts }
        ensures numbers { self.new ≡ numbers.now }
        ensures share { share.new.amount + sum self.old ≡ share.old.amount + sum numbers.now }
        ensures parts { share.new.parts ≡ share.old.parts }
    {
        let Tally {
            numbers: own,
            total,
            book,
        } = self;
        let after = sum_of(numbers);
        own.copy_from_slice(numbers);
        book.add(share, after - *total);
        *total = after;
    }

    /// An output's number.
    pub fn number(&self, output: usize) -> u64
        requires { output < length self.now }
        ensures { result ≡ slice_index self.now output }
    {
        self.numbers[output]
    }

    /// How many outputs there are.
    pub fn outputs(&self) -> usize
        ensures { result ≡ length self.now }
    {
        self.numbers.len()
    }

    /// Shows that the numbers sum to the share, where it has all parts. Nothing changes.
    pub fn audit(&mut self, all: &mut Share<L>)
        requires { all.old.parts ≡ L.parts }
        ensures sum { all.new.amount ≡ sum self.new }
        ensures same { (self.new ≡ self.old) × (all.new.parts ≡ all.old.parts) × (all.new.amount ≡ all.old.amount) }
    {
        self.book.audit(all);
    }
}

// The sum of some numbers.
fn sum_of(numbers: &[u64]) -> u64
    requires { sum numbers.now < 2 ^ 63 }
    ensures { result ≡ sum numbers.now }
{
    let mut all = 0u64;
    for n in numbers {
        all += *n;
    }
    all
}
