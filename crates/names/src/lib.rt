//! Mint names: read from UTF-8, kept as a key of 24 digits, compared from the first digit.
#![tactic(auto)]

ghost use Rattle.std.specs.Prelude.{◌≡◌, ℕ, ◌≤◌, [], length, ◌==◌, Some, slice_index, refl};
ghost use Rattle.std.specs.Ordering.{is_eq};
ghost use Rattle.names.specs.Reading.{refusal_number, fault_text, stepped, marked, lettered, word_at, packed, reading};
ghost use Rattle.names.specs.Digits.{name_order, name_home, first_two};
ghost use Rattle.names.specs.Law.{NameLaw};
ghost use Rattle.names.specs.Progress.{letter_at, letters_in, went};
ghost use Rattle.names.specs.KeyLaws.{name_laws, name_total, name_equivalence};
ghost use Rattle.std.specs.Cmp.{partial_equiv_from_equiv, po};

use keys::Key;
use std::cmp::Ordering;
use std::error::Error;
use std::fmt;
use std::marker::Model;

mod letters;
mod utf8;

/// Why a name is refused.
#[derive(Clone, Copy, PartialEq, Eq, Debug)]
pub enum Reason {
    /// Ill-formed UTF-8.
    IllFormed = 9,
    /// A code point that is no letter of names and no mark.
    NotListed = 10,
    /// A mark that does not directly follow a plain letter without a mark.
    LooseMark = 11,
    /// No letter at all, or a 25th.
    Length = 12,
}

/// The refusal of a name: why, and the number, from 0, of the byte where the first faulty code point begins.
#[derive(Clone, Copy, PartialEq, Eq, Debug)]
pub struct Fault {
    pub reason: Reason,
    pub place: usize,
}

impl Fault {
    /// The number by which this refusal is known, 9 to 12.
    pub const fn number(self) -> u8
        ensures { result ≡ refusal_number self.reason }
    {
        self.reason as u8
    }
}

impl fmt::Display for Fault {
    ghost output = { λ e. Some (fault_text e) };

    fn fmt<W: fmt::Write>(&self, f: &mut fmt::Formatter<W>) -> fmt::Result {
        write!(f, "REFUSED {} {}", self.number(), self.place)
    }
}

impl Error for Fault {}

/// The key of a mint name: 24 digits in base 1,024, one for each letter with its mark, unused ones last and 0.
///
/// Eight digits stand in each word, the first one highest.
#[derive(Clone, Copy, Debug)]
pub struct Name {
    high: u128,
    middle: u128,
    low: u128,
}

impl Name {
    // The first two digits as one number: the highest twenty of eighty bits.
    fn first_two(self) -> u64
        ensures { result ≡ first_two self }
    {
        (self.high >> 60).min(1_048_575) as u64
    }
}

impl Key for Name {
    ghost order = { name_order };

    ghost home = { name_home };

    ghost lawful = { name_laws };

    fn compare(self, other: Name) -> Ordering {
        let words = (self.high, self.middle, self.low);
        words.cmp(&(other.high, other.middle, other.low))
    }

    fn home(self, n: usize) -> usize {
        keys::share::<1_048_575>(self.first_two(), n)
    }
}

// By hand: these impls state the order of the 24 digits, where a derive would state one of the private words.
impl PartialEq for Name {
    ghost eq = { λ x y. is_eq (name_order x y) };

    ghost laws = { partial_equiv_from_equiv name_equivalence };

    fn eq(&self, other: &Name) -> bool {
        self.compare(*other).is_eq()
    }
}

impl Eq for Name {
    ghost laws = { name_equivalence };
}

impl PartialOrd for Name {
    ghost partial_cmp = { λ x y. Some (name_order x y) };

    ghost laws = { po name_total (λ x y. refl) };

    fn partial_cmp(&self, other: &Name) -> Option<Ordering> {
        Some(self.compare(*other))
    }
}

impl Ord for Name {
    ghost cmp = { name_order };

    ghost total = { name_total };

    ghost matches_partial_cmp = { λ x y. refl };

    ghost matches_eq = { λ x y. refl };

    fn cmp(&self, other: &Name) -> Ordering {
        <Name as Key>::compare(*self, *other)
    }
}

/// The digits of the letters that were read so far, 24 at most: seen as their list.
///
/// They stand in an array: a name is read without allocating, and without a further crate to trust.
#[derive(Drop)]
struct Row {
    digits: [u16; 24],
    count: usize,
}

impl Model for Row {
    ghost use Rattle.std.specs.Prelude.{ℕ, ◌≤◌, List, take};

    ghost Value = { List ℕ };

    ghost view = { λ r. take r.count r.digits };

    ghost invariant = { λ r. r.count ≤ 24 };
}

impl Row {
    fn new() -> Row
        ensures { result ≡ [] }
    {
        Row {
            digits: [0; 24],
            count: 0,
        }
    }

    fn is_empty(&self) -> bool
        ensures { result ≡ (length self.now == 0) }
    {
        self.count == 0
    }

    // The k-th digit, 0 where there is none.
    fn digit(&self, k: usize) -> u16
        ensures { result ≡ slice_index self.now k }
    {
        if k < self.count { self.digits[k] } else { 0 }
    }

    // One more code point: a mark on the last letter, or a letter.
    fn push(&mut self, c: u32) -> Result<(), Reason>
        ensures { (place : ℕ) → stepped (letters_in self.old) c place ≡ went self.new place result }
    {
        match (letters::mark_of(c), letters::digit_of(c)) {
            (Some(mark), _) => self.push_mark(mark),
            (None, Some(digit)) => self.push_letter(digit),
            (None, None) => Err(Reason::NotListed),
        }
    }

    // A mark on the last letter.
    fn push_mark(&mut self, mark: u16) -> Result<(), Reason>
        requires { mark ≤ 13 }
        ensures { (place : ℕ) → marked (letters_in self.old) mark place ≡ went self.new place result }
    {
        let Some(last) = self.count.checked_sub(1) else {
            return Err(Reason::LooseMark);
        };
        if !letters::takes_mark(self.digits[last]) {
            return Err(Reason::LooseMark);
        }
        self.digits[last] += mark;
        Ok(())
    }

    // A letter, of which there may be 24.
    fn push_letter(&mut self, digit: u16) -> Result<(), Reason>
        ensures { (place : ℕ) → lettered (letters_in self.old) (Some (letter_at digit)) place ≡ went self.new place result }
    {
        if self.count >= 24 {
            return Err(Reason::Length);
        }
        self.digits[self.count] = digit;
        self.count += 1;
        Ok(())
    }

    // Eight digits from the i-th on, as one word; an unused digit is 0.
    fn word(&self, i: usize) -> u128
        requires { i ≤ 16 }
        ensures { result ≡ word_at (λ k. slice_index self.now k) i }
    {
        let mut word = 0;
        for k in i..i + 8 {
            word = word * 1024 + u128::from(self.digit(k));
        }
        word
    }

    // The key of a name with these digits.
    fn key(&self) -> Name
        ensures { result ≡ packed (λ k. slice_index self.now k) }
    {
        Name {
            high: self.word(0),
            middle: self.word(8),
            low: self.word(16),
        }
    }
}

/// The key of the name that these bytes spell, or the refusal of their first faulty code point.
///
/// Of two texts that are both read, the keys are equal exactly when their canonical decompositions agree: an accent may
/// come composed with its letter or as a mark after it.
#[tactic(auto, using(crate::proofs::Laws::name_law))]
pub fn read(bytes: &[u8]) -> Result<Name, Fault>
    ensures value { result ≡ reading bytes.now }
    ensures law { NameLaw }
{
    let mut row = Row::new();
    let mut rest = bytes;
    // No iterator of code points: it would carry the place beside the bytes and have to end after a refusal, as `?` does here.
    while !rest.is_empty() {
        let place = bytes.len() - rest.len();
        let (c, tail) = utf8::first(rest).ok_or(Fault {
            reason: Reason::IllFormed,
            place,
        })?;
        row.push(c).map_err(|reason| Fault { reason, place })?;
        rest = tail;
    }
    if row.is_empty() {
        return Err(Fault {
            reason: Reason::Length,
            place: 0,
        });
    }
    Ok(row.key())
}
