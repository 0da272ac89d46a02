//! Kinds of key: what every key of the register can do, and two kinds, type numbers and trays.
#![tactic(auto)]

ghost use Rattle.std.specs.Prelude.{◌≡◌, ℕ, ◌+◌, Some, decimal};
ghost use Rattle.std.specs.declared.cmp.Ordering.{Ordering};
ghost use Rattle.keys.specs.Laws.{Laws};
ghost use Rattle.keys.specs.Kinds.{by_size, share, type_order, type_home, tray_order, tray_home, tray_of, refusal_number, refusal_text};
ghost use Rattle.std.proofs.Common.{ap, arith};
ghost use Rattle.std.proofs.lemmas.Bool.Decides.{nat_tests};
ghost use Rattle.keys.specs.Sizes.{number_laws, above_zero, type_numbered, tray_numbered};
ghost use Rattle.keys.specs.declared.Tray.{Tray};
ghost use Rattle.keys.specs.declared.TypeNumber.{TypeNumber};

use std::cmp::Ordering;
use std::error::Error;
use std::fmt;

/// A kind of key: a comparison and a home, both by the key's value alone.
///
/// The register keeps its cells in ascending order, each key as near to its home as the others allow.
/// Every kind shows the laws of `specs/Laws.antt`; code over a kind is proved from them alone.
// No `Ord`: the laws are of this comparison and the home together, as the rules state them of a kind.
pub trait Key: Copy {
    ghost order: { Self → Self → Ordering };

    ghost home: { Self → ℕ → ℕ };

    /// Whether this key is before (`Less`), the same as (`Equal`) or after (`Greater`) the other.
    fn compare(self, other: Self) -> Ordering
        ensures { result ≡ order self other };

    /// The cell where this key belongs among `n`, below `n` for `n` from 1 to 65,536.
    fn home(self, n: usize) -> usize
        ensures { result ≡ home self n };

    ghost lawful: { Laws order home };
}

/// The home among `n` cells of the number `k`, for numbers from 0 to `LAST`: floor(k × n / (LAST + 1)).
///
/// A number above `LAST` has the home of `LAST`.
pub fn share<const LAST: u64>(k: u64, n: usize) -> usize
    ensures { result ≡ share (LAST + 1) k n }
{
    (u128::from(k.min(LAST)) * n as u128 / (u128::from(LAST) + 1)) as usize
}

/// The number of a coin type: any 32-bit number.
#[derive(Clone, Copy, PartialEq, Eq, Debug)]
pub struct TypeNumber(pub u32);

impl Key for TypeNumber {
    ghost order = { type_order };

    ghost home = { type_home };

    ghost lawful = { number_laws by_size (λ x y. Prim.grind (arith, nat_tests)) (λ (x : TypeNumber). x.0) 4294967296 (above_zero 4294967295) (λ x y e. ap type_numbered e) };

    fn compare(self, other: TypeNumber) -> Ordering {
        self.0.cmp(&other.0)
    }

    fn home(self, n: usize) -> usize {
        share::<4_294_967_295>(u64::from(self.0), n)
    }
}

/// A tray of the coin cabinet, 0 to 999.
#[derive(Clone, Copy, PartialEq, Eq, Debug)]
pub struct Tray {
    number: u16,
}

/// The refusal of a tray number above 999.
#[derive(Clone, Copy, PartialEq, Eq, Debug)]
pub struct AboveLimit;

impl AboveLimit {
    /// The number by which this refusal is known, 13.
    pub const fn number(self) -> u8
        ensures { result ≡ refusal_number self }
    {
        // A struct without fields has no discriminant to tell.
        13
    }
}

impl fmt::Display for AboveLimit {
    ghost output = { λ e. Some (refusal_text e) };

    fn fmt<W: fmt::Write>(&self, f: &mut fmt::Formatter<W>) -> fmt::Result {
        write!(f, "REFUSED {}", self.number())
    }
}

impl Error for AboveLimit {}

impl Tray {
    /// The tray of this number, refused above 999.
    pub const fn new(number: u16) -> Result<Tray, AboveLimit>
        ensures { result ≡ tray_of number }
    {
        if number <= 999 {
            Ok(Tray { number })
        } else {
            Err(AboveLimit)
        }
    }

    pub const fn number(self) -> u16
        ensures { result ≡ self.number }
    {
        let Tray { number } = self;
        number
    }
}

impl fmt::Display for Tray {
    ghost output = { λ k. Some (decimal k.number) };

    fn fmt<W: fmt::Write>(&self, f: &mut fmt::Formatter<W>) -> fmt::Result {
        write!(f, "{}", self.number())
    }
}

impl Key for Tray {
    ghost order = { tray_order };

    ghost home = { tray_home };

    ghost lawful = { number_laws by_size (λ x y. Prim.grind (arith, nat_tests)) (λ (x : Tray). x.number) 1000 (above_zero 999) (λ x y e. ap tray_numbered e) };

    fn compare(self, other: Tray) -> Ordering {
        self.number.cmp(&other.number)
    }

    /// A number above 999, which no call makes, has the home of 999.
    fn home(self, n: usize) -> usize {
        share::<999>(u64::from(self.number), n)
    }
}
