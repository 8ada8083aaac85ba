// Numbers of several lanes, one for each, in vectors.

ghost use Rattle.std.specs.Prelude.{◌≡◌, ℕ, ◌<◌, ◌+ℤ◌, ◌-ℤ◌, FitsSigned, All};
ghost use Rattle.std.specs.Int.{w64};
ghost use Rattle.interval_solver.specs.Lanes.{number_in, IsLarger};

use std::simd::prelude::*;

/// One number less the numbers of the lanes.
#[inline(always)]
pub(crate) fn less<const L: usize>(number: i64, others: [i64; L]) -> [i64; L]
    requires others { All (FitsSigned w64) others }
    requires differences { (l : ℕ) → l < L → FitsSigned w64 (number -ℤ number_in l others) }
    ensures fit { All (FitsSigned w64) result }
    ensures each { (l : ℕ) → l < L → number_in l result ≡ number -ℤ number_in l others.entry }
{
    let numbers = Simd::splat(number);
    numbers.strict_sub(Simd::from_array(others)).to_array()
}

/// The sums, lane by lane.
#[inline(always)]
pub(crate) fn plus<const L: usize>(numbers: [i64; L], others: [i64; L]) -> [i64; L]
    requires numbers { All (FitsSigned w64) numbers }
    requires others { All (FitsSigned w64) others }
    requires sums { (l : ℕ) → l < L → FitsSigned w64 (number_in l numbers +ℤ number_in l others) }
    ensures fit { All (FitsSigned w64) result }
    ensures each { (l : ℕ) → l < L → number_in l result ≡ number_in l numbers.entry +ℤ number_in l others.entry }
{
    let numbers = Simd::from_array(numbers);
    numbers.strict_add(Simd::from_array(others)).to_array()
}

/// The larger numbers, lane by lane.
#[inline(always)]
pub(crate) fn larger<const L: usize>(numbers: [i64; L], others: [i64; L]) -> [i64; L]
    requires numbers { All (FitsSigned w64) numbers }
    requires others { All (FitsSigned w64) others }
    ensures fit { All (FitsSigned w64) result }
    ensures each { (l : ℕ) → l < L → IsLarger (number_in l numbers.entry) (number_in l others.entry) (number_in l result) }
{
    let numbers = Simd::from_array(numbers);
    numbers.simd_max(Simd::from_array(others)).to_array()
}
