//! Reading the texts of apertures.
ghost use Rattle.std.specs.Prelude.{◌≡◌, ◌<◌, ◌≤◌, ◌+◌, ◌≤ℤ◌, ◌⊎◌, [], ◌∷◌, ◌++◌, length, take, drop, pos, MatchResult, MatchOption, IfOk, IfSome, OnOk, Ok, Err};
ghost use Rattle.std.specs.List.{All, position, before_first, after_first, slice_split};
ghost use Rattle.shape_parts.specs.Parts.{IsWidth};
ghost use Rattle.apertures.specs.declared.aperture.ApertureError.TheVariants.{Memory};
ghost use Rattle.apertures.specs.Texts.{is_comma, is_times, IsSize, IsValue, named as named_of, name_in, template_of as template_in, value_of as value_in, values_in as values_between, values_behind as values_of_text, arguments_of as arguments_of_text, not_below, sizes_of as sizes_among, count_of as count_in, turn_of as turn_in, length_of as length_of_size, width_of as width_of_size};

use crate::aperture::ApertureError;
use fixed_num::{Unit, cut_decimal, round_div};
use std::alloc::{AllocError, Global};

// The templates that are built.
#[derive(Clone, Copy, Debug, PartialEq, Eq)]
pub(crate) enum Template {
    // `C`
    Circle,
    // `O`
    Obround,
    // `R`
    Rectangle,
    // `P`
    Polygon,
}

// The template of a name.
fn named(name: &[u8]) -> Option<Template>
    ensures { result ≡ named_of name.now }
{
    match name {
        [b'C'] => Some(Template::Circle),
        [b'O'] => Some(Template::Obround),
        [b'R'] => Some(Template::Rectangle),
        [b'P'] => Some(Template::Polygon),
        _ => None,
    }
}

// The place of the first comma.
fn comma_in(bytes: &[u8]) -> Option<usize>
    ensures { result ≡ position is_comma bytes.now }
{
    bytes.iter().position(|b| *b == b',')
}

// What stands before the first comma, or all.
pub(crate) fn name_of(bytes: &[u8]) -> &[u8]
    ensures { result.now ≡ name_in bytes.now }
{
    match comma_in(bytes) {
        Some(i) => &bytes[..i],
        None => bytes,
    }
}

// What stands behind the first comma, or nothing.
fn behind_name(bytes: &[u8]) -> &[u8]
    ensures { result.now ≡ after_first is_comma bytes.now }
{
    match comma_in(bytes) {
        Some(i) => &bytes[i + 1..],
        None => &[],
    }
}

// The template of a text.
#[tactic(auto, unfolding(crate::specs::Texts::template_of))]
pub(crate) fn template_of(bytes: &[u8]) -> Option<Template>
    ensures { result ≡ template_in bytes.now }
{
    named(name_of(bytes))
}

// The value that a text writes, in 10^-9.
#[tactic(auto, unfolding(crate::specs::Texts::value_of))]
fn value_of(text: &[u8]) -> Result<i128, ApertureError>
    ensures value { MatchResult result (λ v. value_in text.now ≡ Ok v) (λ e. value_in text.now ≡ Err e) }
    ensures bound { IfOk result IsValue }
{
    match cut_decimal(text, 9) {
        Ok(value) => Ok(value),
        Err(_) => Err(ApertureError::Syntax),
    }
}

// The place of the first letter X.
fn times_in(bytes: &[u8]) -> Option<usize>
    ensures { result ≡ position is_times bytes.now }
{
    bytes.iter().position(|b| *b == b'X')
}

// Adds an item at the end.
pub(crate) fn add<T: Drop>(items: &mut Vec<T>, item: T) -> Result<(), AllocError>
    ensures { OnOk result (items.new.items ≡ items.old.items ++ item ∷ []) }
{
    items.push(item)?;
    Ok(())
}

// What stands before place `i`.
fn before(bytes: &[u8], i: usize) -> &[u8]
    requires { i < length bytes.now }
    ensures { result.now ≡ take i bytes.now }
{
    &bytes[..i]
}

// What stands behind place `i`.
fn behind(bytes: &[u8], i: usize) -> &[u8]
    requires { i < length bytes.now }
    ensures { result.now ≡ drop (i + 1) bytes.now }
{
    &bytes[i + 1..]
}

// What stands before the first letter X, and what stands behind it.
fn split_once(bytes: &[u8]) -> Option<(&[u8], &[u8])>
    ensures parts { MatchOption result (slice_split is_times bytes.now ≡ bytes.now ∷ [])
        (λ found. slice_split is_times bytes.now ≡ found.0.now ∷ slice_split is_times found.1.now) }
    ensures shorter { IfSome result (λ found. length found.1.now < length bytes.now) }
{
    match times_in(bytes) {
        Some(i) => Some((before(bytes, i), behind(bytes, i))),
        None => None,
    }
}

// The values with the letter X between them.
#[tactic(auto, unfolding(crate::specs::Texts::values_in))]
fn values_in(alloc: Global, bytes: &[u8]) -> Result<Vec<i128>, ApertureError>
    ensures value { MatchResult result (λ values. values_between bytes.now ≡ Ok values.items)
        (λ e. (e ≡ Memory) ⊎ (values_between bytes.now ≡ Err e)) }
    ensures bound { IfOk result (λ values. All IsValue values.items) }
{
    let mut values = Vec::new(alloc);
    let mut rest = bytes;
    'texts: while let Some((text, others)) = split_once(rest) {
        let value = value_of(text)?;
        add(&mut values, value)?;
        rest = others;
    }
    let value = value_of(rest)?;
    add(&mut values, value)?;
    Ok(values)
}

// The values of a text.
#[tactic(auto, unfolding(crate::specs::Texts::values_behind))]
pub(crate) fn values_behind(alloc: Global, bytes: &[u8]) -> Result<Vec<i128>, ApertureError>
    ensures value { MatchResult result (λ values. values_of_text bytes.now ≡ Ok values.items)
        (λ e. (e ≡ Memory) ⊎ (values_of_text bytes.now ≡ Err e)) }
    ensures bound { IfOk result (λ values. All IsValue values.items) }
{
    values_in(alloc, behind_name(bytes))
}

// The arguments of a macro: none where no comma stands behind its name.
#[tactic(auto, unfolding(crate::specs::Texts::arguments_of))]
pub(crate) fn arguments_of(alloc: Global, bytes: &[u8]) -> Result<Vec<i128>, ApertureError>
    ensures { MatchResult result (λ values. arguments_of_text bytes.now ≡ Ok values.items)
        (λ e. (e ≡ Memory) ⊎ (arguments_of_text bytes.now ≡ Err e)) }
{
    match comma_in(bytes) {
        Some(i) => values_in(alloc, behind(bytes, i)),
        None => Ok(Vec::new(alloc)),
    }
}

// A value as a size.
pub(crate) fn size_of(value: i128) -> Result<u128, ApertureError>
    requires { IsValue value }
    ensures value { MatchResult result (λ size. not_below value ≡ Ok size) (λ e. not_below value ≡ Err e) }
    ensures bound { IfOk result IsSize }
{
    if value >= 0 {
        Ok(value as u128)
    } else {
        Err(ApertureError::Syntax)
    }
}

// Values as sizes.
pub(crate) fn sizes_of(alloc: Global, values: &[i128]) -> Result<Vec<u128>, ApertureError>
    requires { All IsValue values.now }
    ensures value { MatchResult result (λ sizes. sizes_among values.now ≡ Ok sizes.items)
        (λ e. (e ≡ Memory) ⊎ (sizes_among values.now ≡ Err e)) }
    ensures bound { IfOk result (λ sizes. All IsSize sizes.items) }
{
    let mut sizes = Vec::new(alloc);
    'values: for value in values {
        let size = size_of(*value)?;
        add(&mut sizes, size)?;
    }
    Ok(sizes)
}

// A number of points or vertices, from a size.
#[tactic(auto, unfolding(crate::specs::Texts::count_of))]
pub(crate) fn count_of(size: u128, most: u64) -> Result<u64, ApertureError>
    ensures value { MatchResult result (λ n. count_in most size ≡ Ok n) (λ e. count_in most size ≡ Err e) }
    ensures low { IfOk result (λ n. 3 ≤ n) }
    ensures high { IfOk result (λ n. n ≤ most) }
{
    let count = size / 1_000_000_000;
    if size % 1_000_000_000 == 0 && 3 <= count && count <= most as u128 {
        Ok(count as u64)
    } else {
        Err(ApertureError::Syntax)
    }
}

// An angle in millionths of a degree in the first turn, from one in 10^-9.
#[tactic(auto, unfolding(crate::specs::Texts::turn_of, fixed_num::specs::Angles::in_turn))]
pub(crate) fn turn_of(value: i128) -> u64
    ensures value { result ≡ turn_in value }
    ensures bound { result < 360000000 }
{
    (value / 1_000).rem_euclid(360_000_000) as u64
}

/// A size in 10^-9 of a unit, in whole nanometres: the nearest, half up.
#[tactic(auto, unfolding(crate::specs::Texts::length_of))]
pub fn length_of(size: u128, unit: Unit) -> i128
    requires { IsSize size }
    ensures value { result ≡ length_of_size unit size }
    ensures low { pos 0 ≤ℤ result }
{
    match unit {
        Unit::Mm => round_div(size as i128, 1_000),
        Unit::Inch => round_div(size as i128 * 254, 10_000),
    }
}

// A size as a length of at most a metre.
#[tactic(auto, unfolding(crate::specs::Texts::width_of))]
pub(crate) fn width_of(size: u128, unit: Unit) -> Result<i64, ApertureError>
    requires { IsSize size }
    ensures value { MatchResult result (λ d. width_of_size unit size ≡ Ok d) (λ e. width_of_size unit size ≡ Err e) }
    ensures width { IfOk result IsWidth }
{
    let length = length_of(size, unit);
    if length <= 1_000_000_000 {
        Ok(length as i64)
    } else {
        Err(ApertureError::OutOfRange)
    }
}
