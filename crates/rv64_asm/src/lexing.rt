//! A line in its parts.

ghost use Rattle.std.specs.Prelude.{◌≡◌, ◌==◌, reverse, option_map};
ghost use Rattle.std.specs.List.{position};
ghost use Rattle.rv64_asm.specs.Lexing as spec;
ghost use Rattle.rv64_asm.specs.Lexing.{skip_blanks};
ghost use Rattle.rv64_asm.specs.Returned.{seen};

use std::alloc::AllocError;

pub fn is_blank(b: u8) -> bool
    ensures { result ≡ spec.is_blank b }
{
    b == b' ' || b == b'\t'
}

fn trim_start(mut s: &[u8]) -> &[u8]
    ensures { result.now ≡ skip_blanks s.now }
{
    while let [first, rest @ ..] = s
        && is_blank(*first)
    {
        s = rest;
    }
    s
}

fn trim_end(mut s: &[u8]) -> &[u8]
    ensures { result.now ≡ reverse (skip_blanks (reverse s.now)) }
{
    while let [rest @ .., last] = s
        && is_blank(*last)
    {
        s = rest;
    }
    s
}

pub fn trim(s: &[u8]) -> &[u8]
    ensures { result.now ≡ spec.trim s.now }
{
    trim_end(trim_start(s))
}

fn first_of(s: &[u8], wanted: u8) -> Option<usize>
    ensures { result ≡ position (λ b. b == wanted) s.now }
{
    s.iter().position(|b| *b == wanted)
}

fn first_blank(s: &[u8]) -> Option<usize>
    ensures { result ≡ position spec.is_blank s.now }
{
    s.iter().position(|b| is_blank(*b))
}

/// What stands before the first such byte, and what stands after it.
pub fn cut(s: &[u8], wanted: u8) -> Option<(&[u8], &[u8])>
    ensures { option_map (λ x. (x.0.now, x.1.now)) result ≡ spec.cut wanted s.now }
{
    let i = first_of(s, wanted)?;
    Some((&s[..i], &s[i + 1..]))
}

/// The line without its comment.
pub fn code_of(line: &[u8]) -> &[u8]
    ensures { result.now ≡ spec.code_of line.now }
{
    match cut(line, b'#') {
        Some((code, _)) => code,
        None => line,
    }
}

/// The word at the front, and what stands after it.
pub fn word_of(s: &[u8]) -> (&[u8], &[u8])
    ensures { (result.0.now, result.1.now) ≡ spec.word_of s.now }
{
    match first_blank(s) {
        Some(i) => (&s[..i], trim_start(&s[i..])),
        None => (s, &[]),
    }
}

/// What stands between the commas.
pub enum Operands<T> {
    Zero,
    One(T),
    Two(T, T),
    Three(T, T, T),
    More,
}

impl<T: Copy> Clone for Operands<T> {
    ghost is_clone = { λ x y. y ≡ x };

    ghost is_infallible = { λ _. Unit {0} };

    fn clone(&self) -> Result<Operands<T>, AllocError> {
        Ok(*self)
    }
}

impl<T: Copy> Copy for Operands<T> {}

#[tactic(auto, using(crate::proofs::Splits::one_part, crate::proofs::Splits::first_part))]
pub fn operands_of(s: &[u8]) -> Operands<&[u8]>
    ensures { seen result ≡ spec.shape_of (spec.operands s.now) }
{
    if s.is_empty() {
        return Operands::Zero;
    }
    let Some((first, rest)) = cut(s, b',') else {
        return Operands::One(trim(s));
    };
    let Some((second, rest)) = cut(rest, b',') else {
        return Operands::Two(trim(first), trim(rest));
    };
    match cut(rest, b',') {
        None => Operands::Three(trim(first), trim(second), trim(rest)),
        Some(_) => Operands::More,
    }
}
