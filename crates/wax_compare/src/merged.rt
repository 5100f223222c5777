//! Letters that pass the same tests, of which one is enough.
ghost use Rattle.std.specs.Prelude.{◌≡◌, ◌↔◌, ◌<◌, ℕ, Contains, IfOk, IsTrue, length, slice_index};
ghost use Rattle.wax_program.specs.Machine.{PassesTest};
ghost use Rattle.wax_compare.specs.{Cuts.{AreUnlike, HasStandIn, StandsFor}, inner.Cutting.AreKept};
ghost use Rattle.wax_compare.specs.inner.Merging.{AgreeAt, AgreeBefore, AreKeptLetters, IsDigestBefore};
ghost use Rattle.wax_compare.specs.inner.Merging.{IsDigestOf, PassesAt, stirred};

use std::alloc::{AllocError, Global};
use wax_program::instruction::Test;
use wax_program::{CompiledProgram, Meter, test_at};

/// Keeps the first of letters that pass the same tests of the two programs, and are all `/` or none. Runs
/// each test about twice for each letter.
pub fn merge(
    alloc: Global,
    first: &CompiledProgram,
    second: &CompiledProgram,
    letters: &[char],
) -> Result<Vec<char>, AllocError>
    ensures stands { IfOk result (λ v. (c : ℕ) → Contains letters.now c
        → HasStandIn first.now.0 second.now.0 v.items c) }
    ensures unlike { IfOk result (λ v. AreUnlike first.now.0 second.now.0 v.items) }
{
    let mut kept = Vec::new(alloc);
    let mut digests = Vec::new(alloc);
    for letter in letters {
        merge_letter(first, second, &mut kept, &mut digests, *letter)?;
    }
    Ok(kept)
}

/// Adds a letter with its digest, unless a kept one passes the same tests.
fn merge_letter(
    first: &CompiledProgram,
    second: &CompiledProgram,
    kept: &mut Vec<char>,
    digests: &mut Vec<u64>,
    letter: char,
) -> Result<(), AllocError>
    requires { AreKeptLetters first.now.0 second.now.0 kept.old.items digests.old.items }
    ensures letters { IfOk result (λ _.
        AreKeptLetters first.now.0 second.now.0 kept.new.items digests.new.items) }
    ensures kept { IfOk result (λ _. AreKept kept.old.items kept.new.items) }
    ensures stands { IfOk result (λ _. HasStandIn first.now.0 second.now.0 kept.new.items letter) }
{
    let digest = digest_of_both(first, second, letter);
    if has_stand_in(first, second, kept, digests, letter, digest) {
        return Ok(());
    }
    kept.push(letter)?;
    digests.push(digest)?;
    Ok(())
}

/// Returns whether a kept letter passes the same tests as the letter with this digest. Only kept letters
/// with the same digest are compared with it.
fn has_stand_in(
    first: &CompiledProgram,
    second: &CompiledProgram,
    kept: &[char],
    digests: &[u64],
    letter: char,
    digest: u64,
) -> bool
    requires kept { AreKeptLetters first.now.0 second.now.0 kept.now digests.now }
    requires digest { IsDigestOf first.now.0 second.now.0 letter digest }
    ensures { IsTrue result ↔ HasStandIn first.now.0 second.now.0 kept.now letter }
{
    for index in 0..kept.len() {
        if digests[index] != digest {
            continue;
        }
        if stands_for(first, second, kept[index], letter) {
            return true;
        }
    }
    false
}

/// Returns a number that is the same for characters that pass the same tests of both programs, and mostly
/// another one for others.
fn digest_of_both(first: &CompiledProgram, second: &CompiledProgram, c: char) -> u64
    ensures { IsDigestOf first.now.0 second.now.0 c result }
{
    digest_of(second, c, digest_of(first, c, 1))
}

/// Returns the digest of the tests of a program that pass the character, begun with a seed.
fn digest_of(program: &CompiledProgram, c: char, seed: u64) -> u64
    ensures { IsDigestBefore program.now.0 c seed (length program.now.0) result }
{
    let mut meter = Meter::new();
    let mut digest = seed;
    for at in 0..program.size() {
        if passes_at(program, at, c, &mut meter) {
            digest = stirred(digest, at);
        }
    }
    digest
}

/// Returns the digest with a place more.
fn stirred(digest: u64, at: usize) -> u64
    ensures { result ≡ stirred digest at }
{
    digest
        .wrapping_mul(0x9E37_79B9_7F4A_7C15)
        .wrapping_add(at as u64)
}

/// Returns whether the instruction at a place has a test that passes the character.
fn passes_at(program: &CompiledProgram, at: usize, c: char, meter: &mut Meter) -> bool
    requires { at < length program.now.0 }
    ensures { IsTrue result ↔ PassesAt program.now.0 at c }
{
    match test_at(program, at, meter) {
        Some(test) => test.passes(c),
        None => false,
    }
}

/// Returns whether the letter passes the same tests of both programs as the character, and is `/`
/// only if that is.
fn stands_for(first: &CompiledProgram, second: &CompiledProgram, letter: char, c: char) -> bool
    ensures { IsTrue result ↔ StandsFor first.now.0 second.now.0 letter c }
{
    if (c == '/') != (letter == '/') {
        return false;
    }
    are_alike(first, c, letter) && are_alike(second, c, letter)
}

/// Returns whether both characters pass the same tests of the program.
fn are_alike(program: &CompiledProgram, c: char, d: char) -> bool
    ensures { IsTrue result ↔ AgreeBefore program.now.0 (length program.now.0) c d }
{
    let mut meter = Meter::new();
    for at in 0..program.size() {
        if !agree_at(program, at, c, d, &mut meter) {
            return false;
        }
    }
    true
}

fn agree_at(program: &CompiledProgram, at: usize, c: char, d: char, meter: &mut Meter) -> bool
    requires { at < length program.now.0 }
    ensures { IsTrue result ↔ AgreeAt program.now.0 at c d }
{
    match test_at(program, at, meter) {
        Some(test) => passes_both(test, c, d),
        None => true,
    }
}

/// Returns whether the test passes both characters or neither.
fn passes_both(test: &Test, c: char, d: char) -> bool
    ensures { IsTrue result ↔ (PassesTest test.now c ↔ PassesTest test.now d) }
{
    if test.passes(c) {
        test.passes(d)
    } else {
        !test.passes(d)
    }
}
