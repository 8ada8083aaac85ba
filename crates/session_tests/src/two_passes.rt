// A desk of two callers, each with a pass, and what calls of theirs are replied.
ghost use Rattle.std.specs.Prelude.{◌≡◌, ℕ, ◌+◌, ◌<◌, length, IfOk};
ghost use Rattle.desk_passes.specs.Calls.{IsPassOf, view};
ghost use Rattle.session_tests.specs.Passes.{IsCallers, IsReady, MadeBoth};

use crate::script::{OPENING, line_of};
use desk_book::Book;
use desk_passes::{CallAnswer, Pass, Root, SharedDesk};
use std::alloc::{AllocError, Global};
use std::process::Abort;
use std::sync::Wait;

/// A desk, its root, and the passes of its two callers.
#[derive(Drop)]
pub struct Shared {
    pub desk: SharedDesk,
    pub root: Root,
    pub zero: Pass,
    pub one: Pass,
}

/// A new desk of two callers.
pub fn share(alloc: Global) -> Result<Shared, AllocError>
    ensures root { IfOk result (λ made. MadeBoth made.desk made.root) }
    ensures zero { IfOk result (λ made. IsCallers made.desk 0 made.zero × IsReady made.desk 0 made.zero) }
    ensures one { IfOk result (λ made. IsCallers made.desk 1 made.one × IsReady made.desk 0 made.one) }
{
    let (desk, mut root) = SharedDesk::new(alloc, Book::new(alloc, 2)?)?;
    let zero = desk.pass(&mut root, 0);
    let one = desk.pass(&mut root, 1);
    Ok(Shared {
        desk,
        root,
        zero,
        one,
    })
}

/// How many entries the desk's book has, once both passes are given back.
pub fn close(desk: SharedDesk, mut root: Root, zero: Pass, one: Pass) -> usize
    requires root { MadeBoth desk root }
    requires zero { IsCallers desk 0 zero }
    requires one { IsCallers desk 1 one }
{
    desk.back(&mut root, zero);
    desk.back(&mut root, one);
    desk.close(root).entries()
}

/// Calls a line that takes nothing, and answers where its entry stands. So many lines were called before, or fewer.
fn call<R: Abort + Wait>(
    rt: &R,
    alloc: Global,
    desk: &SharedDesk,
    pass: &mut Pass,
    lines: u32,
    line: &str,
) -> Result<u64, AllocError>
    requires ready { IsReady desk.now lines pass.old }
    requires room { lines < 65536 }
    ensures ready { IfOk result (λ _. IsReady desk.now (lines + 1) pass.new) }
    ensures caller { (view pass.new).caller ≡ (view pass.old).caller }
    ensures place { IfOk result (λ place. place < length (view pass.new).seen) }
{
    match desk.call(rt, pass, line_of(alloc, line)?)? {
        CallAnswer::Replied(receipt) => Ok(receipt.place),
        CallAnswer::Taken(_, _) => panic!(rt; "a plan is asked for"),
    }
}

/// The text of the entry at a place.
pub fn text_at<R: Wait>(
    rt: &R,
    alloc: Global,
    desk: &SharedDesk,
    pass: &mut Pass,
    place: u64,
) -> Result<Vec<u8>, AllocError>
    requires desk { IsPassOf desk.now pass.old }
    requires place { place < length (view pass.old).seen }
    ensures desk { IsPassOf desk.now pass.new }
    ensures caller { (view pass.new).caller ≡ (view pass.old).caller }
    ensures own { (view pass.new).own ≡ (view pass.old).own }
    ensures take { (view pass.new).take ≡ (view pass.old).take }
    ensures seen { (place : ℕ) → place < length (view pass.old).seen → place < length (view pass.new).seen }
{
    let mut text = Vec::new(alloc);
    desk.write_entry(rt, pass, place, &mut text)?;
    Ok(text)
}

/// Calls a line that takes nothing, and answers where its entry stands, with its text.
pub fn reply_to<R: Abort + Wait>(
    rt: &R,
    alloc: Global,
    desk: &SharedDesk,
    pass: &mut Pass,
    lines: u32,
    line: &str,
) -> Result<(u64, Vec<u8>), AllocError>
    requires ready { IsReady desk.now lines pass.old }
    requires room { lines < 65536 }
    ensures ready { IfOk result (λ _. IsReady desk.now (lines + 1) pass.new) }
    ensures caller { (view pass.new).caller ≡ (view pass.old).caller }
{
    let place = call(rt, alloc, desk, pass, lines, line)?;
    let text = text_at(rt, alloc, desk, pass, place)?;
    Ok((place, text))
}

/// Whether a line that takes nothing is replied to so, at this place.
pub fn replies_so<R: Abort + Wait>(
    rt: &R,
    alloc: Global,
    desk: &SharedDesk,
    pass: &mut Pass,
    lines: u32,
    row: (&str, u64, &str),
) -> Result<bool, AllocError>
    requires ready { IsReady desk.now lines pass.old }
    requires room { lines < 65536 }
    ensures ready { IfOk result (λ _. IsReady desk.now (lines + 1) pass.new) }
    ensures caller { (view pass.new).caller ≡ (view pass.old).caller }
{
    let (line, place, wanted) = row;
    let (found, text) = reply_to(rt, alloc, desk, pass, lines, line)?;
    Ok(found == place && text.as_slice() == wanted.as_bytes())
}

/// Whether the lines that open the desk are replied to as they should be, at places from 0 on.
pub fn opens<R: Abort + Wait>(
    rt: &R,
    alloc: Global,
    desk: &SharedDesk,
    pass: &mut Pass,
) -> Result<bool, AllocError>
    requires ready { IsReady desk.now 0 pass.old }
    ensures ready { IfOk result (λ _. IsReady desk.now 7 pass.new) }
    ensures caller { (view pass.new).caller ≡ (view pass.old).caller }
{
    let mut so = true;
    for lines in 0..7u32 {
        let (line, wanted) = OPENING[lines as usize];
        let row = (line, u64::from(lines), wanted);
        so = replies_so(rt, alloc, desk, pass, lines, row)? && so;
    }
    Ok(so)
}
