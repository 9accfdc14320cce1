//! The cases, each with new boxes.

use crate::session::Session;
use keys::role::Role;
use keys::tag::Tag;
use std::io;

/// A key, and a text, that anyone may know.
const KNOWN: [u8; 16] = [1, 2, 3, 4, 5, 6, 7, 8, 9, 10, 11, 12, 13, 14, 15, 16];

/// A blob made outside any box: a wrapping, under `KNOWN`, of a sealer, with the stamp 9/9.
const OUTSIDE: [u8; 46] = [
    9, 0, 0, 0, 9, 0, 0, 0, 0, 0, 0, 0, 2, 0, 17, 18, 19, 20, 21, 22, 23, 24, 25, 26, 27, 28, 29,
    30, 31, 32, 1, 2, 3, 4, 5, 6, 7, 8, 9, 10, 11, 12, 13, 14, 15, 16,
];

/// The place of the byte that says whether the key of a wrapping stays.
const STAYS: usize = 13;

/// All cases. Each makes new boxes, so it takes the runtime that they print by.
pub fn run(rt: &impl Print) -> io::Result<()> {
    wrapped(rt)?;
    under_loaded(rt)?;
    under_shown(rt)?;
    made_outside(rt)?;
    sealed(rt)?;
    derived(rt)?;
    full(rt)?;
    other_role(rt)?;
    under_itself(rt)?;
    shown(rt)?;
    between_boxes(rt)
}

// The tag of a key that stays.
fn staying(role: Role) -> Tag {
    Tag { role, stays: true }
}

// The tag of a key that may leave.
fn leaving(role: Role) -> Tag {
    Tag { role, stays: false }
}

fn title(rt: &impl Print, text: &str) -> io::Result<()> {
    println!(rt; "\n{text}")
}

fn wrapped(rt: &impl Print) -> io::Result<()> {
    println!(rt; "A key that stays, wrapped and unwrapped")?;
    let mut first = Session::new(rt, 0);
    first.make(staying(Role::Wrapper))?;
    first.make(staying(Role::Sealer))?;
    let blob = first.wrap(1, 0)?;
    first.unwrap(0, blob.as_slice())
}

fn under_loaded(rt: &impl Print) -> io::Result<()> {
    title(rt, "A key that stays, under a loaded wrapper")?;
    let mut first = Session::new(rt, 0);
    first.make(staying(Role::Sealer))?;
    first.load(Role::Wrapper, &KNOWN)?;
    first.wrap(0, 1)?;
    Ok(())
}

fn under_shown(rt: &impl Print) -> io::Result<()> {
    title(rt, "A key that stays, under a wrapper that was shown")?;
    let mut first = Session::new(rt, 0);
    first.make(leaving(Role::Sealer))?;
    let key = first.show(0)?;
    first.load(Role::Wrapper, &key)?;
    first.make(staying(Role::Sealer))?;
    first.wrap(2, 1)?;
    Ok(())
}

fn made_outside(rt: &impl Print) -> io::Result<()> {
    title(rt, "Blobs made outside any box")?;
    let mut first = Session::new(rt, 0);
    first.load(Role::Wrapper, &KNOWN)?;
    let mut blob = OUTSIDE;
    blob[STAYS] = 1;
    first.unwrap(0, &blob)?;
    blob[STAYS] = 0;
    first.unwrap(0, &blob)
}

fn sealed(rt: &impl Print) -> io::Result<()> {
    title(rt, "A text, sealed and opened")?;
    let mut first = Session::new(rt, 0);
    let mut second = Session::new(rt, 1);
    first.make(staying(Role::Sealer))?;
    let blob = first.seal(0, b"ab")?;
    first.open(0, blob.as_slice())?;
    second.open(0, blob.as_slice())?;
    second.make(staying(Role::Sealer))?;
    second.open(0, blob.as_slice())
}

fn derived(rt: &impl Print) -> io::Result<()> {
    title(rt, "Keys derived from a base")?;
    let mut first = Session::new(rt, 0);
    first.make(leaving(Role::Base))?;
    first.derive(0, 5, Role::Sealer)?;
    first.derive(0, 5, Role::Sealer)?;
    first.derive(0, 5, Role::Marker)?;
    for at in 1..4 {
        first.show(at)?;
    }
    Ok(())
}

fn full(rt: &impl Print) -> io::Result<()> {
    title(rt, "A full box")?;
    let mut first = Session::new(rt, 0);
    for _ in 0..64 {
        first.make(leaving(Role::Sealer))?;
    }
    first.forget(9)?;
    first.make(leaving(Role::Sealer))?;
    first.show(9)?;
    Ok(())
}

fn other_role(rt: &impl Print) -> io::Result<()> {
    title(rt, "Another role")?;
    let mut first = Session::new(rt, 0);
    first.make(staying(Role::Sealer))?;
    first.mark(0, b"ab")?;
    first.make(staying(Role::Marker))?;
    first.mark(1, b"ab")
}

fn under_itself(rt: &impl Print) -> io::Result<()> {
    title(rt, "A wrapper under itself")?;
    let mut first = Session::new(rt, 0);
    first.make(staying(Role::Wrapper))?;
    let blob = first.wrap(0, 0)?;
    first.unwrap(0, blob.as_slice())
}

fn shown(rt: &impl Print) -> io::Result<()> {
    title(rt, "A key that stays is not shown")?;
    let mut first = Session::new(rt, 0);
    first.make(staying(Role::Sealer))?;
    first.show(0)?;
    Ok(())
}

fn between_boxes(rt: &impl Print) -> io::Result<()> {
    title(rt, "From one box to another, under the house key")?;
    let mut first = Session::new(rt, 0);
    let mut second = Session::new(rt, 1);
    first.make(staying(Role::Sealer))?;
    let blob = first.wrap(0, 63)?;
    second.unwrap(63, blob.as_slice())?;
    let sealed = first.seal(0, b"ab")?;
    second.open(0, sealed.as_slice())
}
