use crate::tag::Tag;

/// A key, where it lies, with its tag.
#[derive(Clone, Copy)]
pub struct Slot<'a> {
    pub key: &'a [u8; 16],
    pub tag: Tag,
}
