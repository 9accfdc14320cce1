/// What the box makes of a key by Ascon-CXOF128, each under a customization string of its own, so
/// that no mark is ever a derived key.
#[derive(Clone, Copy, Debug, PartialEq, Eq)]
pub enum Purpose {
    Mark,
    Key,
}
