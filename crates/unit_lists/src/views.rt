//! A supply as one unit sees it.

/// A supply as one unit sees it. The order is by unit, then by supply.
#[derive(Clone, Copy, PartialEq, Eq, PartialOrd, Ord)]
pub(crate) struct View {
    pub(crate) unit: u32,
    pub(crate) supply: u32,
}
