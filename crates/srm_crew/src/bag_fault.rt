//! Why a bag does not do what it is asked.

/// Why a bag is not opened.
#[derive(Clone, Copy, Debug, PartialEq, Eq)]
pub enum BagFault {
    /// Memory was refused.
    NoMemory,
}

/// Why an item is not put. The item is given back, and nothing has changed.
#[derive(Clone, Copy, Debug, PartialEq, Eq)]
pub enum PutFault {
    /// The pass is not whole.
    NotWhole,
    /// As many items were put as the bag has room for.
    Full,
}

/// Why a pass is not split. The pass is given back as it was.
#[derive(Clone, Copy, Debug, PartialEq, Eq)]
pub enum SplitFault {
    /// The pass has weight 1.
    TooManySeats,
    /// Memory was refused.
    NoMemory,
}

/// Why a bag is not emptied. Bag and pass are given back as they were.
#[derive(Clone, Copy, Debug, PartialEq, Eq)]
pub enum EmptyFault {
    /// The pass is not whole.
    NotWhole,
    /// Fewer items were taken than put.
    NotEmpty,
}
