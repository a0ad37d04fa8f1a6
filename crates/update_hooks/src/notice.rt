/// What a hook hears: an applied batch touched a view.
#[derive(Clone, Copy, Debug, PartialEq, Eq)]
pub struct Notice {
    /// The session that holds the view.
    pub session: u32,
    /// The number of the view among those that the session opened, counted from 0.
    pub view: u64,
    /// How many batches were applied by then, this one among them.
    pub version: u64,
    /// The port on which the batch waited.
    pub port: u64,
    /// How many keys of the view the batch touched.
    pub touched: u64,
}

/// The end of a view: it was closed, its session left, or an update of it found no memory.
#[derive(Clone, Copy, Debug, PartialEq, Eq)]
pub struct ViewEnd {
    /// The session that held the view.
    pub session: u32,
    /// The number of the view among those that the session opened, counted from 0.
    pub view: u64,
    /// How many batches were applied by then.
    pub version: u64,
}
