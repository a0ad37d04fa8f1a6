/// The most bytes of a line or of a message: 1 MiB (1,048,576 bytes).
pub const MAX_LINE: usize = 1_048_576;

/// The greatest bound on the touched keys of a view, which is also the one that is left out.
pub const MAX_BOUND: u64 = 65_536;

/// The greatest depth to which groups are opened, and the most values of a path.
pub const MAX_DEPTH: u64 = 8;

/// The number of sessions that clients have. They are numbered from 0.
pub const CLIENT_SESSIONS: u32 = 64;

/// The number of all sessions. Two are of no client: session 64 is for applying batches that wait, and session 65 for
/// ending what serves.
pub const SESSIONS: usize = 66;
