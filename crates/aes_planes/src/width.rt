//! How many blocks the modes take at a time.

/// Whether the modes take sixteen blocks at a time, by planes of 32 bytes, and not eight, by planes of 16.
///
/// Both ways give the same bytes. Vectors of 32 bytes are quicker if the processor has them, as x86-64-v3 does, and
/// slower at x86-64-v2, where each is two. Sources can't ask for the level, so a build for x86-64-v3 writes `true` here
/// (packaging/build.py).
pub const WIDE: bool = false;
