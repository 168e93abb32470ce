//! Laws of reading.

ghost use Rattle.jl_pool.specs.Laws.{ReadsLonger};

/// Says what reading a pool answers where more bytes follow: a pool that was read and an `Entry` stay, and
/// `Short(at)` is within the bytes, and some longer input is read past it. There is nothing to run.
pub fn reads_longer()
    ensures { ReadsLonger }
{}
