//! Laws of what bytes spell. Each function does nothing: what it ensures holds of the definitions
//! themselves, and its proof is the law's.

ghost use Rattle.registry_wire.specs.Laws.{BadStays, HeldNoRefusal, HeldNoRequest, OneReading, RequestStays, TakesOfAll};

/// All the bytes of a connection spell one list of requests, and end in one way.
pub fn bytes_have_one_reading()
    ensures { OneReading }
{}

/// Bytes that come later change nothing about a request that is whole, nor about what isn't one.
pub fn later_bytes_change_nothing()
    ensures request { RequestStays }
    ensures bad { BadStays }
{}

/// Bytes that are unfinished held no whole request before, and none that its head refuses. So an
/// inbox that reads on, since what it holds is unfinished, held no request that could be answered.
pub fn unfinished_bytes_never_held_a_request()
    ensures request { HeldNoRequest }
    ensures refused { HeldNoRefusal }
{}

/// What an inbox takes over a reader whose bytes are known is the first request that all the bytes
/// spell, those that it held and those that the reader had left, or how they end; at a fault all of
/// them are still held or left.
pub fn what_is_left_is_read()
    ensures { TakesOfAll }
{}
