//! What a plan as numbers means in other words. The functions do nothing.
ghost use Rattle.live_text.specs.Laws.{WritesAreDue, WritesArePlaced, RequestsAreDue, ValuesAreBytes, ChunksHaveThreeRequests, ChunksMakeVersions, BreakpointsAreWritten, ChangedBytesAreInTheTable, OtherBytesAreOfTheForm, FirstBytesAreBreakpoints, CachedBytesWereThere};

/// The writes and requests that the patch seat stores are the items of the pokes of the plan's
/// chunks, in order.
pub fn items_are_due()
    ensures writes { WritesAreDue }
    ensures placed { WritesArePlaced }
    ensures requests { RequestsAreDue }
{}

/// The values of a byte by its number are those of the byte at its address, write by write.
pub fn values_are_bytes()
    ensures law { ValuesAreBytes }
{}

/// Each chunk has three requests, its change of a site leads from the form that the site has before
/// the chunk to the one that it has after it, and its first writes are the breakpoints of its changes.
pub fn chunks_are_poked()
    ensures requests { ChunksHaveThreeRequests }
    ensures versions { ChunksMakeVersions }
    ensures breakpoints { BreakpointsAreWritten }
{}

/// What the bytes of a site are between request `g` and the next, in phase `g % 3` of chunk `g / 3`:
/// where the chunk changes the site, the byte is the one that stood there after `g % 3` of its three
/// rounds or after one more, and before the chunk's first request the first byte is a breakpoint
/// exactly where that write is past. A byte of any other site is the one of the form that the site has
/// after the chunks before. What a processor has cached is such a byte, of the request that it has
/// acknowledged.
pub fn bytes_go_by_phases()
    ensures table { ChangedBytesAreInTheTable }
    ensures others { OtherBytesAreOfTheForm }
    ensures breakpoints { FirstBytesAreBreakpoints }
    ensures caches { CachedBytesWereThere }
{}
