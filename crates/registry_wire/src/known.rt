//! What is known of bytes that hold no whole request, so that they aren't read again for each byte
//! that comes. A body that comes in pieces costs two parses of its head.

ghost use Rattle.std.specs.Prelude.{◌≡◌, ◌<◌, ◌+◌, true, length, IfSome};
ghost use Rattle.registry_wire.specs.Knowledge.{BeginWith, IsKnown};
ghost use Rattle.registry_wire.specs.Spelling.{IsUnfinished, request_limit};

use crate::first::{FIELD_LIMIT, HEAD_LIMIT};
use crate::place::{Place, step};

/// The first bytes of a head that is cut.
#[derive(Clone, Copy, Debug)]
pub struct CutHead {
    pub place: Place,
    /// How many bytes they are.
    pub len: usize,
    /// How many lines are whole, without the empty ones before the request line.
    pub lines: usize,
}

/// What is known of bytes that hold no whole request.
#[derive(Clone, Copy, Debug)]
pub enum Known {
    Nothing,
    /// They begin with a head that is cut.
    Head(CutHead),
    /// Fewer bytes than these hold no whole request, as its body isn't whole.
    Body(usize),
}

/// What is known where a head is cut and none of its bytes was looked at.
pub const UNSEEN_HEAD: Known = Known::Head(CutHead {
    place: Place::Blank,
    len: 0,
    lines: 0,
});

/// What is known once the bytes of a cut head that weren't looked at yet are looked at.
pub fn looked_on(known: Known, bytes: &[u8]) -> Known
    requires { IsKnown bytes.now known }
    ensures { IsKnown bytes.now result }
{
    match known {
        Known::Head(head) => match grown(head, bytes) {
            Some(head) => Known::Head(head),
            None => Known::Nothing,
        },
        _ => known,
    }
}

/// Whether the bytes are known to hold no whole request, and not to be refused.
pub fn is_unfinished(known: Known, bytes: &[u8]) -> bool
    requires { IsKnown bytes.now known }
    ensures unfinished { result ≡ true → IsUnfinished bytes.now }
    ensures short { result ≡ true → length bytes.now < request_limit }
{
    match known {
        Known::Nothing => false,
        Known::Head(head) => head.len == bytes.len() && bytes.len() < HEAD_LIMIT,
        Known::Body(count) => bytes.len() < count,
    }
}

// The head, grown to all these bytes. `None` where it ends in them, or where they aren't a head.
fn grown(mut head: CutHead, bytes: &[u8]) -> Option<CutHead>
    requires { BeginWith bytes.now head }
    ensures { IfSome result (BeginWith bytes.now) }
{
    while head.len < bytes.len() {
        head = with_one_more(head, bytes)?;
    }
    Some(head)
}

// The head, grown by one byte. A head with too many lines is looked at as a whole.
fn with_one_more(head: CutHead, bytes: &[u8]) -> Option<CutHead>
    requires begins { BeginWith bytes.now head }
    requires inside { head.len < length bytes.now }
    ensures begins { IfSome result (BeginWith bytes.now) }
    ensures len { IfSome result (λ next. next.len ≡ head.len + 1) }
{
    let place = step(bytes, head.len, head.place)?;
    let lines = counted(place, head.lines)?;
    Some(CutHead {
        place,
        len: head.len + 1,
        lines,
    })
}

// The number of whole lines. `None` where they are more than the request line and `FIELD_LIMIT`
// fields.
fn counted(place: Place, lines: usize) -> Option<usize> {
    match place {
        Place::Line if lines > FIELD_LIMIT => None,
        Place::Line => Some(lines + 1),
        _ => Some(lines),
    }
}
