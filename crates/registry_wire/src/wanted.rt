//! What a request asks for, before its target and its body are read.

use registry_names::{Blob, Method};

/// A whole request.
#[derive(Debug)]
pub struct Wanted {
    pub method: Method,
    /// The target as it is in the head, escapes and query included.
    pub target: Blob,
    pub authorization: FieldValue,
    pub if_none_match: FieldValue,
    pub accept: FieldValue,
    pub body: Blob,
    /// Whether the connection ends after the response.
    pub closes: bool,
}

// Written out, so that dropping a request is one call, not one for each part.
impl Drop for Wanted {
    fn drop(self) {
        let Wanted {
            method: _,
            target: _,
            authorization: _,
            if_none_match: _,
            accept: _,
            body: _,
            closes: _,
        } = self;
    }
}

/// What the fields of one name say.
#[derive(Debug, Drop, PartialEq, Eq)]
pub enum FieldValue {
    /// There is no such field.
    Absent,
    /// The value of the only one, without the white space around it.
    Once(Blob),
    /// There are more.
    Repeated,
}
