// The cut in one call tried on a case.

use crate::case::Case;
use cut_bytes::reply::reply_to_input;
use session::hex::hex_text;
use std::alloc::{AllocError, Global};
use std::str::from_utf8;

// The reply as the table would write it: the line of a refusal, or bytes in hexadecimal.
fn reply_in_words(heap: Global, reply: &[u8]) -> Result<String, AllocError> {
    if reply.starts_with(b"refused") {
        if let Ok(text) = from_utf8(reply) {
            return String::from_str(heap, text.trim());
        }
    }
    hex_text(heap, reply)
}

// The reply where it is not the expected one.
pub(crate) fn differing_reply(heap: Global, case: &Case) -> Result<Option<String>, AllocError> {
    let reply = reply_to_input(heap, &case.input)?;
    if reply == case.expected {
        Ok(None)
    } else {
        Ok(Some(reply_in_words(heap, &reply)?))
    }
}
