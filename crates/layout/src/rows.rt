// The rows of a sheet where they lie.

use sheet::sizes::{
    COMPONENT_BYTES, CONNECTION_BYTES, ELEMENT_BYTES, EVENT_BYTES, FLOW_BYTES, NODE_BYTES,
    QUESTION_BYTES, SETTING_BYTES, TRANSITION_BYTES,
};

// The nine sections as slices of their rows, borrowed from the bytes that they stand in.
#[derive(Clone, Copy)]
pub struct Layout<'a> {
    pub components: &'a [[u8; COMPONENT_BYTES]],
    pub elements: &'a [[u8; ELEMENT_BYTES]],
    pub events: &'a [[u8; EVENT_BYTES]],
    pub nodes: &'a [[u8; NODE_BYTES]],
    pub flows: &'a [[u8; FLOW_BYTES]],
    pub connections: &'a [[u8; CONNECTION_BYTES]],
    pub transitions: &'a [[u8; TRANSITION_BYTES]],
    pub settings: &'a [[u8; SETTING_BYTES]],
    pub questions: &'a [[u8; QUESTION_BYTES]],
}
