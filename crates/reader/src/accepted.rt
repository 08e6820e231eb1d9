// The accepted sheet.

ghost use Rattle.std.specs.Prelude.{◌≡◌, true, [], ◌∷◌};
ghost use Rattle.sheet.specs.Accept.{accepted as accepts};

use sheet::sizes::{
    COMPONENT_BYTES, CONNECTION_BYTES, ELEMENT_BYTES, EVENT_BYTES, FLOW_BYTES, NODE_BYTES,
    QUESTION_BYTES, SETTING_BYTES, TRANSITION_BYTES,
};

// The rows of a sheet that was accepted. Only `read` makes one, and its rows keep every rule while it exists.
#[derive(Drop)]
pub struct AcceptedSheet {
    pub(crate) components: Vec<[u8; COMPONENT_BYTES]>,
    pub(crate) elements: Vec<[u8; ELEMENT_BYTES]>,
    pub(crate) events: Vec<[u8; EVENT_BYTES]>,
    pub(crate) nodes: Vec<[u8; NODE_BYTES]>,
    pub(crate) flows: Vec<[u8; FLOW_BYTES]>,
    pub(crate) connections: Vec<[u8; CONNECTION_BYTES]>,
    pub(crate) transitions: Vec<[u8; TRANSITION_BYTES]>,
    pub(crate) settings: Vec<[u8; SETTING_BYTES]>,
    pub(crate) questions: Vec<[u8; QUESTION_BYTES]>,
    ghost accepted: { accepts (components.items ∷ elements.items ∷ events.items ∷ nodes.items ∷ flows.items ∷ connections.items ∷ transitions.items ∷ settings.items ∷ questions.items ∷ []) ≡ true },
}
